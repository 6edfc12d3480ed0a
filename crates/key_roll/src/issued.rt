//! What stands published. Certificates, CRLs and signed objects (RFC 6481 section 2.2), each with
//! what revoking it takes.

use items::Items;
use key_ids::KeyId;
use origins::Origin;
use pub_set::Uri;
use res_sets::Resources;

/// The objects that stand, by their URIs.
#[derive(Debug, Drop)]
pub struct Issued {
    pub rows: Items<IssuedRow>,
}

/// An object that stands.
#[derive(Debug, Drop)]
pub struct IssuedRow {
    pub uri: Uri,
    /// The key that issued it.
    pub issuer: KeyId,
    /// The serial of the certificate, or of the end-entity certificate in a signed object. A CRL
    /// has 0.
    pub serial: u64,
    /// The notAfter of that certificate, in seconds since 1970.
    pub not_after: u64,
    /// The SHA-256 of the object.
    pub hash: [u8; 32],
    pub what: What,
}

/// What an object says.
#[derive(Debug, Drop)]
pub enum What {
    /// The certificate of an authority's key, with the resources that it holds.
    Authority { key: KeyId, held: Resources },
    /// The ROA of an origin.
    Route { origin: Origin },
    /// A CRL or a manifest.
    Point,
}
