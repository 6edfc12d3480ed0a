//! What a certificate says (RFC 5280 section 4.1.2, RFC 6487 section 4).

use key_ids::KeyId;
use res_sets::Resources;
use signer_api::{Digest, PublicKey, Signature};

/// Whose certificate it is.
#[derive(Clone, Copy, Debug, PartialEq, Eq)]
pub enum CertKind {
    /// The trust anchor's, which it signs itself.
    Anchor,
    /// Another authority's.
    Authority,
    /// That of a key which signs one object.
    EndEntity,
}

/// The number resources of a certificate (RFC 6487 sections 4.8.10 and 4.8.11).
#[derive(Debug, Drop)]
pub enum Held {
    /// Those of the issuer, of every family.
    Inherit,
    /// These. A family may be empty.
    Set { resources: Resources },
}

/// The URIs of a certificate. Those that its kind doesn't have are empty.
#[derive(Debug, Drop)]
pub struct CertUris {
    /// The issuer's CRL (RFC 6487 section 4.8.6). The anchor's has none.
    pub crl: String,
    /// The issuer's certificate (RFC 6487 section 4.8.7). The anchor's has none.
    pub issuer: String,
    /// The folder of what the key signs (RFC 6487 section 4.8.8.1). An end-entity's has none.
    pub folder: String,
    /// The manifest of what the key signs (RFC 6487 section 4.8.8.1). An end-entity's has none.
    pub manifest: String,
    /// The RRDP notification file (RFC 8182 section 3.2). An end-entity's has none.
    pub notify: String,
    /// The object that the key signs (RFC 6487 section 4.8.8.2). Only an end-entity's has it.
    pub object: String,
}

/// What a certificate says. Times are seconds since 1970.
#[derive(Debug, Drop)]
pub struct Cert {
    /// The serial number (RFC 6487 section 4.2), which may be 0 here.
    pub serial: u64,
    /// The key that signs it (RFC 6487 section 4.4).
    pub issuer: KeyId,
    /// The first second at which it is valid (RFC 6487 section 4.6.1).
    pub not_before: u64,
    /// The last second at which it is valid (RFC 6487 section 4.6.2).
    pub not_after: u64,
    /// The key that it is of (RFC 6487 sections 4.5, 4.7 and 4.8.2). Subject and subject key
    /// identifier are its identifier.
    pub key: PublicKey,
    pub kind: CertKind,
    pub held: Held,
    pub uris: CertUris,
}

/// A certificate with its signature.
#[derive(Debug, Drop)]
pub struct ReadCert {
    pub cert: Cert,
    /// The SHA-256 of the bytes that are signed, as they stand (RFC 7935 section 2).
    pub digest: Digest,
    pub signature: Signature,
}
