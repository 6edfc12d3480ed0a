//! What a CRL says (RFC 5280 section 5.1.2).

use key_ids::KeyId;
use signer_api::{Digest, Signature};

/// A revoked certificate (RFC 5280 section 5.1.2.6).
#[derive(Clone, Copy, Debug, PartialEq, Eq)]
pub struct CrlEntry {
    /// The serial number of the certificate.
    pub serial: u64,
    /// Seconds since 1970.
    pub revoked_at: u64,
}

/// What a CRL says. Times are seconds since 1970.
#[derive(Debug, Drop)]
pub struct Crl {
    /// The key that signs it.
    pub issuer: KeyId,
    /// When it was made (RFC 5280 section 5.1.2.4).
    pub this_update: u64,
    /// When the next one is due at the latest (RFC 5280 section 5.1.2.5).
    pub next_update: u64,
    /// The CRL number (RFC 5280 section 5.2.3).
    pub number: u64,
    /// By rising serial.
    pub entries: Vec<CrlEntry>,
}

/// A CRL with its signature.
#[derive(Debug, Drop)]
pub struct ReadCrl {
    pub crl: Crl,
    /// The SHA-256 of the bytes that are signed, as they stand.
    pub digest: Digest,
    pub signature: Signature,
}
