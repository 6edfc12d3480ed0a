//! What a signed object says (RFC 6488 section 2.1).

ghost use Rattle.std.specs.Prelude.{◌≡◌};
ghost use Rattle.sha2.specs.Sha256.{sha256};

use key_ids::KeyId;
use sha2::{Digest as Hasher, Sha256};
use signer_api::{Digest, Signature};

/// What the content is (RFC 6488 section 2.1.3.1).
#[derive(Clone, Copy, Debug, PartialEq, Eq)]
pub enum ObjectKind {
    /// A manifest (RFC 9286 section 4.1).
    Manifest,
    /// A route origin authorization (RFC 9582 section 3).
    Roa,
}

/// The bytes of a content and their hash, so that they are hashed once for all that is said of them.
#[derive(Debug, Drop)]
pub struct HashedContent {
    /// The bytes of the eContent (RFC 6488 section 2.1.3.2).
    pub bytes: Vec<u8>,
    /// Their SHA-256 (RFC 5652 section 11.2).
    pub hash: [u8; 32],
    pub ghost hashed: { hash ≡ sha256 bytes.items },
}

impl HashedContent {
    /// The content of these bytes.
    pub fn of(bytes: Vec<u8>) -> HashedContent
        ensures { result.bytes.items ≡ bytes.items }
    {
        let hash = Sha256::digest(&bytes);
        HashedContent { bytes, hash }
    }
}

/// A signed object. Its content and its certificate are parts of the bytes that were read.
#[derive(Clone, Copy, Debug)]
pub struct SignedObject<'a> {
    pub kind: ObjectKind,
    /// The bytes of the eContent (RFC 6488 section 2.1.3.2).
    pub content: &'a [u8],
    /// The certificate of the key that signs, as one whole element (RFC 6488 section 2.1.4).
    pub certificate: &'a [u8],
    /// The key that signs (its subject key identifier, RFC 6488 section 2.1.6.2).
    pub signer: KeyId,
    /// The time of the signature, in seconds since 1970 (RFC 5652 section 11.3, RFC 9589).
    pub moment: u64,
    /// The SHA-256 of the attributes, which is what is signed (RFC 5652 section 5.4).
    pub digest: Digest,
    /// RFC 6488 section 2.1.6.6.
    pub signature: Signature,
}
