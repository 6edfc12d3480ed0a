//! Objects, and contents that wait for the certificate of the key that signed them (RFC 6488
//! section 2).

ghost use Rattle.std.specs.Prelude.{◌≡◌, IfOk};
ghost use Rattle.sha2.specs.Sha256.{sha256};

use crate::boxed::Boxed;
use crate::signed_bytes::SignedBytes;
use cms_obj::HashedContent;
use pub_set::Content;
use sha2::{Digest, Sha256};
use signer_api::{OneUse, Signature};
use std::alloc::{AllocError, Global};

/// An object that is made, with the signatures that it took. These stand in memory of their own, so that lists of
/// objects stay small.
#[derive(Debug, Drop)]
pub struct Object {
    pub bytes: Content,
    /// The SHA-256 of the bytes.
    pub hash: [u8; 32],
    /// The key that signed the content once, of a ROA or a manifest, with that signature.
    pub once: Option<Boxed<OneUse>>,
    /// The issuer's signature of the certificate or of the CRL.
    pub signature: Boxed<Signature>,
}

impl Object {
    /// The object of these bytes.
    pub fn new(
        alloc: Global,
        signed: SignedBytes,
        once: Option<Boxed<OneUse>>,
    ) -> Result<Object, AllocError>
        ensures bytes { IfOk result (λ object. object.bytes ≡ signed.bytes) }
        ensures hash { IfOk result (λ object. object.hash ≡ sha256 signed.bytes) }
        ensures once { IfOk result (λ object. object.once ≡ once) }
        ensures signature { IfOk result (λ object. object.signature ≡ signed.signature) }
    {
        let SignedBytes { bytes, signature } = signed;
        let hash = Sha256::digest(bytes.as_slice());
        let signature = Boxed::new(alloc, signature)?;
        Ok(Object {
            bytes,
            hash,
            once,
            signature,
        })
    }
}

/// The content of a ROA or of a manifest, and the one-use key that signed it.
#[derive(Debug, Drop)]
pub struct SignedContent {
    pub content: HashedContent,
    pub once: Boxed<OneUse>,
}
