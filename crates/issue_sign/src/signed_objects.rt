//! Signed objects (RFC 6488 section 2).

ghost use Rattle.std.specs.Prelude.{◌≡◌, IfOk};
ghost use Rattle.moments.specs.Civil.{IsMoment};
ghost use Rattle.cert_obj.specs.Values.{CertValue, IsCert};
ghost use Rattle.cert_obj.specs.Formats as certificates;
ghost use Rattle.issue_sign.specs.Signed.{object_bytes, IsObject};

use crate::signed_bytes::{SignedBytes, certificate};
use cms_obj::{HashedContent, ObjectKind};
use key_ids::KeyId;
use pub_set::Content;
use signer_api::{OneUse, Signature};
use std::alloc::{AllocError, Global};

/// The object of a content that was signed: with the certificate of the key that signed it, of which `tbs` is what the
/// issuer's key signed, and `signature` that signature.
///
/// `moment` is when the content was signed, in seconds since 1970, which is the certificate's notBefore.
pub fn object(
    alloc: Global,
    kind: ObjectKind,
    content: &HashedContent,
    once: &OneUse,
    moment: u64,
    tbs: &[u8],
    signature: Signature,
) -> Result<SignedBytes, AllocError>
    requires moment { IsMoment moment }
    ensures signature { IfOk result (λ made. made.signature ≡ signature) }

    // The object, signed at the beginning of the certificate's time.
    ensures bytes { IfOk result (λ made. (cert : CertValue) → tbs.now ≡ certificates.signed_bytes cert
        → cert.not_before ≡ moment → made.bytes ≡ object_bytes kind content.now.bytes.items cert signature.bytes
        once.now.key.bytes once.now.signature.bytes) }
    ensures spelled { IfOk result (λ made. (cert : CertValue) → IsCert cert
        → tbs.now ≡ certificates.signed_bytes cert → cert.not_before ≡ moment
        → IsObject kind content.now.bytes.items cert signature.bytes once.now.key.bytes once.now.signature.bytes) }
{
    let certificate = certificate(alloc, tbs, signature)?;
    let whole = certificate.bytes.as_slice();
    let fits = cms_obj::is_certificate(whole);
    if !fits {
        return Err(AllocError);
    }
    let id = KeyId::of(&once.key.bytes);
    let signed = &once.signature;
    let written = cms_obj::write_hashed(alloc, kind, content, whole, &id, moment, signed)?;
    let bytes = Content::new(alloc, written)?;
    Ok(SignedBytes { bytes, signature })
}
