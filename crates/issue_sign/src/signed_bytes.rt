//! Certificates and CRLs with their signatures (RFC 5280 sections 4.1.1 and 5.1.1).

ghost use Rattle.std.specs.Prelude.{◌≡◌, IfOk};
ghost use Rattle.cert_obj.specs.Values.{CertValue, IsCert};
ghost use Rattle.cert_obj.specs.Formats as certificates;
ghost use Rattle.crl_obj.specs.Values.{CrlValue, IsCrl};
ghost use Rattle.crl_obj.specs.Formats as crls;
ghost use Rattle.issue_sign.specs.Signed.{framed, IsCertificate, IsCrlOf};

use pub_set::Content;
use signer_api::Signature;
use std::alloc::{AllocError, Global};

/// An object that is signed, with the signature.
#[derive(Debug, Drop)]
pub struct SignedBytes {
    pub bytes: Content,
    pub signature: Signature,
}

/// The certificate of the bytes that are signed, with the signature (RFC 5280 section 4.1).
pub fn certificate(
    alloc: Global,
    tbs: &[u8],
    signature: Signature,
) -> Result<SignedBytes, AllocError>
    ensures bytes { IfOk result (λ made. made.bytes ≡ framed tbs.now signature.bytes) }
    ensures signature { IfOk result (λ made. made.signature ≡ signature) }
    ensures spelled { IfOk result (λ made. (cert : CertValue) → IsCert cert
        → tbs.now ≡ certificates.signed_bytes cert → IsCertificate cert signature.bytes) }
{
    let written = cert_obj::write(alloc, tbs, &signature)?;
    let bytes = Content::new(alloc, written)?;
    Ok(SignedBytes { bytes, signature })
}

/// The CRL of the bytes that are signed, with the signature (RFC 5280 section 5.1).
pub fn revocations(
    alloc: Global,
    tbs: &[u8],
    signature: Signature,
) -> Result<SignedBytes, AllocError>
    ensures bytes { IfOk result (λ made. made.bytes ≡ framed tbs.now signature.bytes) }
    ensures signature { IfOk result (λ made. made.signature ≡ signature) }
    ensures spelled { IfOk result (λ made. (crl : CrlValue) → IsCrl crl
        → tbs.now ≡ crls.signed_bytes crl → IsCrlOf crl signature.bytes) }
{
    let written = crl_obj::write(alloc, tbs, &signature)?;
    let bytes = Content::new(alloc, written)?;
    Ok(SignedBytes { bytes, signature })
}
