//! Which signatures are vouched (RFC 6488 section 3).

ghost use Rattle.std.specs.Prelude.{◌&&◌, Ok};
ghost use Rattle.rp_audit.specs.inner.Told.{Answers, IsAnswer};
ghost use Rattle.rp_audit.specs.Vouching.{vouched_in};

use crate::refusal::AuditRefused;
use cert_obj::ReadCert;
use cms_obj::SignedObject;
use signer_api::{Digest, PublicKey, Signature, Signer};
use signer_ring::{Ring, RingFault};
use std::alloc::Global;

/// Whether some signer vouches for a signature.
pub fn is_vouched<S: Signer>(
    alloc: Global,
    ring: &mut Ring<S>,
    key: &PublicKey,
    digest: &Digest,
    signature: &Signature,
) -> Result<bool, AuditRefused>
    ensures { Answers (IsAnswer ring.old)
        (λ signers. Ok (vouched_in signers key.now.bytes digest.now.bytes signature.now.bytes))
        result ring.old ring.new }
{
    match ring.check(alloc, key, digest, signature) {
        Ok(yes) => Ok(yes),
        Err(RingFault::Memory) => Err(AuditRefused::Memory),
        Err(RingFault::SignerFault { signer }) => Err(AuditRefused::SignerFault { signer }),
        Err(RingFault::NoSuchSigner { .. }) => unreachable!(),
    }
}

/// Whether the certificate of a signed object is vouched under its issuer's key, and the object under the
/// certificate's.
pub fn are_vouched<S: Signer>(
    alloc: Global,
    ring: &mut Ring<S>,
    key: &PublicKey,
    read: &ReadCert,
    object: &SignedObject<'_>,
) -> Result<bool, AuditRefused>
    ensures { Answers (IsAnswer ring.old)
        (λ signers. Ok (vouched_in signers key.now.bytes read.now.digest.bytes read.now.signature.bytes
        && vouched_in signers read.now.cert.key.bytes object.now.digest.bytes object.now.signature.bytes))
        result ring.old ring.new }
{
    let one = is_vouched(alloc, ring, key, &read.digest, &read.signature)?;
    let other = is_vouched(
        alloc,
        ring,
        &read.cert.key,
        &object.digest,
        &object.signature,
    )?;
    Ok(one && other)
}
