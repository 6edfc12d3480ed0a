//! Calls on one signer of a ring.

ghost use Rattle.std.specs.Prelude.{◌≡◌, ◌<◌, length, IfOk, IfErr};
ghost use Rattle.signer_ring.specs.Ring.{Keeps};
ghost use Rattle.signer_ring.specs.Calls.{after_call, IsVouched, IsStopped, signed_of};
ghost use Rattle.signer_ring.specs.Calls.Call.{Makes, Signs, Once};

use crate::call_fault::CallFault;
use crate::fault::RingFault;
use crate::ring::Ring;
use signer_api::{Digest, OneUse, PublicKey, Signature, Signer};
use std::alloc::Global;

/// Makes a key with a signer that is there. Signers are numbered from 0.
pub fn make_key<S: Signer>(
    alloc: Global,
    ring: &mut Ring<S>,
    signer: u32,
) -> Result<PublicKey, CallFault>
    requires { signer < length ring.old }
    ensures made { IfOk result (λ key. ring.new ≡ after_call ring.old (Makes signer key.bytes)) }
    ensures stopped { IfErr result (IsStopped signer ring.old ring.new) }
    ensures kept { Keeps ring.old ring.new }
{
    match ring.make_key(alloc, signer) {
        Ok(key) => Ok(key),
        Err(RingFault::SignerFault { signer }) => Err(CallFault::SignerFault { signer }),
        Err(RingFault::Memory) => Err(CallFault::Memory),
        Err(RingFault::NoSuchSigner { .. }) => unreachable!(),
    }
}

/// Signs bytes with a key of a signer that is there. What is signed is their SHA-256 (RFC 7935
/// section 2).
pub fn sign<S: Signer>(
    alloc: Global,
    ring: &mut Ring<S>,
    signer: u32,
    key: &PublicKey,
    bytes: &[u8],
) -> Result<Signature, CallFault>
    requires { signer < length ring.old }
    ensures signed { IfOk result (λ s.
        ring.new ≡ after_call ring.old (Signs signer (signed_of key.now.bytes bytes.now s.bytes))) }
    ensures vouched { IfOk result (λ s.
        IsVouched ring.new (Signs signer (signed_of key.now.bytes bytes.now s.bytes))) }
    ensures stopped { IfErr result (IsStopped signer ring.old ring.new) }
    ensures kept { Keeps ring.old ring.new }
{
    let digest = Digest::of(bytes);
    match ring.sign(alloc, signer, key, &digest) {
        Ok(signature) => Ok(signature),
        Err(RingFault::SignerFault { signer }) => Err(CallFault::SignerFault { signer }),
        Err(RingFault::Memory) => Err(CallFault::Memory),
        Err(RingFault::NoSuchSigner { .. }) => unreachable!(),
    }
}

/// Signs bytes with a new key of a signer that is there, which doesn't keep it. What is signed is
/// their SHA-256 (RFC 7935 section 2).
pub fn sign_once<S: Signer>(
    alloc: Global,
    ring: &mut Ring<S>,
    signer: u32,
    bytes: &[u8],
) -> Result<OneUse, CallFault>
    requires { signer < length ring.old }
    ensures signed { IfOk result (λ once. ring.new
        ≡ after_call ring.old (Once signer (signed_of once.key.bytes bytes.now once.signature.bytes))) }
    ensures vouched { IfOk result (λ once.
        IsVouched ring.new (Once signer (signed_of once.key.bytes bytes.now once.signature.bytes))) }
    ensures stopped { IfErr result (IsStopped signer ring.old ring.new) }
    ensures kept { Keeps ring.old ring.new }
{
    let digest = Digest::of(bytes);
    match ring.sign_once(alloc, signer, &digest) {
        Ok(once) => Ok(once),
        Err(RingFault::SignerFault { signer }) => Err(CallFault::SignerFault { signer }),
        Err(RingFault::Memory) => Err(CallFault::Memory),
        Err(RingFault::NoSuchSigner { .. }) => unreachable!(),
    }
}
