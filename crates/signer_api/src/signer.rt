// What every signer promises.
ghost use Rattle.std.specs.Prelude.{◌≡◌, ◌↔◌, IsTrue, IfOk};
ghost use Rattle.signer_api.specs.declared.signer.SignerStop.TheVariants.{Memory};
ghost use Rattle.signer_api.specs.State.{SignerState, Signed, Tells, Vouches, Answers, DropsKey, with_key, with_signature, with_once};

use crate::{Digest, OneUse, PublicKey, Signature};
use std::alloc::{AllocError, AllocFailed, Global};
use thiserror::Error;

/// Why a call of a signer stopped.
#[derive(Clone, Copy, Debug, PartialEq, Eq, Error)]
pub enum SignerStop {
    #[error("the signer failed")]
    Fault,
    #[error("out of memory")]
    Memory,
}

impl From<AllocError> for SignerStop {
    ghost from_gives = { λ _ stop. stop ≡ Memory };

    fn from(_: AllocError) -> Self {
        SignerStop::Memory
    }
}

impl<T: Drop> From<AllocFailed<T>> for SignerStop {
    ghost from_gives = { λ _ stop. stop ≡ Memory };

    fn from(_: AllocFailed<T>) -> Self {
        SignerStop::Memory
    }
}

/// Whoever keeps keys and signs with them.
///
/// A signer that tells says for which signatures it vouches. What is vouched stays vouched. A call
/// that may want memory is handed an allocator for it. A call that fails is counted, and changes
/// nothing else that contracts see.
pub trait Signer: Drop {
    /// For which signatures it vouches and which keys it holds, where it tells, and its counts.
    ghost state: { Self → SignerState };

    /// Makes a key, and keeps it.
    fn make_key(&mut self, alloc: Global) -> Result<PublicKey, SignerStop>
        ensures { Answers (λ key. with_key key.bytes) result (state self.old) (state self.new) };

    /// Signs a digest with a key that it holds.
    fn sign(
        &mut self,
        alloc: Global,
        key: &PublicKey,
        digest: &Digest,
    ) -> Result<Signature, SignerStop>
        ensures signed { Answers
            (λ s. with_signature (record { key = key.now.bytes; digest = digest.now.bytes; signature = s.bytes }))
            result (state self.old) (state self.new) }
        ensures vouched { IfOk result (λ s. Tells (state self.old)
            → Vouches (state self.new) key.now.bytes digest.now.bytes s.bytes) };

    /// Signs a digest with a new key, which it doesn't keep.
    fn sign_once(&mut self, alloc: Global, digest: &Digest) -> Result<OneUse, SignerStop>
        ensures signed { Answers
            (λ once. with_once (record { key = once.key.bytes; digest = digest.now.bytes; signature = once.signature.bytes }))
            result (state self.old) (state self.new) }
        ensures vouched { IfOk result (λ once. Tells (state self.old)
            → Vouches (state self.new) once.key.bytes digest.now.bytes once.signature.bytes) };

    /// Whether it vouches for a signature.
    fn check(
        &mut self,
        alloc: Global,
        key: &PublicKey,
        digest: &Digest,
        signature: &Signature,
    ) -> Result<bool, SignerStop>
        ensures answer { IfOk result (λ yes. Tells (state self.old)
            → (IsTrue yes ↔ Vouches (state self.new) key.now.bytes digest.now.bytes signature.now.bytes)) }
        ensures stays { Answers (λ _ signer. signer) result (state self.old) (state self.new) };

    /// Drops a key, if it holds it. A failure is counted, and nobody is told.
    fn drop_key(&mut self, key: &PublicKey)
        ensures { DropsKey key.now.bytes (state self.old) (state self.new) };

    /// How often it has failed.
    fn faults(&self) -> u64
        ensures { result ≡ (state self.now).faults };
}

impl Signer for Box<dyn Signer + Send> {
    ghost state = { λ signer. (Signer-box signer).state signer.value };

    fn make_key(&mut self, alloc: Global) -> Result<PublicKey, SignerStop> {
        (**self).make_key(alloc)
    }

    fn sign(
        &mut self,
        alloc: Global,
        key: &PublicKey,
        digest: &Digest,
    ) -> Result<Signature, SignerStop> {
        (**self).sign(alloc, key, digest)
    }

    fn sign_once(&mut self, alloc: Global, digest: &Digest) -> Result<OneUse, SignerStop> {
        (**self).sign_once(alloc, digest)
    }

    fn check(
        &mut self,
        alloc: Global,
        key: &PublicKey,
        digest: &Digest,
        signature: &Signature,
    ) -> Result<bool, SignerStop> {
        (**self).check(alloc, key, digest, signature)
    }

    fn drop_key(&mut self, key: &PublicKey) {
        (**self).drop_key(key)
    }

    fn faults(&self) -> u64 {
        (**self).faults()
    }
}
