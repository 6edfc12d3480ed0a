// Signers in the order in which they were handed in.
ghost use Rattle.std.specs.Prelude.{◌≡◌, ◌≤◌, ◌<◌, ◌^◌, ◌↔◌, length, vec_len, map, slice_get, IsTrue, IfOk, IfSome, All, MatchBool, Any};
ghost use Rattle.signer_api.specs.State.{SignerState, Signed, Tells, Vouches, DropsKey, with_key, with_signature, with_once};
ghost use Rattle.signer_ring.specs.Ring.{AllTell, Vouched, ChangesOne, CallsOne, CallsAll, Keeps};

use crate::RingFault;
use crate::fault::answered;
use crate::jobs::{SignJob, Signed};
use crate::side::{first_absent, sign_all};
use signer_api::{Digest, OneUse, PublicKey, Signature, Signer};
use std::alloc::Global;
use std::marker::Model;
use std::thread::Threads;

/// Signers, numbered from 0 in the order in which they were handed in.
///
/// Contracts see them as a list. The ring keeps them in the `Vec` that it was given.
#[derive(Drop)]
pub struct Ring<S: Signer = Box<dyn Signer + Send>> {
    signers: Vec<S>,
}

impl<S: Signer> Model for Ring<S> {
    ghost use Rattle.std.specs.Prelude.{◌<◌, ◌^◌, List, map, length};
    ghost use Rattle.signer_api.specs.State.{SignerState};

    ghost Value = { List SignerState };

    ghost view = { λ ring. map (λ signer. S.state signer) ring.signers.items };

    ghost invariant = { λ ring. length ring.signers.items < 2 ^ 32 };
}

impl<S: Signer> Ring<S> {
    pub fn new(signers: Vec<S>) -> Self
        requires { vec_len signers < 2 ^ 32 }
        ensures { result ≡ map (λ signer. S.state signer) signers.items }
    {
        Ring { signers }
    }

    /// How many signers there are.
    pub fn len(&self) -> u32
        ensures { result ≡ length self.now }
    {
        self.signers.len() as u32
    }

    /// The signers, in their order and in the `Vec` in which they came.
    pub fn take_back(self) -> Vec<S>
        ensures { map (λ signer. S.state signer) result.items ≡ self }
    {
        let Ring { signers } = self;
        signers
    }

    /// Makes a key with one signer, which keeps it. Signers are numbered from 0.
    pub fn make_key(&mut self, alloc: Global, signer: u32) -> Result<PublicKey, RingFault>
        ensures called { CallsOne (λ key. with_key key.bytes) signer result self.old self.new }
        ensures kept { Keeps self.old self.new }
    {
        if signer >= self.len() {
            return Err(RingFault::NoSuchSigner { signer });
        }
        answered(signer, self.signers[signer as usize].make_key(alloc))
    }

    /// Signs a digest with a key that one signer holds. RSASSA-PKCS1-v1_5 (RFC 7935 section 2).
    pub fn sign(
        &mut self,
        alloc: Global,
        signer: u32,
        key: &PublicKey,
        digest: &Digest,
    ) -> Result<Signature, RingFault>
        ensures called { CallsOne
            (λ s. with_signature (record { key = key.now.bytes; digest = digest.now.bytes; signature = s.bytes }))
            signer result self.old self.new }
        ensures by_signer { IfOk result (λ s. IfSome (slice_get self.old signer) (λ at. Tells at
            → IfSome (slice_get self.new signer) (λ now. Vouches now key.now.bytes digest.now.bytes s.bytes))) }
        ensures vouched { IfOk result (λ s. AllTell self.old
            → Vouched self.new key.now.bytes digest.now.bytes s.bytes) }
        ensures kept { Keeps self.old self.new }
    {
        if signer >= self.len() {
            return Err(RingFault::NoSuchSigner { signer });
        }
        answered(
            signer,
            self.signers[signer as usize].sign(alloc, key, digest),
        )
    }

    /// Signs a digest with a new key of one signer, which doesn't keep it. Signers are numbered
    /// from 0.
    pub fn sign_once(
        &mut self,
        alloc: Global,
        signer: u32,
        digest: &Digest,
    ) -> Result<OneUse, RingFault>
        ensures called { CallsOne
            (λ once. with_once (record { key = once.key.bytes; digest = digest.now.bytes; signature = once.signature.bytes }))
            signer result self.old self.new }
        ensures by_signer { IfOk result (λ once. IfSome (slice_get self.old signer) (λ at. Tells at
            → IfSome (slice_get self.new signer) (λ now. Vouches now once.key.bytes digest.now.bytes once.signature.bytes))) }
        ensures vouched { IfOk result (λ once. AllTell self.old
            → Vouched self.new once.key.bytes digest.now.bytes once.signature.bytes) }
        ensures kept { Keeps self.old self.new }
    {
        if signer >= self.len() {
            return Err(RingFault::NoSuchSigner { signer });
        }
        answered(
            signer,
            self.signers[signer as usize].sign_once(alloc, digest),
        )
    }

    /// Whether some signer vouches for a signature. They are asked one after another, up to the
    /// first that does.
    pub fn check(
        &mut self,
        alloc: Global,
        key: &PublicKey,
        digest: &Digest,
        signature: &Signature,
    ) -> Result<bool, RingFault>
        ensures answer { IfOk result (λ yes. AllTell self.old
            → (IsTrue yes ↔ Vouched self.new key.now.bytes digest.now.bytes signature.now.bytes)) }
        // Where not all tell: some one says so who vouches or doesn't tell, or nobody vouches.
        ensures some { IfOk result (λ yes. MatchBool yes
            (Any (λ at. Tells at → Vouches at key.now.bytes digest.now.bytes signature.now.bytes) self.old)
            (All (λ at. ¬ (Vouches at key.now.bytes digest.now.bytes signature.now.bytes)) self.old)) }
        ensures called { CallsAll result self.old self.new }
        ensures kept { Keeps self.old self.new }
    {
        for number in 0..self.len() {
            if self.ask(alloc, number, key, digest, signature)? {
                return Ok(true);
            }
        }
        Ok(false)
    }

    /// Drops a key of one signer, if it holds it. Nothing where there is no such signer. Signers
    /// are numbered from 0.
    pub fn drop_key(&mut self, signer: u32, key: &PublicKey)
        ensures absent { length self.old ≤ signer → self.new ≡ self.old }
        ensures dropped { signer < length self.old → ChangesOne signer (DropsKey key.now.bytes) self.old self.new }
        ensures kept { Keeps self.old self.new }
    {
        if signer < self.len() {
            self.signers[signer as usize].drop_key(key);
        }
    }

    // Whether one signer vouches for a signature.
    fn ask(
        &mut self,
        alloc: Global,
        number: u32,
        key: &PublicKey,
        digest: &Digest,
        signature: &Signature,
    ) -> Result<bool, RingFault>
        requires { number < length self.old }
        ensures answer { IfOk result (λ yes. IfSome (slice_get self.old number) (λ at. Tells at
            → (IsTrue yes ↔ Vouches at key.now.bytes digest.now.bytes signature.now.bytes))) }
        ensures called { CallsAll result self.old self.new }
    {
        let told = self.signers[number as usize].check(alloc, key, digest, signature);
        answered(number, told)
    }
}

impl<S: Signer + Send> Ring<S> {
    ghost use Rattle.std.specs.Prelude.{◌≡◌, ◌↔◌, ℕ, Some, Err, length, IfOk, IfErr, All};
    ghost use Rattle.signer_ring.specs.Calls.{after_calls, IsVouched};
    ghost use Rattle.signer_ring.specs.Jobs as words;
    ghost use Rattle.signer_ring.specs.Jobs.{AreAnswers, calls_for, IsForAllStop};
    ghost use Rattle.signer_ring.specs.Ring.{Keeps};
    ghost use Rattle.signer_ring.specs.declared.fault.RingFault.TheVariants.{NoSuchSigner};

    /// Does the jobs, with all signers at the same time: one worker for each, which does that signer's own jobs
    /// in their order up to the first at which it stops. The answers come in the order of all jobs.
    ///
    /// Where a thread can't be started, the caller does that work itself. Whatever it answers, the ring has all
    /// of its signers.
    pub fn for_all<R: Threads + Sync>(
        &mut self,
        rt: &R,
        alloc: Global,
        jobs: Vec<SignJob>,
    ) -> Result<Vec<Signed>, RingFault>
        // A signer that isn't there, the first that is asked: exactly then, and then nothing is done.
        ensures absent { (n : ℕ) → (result ≡ Err (NoSuchSigner n))
            ↔ (words.first_absent (length self.old) jobs.items ≡ Some n) }

        // An answer to each job: the signers made these calls and no others, and vouch for what they signed.
        ensures answered { IfOk result (λ answers. AreAnswers jobs.items answers.items) }
        ensures called { IfOk result (λ answers. self.new ≡ after_calls self.old (calls_for jobs.items answers.items)) }
        ensures vouched { IfOk result (λ answers. All (IsVouched self.new) (calls_for jobs.items answers.items)) }

        // Else each signer made calls for the first of its own jobs, and a fault names the least that failed.
        ensures stopped { IfErr result (IsForAllStop jobs.items self.old self.new) }
        ensures kept { Keeps self.old self.new }
    {
        if let Some(signer) = first_absent(&jobs, self.len()) {
            return Err(RingFault::NoSuchSigner { signer });
        }
        sign_all(rt, alloc, &mut self.signers, &jobs)
    }
}
