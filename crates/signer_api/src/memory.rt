// A signer in memory, some of whose calls are to fail.
ghost use Rattle.std.specs.Prelude.{◌≡◌, ◌↔◌, ◌||◌, Err, not, IsTrue, IsErr, IfOk, IfErr};
ghost use Rattle.signer_api.specs.Hashed as rule;
ghost use Rattle.signer_api.specs.declared.signer.SignerStop.TheVariants.{Fault, Memory};
ghost use Rattle.signer_api.specs.State.{SignerState, Answers, DropsKey, RisesByOne, Tells, Vouches, with_key, with_signature, with_once, next_count};

use crate::hashed::{hashed_key, hashed_signature};
use crate::{Digest, OneUse, PublicKey, Signature, Signer, SignerStop};
use host_calls::Schedule;
use std::alloc::Global;

/// What it once signed.
#[derive(PartialEq, Eq, Drop)]
struct Remembered {
    key: PublicKey,
    digest: Digest,
    signature: Signature,
}

/// A signer in memory whose keys and signatures are made of hashes, and whose calls can be made to
/// fail.
///
/// It vouches for what it signed, which it remembers: a check looks along all of it. A key that it
/// doesn't hold, given to `sign`, is a fault. A call that fails uses up no key number.
#[derive(Drop)]
pub struct MemorySigner {
    start: [u8; 32],
    next: u64,
    schedule: Schedule,
    keys: Vec<PublicKey>,
    signed: Vec<Remembered>,
    once: u64,
}

impl MemorySigner {
    ghost use Rattle.std.specs.Prelude.{◌≡◌, ◌↔◌, [], Some, IsTrue, IsErr, IfOk, IfErr};
    ghost use Rattle.host_calls.specs.Schedule.{IsFresh, fails_next};
    ghost use Rattle.signer_api.specs.Hashed as rule;
    ghost use Rattle.signer_api.specs.declared.signer.SignerStop.TheVariants.{Fault, Memory};
    ghost use Rattle.signer_api.specs.Memory.{memory_state, memory_start, memory_next, memory_schedule, holds_key, CountsCall, IsSameScript};
    ghost use Rattle.signer_api.specs.State.{SignerState, Signed, Answers, CountsFault, with_signature};
    ghost use Rattle.signer_api.specs.State.Vouching.{Listed};

    /// A signer whose keys come from the start bytes, the first being number 0. `fails` has the
    /// numbers, from 1, of the calls that are to fail: each call but `drop_key` and `faults` counts.
    pub fn new(alloc: Global, start: [u8; 32], fails: Vec<u64>) -> Self
        ensures start { memory_start result ≡ start }
        ensures next { memory_next result ≡ 0 }
        ensures fresh { IsFresh (memory_schedule result) fails.items }
        ensures new { memory_state result ≡ record { vouching = Listed []; keys = Some []; signatures = 0; once = 0; faults = 0 } }
    {
        MemorySigner {
            start,
            next: 0,
            schedule: Schedule::new(fails),
            keys: Vec::new(alloc),
            signed: Vec::new(alloc),
            once: 0,
        }
    }

    /// Counts a failure.
    fn failed(&mut self) -> SignerStop
        ensures stop { result ≡ Fault }
        ensures counted { CountsFault (memory_state self.old) (memory_state self.new) }
        ensures rest { IsSameScript self.old self.new }
        ensures keys { self.new.keys.items ≡ self.old.keys.items }
    {
        self.schedule.count_fault();
        SignerStop::Fault
    }

    /// Counts a call, and refuses it where it is one that is to fail.
    fn begin(&mut self) -> Result<(), SignerStop>
        ensures listed { IsErr result ↔ IsTrue (fails_next (memory_schedule self.old)) }
        ensures fault { IfErr result (λ stop. stop ≡ Fault) }
        ensures counted { Answers (λ _ signer. signer) result (memory_state self.old) (memory_state self.new) }
        ensures call { CountsCall self.old self.new 0 }
        ensures keys { self.new.keys.items ≡ self.old.keys.items }
    {
        if self.schedule.count_call() {
            return Err(SignerStop::Fault);
        }
        Ok(())
    }

    /// Whether it holds the key.
    fn holds(&self, key: &PublicKey) -> bool
        ensures { result ≡ holds_key self.now key.now.bytes }
    {
        self.keys.iter().any(|held| held.bytes == key.bytes)
    }

    /// Signs, and remembers it.
    fn remember(&mut self, key: &PublicKey, digest: &Digest) -> Result<Signature, SignerStop>
        ensures signature { IfOk result (λ s. s.bytes ≡ rule.hashed_signature key.now.bytes digest.now.bytes) }
        ensures memory { IfErr result (λ stop. stop ≡ Memory) }
        ensures signed { Answers
            (λ s. with_signature (record { key = key.now.bytes; digest = digest.now.bytes; signature = s.bytes }))
            result (memory_state self.old) (memory_state self.new) }
        ensures rest { IsSameScript self.old self.new }
    {
        let signature = hashed_signature(key, digest);
        self.signed.push(Remembered {
            key: *key,
            digest: *digest,
            signature,
        })?;
        Ok(signature)
    }
}

impl Signer for MemorySigner {
    ghost use Rattle.std.specs.Prelude.{◌≡◌, ◌↔◌, ◌||◌, Err, not, IsTrue, IsErr, IfOk, IfErr};
    ghost use Rattle.host_calls.specs.Schedule.{fails_next};
    ghost use Rattle.signer_api.specs.Hashed as rule;
    ghost use Rattle.signer_api.specs.declared.signer.SignerStop.TheVariants.{Fault, Memory};
    ghost use Rattle.signer_api.specs.Memory.{memory_state, memory_start, memory_next, memory_schedule, holds_key, CountsCall, IsSameScript, made_by};
    ghost use Rattle.signer_api.specs.State.{Signed, Answers, DropsKey, Tells, Vouches, is_other, with_key, with_signature, with_once};

    ghost state = { λ m. memory_state m };

    fn make_key(&mut self, _alloc: Global) -> Result<PublicKey, SignerStop>
        ensures made { Answers (λ key. with_key key.bytes) result (memory_state self.old) (memory_state self.new) }
        ensures key { IfOk result (λ key. key.bytes ≡ rule.hashed_key (memory_start self.old) (memory_next self.old)) }
        ensures fault { (result ≡ Err Fault) ↔ IsTrue (fails_next (memory_schedule self.old)) }
        ensures call { CountsCall self.old self.new (made_by result) }
    {
        self.begin()?;
        let key = hashed_key(&self.start, self.next);
        self.keys.push(key)?;
        self.next = self.next.saturating_add(1);
        Ok(key)
    }

    fn sign(
        &mut self,
        _alloc: Global,
        key: &PublicKey,
        digest: &Digest,
    ) -> Result<Signature, SignerStop>
        ensures signed { Answers
            (λ s. with_signature (record { key = key.now.bytes; digest = digest.now.bytes; signature = s.bytes }))
            result (memory_state self.old) (memory_state self.new) }
        ensures vouched { IfOk result (λ s. Tells (memory_state self.old)
            → Vouches (memory_state self.new) key.now.bytes digest.now.bytes s.bytes) }
        ensures signature { IfOk result (λ s. s.bytes ≡ rule.hashed_signature key.now.bytes digest.now.bytes) }
        ensures fault { (result ≡ Err Fault) ↔ IsTrue (fails_next (memory_schedule self.old) || not (holds_key self.old key.now.bytes)) }
        ensures call { CountsCall self.old self.new 0 }
    {
        self.begin()?;
        if !self.holds(key) {
            return Err(self.failed());
        }
        self.remember(key, digest)
    }

    fn sign_once(&mut self, _alloc: Global, digest: &Digest) -> Result<OneUse, SignerStop>
        ensures signed { Answers
            (λ once. with_once (record { key = once.key.bytes; digest = digest.now.bytes; signature = once.signature.bytes }))
            result (memory_state self.old) (memory_state self.new) }
        ensures vouched { IfOk result (λ once. Tells (memory_state self.old)
            → Vouches (memory_state self.new) once.key.bytes digest.now.bytes once.signature.bytes) }
        ensures key { IfOk result (λ once. once.key.bytes ≡ rule.hashed_key (memory_start self.old) (memory_next self.old)) }
        ensures signature { IfOk result (λ once. once.signature.bytes ≡ rule.hashed_signature once.key.bytes digest.now.bytes) }
        ensures fault { (result ≡ Err Fault) ↔ IsTrue (fails_next (memory_schedule self.old)) }
        ensures call { CountsCall self.old self.new (made_by result) }
    {
        self.begin()?;
        let key = hashed_key(&self.start, self.next);
        let signature = self.remember(&key, digest)?;
        self.once = self.once.saturating_add(1);
        self.next = self.next.saturating_add(1);
        Ok(OneUse { key, signature })
    }

    fn check(
        &mut self,
        _alloc: Global,
        key: &PublicKey,
        digest: &Digest,
        signature: &Signature,
    ) -> Result<bool, SignerStop>
        ensures answer { IfOk result (λ yes. Tells (memory_state self.old)
            → (IsTrue yes ↔ Vouches (memory_state self.new) key.now.bytes digest.now.bytes signature.now.bytes)) }
        ensures stays { Answers (λ _ signer. signer) result (memory_state self.old) (memory_state self.new) }
        ensures fault { (IsErr result) ↔ IsTrue (fails_next (memory_schedule self.old)) }
        ensures call { CountsCall self.old self.new 0 }
    {
        self.begin()?;
        let asked = Remembered {
            key: *key,
            digest: *digest,
            signature: *signature,
        };
        Ok(self.signed.contains(&asked))
    }

    fn drop_key(&mut self, key: &PublicKey)
        ensures dropped { DropsKey key.now.bytes (memory_state self.old) (memory_state self.new) }
        ensures no_fault { (memory_state self.new).faults ≡ (memory_state self.old).faults }
        ensures rest { IsSameScript self.old self.new }
    {
        self.keys.retain(
            |held| -> bool
                ensures { result ≡ is_other key.entry.now.bytes held.now.bytes }
            { held.bytes != key.bytes },
        );
    }

    fn faults(&self) -> u64 {
        self.schedule.faults()
    }
}
