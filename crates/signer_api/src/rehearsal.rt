// A signer for rehearsals, which never fails and keeps no record.
ghost use Rattle.std.specs.Prelude.{◌≡◌, ◌↔◌, Ok, IsTrue, IsOkAnd, IfOk};
ghost use Rattle.signer_api.specs.Hashed as rule;
ghost use Rattle.signer_api.specs.State.{SignerState, Answers, DropsKey, Tells, Vouches, with_key, with_signature, with_once, next_count};

use crate::hashed::{hashed_key, hashed_signature};
use crate::{Digest, OneUse, PublicKey, Signature, Signer, SignerStop};
use std::alloc::Global;

/// A signer whose keys and signatures are made of hashes, by a rule that everybody can follow. So
/// it is for trials alone.
///
/// It vouches for the rule's signatures and doesn't remember what it signed. It signs with any key,
/// and doesn't tell which it holds. No call of it fails or takes memory.
#[derive(Drop)]
pub struct Rehearsal {
    start: [u8; 32],
    next: u64,
    signatures: u64,
    once: u64,
}

impl Rehearsal {
    ghost use Rattle.std.specs.Prelude.{◌≡◌};
    ghost use Rattle.signer_api.specs.Rehearsal.{rehearsal_start, rehearsal_next, rehearsal_state};

    /// A signer whose keys come from these bytes. Its first key is number 0.
    pub fn new(start: [u8; 32]) -> Self
        ensures start { rehearsal_start result ≡ start }
        ensures next { rehearsal_next result ≡ 0 }
        ensures signatures { (rehearsal_state result).signatures ≡ 0 }
        ensures once { (rehearsal_state result).once ≡ 0 }
    {
        Rehearsal {
            start,
            next: 0,
            signatures: 0,
            once: 0,
        }
    }

    fn take_number(&mut self) -> u64
        ensures number { result ≡ self.old.next }
        ensures next { self.new ≡ record self.old { next = next_count self.old.next } }
    {
        let number = self.next;
        self.next = number.saturating_add(1);
        number
    }

    fn count_signature(&mut self)
        ensures { self.new ≡ record self.old { signatures = next_count self.old.signatures } }
    {
        self.signatures = self.signatures.saturating_add(1);
    }
}

impl Signer for Rehearsal {
    ghost use Rattle.std.specs.Prelude.{◌≡◌, ◌↔◌, Ok, IsTrue, IsOkAnd, IfOk};
    ghost use Rattle.signer_api.specs.Hashed as rule;
    ghost use Rattle.signer_api.specs.State.{SignerState, Answers, DropsKey, Tells, Vouches, with_key, with_signature, with_once, next_count};
    ghost use Rattle.signer_api.specs.Rehearsal.{rehearsal_start, rehearsal_next, rehearsal_state};

    ghost state = { λ r. rehearsal_state r };

    fn make_key(&mut self, _alloc: Global) -> Result<PublicKey, SignerStop>
        ensures made { Answers (λ key. with_key key.bytes) result (rehearsal_state self.old) (rehearsal_state self.new) }
        ensures key { IsOkAnd result (λ key. key.bytes ≡ rule.hashed_key (rehearsal_start self.old) (rehearsal_next self.old)) }
        ensures next { rehearsal_next self.new ≡ next_count (rehearsal_next self.old) }
        ensures start { rehearsal_start self.new ≡ rehearsal_start self.old }
    {
        let number = self.take_number();
        Ok(hashed_key(&self.start, number))
    }

    fn sign(
        &mut self,
        _alloc: Global,
        key: &PublicKey,
        digest: &Digest,
    ) -> Result<Signature, SignerStop>
        ensures signed { Answers
            (λ s. with_signature (record { key = key.now.bytes; digest = digest.now.bytes; signature = s.bytes }))
            result (rehearsal_state self.old) (rehearsal_state self.new) }
        ensures vouched { IfOk result (λ s. Tells (rehearsal_state self.old)
            → Vouches (rehearsal_state self.new) key.now.bytes digest.now.bytes s.bytes) }
        ensures signature { IsOkAnd result (λ s. s.bytes ≡ rule.hashed_signature key.now.bytes digest.now.bytes) }
        ensures next { rehearsal_next self.new ≡ rehearsal_next self.old }
        ensures start { rehearsal_start self.new ≡ rehearsal_start self.old }
    {
        self.count_signature();
        Ok(hashed_signature(key, digest))
    }

    fn sign_once(&mut self, _alloc: Global, digest: &Digest) -> Result<OneUse, SignerStop>
        ensures signed { Answers
            (λ once. with_once (record { key = once.key.bytes; digest = digest.now.bytes; signature = once.signature.bytes }))
            result (rehearsal_state self.old) (rehearsal_state self.new) }
        ensures vouched { IfOk result (λ once. Tells (rehearsal_state self.old)
            → Vouches (rehearsal_state self.new) once.key.bytes digest.now.bytes once.signature.bytes) }
        ensures key { IsOkAnd result (λ once. once.key.bytes ≡ rule.hashed_key (rehearsal_start self.old) (rehearsal_next self.old)) }
        ensures next { rehearsal_next self.new ≡ next_count (rehearsal_next self.old) }
        ensures start { rehearsal_start self.new ≡ rehearsal_start self.old }
    {
        let number = self.take_number();
        let key = hashed_key(&self.start, number);
        self.count_signature();
        self.once = self.once.saturating_add(1);
        Ok(OneUse {
            key,
            signature: hashed_signature(&key, digest),
        })
    }

    fn check(
        &mut self,
        _alloc: Global,
        key: &PublicKey,
        digest: &Digest,
        signature: &Signature,
    ) -> Result<bool, SignerStop>
        ensures answer { IsOkAnd result (λ yes. Tells (rehearsal_state self.old)
            → (IsTrue yes ↔ Vouches (rehearsal_state self.new) key.now.bytes digest.now.bytes signature.now.bytes)) }
        ensures stays { Answers (λ _ signer. signer) result (rehearsal_state self.old) (rehearsal_state self.new) }
        ensures next { rehearsal_next self.new ≡ rehearsal_next self.old }
        ensures start { rehearsal_start self.new ≡ rehearsal_start self.old }
    {
        Ok(hashed_signature(key, digest) == *signature)
    }

    fn drop_key(&mut self, _key: &PublicKey)
        ensures dropped { DropsKey _key.now.bytes (rehearsal_state self.old) (rehearsal_state self.new) }
        ensures next { rehearsal_next self.new ≡ rehearsal_next self.old }
        ensures start { rehearsal_start self.new ≡ rehearsal_start self.old }
    {}

    fn faults(&self) -> u64 {
        0
    }
}
