//! Two signers that are in `sign` at the same time.
ghost use Rattle.std.specs.Prelude.{◌≡◌};
ghost use Rattle.signer_api.specs.State.{RisesByOne};
ghost use Rattle.signer_api.specs.declared.signer.SignerStop.TheVariants.{Fault};

use anyhow::{Result, bail};
use signer_api::{Digest, OneUse, PublicKey, Rehearsal, Signature, Signer, SignerStop};
use signer_ring::{Ring, SignJob};
use std::alloc::Global;
use std::sync::atomic::{AtomicBool, Ordering};
use std::thread::{Threads, yield_now};

/// How often a signer looks for the other at most.
const LOOKS: u32 = 100_000_000;

/// A signer for rehearsals that does its first job only while the other is at its own.
#[derive(Drop)]
struct Meeting<'a> {
    signer: Rehearsal,
    here: &'a AtomicBool,
    there: &'a AtomicBool,
    signatures: u64,
    once: u64,
    faults: u64,
}

impl<'a> Meeting<'a> {
    /// Says that it is here, and looks for the other.
    fn meet(&self) -> Result<(), SignerStop> {
        self.here.store(true, Ordering::SeqCst);
        for _ in 0..LOOKS {
            if self.there.load(Ordering::SeqCst) {
                return Ok(());
            }
            yield_now();
        }
        Err(SignerStop::Fault)
    }
}

impl<'a> Meeting<'a> {
    fn new(start: u8, here: &'a AtomicBool, there: &'a AtomicBool) -> Self {
        Meeting {
            signer: Rehearsal::new([start; 32]),
            here,
            there,
            signatures: 0,
            once: 0,
            faults: 0,
        }
    }

    /// Counts a failure.
    fn failed(&mut self) -> SignerStop
        ensures stop { result ≡ Fault }
        ensures risen { RisesByOne self.old.faults self.new.faults }
        ensures signatures { self.new.signatures ≡ self.old.signatures }
        ensures once { self.new.once ≡ self.old.once }
    {
        self.faults = self.faults.saturating_add(1);
        SignerStop::Fault
    }
}

impl<'a> Signer for Meeting<'a> {
    ghost use Rattle.std.specs.Prelude.{None};
    ghost use Rattle.signer_api.specs.State.Vouching.{NotTold};

    ghost state = { λ m. record {
      vouching = NotTold;
      keys = None;
      signatures = m.signatures;
      once = m.once;
      faults = m.faults;
    } };

    fn make_key(&mut self, alloc: Global) -> Result<PublicKey, SignerStop> {
        match self.signer.make_key(alloc) {
            Ok(key) => Ok(key),
            Err(_) => Err(self.failed()),
        }
    }

    fn sign(
        &mut self,
        alloc: Global,
        key: &PublicKey,
        digest: &Digest,
    ) -> Result<Signature, SignerStop> {
        if self.meet().is_err() {
            return Err(self.failed());
        }
        match self.signer.sign(alloc, key, digest) {
            Ok(signature) => {
                self.signatures = self.signatures.saturating_add(1);
                Ok(signature)
            }
            Err(_) => Err(self.failed()),
        }
    }

    fn sign_once(&mut self, _alloc: Global, _digest: &Digest) -> Result<OneUse, SignerStop> {
        Err(self.failed())
    }

    fn check(
        &mut self,
        _alloc: Global,
        _key: &PublicKey,
        _digest: &Digest,
        _signature: &Signature,
    ) -> Result<bool, SignerStop> {
        Err(self.failed())
    }

    fn drop_key(&mut self, _key: &PublicKey) {}

    fn faults(&self) -> u64 {
        self.faults
    }
}

/// So many jobs for each of two signers, which meet.
pub fn meet<R: Threads + Sync>(rt: &R, alloc: Global, each: u32) -> Result<String> {
    let (one, other) = (AtomicBool::new(false), AtomicBool::new(false));
    let mut signers = Vec::new(alloc);
    signers.push(Meeting::new(1, &one, &other))?;
    signers.push(Meeting::new(2, &other, &one))?;
    let mut ring = Ring::new(signers);
    let mut jobs = Vec::new(alloc);
    for _ in 0..each {
        for signer in 0..2 {
            let Ok(key) = ring.make_key(alloc, signer) else {
                bail!("no key");
            };
            let digest = Digest { bytes: [0; 32] };
            jobs.push(SignJob::Sign {
                signer,
                key,
                digest,
            })?;
        }
    }
    let answer = match ring.for_all(rt, alloc, jobs) {
        Ok(answers) => format!(in alloc; "2 signers met, and gave {} signatures", answers.len())?,
        Err(fault) => format!(in alloc; "{fault}")?,
    };
    Ok(answer)
}
