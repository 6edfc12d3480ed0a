//! One signature for each object, by all signers at the same time.

ghost use Rattle.std.specs.Prelude.{◌<◌, ◌≡◌, length, map, IfOk, IfErr, All};
ghost use Rattle.moments.specs.Civil.{IsMoment};
ghost use Rattle.signer_ring.specs.Ring.{Keeps};
ghost use Rattle.issue_sign.specs.inner.Steps.{half_answers, calls_of, AreCalled, IsOutcome, IsStepsStop, Pairs};

use crate::asking::ask;
use crate::halves::halves;
use crate::steps::{Half, Step, jobs};
use issue_keys::MakeFault;
use signer_api::Signer;
use signer_ring::Ring;
use std::alloc::Global;
use std::thread::Threads;

/// Has what is pending signed, each signer its own, all at the same time.
pub fn sign_steps<S: Signer + Send, R: Threads + Sync>(
    rt: &R,
    alloc: Global,
    moment: u64,
    steps: Vec<Step<'_>>,
    ring: &mut Ring<S>,
) -> Result<Vec<Half>, MakeFault>
    requires moment { IsMoment moment }
    requires signers { All (λ st. st.issuer.now.signer < length ring.old) steps.items }
    ensures each { IfOk result (λ halves. length halves.items ≡ length steps.entry.items) }
    ensures outcomes { IfOk result (λ halves. Pairs (λ st h. IsOutcome moment st.pending h) steps.entry.items halves.items) }
    ensures called { IfOk result (λ halves.
        AreCalled ring.old ring.new (calls_of moment steps.entry.items (map half_answers halves.items))) }
    ensures stopped { IfErr result (IsStepsStop moment steps.entry.items ring.old ring.new) }
    ensures kept { Keeps ring.old ring.new }
{
    let jobs = jobs(alloc, moment, &steps)?;
    let answers = ask(rt, alloc, jobs, ring)?;
    let halves = halves(alloc, moment, steps, &answers)?;
    Ok(halves)
}
