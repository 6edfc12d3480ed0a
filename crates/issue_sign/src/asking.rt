//! The work of all signers at the same time.

ghost use Rattle.std.specs.Prelude.{◌<◌, length, IfOk, IfErr, All};
ghost use Rattle.signer_ring.specs.Ring.{Keeps};
ghost use Rattle.signer_ring.specs.Jobs.{asked, AreAnswers, calls_for};
ghost use Rattle.issue_sign.specs.inner.Steps.{AreCalled, IsAskStop};

use issue_keys::MakeFault;
use signer_api::Signer;
use signer_ring::{Ring, RingFault, SignJob, Signed};
use std::alloc::Global;
use std::thread::Threads;

/// Has the signers do the jobs, each its own, all at the same time. All of them are there.
pub fn ask<S: Signer + Send, R: Threads + Sync>(
    rt: &R,
    alloc: Global,
    jobs: Vec<SignJob>,
    ring: &mut Ring<S>,
) -> Result<Vec<Signed>, MakeFault>
    requires there { All (λ job. asked job < length ring.old) jobs.items }
    ensures answered { IfOk result (λ answers. AreAnswers jobs.items answers.items) }
    ensures called { IfOk result (λ answers. AreCalled ring.old ring.new (calls_for jobs.items answers.items)) }
    ensures stopped { IfErr result (IsAskStop jobs.items ring.old ring.new) }
    ensures kept { Keeps ring.old ring.new }
{
    match ring.for_all(rt, alloc, jobs) {
        Ok(answers) => Ok(answers),
        Err(RingFault::SignerFault { signer }) => Err(MakeFault::SignerFault { signer }),
        Err(RingFault::Memory) => Err(MakeFault::Memory),
        Err(RingFault::NoSuchSigner { .. }) => unreachable!(),
    }
}
