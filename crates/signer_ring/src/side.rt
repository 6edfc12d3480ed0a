//! Signatures by many signers at the same time.

ghost use Rattle.std.specs.Prelude.{◌≡◌, ◌<◌, ◌^◌, ℕ, length, map, vec_len, IfOk, IfErr, All};
ghost use Rattle.signer_ring.specs.Calls.{after_calls, IsVouched};
ghost use Rattle.signer_ring.specs.Jobs as words;
ghost use Rattle.signer_ring.specs.Jobs.{asked, AreAnswers, calls_for, IsForAllStop};
ghost use Rattle.signer_ring.specs.Ring.{Keeps};
ghost use Rattle.signer_ring.specs.inner.Working.{IsOfTheRing};

use crate::fault::RingFault;
use crate::jobs::{SignJob, Signed};
use crate::merging::{first_stop, merge};
use crate::workers::have_all_work;
use signer_api::Signer;
use std::alloc::Global;
use std::thread::Threads;

/// The first signer that is asked and isn't there, of so many.
pub fn first_absent(jobs: &[SignJob], count: u32) -> Option<u32>
    ensures { result ≡ words.first_absent count jobs.now }
{
    for job in jobs {
        if job.signer() >= count {
            return Some(job.signer());
        }
    }
    None
}

/// Does the jobs, with all signers at the same time, each in the order of its own. All of them are there.
pub fn sign_all<S: Signer + Send, R: Threads + Sync>(
    rt: &R,
    alloc: Global,
    signers: &mut Vec<S>,
    jobs: &[SignJob],
) -> Result<Vec<Signed>, RingFault>
    requires there { All (λ job. asked job < vec_len signers.old) jobs.now }
    requires few { vec_len signers.old < 2 ^ 32 }
    ensures answered { IfOk result (λ answers. AreAnswers jobs.now answers.items) }
    ensures called { IfOk result (λ answers. map (λ s. S.state s) signers.new.items
        ≡ after_calls (map (λ s. S.state s) signers.old.items) (calls_for jobs.now answers.items)) }
    ensures vouched { IfOk result (λ answers.
        All (IsVouched (map (λ s. S.state s) signers.new.items)) (calls_for jobs.now answers.items)) }
    ensures stopped { IfErr result
        (IsForAllStop jobs.now (map (λ s. S.state s) signers.old.items) (map (λ s. S.state s) signers.new.items)) }
    ensures there { IfErr result IsOfTheRing }
    ensures kept { Keeps (map (λ s. S.state s) signers.old.items) (map (λ s. S.state s) signers.new.items) }
{
    let mut answers = Vec::with_capacity(alloc, jobs.len())?;
    let mut taken = vec![in alloc; 0usize; signers.len()]?;
    let told = have_all_work(rt, alloc, signers, jobs)?;
    first_stop(&told)?;
    merge(jobs, &told, taken.as_mut_slice(), &mut answers);
    Ok(answers)
}
