//! One worker for each signer, which does that signer's own jobs in their order.

ghost use Rattle.std.specs.Prelude.{◌≡◌, ◌≤◌, ◌<◌, ◌+◌, ◌++◌, ℕ, [], length, map, slice_index_or, vec_len, vec_capacity, IfOk, OnOk, OnErr};
ghost use Rattle.signer_api.specs.State.{Answers};
ghost use Rattle.signer_ring.specs.Calls.{change};
ghost use Rattle.signer_ring.specs.Jobs.{Fits, call_for, jobs_of};
ghost use Rattle.signer_ring.specs.inner.Working.{VouchesFor, HasWorked, AllWorked};

use crate::jobs::{SignJob, Signed};
use signer_api::{Signer, SignerStop};
use std::alloc::{AllocError, Global};
use std::thread::{self, Threads};

/// What one signer answered to its own jobs, in their order, or why it stopped.
pub type OwnAnswers = Result<Vec<Signed>, SignerStop>;

/// A signer at work.
#[derive(Drop)]
pub struct Worker<S: Signer> {
    signer: S,
    told: OwnAnswers,
}

impl<S: Signer> Worker<S> {
    /// Does the jobs of the signer of that number.
    fn work(&mut self, alloc: Global, number: usize, jobs: &[SignJob])
        ensures { HasWorked (jobs_of number jobs.now) self.new.told (S.state self.old.signer) (S.state self.new.signer) }
    {
        self.told = answer_own(alloc, &mut self.signer, number, jobs);
    }
}

/// Does one job.
fn answer<S: Signer>(alloc: Global, signer: &mut S, job: &SignJob) -> Result<Signed, SignerStop>
    ensures fits { IfOk result (Fits job.now) }
    ensures called { Answers (λ a. change (call_for job.now a)) result (S.state signer.old) (S.state signer.new) }
    ensures vouched { IfOk result (λ a. VouchesFor (S.state signer.new) (call_for job.now a)) }
{
    match job {
        SignJob::Sign { key, digest, .. } => {
            let signature = signer.sign(alloc, key, digest)?;
            Ok(Signed::Signature { signature })
        }
        SignJob::Once { digest, .. } => {
            let once = signer.sign_once(alloc, digest)?;
            Ok(Signed::Once { once })
        }
    }
}

/// How many of the jobs are that signer's.
fn count_own(number: usize, jobs: &[SignJob]) -> usize {
    jobs.iter()
        .filter(|job| job.signer() as usize == number)
        .count()
}

/// Does the jobs of the signer of that number, in their order, up to the first at which it stops.
fn answer_own<S: Signer>(
    alloc: Global,
    signer: &mut S,
    number: usize,
    jobs: &[SignJob],
) -> OwnAnswers
    ensures { HasWorked (jobs_of number jobs.now) result (S.state signer.old) (S.state signer.new) }
{
    let mut answers = Vec::with_capacity(alloc, count_own(number, jobs))?;
    for job in jobs {
        if job.signer() as usize == number {
            answers.push(answer(alloc, signer, job)?)?;
        }
    }
    Ok(answers)
}

/// Takes the signers out, each into a worker of its own. The room that they leave stays.
fn take_out<S: Signer>(alloc: Global, signers: &mut Vec<S>) -> Result<Vec<Worker<S>>, AllocError>
    ensures workers { IfOk result (λ workers. map (λ w. w.signer) workers.items ≡ signers.old.items) }
    ensures out { OnOk result (signers.new.items ≡ []) }
    ensures kept { OnErr result (signers.new.items ≡ signers.old.items) }
    ensures room { vec_capacity signers.new ≡ vec_capacity signers.old }
{
    let mut workers = Vec::with_capacity(alloc, signers.len())?;
    while let Some(signer) = signers.pop() {
        let told = Ok(Vec::new(alloc));
        workers.push(Worker { signer, told }).unwrap();
    }
    workers.reverse();
    Ok(workers)
}

/// Has all of them work at the same time. Where a thread can't be started, the caller does that work itself.
fn work_all<S: Signer + Send, R: Threads + Sync>(
    rt: &R,
    alloc: Global,
    workers: &mut [Worker<S>],
    jobs: &[SignJob],
)
    ensures each { (n : ℕ) (d : _) → n < length workers.old → HasWorked (jobs_of n jobs.now)
        (slice_index_or workers.new n d).told
        (S.state (slice_index_or workers.old n d).signer) (S.state (slice_index_or workers.new n d).signer) }
    ensures count { length workers.new ≡ length workers.old }
{
    let count = workers.len();
    if count > 0 {
        thread::for_each_mut(
            rt,
            workers,
            count,
            &|number, worker: &mut Worker<S>| worker.work(alloc, number, jobs),
        );
    }
}

/// The workers, when their work is done.
fn worked<S: Signer + Send, R: Threads + Sync>(
    rt: &R,
    alloc: Global,
    workers: Vec<Worker<S>>,
    jobs: &[SignJob],
) -> Vec<Worker<S>>
    ensures each { (n : ℕ) (d : _) → n < length workers.items → HasWorked (jobs_of n jobs.now)
        (slice_index_or result.items n d).told
        (S.state (slice_index_or workers.items n d).signer) (S.state (slice_index_or result.items n d).signer) }
    ensures count { length result.items ≡ length workers.items }
{
    let mut workers = workers;
    work_all(rt, alloc, workers.as_mut_slice(), jobs);
    workers
}

/// Puts the signers back, in their order, with what each answered.
fn give_back<S: Signer>(workers: Vec<Worker<S>>, signers: &mut Vec<S>, told: &mut Vec<OwnAnswers>)
    requires room { vec_len signers.old + vec_len workers ≤ vec_capacity signers.old }
    requires told_room { vec_len told.old + vec_len workers ≤ vec_capacity told.old }
    ensures signers { signers.new.items ≡ signers.old.items ++ map (λ w. w.signer) workers.items }
    ensures told { told.new.items ≡ told.old.items ++ map (λ w. w.told) workers.items }
{
    for worker in workers {
        let Worker {
            signer,
            told: answers,
        } = worker;
        signers.push(signer).unwrap();
        told.push(answers).unwrap();
    }
}

/// Has each signer do its own jobs, all of them at the same time, and appends what each answered.
pub fn have_all_work<S: Signer + Send, R: Threads + Sync>(
    rt: &R,
    alloc: Global,
    signers: &mut Vec<S>,
    jobs: &[SignJob],
) -> Result<Vec<OwnAnswers>, AllocError>
    ensures worked { IfOk result (λ told. AllWorked jobs.now told.items
        (map (λ s. S.state s) signers.old.items) (map (λ s. S.state s) signers.new.items)) }
    ensures kept { OnErr result (signers.new.items ≡ signers.old.items) }
{
    let mut told = Vec::with_capacity(alloc, signers.len())?;
    let workers = take_out(alloc, signers)?;
    give_back(worked(rt, alloc, workers, jobs), signers, &mut told);
    Ok(told)
}
