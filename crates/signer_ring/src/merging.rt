//! The answers of many signers, in the order of the jobs.

ghost use Rattle.std.specs.Prelude.{◌≡◌, ◌≤◌, ◌<◌, ◌^◌, ◌++◌, ◌∷◌, ℕ, [], length, slice_get, slice_index, slice_index_or, vec_len, vec_capacity, IfErr, OnOk, Some, All};
ghost use Rattle.signer_ring.specs.Jobs.{asked, jobs_of};
ghost use Rattle.signer_ring.specs.declared.jobs.Signed.{Signed};
ghost use Rattle.signer_ring.specs.inner.Working.{Told, given, answers_of, IsFirstStop, AreTold};

use crate::fault::RingFault;
use crate::jobs::{SignJob, Signed};
use crate::workers::OwnAnswers;
use signer_api::SignerStop;

/// Why the signers stopped: the first that failed, or else want of memory.
pub fn first_stop(told: &[OwnAnswers]) -> Result<(), RingFault>
    requires { length told.now < 2 ^ 32 }
    ensures none { OnOk result (AreTold told.now) }
    ensures first { IfErr result (IsFirstStop told.now) }
{
    let mut stop = Ok(());
    for number in 0..told.len() {
        match &told[number] {
            Ok(_) => (),
            Err(SignerStop::Memory) => stop = Err(RingFault::Memory),
            Err(SignerStop::Fault) => {
                return Err(RingFault::SignerFault {
                    signer: number as u32,
                });
            }
        }
    }
    stop
}

/// The answer at a place, of one signer.
fn answer_at(told: &OwnAnswers, place: usize) -> Signed
    requires { place < length (given told.now) }
    ensures { (d : Signed) → result ≡ slice_index_or (given told.now) place d }
{
    let Ok(own) = told else { unreachable!() };
    own[place]
}

/// Appends an answer where there is room.
fn put(answers: &mut Vec<Signed>, answer: Signed)
    requires { vec_len answers.old < vec_capacity answers.old }
    ensures items { answers.new.items ≡ answers.old.items ++ answer ∷ [] }
    ensures room { vec_capacity answers.old ≤ vec_capacity answers.new }
{
    answers.push(answer).unwrap();
}

/// Puts the answers of the signers in the order of the jobs. `taken` says how many of each one's came.
pub fn merge(jobs: &[SignJob], told: &[OwnAnswers], taken: &mut [usize], answers: &mut Vec<Signed>)
    requires told { AreTold told.now }
    requires each { (n : ℕ) (t : Told) → slice_get told.now n ≡ Some t → length (given t) ≡ length (jobs_of n jobs.now) }
    requires there { All (λ job. asked job < length told.now) jobs.now }
    requires count { length taken.old ≡ length told.now }
    requires none { (n : ℕ) → n < length told.now → slice_index taken.old n ≡ 0 }
    requires empty { answers.old.items ≡ [] }
    requires room { length jobs.now ≤ vec_capacity answers.old }
    ensures count { vec_len answers.new ≡ length jobs.now }
    ensures each { (n : ℕ) (t : Told) → slice_get told.now n ≡ Some t → answers_of n jobs.now answers.new.items ≡ given t }
{
    for job in jobs {
        let number = job.signer() as usize;
        let answer = answer_at(&told[number], taken[number]);
        put(answers, answer);
        taken[number] += 1;
    }
}
