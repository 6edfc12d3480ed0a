//! Jobs at the same time, and the same jobs one by one.

use anyhow::{Result, bail};
use signer_api::{Digest, PublicKey, Rehearsal, Signer};
use signer_ring::{Ring, SignJob, Signed};
use std::alloc::Global;
use std::thread::Threads;

/// How many signers there are at most.
pub const MOST_SIGNERS: usize = 8;

/// So many signers for rehearsals.
pub fn rehearsals(alloc: Global, count: u8) -> Result<Ring<Rehearsal>> {
    let mut signers = Vec::new(alloc);
    for start in 0..count {
        signers.push(Rehearsal::new([start; 32]))?;
    }
    if signers.len() > MOST_SIGNERS {
        bail!("{MOST_SIGNERS} signers at most");
    }
    Ok(Ring::new(signers))
}

/// The job of that letter and number, over the digest of its place.
fn job_of(keys: &[PublicKey], word: &str, place: u64) -> Result<SignJob> {
    let digest = Digest::of(&place.to_be_bytes());
    if let Some(number) = word.strip_prefix('o') {
        let signer = number.parse::<u32>()?;
        return Ok(SignJob::Once { signer, digest });
    }
    let Some(number) = word.strip_prefix('s') else {
        bail!("no such job");
    };
    let signer = number.parse::<u32>()?;
    let Some(key) = keys.get(signer as usize) else {
        bail!("no such key");
    };
    Ok(SignJob::Sign {
        signer,
        key: *key,
        digest,
    })
}

/// The jobs of these words, each over another digest.
pub fn jobs_of(alloc: Global, keys: &[PublicKey], words: &str) -> Result<Vec<SignJob>> {
    let mut jobs = Vec::new(alloc);
    let mut place = 0;
    for word in words.split(' ') {
        jobs.push(job_of(keys, word, place)?)?;
        place = place.wrapping_add(1);
    }
    Ok(jobs)
}

/// Does one job.
fn do_one<S: Signer>(alloc: Global, ring: &mut Ring<S>, job: &SignJob) -> Result<Signed> {
    match job {
        SignJob::Sign {
            signer,
            key,
            digest,
        } => {
            let signature = ring.sign(alloc, *signer, key, digest)?;
            Ok(Signed::Signature { signature })
        }
        SignJob::Once { signer, digest } => {
            let once = ring.sign_once(alloc, *signer, digest)?;
            Ok(Signed::Once { once })
        }
    }
}

/// Does the jobs one by one.
fn do_each<S: Signer>(alloc: Global, ring: &mut Ring<S>, jobs: &[SignJob]) -> Result<Vec<Signed>> {
    let mut answers = Vec::new(alloc);
    for job in jobs {
        answers.push(do_one(alloc, ring, job)?)?;
    }
    Ok(answers)
}

/// The first key of each signer.
pub fn first_keys<S: Signer>(alloc: Global, ring: &mut Ring<S>) -> Result<Vec<PublicKey>> {
    let mut keys = Vec::new(alloc);
    for signer in 0..ring.len() {
        keys.push(ring.make_key(alloc, signer)?)?;
    }
    Ok(keys)
}

/// Whether the answers are those that the other ring gives one by one.
pub fn compared<S: Signer>(
    alloc: Global,
    answers: &[Signed],
    apart: &mut Ring<S>,
    jobs: &[SignJob],
) -> Result<String> {
    let same = do_each(alloc, apart, jobs)?;
    if same.as_slice() == answers {
        Ok(format!(in alloc; "{} answers, as one by one", answers.len())?)
    } else {
        Ok(String::from_str(alloc, "other answers than one by one")?)
    }
}

/// What two rings of such signers answer, the one at the same time and the other one by one.
pub fn alike<R: Threads + Sync>(rt: &R, alloc: Global, count: u8, words: &str) -> Result<String> {
    let (mut together, mut apart) = (rehearsals(alloc, count)?, rehearsals(alloc, count)?);
    let keys = first_keys(alloc, &mut together)?;
    if keys != first_keys(alloc, &mut apart)? {
        bail!("another key");
    }
    let jobs = jobs_of(alloc, &keys, words)?;
    let copied = Vec::from_slice(alloc, &jobs)?;
    match together.for_all(rt, alloc, jobs) {
        Ok(all) => compared(alloc, &all, &mut apart, &copied),
        Err(fault) => Ok(format!(in alloc; "{fault}")?),
    }
}
