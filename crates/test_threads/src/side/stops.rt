//! Signers of two kinds in one ring, some of whose calls fail.

use crate::side::alike::{MOST_SIGNERS, compared, first_keys, jobs_of, rehearsals};
use anyhow::{Result, bail};
use signer_api::{MemorySigner, PublicKey, Rehearsal, Signer};
use signer_ring::Ring;
use std::alloc::Global;
use std::thread::Threads;
use test_support::numbers_of;

/// How many keys a signer makes at most.
const MOST_KEYS: u32 = 64;

/// How many keys a signer of that start made before this one.
fn made_before(alloc: Global, start: u8, key: &PublicKey) -> Result<u32> {
    let mut fresh = Rehearsal::new([start; 32]);
    for count in 0..MOST_KEYS {
        let Ok(made) = fresh.make_key(alloc) else {
            bail!("no key");
        };
        if made == *key {
            return Ok(count);
        }
    }
    bail!("another key")
}

/// How many keys each signer made.
fn counts<S: Signer>(alloc: Global, ring: &mut Ring<S>) -> Result<String> {
    let mut text = String::new(alloc);
    let mut start: u8 = 0;
    for signer in 0..ring.len() {
        let key = ring.make_key(alloc, signer)?;
        write!(text, " {}", made_before(alloc, start, &key)?)?;
        start = start.wrapping_add(1);
    }
    Ok(text)
}

/// What a ring of these signers answers to jobs at the same time, and how many keys each made: its first one, and one
/// for each job that takes a new one. The answers are held against those of so many signers for rehearsals with the
/// same keys, one by one.
fn told<S: Signer + Send, R: Threads + Sync>(
    rt: &R,
    alloc: Global,
    signers: Vec<S>,
    count: u8,
    words: &str,
) -> Result<String> {
    if signers.len() > MOST_SIGNERS {
        bail!("{MOST_SIGNERS} signers at most");
    }
    let (mut together, mut apart) = (Ring::new(signers), rehearsals(alloc, count)?);
    let keys = first_keys(alloc, &mut together)?;
    if keys != first_keys(alloc, &mut apart)? {
        bail!("another key");
    }
    let jobs = jobs_of(alloc, &keys, words)?;
    let copied = Vec::from_slice(alloc, &jobs)?;
    let told = match together.for_all(rt, alloc, jobs) {
        Ok(all) => compared(alloc, &all, &mut apart, &copied)?,
        Err(fault) => format!(in alloc; "{fault}")?,
    };
    let counts = counts(alloc, &mut together)?;
    Ok(format!(in alloc; "{told}; keys{counts}")?)
}

/// What such signers answer to jobs at the same time.
pub fn stops<R: Threads + Sync>(rt: &R, alloc: Global, kinds: &str, words: &str) -> Result<String> {
    let mut signers: Vec<Box<dyn Signer + Send>> = Vec::new(alloc);
    let mut start: u8 = 0;
    for kind in kinds.split(',') {
        match kind.strip_prefix('m') {
            Some(fails) => {
                let fails = numbers_of(alloc, fails, ';')?;
                let signer = MemorySigner::new(alloc, [start; 32], fails);
                signers.push(Box::new(alloc, signer)?)?;
            }
            None => signers.push(Box::new(alloc, Rehearsal::new([start; 32]))?)?,
        }
        start = start.wrapping_add(1);
    }
    told(rt, alloc, signers, start, words)
}
