//! The signers of a case.

use anyhow::Result;
use signer_api::{MemorySigner, Rehearsal};
use std::alloc::Global;
use test_support::{fixed_of, number_of};

/// A signer for rehearsals for each start. The starts stand between blanks.
pub fn rehearsals(alloc: Global, starts: &str) -> Result<Vec<Rehearsal>> {
    let mut signers = Vec::new(alloc);
    for start in starts.split(' ') {
        signers.push(Rehearsal::new(fixed_of(alloc, start)?))?;
    }
    Ok(signers)
}

/// One signer that remembers what it signed, and whose call of that number fails.
pub fn in_memory(alloc: Global, start: &str, fails: &str) -> Result<Vec<MemorySigner>> {
    let mut calls = Vec::new(alloc);
    calls.push(number_of(fails)?)?;
    let mut signers = Vec::new(alloc);
    signers.push(MemorySigner::new(alloc, fixed_of(alloc, start)?, calls))?;
    Ok(signers)
}
