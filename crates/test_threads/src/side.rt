//! Jobs for signers that work at the same time: a line is a case, and what its signers answered is printed.
//!
//! The fields stand between blanks. `meet` has how many jobs each of two signers gets, which do their first one
//! only while the other is at its own. `alike` has how many signers for rehearsals there are, and jobs, each a
//! letter and the number of its signer: `s` signs with that signer's key, `o` with a new one. Another ring of such
//! signers does them one by one. `stops` has the signers, with commas between them, and such jobs: a signer is `r` for
//! rehearsals, or `m` in memory with the numbers of the calls that fail, with semicolons between them.

mod alike;
mod meeting;
mod stops;

use crate::side::alike::alike;
use crate::side::meeting::meet;
use crate::side::stops::stops;
use anyhow::{Context, Result, bail};
use std::alloc::Global;
use std::thread::Threads;

/// The answer to the case of a line.
pub fn answer<R: Threads + Sync>(rt: &R, alloc: Global, line: &str) -> Result<String> {
    let (name, fields) = line.split_once(' ').context("no fields")?;
    match name {
        "meet" => meet(rt, alloc, fields.parse::<u32>()?),
        "alike" => {
            let (signers, jobs) = fields.split_once(' ').context("no jobs")?;
            alike(rt, alloc, signers.parse::<u8>()?, jobs)
        }
        "stops" => {
            let (kinds, jobs) = fields.split_once(' ').context("no jobs")?;
            stops(rt, alloc, kinds, jobs)
        }
        _ => bail!("no such case"),
    }
}
