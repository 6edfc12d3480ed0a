//! Cases of publications: commands to the authorities of a tree, and the editions that a press makes of them at given
//! clocks. Each line is a case, and its answers are printed behind its name. The file `stdout`
//! beside `src` has the answers of an independent program, or counts that the rules give, never this one's own.

mod audits;
mod desks;
mod exports;
mod gathering;
mod hours;
mod numbered;
mod shown;
mod signers;
mod stage;
mod steps;
mod superseded;
mod times;
mod trials;

use anyhow::{Context, Result, bail};
use std::alloc::Global;
use std::thread::Threads;
use std::time::CpuClock;

/// The answers to a case: the kind of the signers, the starts, the numbers of calls that fail, and the steps.
fn answer<R: Threads + Sync + CpuClock>(rt: &R, alloc: Global, fields: &[&str]) -> Result<String> {
    match fields {
        [_, "Rehearsal", starts, _, steps @ ..] => {
            steps::answers(rt, alloc, signers::rehearsals(alloc, starts)?, steps)
        }
        [_, "MemorySigner", start, fails, steps @ ..] => {
            steps::answers(rt, alloc, signers::in_memory(alloc, start, fails)?, steps)
        }
        _ => bail!("no such signers"),
    }
}

/// The name of a case, and its answers.
pub fn told<R: Threads + Sync + CpuClock>(rt: &R, alloc: Global, line: &str) -> Result<String> {
    let fields: Vec<&str> = line.split('\t').collect(alloc)?;
    let name = fields.first().copied().unwrap_or("");
    let answer = answer(rt, alloc, &fields).context(format_args!("{name}"))?;
    Ok(format!(in alloc; "{name}{answer}")?)
}
