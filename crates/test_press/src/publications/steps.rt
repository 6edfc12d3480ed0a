//! The steps of a case.
//!
//! A step is a line with a command, or one of these:
//! - `add COUNT`, `remove COUNT`: the trust anchor's first so many numbered origins;
//! - `publish CLOCK`: an edition, of which the numbers and the digest of the set are printed;
//! - `count CLOCK`: the same without the digest;
//! - `listed CLOCK`: as `publish`, and how many entries the new CRLs have, which are looked at in each edition so far;
//! - `changes`: the changes of the last edition are printed;
//! - `outlet NUMBER`: an outlet without a file, of which the call of that number fails;
//! - `export`: the last edition is exported, and what the outlet shows is printed;
//! - `hours COUNT CLOCK`: so many editions, one each hour;
//! - `times CLOCK`: an edition, of which the processor's time is printed.

use crate::publications::stage::Stage;
use anyhow::{Context, Result, bail};
use signer_api::Signer;
use std::alloc::Global;
use std::thread::Threads;
use std::time::CpuClock;
use test_support::number_of;

/// A step that is no line with a command.
#[derive(Clone, Copy)]
enum Step {
    Add { count: u64 },
    Remove { count: u64 },
    Publish { clock: u64 },
    Count { clock: u64 },
    Listed { clock: u64 },
    Changes,
    Outlet { fails: u64 },
    Export,
    Hours { count: u64, clock: u64 },
    Times { clock: u64 },
}

fn read(words: &[&str]) -> Result<Step> {
    match words {
        ["changes"] => Ok(Step::Changes),
        ["export"] => Ok(Step::Export),
        [word, number] => read_one(word, number_of(number)?),
        ["hours", count, clock] => Ok(Step::Hours {
            count: number_of(count)?,
            clock: number_of(clock)?,
        }),
        _ => bail!("no such step"),
    }
}

// A step with one number.
fn read_one(word: &str, number: u64) -> Result<Step> {
    match word {
        "add" => Ok(Step::Add { count: number }),
        "remove" => Ok(Step::Remove { count: number }),
        "publish" => Ok(Step::Publish { clock: number }),
        "count" => Ok(Step::Count { clock: number }),
        "listed" => Ok(Step::Listed { clock: number }),
        "times" => Ok(Step::Times { clock: number }),
        "outlet" => Ok(Step::Outlet { fails: number }),
        _ => bail!("no such step: {word}"),
    }
}

/// What the steps come to, each answer behind a tab.
pub fn answers<S: Signer + Send, R: Threads + Sync + CpuClock>(
    rt: &R,
    alloc: Global,
    signers: Vec<S>,
    steps: &[&str],
) -> Result<String> {
    let mut stage = Stage::new(alloc, signers)?;
    let mut text = String::new(alloc);
    for step in steps {
        let told = told(rt, alloc, &mut stage, step).context(format_args!("{step}"))?;
        if !told.is_empty() {
            write!(text, "\t{told}")?;
        }
    }
    Ok(text)
}

// What a step comes to, and nothing where it tells nothing.
fn told<S: Signer + Send, R: Threads + Sync + CpuClock>(
    rt: &R,
    alloc: Global,
    stage: &mut Stage<S>,
    step: &str,
) -> Result<String> {
    if step.starts_with("{") {
        stage.take_line(alloc, step)?;
        return Ok(String::new(alloc));
    }
    let words: Vec<&str> = step.split(' ').collect(alloc)?;
    match read(&words)? {
        Step::Add { count } => stage.add(alloc, count),
        Step::Remove { count } => stage.remove(alloc, count),
        Step::Publish { clock } => stage.publish(rt, alloc, clock),
        Step::Count { clock } => stage.count(rt, alloc, clock),
        Step::Listed { clock } => stage.listed(rt, alloc, clock),
        Step::Changes => stage.changes(alloc),
        Step::Outlet { fails } => stage.set_outlet(alloc, fails),
        Step::Export => stage.export(alloc),
        Step::Hours { count, clock } => stage.hours(rt, alloc, count, clock),
        Step::Times { clock } => stage.times(rt, alloc, clock),
    }
}
