//! Whole runs over disks and streams in memory: each line of standard input is a case, and what its
//! runs leave is printed behind its name.
//!
//! A line has the case's name and then steps, with tabs between them. A step is a word, and behind a
//! blank what goes with it (`steps.rt` has them all). The file `stdout` beside `src` has what the rules
//! say, never this program's own answers.
#![tactic(auto)]

mod bench;
mod steps;

use anyhow::{Context, Result};
use bench::Bench;
use std::sync::Wait;
use std::thread::Threads;

fn main(rt: HostRuntime) -> Result<()> {
    for line in rt.lines(rt.alloc()) {
        print_case(&rt, &rt, line?.as_str())?;
    }
    Ok(())
}

fn print_case<R: Threads + Wait + Sync>(rt: &HostRuntime, handle: &R, line: &str) -> Result<()> {
    let (name, steps) = line.split_once('\t').context("a case without steps")?;
    let mut bench = Bench::new(rt.alloc())?;
    for step in steps.split('\t') {
        steps::take(handle, rt.alloc(), &mut bench, step).context(format_args!("{name}: {step}"))?;
    }
    let told = bench.told();
    println!(rt; "{name}{told}")?;
    Ok(())
}
