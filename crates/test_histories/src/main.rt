//! Cases of histories: what is done to the desks of a tree, over disks that fail and are opened again, and to its press.
//!
//! A line of standard input is a case: its name and its steps, with tabs between them. Each case's answer is printed behind
//! its name.
#![tactic(auto)]

mod desks;
mod done;
mod press;
mod script;
mod store;

use anyhow::{Context, Result};
use std::alloc::Global;
use std::thread::Threads;

fn main(rt: HostRuntime) -> Result<()> {
    for line in rt.lines(rt.alloc()) {
        let told = told(&rt, rt.alloc(), line?.as_str())?;
        println!(rt; "{told}")?;
    }
    Ok(())
}

/// The name of a case, and its answer.
fn told<R: Threads + Sync>(rt: &R, alloc: Global, line: &str) -> Result<String> {
    let (name, steps) = line.split_once('\t').context("a case without steps")?;
    let answer = script::answer(rt, alloc, steps).context(format_args!("{name}"))?;
    Ok(format!(in alloc; "{name}{answer}")?)
}
