//! A program that times what is written and read in DER: elements and an extension, and signed objects
//! with their certificates. Its modules say what each prints.
#![tactic(auto)]

mod elements;
mod objects;

use anyhow::{Context, Result, bail};
use std::env;

const USAGE: &str = "usage: bench_formats small | elements times | objects times";

fn main(rt: HostRuntime) -> Result<()> {
    let mut words = env::args(&rt)?;
    let _program = words.next();
    let part = words.next().context(USAGE)?;
    match (part.as_str(), words.next()) {
        ("small", None) => small(&rt),
        (part, Some(word)) => measure(&rt, part, word.as_str()),
        _ => bail!("{USAGE}"),
    }
}

/// Does all of it once, on little, and prints no times.
fn small(rt: &HostRuntime) -> Result<()> {
    elements::work::print_sizes(rt)?;
    objects::timing::small(rt, 256)
}

fn measure(rt: &HostRuntime, part: &str, word: &str) -> Result<()> {
    match (part, word) {
        ("elements", "times") => elements::work::print_times(rt),
        ("objects", "times") => objects::timing::times(rt, 65_536, 5),
        _ => bail!("{USAGE}"),
    }
}
