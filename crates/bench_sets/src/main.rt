//! A program that times sets: of numbers, of objects, of what comes down a tree of authorities, and RRDP's
//! snapshots of sets of objects and their export. Its modules say what each prints.
#![tactic(auto)]

mod published;
mod rrdp;
mod sets;
mod tree;

use anyhow::{Context, Result, bail};
use std::env;

// How many turns what comes down a tree is timed, and updates in each.
const TURNS: u32 = 21;

const UPDATES: u32 = 20_000;

const USAGE: &str =
    "usage: bench_sets small | sets texts|merges|reading | published times | tree times|updates | rrdp set|write|read | export FOLDER";

fn main(rt: HostRuntime) -> Result<()> {
    let mut words = env::args(&rt)?;
    let _program = words.next();
    let part = words.next().context(USAGE)?;
    match (part.as_str(), words.next()) {
        ("small", None) => small(&rt),
        (part, Some(word)) => measure(&rt, part, word.as_str()),
        _ => bail!("{USAGE}"),
    }
}

/// Does all of it once, on little, and prints no times.
fn small(rt: &HostRuntime) -> Result<()> {
    sets::texts::print_sets(rt)?;
    published::timing::run(rt, 256, 1, false)?;
    tree::timing::small(rt, 16)?;
    rrdp::timing::small(rt)?;
    rrdp::exports::small(rt)
}

fn measure(rt: &HostRuntime, part: &str, word: &str) -> Result<()> {
    match (part, word) {
        ("sets", "texts") => sets::texts::print_sets(rt),
        ("sets", "merges") => sets::timing::time_merges(rt),
        ("sets", "reading") => sets::timing::time_reading(rt),
        ("published", "times") => published::timing::run(rt, 65_536, 9, true),
        ("tree", "times") => tree::timing::tree(rt, TURNS),
        ("tree", "updates") => tree::timing::updates(rt, TURNS, UPDATES),
        ("rrdp", "set") => rrdp::timing::make(rt),
        ("rrdp", "write") => rrdp::timing::time_writing(rt),
        ("rrdp", "read") => rrdp::timing::time_reading(rt),
        ("export", folder) => rrdp::exports::time_exports(rt, folder),
        _ => bail!("{USAGE}"),
    }
}
