//! Outlets: each line is a case, and what its steps answer is printed behind its name.
//!
//! A line has the case's name, what outlet it is over, and then steps, with tabs between them. A step is
//! a word, and behind a blank what goes with it. The file `stdout` beside `src` has what the rules say,
//! never this program's own answers.

mod outlets;
mod steps;

use anyhow::{Context, Result, bail};

pub fn print_case(rt: &HostRuntime, line: &str) -> Result<()> {
    let (name, rest) = line.split_once('\t').context("a case of nothing")?;
    let (outlet, steps) = rest.split_once('\t').context("a case without steps")?;
    let (kind, of) = outlet.split_once(' ').unwrap_or((outlet, ""));
    let told = match kind {
        "memory" => outlets::in_memory(rt.alloc(), of, steps),
        "played" => outlets::played(rt.alloc(), of, steps),
        "folder" => outlets::in_folder(rt, of, steps),
        _ => bail!("a case of an unknown outlet"),
    }
    .context(format_args!("{name}"))?;
    println!(rt; "{name}{told}")?;
    Ok(())
}
