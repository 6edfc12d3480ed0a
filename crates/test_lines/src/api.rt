//! Cases of lines and replies. Each line is one, and its answer is printed behind
//! its name.
//!
//! A line has the case's name, the call and its arguments, with tabs between them. The file `stdout`
//! beside `src` has the answers of other programs and of the rules, never this one's own.

mod lines;
mod publications;
mod replies;
mod shown;
mod texts;

use anyhow::{Context, Result};
use std::alloc::Global;
use test_support::first_field;

pub fn print_case(rt: &HostRuntime, line: &str) -> Result<()> {
    let (name, rest) = first_field(line)?;
    let (call, arguments) = first_field(rest)?;
    let answer = answer(rt.alloc(), call, arguments).context(format_args!("{name}"))?;
    println!(rt; "{name}\t{answer}")?;
    Ok(())
}

fn answer(alloc: Global, call: &str, arguments: &str) -> Result<String> {
    match call {
        "line" => lines::read(alloc, arguments.as_bytes()),
        "line in hex" => lines::read(alloc, &hex::decode(alloc, arguments)?),
        "line in parts" => lines::read_parts(alloc, arguments),
        _ => replies::answer(alloc, call, arguments),
    }
}
