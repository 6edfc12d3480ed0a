//! Cases of trees of authorities: commands before the verdict, what the accepted ones come to, and
//! what the authorities of a tree are certified for. Each line is one, and its
//! answer is printed behind its name.
//!
//! A line has the case's name, the call and its arguments, with tabs between them. Commands stand with
//! `|` between them, a command's fields with `;`, its origins with `,`. The file `stdout` beside `src`
//! has the answers of an independent program, never this one's own.

mod books;
mod commands;
mod trees;

use anyhow::{Context, Result, bail};
use std::alloc::Global;
use test_support::split_field;

pub fn print_case(rt: &HostRuntime, line: &str) -> Result<()> {
    let (name, rest) = split_field(line, '\t')?;
    let (call, arguments) = split_field(rest, '\t')?;
    let answer = answer(rt.alloc(), call, arguments).context(format_args!("{name}"))?;
    println!(rt; "{name}\t{answer}")?;
    Ok(())
}

fn answer(alloc: Global, call: &str, arguments: &str) -> Result<String> {
    match call {
        "verdicts" => books::taken(alloc, arguments),
        "tree" => trees::entitled(alloc, arguments),
        _ => bail!("no such call"),
    }
}
