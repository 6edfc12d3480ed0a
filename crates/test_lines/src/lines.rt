//! Cases of commands: as records and before the verdict. Each line is one, and its
//! answer is printed behind its name.
//!
//! A line has the case's name, the call and its arguments, with tabs between them. Origins stand with
//! `;` between them, bytes that are no text in hex. The file `stdout` beside `src` has the answers of
//! other programs and of the rules, never this one's own.

mod books;
mod origin_texts;
mod records;

use anyhow::{Context, Result, bail};
use std::alloc::Global;
use test_support::first_field;

pub fn print_case(rt: &HostRuntime, line: &str) -> Result<()> {
    let (name, rest) = first_field(line)?;
    let (call, arguments) = first_field(rest)?;
    let answer = answer(rt.alloc(), call, arguments).context(format_args!("{name}"))?;
    println!(rt; "{name}\t{answer}")?;
    Ok(())
}

fn answer(alloc: Global, call: &str, arguments: &str) -> Result<String> {
    match call {
        "record" => records::read_record(alloc, arguments),
        "record of" => records::written(alloc, arguments),
        "fronts" => records::read_fronts(alloc, arguments),
        "origins" => books::listed(alloc, arguments),
        "book" => books::taken(alloc, arguments),
        _ => bail!("an unknown call"),
    }
}
