//! Cases of numbers, addresses, origins and sets: each line is one, and its answer
//! is printed behind its name.
//!
//! A line has the case's name, the call and its arguments, with tabs between them. The last argument
//! is a text, in which `␉` stands for a tab and `␊` for a line feed. The file `stdout` beside `src`
//! has the answers of other programs and of the standards, never this one's own.

mod built;
mod numbers;
mod route_origins;
mod sets;

use anyhow::{Context, Result, bail};
use std::alloc::Global;
use test_support::first_field;

pub fn print_case(rt: &HostRuntime, line: &str) -> Result<()> {
    let (name, rest) = first_field(line)?;
    let (call, arguments) = first_field(rest)?;
    let answer = answer(rt.alloc(), call, arguments).context(format_args!("{name}"))?;
    println!(rt; "{name}\t{answer}")?;
    Ok(())
}

fn answer(alloc: Global, call: &str, arguments: &str) -> Result<String> {
    match call {
        "number" => numbers::number(alloc, arguments),
        "as number" => numbers::as_number(alloc, arguments),
        "ipv4" => numbers::ipv4(alloc, arguments),
        "ipv6" => numbers::ipv6(alloc, arguments),
        "origin" => route_origins::read(alloc, arguments),
        "prefix" => route_origins::read_prefix(alloc, arguments),
        "all resources" => sets::whole(alloc),
        "no resources" => built::nothing(alloc),
        _ => set_answer(alloc, call, arguments),
    }
}

fn set_answer(alloc: Global, call: &str, arguments: &str) -> Result<String> {
    let (family, texts) = first_field(arguments)?;
    let family = sets::family(family)?;
    match call {
        "set" => sets::read(alloc, family, texts),
        "sorted" => sets::sorted(alloc, family, texts),
        "holds" => sets::holds(alloc, family, texts),
        "pair" => sets::pair(alloc, family, texts),
        "members" => sets::members(alloc, family, texts),
        "pushed" => built::pushed(alloc, family, texts),
        "joined" => built::joined(alloc, family, texts),
        "same" => built::same(alloc, family, texts),
        _ => bail!("an unknown call"),
    }
}

/// The text with its tabs and line feeds.
fn plain_text(alloc: Global, text: &str) -> Result<String> {
    let text = text.replace(alloc, "␉", "\t")?;
    Ok(text.as_str().replace(alloc, "␊", "\n")?)
}
