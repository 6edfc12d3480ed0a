//! Cases of formats of DER.
//!
//! Each line is a case: its name, a call, and up to three arguments, with tabs
//! between them. For each the name and the answer are printed. The files `stdin` and `stdout` beside
//! `src` are what an independent model and openssl made.

mod elements;
mod objects;
mod parts;
mod resources;
mod times;

use anyhow::{Result, bail};
use std::alloc::Global;

/// Prints the answer to the case of a line.
pub fn print_case(rt: &HostRuntime, line: &str) -> Result<()> {
    let mut fields = line.split('\t');
    let (Some(name), Some(call)) = (fields.next(), fields.next()) else {
        bail!("a line without a name or a call");
    };
    let first = fields.next().unwrap_or("");
    let second = fields.next().unwrap_or("");
    let third = fields.next().unwrap_or("");
    let answer = answer(rt.alloc(), call, first, second, third)?;
    println!(rt; "{name}\t{answer}")?;
    Ok(())
}

/// The answer to a call.
fn answer(alloc: Global, call: &str, first: &str, second: &str, third: &str) -> Result<String> {
    let Some((crate_name, call)) = call.split_once(' ') else {
        bail!("a call without its crate: {call}");
    };
    match crate_name {
        "der" => elements::answer(alloc, call, first, second, third),
        "moments" => times::answer(alloc, call, first, second),
        "res_ext" => resources::answer(alloc, call, first, second),
        "der_forms" => objects::answer(alloc, call, first),
        "object_parts" => parts::answer(alloc, call, first, second),
        _ => bail!("an unknown crate: {crate_name}"),
    }
}
