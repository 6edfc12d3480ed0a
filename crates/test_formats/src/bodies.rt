//! Cases of the bodies of ROAs and manifests.
//!
//! Each line is a case: its name, a call, and up to two arguments, with tabs between
//! them. For each the name and the answer are printed. The files `stdin` and `stdout` beside `src` come
//! from an independent model, and the places of faults from an independent reading.

mod manifests;
mod places;
mod roas;

use crate::bodies::places::BodyProbe;
use anyhow::{Result, bail};
use std::alloc::Global;
use test_support::{bytes_of, changes, cuts};

/// Prints the answer to the case of a line.
pub fn print_case(rt: &HostRuntime, line: &str) -> Result<()> {
    let mut fields = line.split('\t');
    let (Some(name), Some(call)) = (fields.next(), fields.next()) else {
        bail!("a line without a name or a call");
    };
    let first = fields.next().unwrap_or("");
    let second = fields.next().unwrap_or("");
    let answer = answer(rt.alloc(), call, first, second)?;
    println!(rt; "{name}\t{answer}")?;
    Ok(())
}

/// The answer to a call.
fn answer(alloc: Global, call: &str, first: &str, second: &str) -> Result<String> {
    match call {
        "write roa" => roas::write(alloc, first, second),
        "read roa" => roas::read(alloc, first),
        "write manifest" => manifests::write(alloc, first, second),
        "read manifest" => manifests::read(alloc, first),
        "cuts roa" => cuts(alloc, &BodyProbe::Roa, &bytes_of(alloc, first)?),
        "cuts manifest" => cuts(alloc, &BodyProbe::Manifest, &bytes_of(alloc, first)?),
        "changes roa" => changes(alloc, &BodyProbe::Roa, bytes_of(alloc, first)?),
        "changes manifest" => changes(alloc, &BodyProbe::Manifest, bytes_of(alloc, first)?),
        _ => bail!("an unknown call: {call}"),
    }
}
