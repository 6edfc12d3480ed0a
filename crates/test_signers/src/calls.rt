//! Cases of calls on a ring's signers and of positions under keys: a line a case, its fields separated
//! by tabs. The name and the answers are printed.
//!
//! `calls`, the calls that fail of each of two signers, and calls: `make` and a signer; `sign`, a signer,
//! the signer whose last key it is, and bytes; `once`, a signer and bytes. Behind each signature stands
//! whether the ring vouches for it over the bytes, and over these with one more.
//! `positions`, positions each behind the last byte of its key, and a key: what is first under it, and
//! all.

mod calls;
mod positions;

use anyhow::{Result, bail};
use std::alloc::Global;

fn answer(alloc: Global, fields: &[&str]) -> Result<String> {
    match fields {
        [_, "calls", first, second, script] => calls::run(alloc, first, second, script),
        [_, "positions", listed, key] => positions::run(alloc, listed, key),
        _ => bail!("no such case"),
    }
}

/// Prints the answer to the case of a line.
pub fn print_case(rt: &HostRuntime, line: &str) -> Result<()> {
    let alloc = rt.alloc();
    let fields: Vec<&str> = line.split('\t').collect(alloc)?;
    let name = fields.first().copied().unwrap_or("");
    let answer = answer(alloc, &fields)?;
    println!(rt; "{name}\t{answer}")?;
    Ok(())
}
