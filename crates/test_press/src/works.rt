//! Cases of an edition's work: the objects that are made of it, and the rows and changes that they come to. Each
//! line is one, and its answer is printed behind its name. The file `stdout` beside `src` has the answers
//! of an independent program, never this one's own.

mod anchor;
mod answers;
mod fields;

use crate::works::answers::SignerCase;
use anyhow::{Context, Result, bail};
use std::alloc::Global;
use std::thread::Threads;

/// The answer to a case: the moment, the ROA's origin or nothing, the live key or nothing, and the signer.
fn answer<R: Threads + Sync>(rt: &R, alloc: Global, fields: &[&str]) -> Result<String> {
    match fields {
        [_, moment, origin, live, kind, start, fails, before] => {
            let signer = SignerCase {
                kind,
                start,
                fails,
                before,
            };
            answers::made(rt, alloc, moment, origin, live, &signer)
        }
        _ => bail!("another number of fields"),
    }
}

/// The name of a case, and its answer.
pub fn told<R: Threads + Sync>(rt: &R, alloc: Global, line: &str) -> Result<String> {
    let fields: Vec<&str> = line.split('\t').collect(alloc)?;
    let name = fields.first().copied().unwrap_or("");
    let answer = answer(rt, alloc, &fields).context(format_args!("{name}"))?;
    Ok(format!(in alloc; "{name}\t{answer}")?)
}
