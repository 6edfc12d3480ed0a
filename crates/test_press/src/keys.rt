//! Cases of the keys of an edition and of the entries of its CRLs. Each line is one: its name, what
//! is tried, and its fields, with tabs between them; a list's items have `|` between them, an item's fields `;`.

mod fields;
mod keys;
mod lists;

use anyhow::{Result, bail};
use std::alloc::Global;

fn answer(alloc: Global, fields: &[&str]) -> Result<String> {
    match fields {
        [_, "keys", start, before, desks, rows] => keys::made(alloc, start, before, desks, rows),
        [_, "rows", roles, dropped, rows] => keys::kept(alloc, roles, dropped, rows),
        [_, "revoked", entries] => keys::revoked(alloc, entries),
        _ => bail!("no such case"),
    }
}

/// The name of a case, and its answer.
pub fn told(alloc: Global, line: &str) -> Result<String> {
    let fields: Vec<&str> = line.split('\t').collect(alloc)?;
    let name = fields.first().copied().unwrap_or("");
    let answer = answer(alloc, &fields)?;
    Ok(format!(in alloc; "{name}\t{answer}")?)
}
