//! The calls.

use crate::sets::print::reply_text;
use anyhow::{Context, Result, bail};
use pub_set::changes;
use std::alloc::Global;
use test_support::{changes_text, digest_text, read_changes, read_set, set_text};

/// What a line comes to.
pub fn answer(alloc: Global, line: &str) -> Result<String> {
    let (name, rest) = line.split_once('\t').context("no name")?;
    let (call, arguments) = rest.split_once('\t').context("no call")?;
    let told = match call {
        "query" => query(alloc, arguments)?,
        "changes" => delta(alloc, arguments)?,
        "carry" => carry(alloc, arguments)?,
        "copy" => copy(alloc, arguments)?,
        "get" => get(alloc, arguments)?,
        _ => bail!("an unknown call: {call}"),
    };
    Ok(format!(in alloc; "{name}\t{told}")?)
}

fn query(alloc: Global, arguments: &str) -> Result<String> {
    let mut fields = arguments.split('\t');
    let mut set = read_set(alloc, fields.next().context("no set")?)?;
    let mut told = String::new(alloc);
    while let Some(base) = fields.next() {
        let changes = read_changes(alloc, fields.next().context("no changes")?)?;
        let answer = set.query(alloc, base, changes);
        told.push_str(reply_text(alloc, answer)?.as_str())?;
        told.push('\t')?;
        told.push_str(digest_text(alloc, &set)?.as_str())?;
        told.push('\t')?;
    }
    told.push_str(set_text(alloc, set.as_slice())?.as_str())?;
    Ok(told)
}

fn delta(alloc: Global, arguments: &str) -> Result<String> {
    let (old, new) = arguments.split_once('\t').context("one set")?;
    let found = changes(alloc, &read_set(alloc, old)?, &read_set(alloc, new)?)?;
    changes_text(alloc, &found)
}

fn carry(alloc: Global, arguments: &str) -> Result<String> {
    let (old, new) = arguments.split_once('\t').context("one set")?;
    let mut set = read_set(alloc, old)?;
    let found = changes(alloc, &set, &read_set(alloc, new)?)?;
    set.query(alloc, "", found)?;
    set_text(alloc, set.as_slice())
}

fn copy(alloc: Global, arguments: &str) -> Result<String> {
    let set = read_set(alloc, arguments)?;
    let copy = set.copy(alloc)?;
    let mut told = set_text(alloc, copy.as_slice())?;
    told.push('\t')?;
    told.push_str(changes_text(alloc, &changes(alloc, &set, &copy)?)?.as_str())?;
    Ok(told)
}

fn get(alloc: Global, arguments: &str) -> Result<String> {
    let (set, uri) = arguments.split_once('\t').context("no URI")?;
    let set = read_set(alloc, set)?;
    let size = set.len();
    let found = match set.get(uri) {
        Some(bytes) => {
            let bytes = hex::encode(alloc, bytes)?;
            format!(in alloc; "={bytes}")?
        }
        None => String::from_str(alloc, "none")?,
    };
    Ok(format!(in alloc; "{size}\t{found}")?)
}
