//! The calls.

use crate::records::print::{edition_text, store_text};
use anyhow::{Context, Result, bail};
use key_roll::KeyRow;
use press_records::{
    EditionRecord, GivenEdition, ReadEdition, Recovered, StoreRecord, read_edition, read_store,
};
use record_forms::ReadFault;
use std::alloc::Global;
use test_support::bytes_of;

/// What a line comes to.
pub fn answer(alloc: Global, line: &str) -> Result<String> {
    let (name, rest) = line.split_once('\t').context("no name")?;
    let (call, records) = rest.split_once('\t').context("no call")?;
    let told = match call {
        "store" => store(alloc, records)?,
        "editions" => editions(alloc, records)?,
        _ => bail!("an unknown call: {call}"),
    };
    Ok(format!(in alloc; "{name}\t{told}")?)
}

fn store(alloc: Global, digits: &str) -> Result<String> {
    let bytes = bytes_of(alloc, digits)?;
    match read_store(alloc, &bytes) {
        Ok(found) => {
            let is_same = is_written_so(alloc, &found, &bytes)?;
            store_text(alloc, &found, is_same)
        }
        Err(ReadFault::Bad) => Ok(String::from_str(alloc, "bad")?),
        Err(ReadFault::Memory) => bail!("out of memory"),
    }
}

// Whether the store is written in these bytes.
fn is_written_so(alloc: Global, found: &StoreRecord, bytes: &[u8]) -> Result<bool> {
    Ok(found.write(alloc)?.as_slice() == bytes)
}

fn editions(alloc: Global, records: &str) -> Result<String> {
    let mut recovered = Recovered::new(alloc);
    let mut told = String::new(alloc);
    for digits in records.split('\t') {
        let bytes = bytes_of(alloc, digits)?;
        match read_edition(alloc, &recovered.standing(), &bytes) {
            Ok(found) => {
                let is_same = is_spelled_so(alloc, recovered.standing().rows, &found, &bytes)?;
                told.push_str(edition_text(alloc, &found, is_same)?.as_str())?;
                recovered.advance(alloc, found)?;
            }
            Err(ReadFault::Bad) => {
                told.push_str("bad")?;
                break;
            }
            Err(ReadFault::Memory) => bail!("out of memory"),
        }
    }
    Ok(told)
}

// Whether the edition is written in these bytes over those keys, and so many are told before.
fn is_spelled_so(
    alloc: Global,
    before: &[KeyRow],
    found: &ReadEdition,
    bytes: &[u8],
) -> Result<bool> {
    let given = GivenEdition {
        serial: found.serial,
        moment: found.moment,
        cut: found.cut.as_slice(),
        rows: found.rows.as_slice(),
        changes: found.changes.as_slice(),
    };
    let entry = EditionRecord::new(alloc, before, given)?;
    let mut written = Vec::new(alloc);
    entry.write(&mut written)?;
    Ok(written.as_slice() == bytes && entry.len() == bytes.len() as u64)
}
