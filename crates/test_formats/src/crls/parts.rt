//! The arguments of cases.

use anyhow::{Context, Result};
use crl_obj::CrlEntry;
use std::alloc::Global;
use test_support::number_of;

/// A serial, a colon and a time.
fn entry_of(text: &str) -> Result<CrlEntry> {
    let (serial, revoked_at) = text.split_once(':').context("an entry without its time")?;
    Ok(CrlEntry {
        serial: number_of(serial)?,
        revoked_at: number_of(revoked_at)?,
    })
}

/// Entries with commas between them.
pub fn entries_of(alloc: Global, text: &str) -> Result<Vec<CrlEntry>> {
    let mut entries = Vec::new(alloc);
    if !text.is_empty() {
        for part in text.split(',') {
            entries.push(entry_of(part)?)?;
        }
    }
    Ok(entries)
}
