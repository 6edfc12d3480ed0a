//! What is written or read, as a case prints it.

use anyhow::{Result, bail};
use rrdp_text::{read_delta, read_snapshot};
use std::alloc::Global;
use test_support::{changes_text, set_text};

/// The text on one line. It fills the memory that was reserved for it.
pub fn written(alloc: Global, text: &String) -> Result<String> {
    if text.capacity() != text.len() {
        bail!("{} bytes in {}", text.len(), text.capacity());
    }
    Ok(text.as_str().replace(alloc, "\n", "␊")?)
}

/// What is read as a snapshot.
pub fn snapshot_said(alloc: Global, bytes: &[u8]) -> Result<String> {
    match read_snapshot(alloc, bytes) {
        Ok(file) => {
            let session = file.session.hyphenated();
            let serial = file.serial;
            let set = set_text(alloc, file.set.as_slice())?;
            Ok(format!(in alloc; "{session}\t{serial}\t{set}")?)
        }
        Err(fault) => Ok(format!(in alloc; "{fault:?}")?),
    }
}

/// What is read as a delta.
pub fn delta_said(alloc: Global, bytes: &[u8]) -> Result<String> {
    match read_delta(alloc, bytes) {
        Ok(file) => {
            let session = file.session.hyphenated();
            let serial = file.serial;
            let changes = changes_text(alloc, file.changes.as_slice())?;
            Ok(format!(in alloc; "{session}\t{serial}\t{changes}")?)
        }
        Err(fault) => Ok(format!(in alloc; "{fault:?}")?),
    }
}
