//! Files as a case spells them.

use anyhow::{Context, Result};
use rrdp_text::{DeltaRef, FileRef};
use std::alloc::Global;
use test_support::{read_hash, read_uri};

/// The files of deltas, each `SERIAL=URI=HASH`, or nothing.
pub fn read_deltas(alloc: Global, text: &str) -> Result<Vec<DeltaRef>> {
    let mut deltas = Vec::new(alloc);
    if text.is_empty() {
        return Ok(deltas);
    }
    for part in text.split(' ') {
        deltas.push(read_delta(alloc, part)?)?;
    }
    Ok(deltas)
}

fn read_delta(alloc: Global, text: &str) -> Result<DeltaRef> {
    let (serial, file) = text.split_once('=').context("no serial")?;
    Ok(DeltaRef {
        serial: serial.parse()?,
        file: read_file(alloc, file)?,
    })
}

/// A file, `URI=HASH`.
pub fn read_file(alloc: Global, text: &str) -> Result<FileRef> {
    let (uri, hash) = text.split_once('=').context("a file without hash")?;
    Ok(FileRef {
        uri: read_uri(alloc, uri)?,
        hash: read_hash(hash)?,
    })
}
