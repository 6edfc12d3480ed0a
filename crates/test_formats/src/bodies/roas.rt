//! Bodies of ROAs, read and written.

use anyhow::{Result, bail};
use origins::read_origin;
use payloads::{RoaBody, RoaEntry};
use std::alloc::Global;
use test_support::{bytes_of, digits_of};

/// The entry of an origin.
fn entry_of(text: &str) -> Result<RoaEntry> {
    match read_origin(text) {
        Ok(origin) => Ok(RoaEntry {
            prefix: origin.prefix,
            max: origin.max,
        }),
        Err(_) => bail!("no origin: {text}"),
    }
}

/// The entries of origins with commas between them.
fn entries_of(alloc: Global, list: &str) -> Result<Vec<RoaEntry>> {
    let mut entries = Vec::new(alloc);
    for text in list.split(',') {
        entries.push(entry_of(text)?)?;
    }
    Ok(entries)
}

/// The spelling of the body of the AS and those origins.
pub fn write(alloc: Global, asn: &str, list: &str) -> Result<String> {
    let Ok(asn) = asn.parse() else {
        bail!("no number of an AS: {asn}");
    };
    let entries = entries_of(alloc, list)?;
    let body = RoaBody { asn, entries };
    if !body.has_spelling() {
        bail!("no body: {list}");
    }
    let bytes = body.write(alloc)?;
    Ok(digits_of(alloc, &bytes)?)
}

/// The body that the bytes spell, or why they spell none.
pub fn read(alloc: Global, digits: &str) -> Result<String> {
    match RoaBody::read(alloc, &bytes_of(alloc, digits)?) {
        Ok(body) => printed(alloc, &body),
        Err(fault) => Ok(format!(in alloc; "{fault:?}")?),
    }
}

/// The number of the AS, and the entries with commas between them.
fn printed(alloc: Global, body: &RoaBody) -> Result<String> {
    let mut out = format!(in alloc; "{}:", body.asn)?;
    let mut between = " ";
    for entry in &body.entries {
        let family = if entry.prefix.v6 { 6 } else { 4 };
        let (address, length) = (entry.prefix.address, entry.prefix.length);
        let entry = format!(in alloc; "{between}{family} {address} {length} {}", entry.max)?;
        out.push_str(entry.as_str())?;
        between = ",";
    }
    Ok(out)
}
