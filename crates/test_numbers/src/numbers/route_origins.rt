//! Route origins, read and printed.

use crate::numbers::plain_text;
use anyhow::Result;
use origins::{Origin, Prefix, read_origin};
use std::alloc::Global;

/// The origin that the text writes, field by field, or why there is none.
pub fn read(alloc: Global, text: &str) -> Result<String> {
    let text = plain_text(alloc, text)?;
    match read_origin(text.as_str()) {
        Ok(origin) => shown(alloc, &origin),
        Err(fault) => Ok(format!(in alloc; "{fault:?}")?),
    }
}

/// The prefix that the text writes, as family, address and length, or `none`.
pub fn read_prefix(alloc: Global, text: &str) -> Result<String> {
    let text = plain_text(alloc, text)?;
    let Some(prefix) = Prefix::read(text.as_str()) else {
        return Ok(String::from_str(alloc, "none")?);
    };
    let family = if prefix.v6 { "ipv6" } else { "ipv4" };
    let (address, length) = (prefix.address, prefix.length);
    Ok(format!(in alloc; "{family}\t{address}\t{length}")?)
}

// The family, the addresses and the numbers of the origin, its text and its file's name.
fn shown(alloc: Global, origin: &Origin) -> Result<String> {
    let family = if origin.prefix.v6 { "ipv6" } else { "ipv4" };
    let (address, length) = (origin.prefix.address, origin.prefix.length);
    let (first, last) = (origin.prefix.first(), origin.prefix.last());
    let (max, asn) = (origin.max, origin.asn);
    let (text, name) = (origin.text(alloc)?, origin.file_name(alloc)?);
    let numbers = format!(in alloc; "{family}\t{address}\t{length}\t{max}\t{asn}")?;
    Ok(format!(in alloc; "{numbers}\t{first}\t{last}\t{text}\t{name}")?)
}
