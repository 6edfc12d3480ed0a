//! Numbers and addresses, read and printed.

use anyhow::Result;
use ip_text::{push_ipv4, push_ipv6, read_as_number, read_ipv4, read_ipv6, read_saturating};
use std::alloc::Global;

/// The number that the text writes, or `none`.
pub fn number(alloc: Global, text: &str) -> Result<String> {
    match read_saturating(text.as_bytes()) {
        Some(number) => Ok(format!(in alloc; "{number}")?),
        None => none(alloc),
    }
}

/// The AS number that the text writes, or `none`.
pub fn as_number(alloc: Global, text: &str) -> Result<String> {
    match read_as_number(text.as_bytes()) {
        Some(number) => Ok(format!(in alloc; "{number}")?),
        None => none(alloc),
    }
}

/// The address as a number and as it is printed, or `none`.
pub fn ipv4(alloc: Global, text: &str) -> Result<String> {
    let Some(address) = read_ipv4(text.as_bytes()) else {
        return none(alloc);
    };
    let mut answer = format!(in alloc; "{address}\t")?;
    push_ipv4(&mut answer, address)?;
    Ok(answer)
}

/// The address as a number and as it is printed, or `none`.
pub fn ipv6(alloc: Global, text: &str) -> Result<String> {
    let Some(address) = read_ipv6(text.as_bytes()) else {
        return none(alloc);
    };
    let mut answer = format!(in alloc; "{address}\t")?;
    push_ipv6(&mut answer, address)?;
    Ok(answer)
}

fn none(alloc: Global) -> Result<String> {
    Ok(String::from_str(alloc, "none")?)
}
