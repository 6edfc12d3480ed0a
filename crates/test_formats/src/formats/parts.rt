//! What objects have in common.

use crate::formats::objects::{refused, whole};
use crate::formats::times::moment_of;
use anyhow::{Result, bail};
use std::alloc::Global;
use test_support::{bytes_of, digits_of};

/// The answer to a call.
pub fn answer(alloc: Global, call: &str, first: &str, second: &str) -> Result<String> {
    match call {
        "time" => time(alloc, first),
        "period" => period(alloc, first),
        "name" => name(alloc, first),
        "extension" => extension(alloc, first, second),
        "critical_extension" => critical_extension(alloc, first, second),
        "signed" => signed(alloc, first),
        "key_info" => key_info(alloc, first),
        "push_time" => push_time(alloc, first),
        "push_name" => push_name(alloc, first),
        _ => bail!("an unknown call: {call}"),
    }
}

/// The time in front, and where it ends.
pub fn time(alloc: Global, digits: &str) -> Result<String> {
    let bytes = bytes_of(alloc, digits)?;
    match object_parts::time(whole(&bytes)?) {
        Ok((seconds, rest)) => Ok(format!(in alloc; "{seconds} to {}", rest.at)?),
        Err(fault) => refused(alloc, fault),
    }
}

/// The period in front, and where it ends.
pub fn period(alloc: Global, digits: &str) -> Result<String> {
    let bytes = bytes_of(alloc, digits)?;
    match object_parts::period(whole(&bytes)?) {
        Ok(((from, to), rest)) => Ok(format!(in alloc; "{from} {to} to {}", rest.at)?),
        Err(fault) => refused(alloc, fault),
    }
}

/// The identifier whose name is in front, and where it ends.
pub fn name(alloc: Global, digits: &str) -> Result<String> {
    let bytes = bytes_of(alloc, digits)?;
    match object_parts::name(whole(&bytes)?) {
        Ok(found) => {
            let key = digits_of(alloc, &found.0)?;
            Ok(format!(in alloc; "{key} to {}", found.1.at)?)
        }
        Err(fault) => refused(alloc, fault),
    }
}

/// The value of the extension with that identifier, and where the extension ends.
pub fn extension(alloc: Global, oid: &str, digits: &str) -> Result<String> {
    let (oid, bytes) = (bytes_of(alloc, oid)?, bytes_of(alloc, digits)?);
    match object_parts::extension(whole(&bytes)?, &oid) {
        Ok((value, rest)) => {
            let found = digits_of(alloc, value.bytes)?;
            Ok(format!(in alloc; "{found} at {} to {}", value.at, rest.at)?)
        }
        Err(fault) => refused(alloc, fault),
    }
}

/// The same of a critical one.
pub fn critical_extension(alloc: Global, oid: &str, digits: &str) -> Result<String> {
    let (oid, bytes) = (bytes_of(alloc, oid)?, bytes_of(alloc, digits)?);
    match object_parts::critical_extension(whole(&bytes)?, &oid) {
        Ok((value, rest)) => {
            let found = digits_of(alloc, value.bytes)?;
            Ok(format!(in alloc; "{found} at {} to {}", value.at, rest.at)?)
        }
        Err(fault) => refused(alloc, fault),
    }
}

/// How many bytes are signed, where their content stands, and the first bytes of the signature.
pub fn signed(alloc: Global, digits: &str) -> Result<String> {
    let bytes = bytes_of(alloc, digits)?;
    match object_parts::signed(whole(&bytes)?) {
        Ok(parts) => {
            let signature = digits_of(alloc, &parts.signature[..4])?;
            let (count, at) = (parts.whole.len(), parts.content.at);
            Ok(format!(in alloc; "{count} bytes, content at {at}, signature {signature}")?)
        }
        Err(fault) => refused(alloc, fault),
    }
}

/// The first bytes of the key in front, and where it ends.
pub fn key_info(alloc: Global, digits: &str) -> Result<String> {
    let bytes = bytes_of(alloc, digits)?;
    match object_parts::key_info(whole(&bytes)?) {
        Ok(found) => {
            let front = digits_of(alloc, &found.0[..12])?;
            Ok(format!(in alloc; "{front} to {}", found.1.at)?)
        }
        Err(fault) => refused(alloc, fault),
    }
}

/// The element of a time.
pub fn push_time(alloc: Global, digits: &str) -> Result<String> {
    let seconds = moment_of(digits)?;
    let mut out = Vec::new(alloc);
    object_parts::push_time(alloc, &mut out, seconds)?;
    Ok(digits_of(alloc, &out)?)
}

/// The name of an identifier.
pub fn push_name(alloc: Global, digits: &str) -> Result<String> {
    let Ok(key) = <[u8; 20]>::try_from(bytes_of(alloc, digits)?.as_slice()) else {
        bail!("no identifier: {digits}");
    };
    let mut out = Vec::new(alloc);
    object_parts::push_name(alloc, &mut out, &key)?;
    Ok(digits_of(alloc, &out)?)
}
