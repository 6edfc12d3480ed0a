//! Records, written and read.

use crate::lines::origin_texts::{command_of, push_command};
use anyhow::Result;
use std::alloc::Global;

/// The record of the command, in hex.
pub fn written(alloc: Global, command: &str) -> Result<String> {
    let record = cmd_codec::write(alloc, &command_of(alloc, command)?)?;
    Ok(hex::encode(alloc, &record)?)
}

/// The command whose record this is, or where it is bad.
pub fn read_record(alloc: Global, record: &str) -> Result<String> {
    let mut text = String::new(alloc);
    push_reading(alloc, &mut text, &hex::decode(alloc, record)?)?;
    Ok(text)
}

/// Where each front of the record is bad, from none of its bytes to all but one.
pub fn read_fronts(alloc: Global, record: &str) -> Result<String> {
    let record = hex::decode(alloc, record)?;
    let mut text = String::new(alloc);
    for len in 0..record.len() {
        push_reading(alloc, &mut text, &record[..len])?;
    }
    Ok(text)
}

fn push_reading(alloc: Global, text: &mut String, record: &[u8]) -> Result<()> {
    match cmd_codec::read(alloc, record) {
        Ok(command) => push_command(alloc, text, &command),
        Err(fault) => Ok(write!(text, " {fault:?}")?),
    }
}
