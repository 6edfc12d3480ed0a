//! Cases of records: each line is one, and its answer is printed behind its name.
//!
//! A line has the case's name, a tab and a record in hex. The answer is the command that the record
//! spells, how many bytes it has, and whether the command is written as these bytes; or where the
//! record is bad. The file `stdout` beside `src` has the answers of an independent implementation of
//! the rules, never this one's own.

mod commands;

use anyhow::{Context, Result};
use cmd_codec::{read, record_len, write};
use std::alloc::Global;

pub fn print_case(rt: &HostRuntime, line: &str) -> Result<()> {
    let (name, record) = line.split_once('\t').context("a field is missing")?;
    let answer = answer(rt.alloc(), record).context(format_args!("{name}"))?;
    println!(rt; "{name}\t{answer}")?;
    Ok(())
}

fn answer(alloc: Global, record: &str) -> Result<String> {
    let record = hex::decode(alloc, record)?;
    let command = match read(alloc, &record) {
        Ok(command) => command,
        Err(fault) => return Ok(format!(in alloc; "{fault:?}")?),
    };
    let text = commands::text_of(alloc, &command)?;
    let written = write(alloc, &command)?;
    let (len, same) = (
        record_len(&command),
        written.as_slice() == record.as_slice(),
    );
    Ok(format!(in alloc; "{text}\t{len}\t{same}")?)
}
