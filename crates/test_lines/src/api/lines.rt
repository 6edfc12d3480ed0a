//! Lines, read.

use crate::api::texts::push_command;
use anyhow::{Context, Result, bail};
use json_api::{Line, LineFault, LineReader, fault_into, read_line};
use std::alloc::Global;
use test_support::first_field;

/// What the line says, or the reply to what is no line.
///
/// It is read alone, and once more by a reader that has read it before.
pub fn read(alloc: Global, line: &[u8]) -> Result<String> {
    let alone = shown(alloc, read_line(alloc, line))?;
    let mut reader = LineReader::new(alloc);
    for _ in 0..2 {
        if shown(alloc, reader.read(alloc, line))?.as_str() != alone.as_str() {
            bail!("a reader reads it otherwise");
        }
    }
    Ok(alone)
}

/// The same of texts in hex, each so many times, one behind the other.
pub fn read_parts(alloc: Global, parts: &str) -> Result<String> {
    let mut line = Vec::new(alloc);
    for part in parts.split(';') {
        let (count, text) = part.split_once(' ').context("a count is missing")?;
        let text = hex::decode(alloc, text)?;
        for _ in 0..count.parse::<u32>()? {
            line.extend_from_slice(&text)?;
        }
    }
    read(alloc, &line)
}

fn shown(alloc: Global, line: Result<Line, LineFault>) -> Result<String> {
    match line {
        Ok(line) => said(alloc, &line),
        Err(fault) => refused(alloc, &fault),
    }
}

fn said(alloc: Global, line: &Line) -> Result<String> {
    let mut text = String::new(alloc);
    match line {
        Line::Command { name, command } => {
            text.push_str(name.as_str())?;
            push_command(alloc, &mut text, command)?;
        }
        Line::Publish => text.push_str("publish")?,
        Line::Serial => text.push_str("serial")?,
        Line::Await { serial, looks } => write!(text, "await {serial} {looks}")?,
        Line::List => text.push_str("list")?,
        Line::Show { name } => write!(text, "show {}", name.as_str())?,
        Line::Roas { name } => write!(text, "roas {}", name.as_str())?,
        Line::History { name } => write!(text, "history {}", name.as_str())?,
    }
    Ok(text)
}

fn refused(alloc: Global, fault: &LineFault) -> Result<String> {
    let mut out = Vec::new(alloc);
    fault_into(alloc, &mut out, fault)?;
    String::from_utf8(out)
        .ok()
        .context("a reply that is no text")
}
