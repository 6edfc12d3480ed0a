//! Where the reading of changed objects stops.

use anyhow::Result;
use der::ShapeFault;
use std::alloc::Global;

/// Something that reads a kind of object.
pub trait Probe {
    /// Appends what the reading of the bytes comes to: the place of a fault, or a word.
    fn push_answer(&self, alloc: Global, out: &mut String, bytes: &[u8]) -> Result<()>;
}

/// Appends the place of a fault, or a word where there is none.
pub fn push_fault(out: &mut String, fault: Option<ShapeFault>) -> Result<()> {
    match fault {
        None => out.push_str("read")?,
        Some(ShapeFault::Shape { at }) => write!(out, "{at}")?,
        Some(ShapeFault::Memory) => out.push_str("memory")?,
    }
    Ok(())
}

/// Appends one more answer behind a blank.
fn push_next<P: Probe>(alloc: Global, out: &mut String, probe: &P, bytes: &[u8]) -> Result<()> {
    if !out.is_empty() {
        out.push(' ')?;
    }
    probe.push_answer(alloc, out, bytes)
}

/// The answers for each beginning of an object, the shortest first.
pub fn cuts<P: Probe>(alloc: Global, probe: &P, bytes: &[u8]) -> Result<String> {
    let mut out = String::new(alloc);
    for length in 0..bytes.len() {
        push_next(alloc, &mut out, probe, &bytes[..length])?;
    }
    Ok(out)
}

/// The answers for an object with one byte changed, the first byte first: its lowest bit is turned.
pub fn changes<P: Probe>(alloc: Global, probe: &P, bytes: Vec<u8>) -> Result<String> {
    let mut changed = bytes;
    let mut out = String::new(alloc);
    for i in 0..changed.len() {
        changed[i] ^= 1;
        push_next(alloc, &mut out, probe, &changed)?;
        changed[i] ^= 1;
    }
    Ok(out)
}
