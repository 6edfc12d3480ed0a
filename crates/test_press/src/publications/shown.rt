//! What is printed.

use crate::publications::trials::Edition;
use anyhow::Result;
use disk_api::MemoryDisk;
use press_core::PrepareFault;
use pub_set::Change;
use sha2::{Digest, Sha256};
use std::alloc::Global;

/// Each change as its URI and hashes: `+URI=HASH`, `+URI=HASH=REPLACED` or `-URI=HASH`.
pub fn changes_text(alloc: Global, changes: &[Change]) -> Result<String> {
    let mut text = String::new(alloc);
    for change in changes {
        if !text.is_empty() {
            text.push(' ')?;
        }
        push_change(alloc, &mut text, change)?;
    }
    Ok(text)
}

fn push_change(alloc: Global, text: &mut String, change: &Change) -> Result<()> {
    match change {
        Change::Put {
            uri,
            bytes,
            replaces,
        } => {
            let hash = hex::encode(alloc, Sha256::digest(bytes.as_slice()))?;
            write!(text, "+{}={hash}", uri.as_str())?;
            if let Some(replaced) = replaces {
                write!(text, "={}", hex::encode(alloc, *replaced)?)?;
            }
        }
        Change::Withdraw { uri, hash } => {
            write!(text, "-{}={}", uri.as_str(), hex::encode(alloc, *hash)?)?;
        }
    }
    Ok(())
}

/// An edition's numbers.
pub fn edition_text(alloc: Global, edition: &Edition) -> Result<String> {
    let published = edition.published;
    let (puts, withdrawals) = (edition.puts, edition.withdrawals);
    Ok(format!(in alloc;
        "serial {} at {}: {} objects, {} origins, {puts} put, {withdrawals} withdrawn",
        published.serial, published.moment, published.objects, published.origins
    )?)
}

/// The code and the clock of a refusal, its name and its number.
pub fn fault_text(alloc: Global, fault: &PrepareFault<MemoryDisk>) -> Result<String> {
    let text = match fault {
        PrepareFault::ClockRange { now, met } => {
            let (code, clock) = (met.code(), met.clock());
            format!(in alloc; "{code} at {clock}: ClockRange {now}")?
        }
        PrepareFault::SerialEnd { value, met } => {
            let (code, clock) = (met.code(), met.clock());
            format!(in alloc; "{code} at {clock}: SerialEnd {value}")?
        }
        PrepareFault::Nothing { serial, met } => {
            let (code, clock) = (met.code(), met.clock());
            format!(in alloc; "{code} at {clock}: Nothing {serial}")?
        }
        PrepareFault::SignerFault { signer, met } => {
            let (code, clock) = (met.code(), met.clock());
            format!(in alloc; "{code} at {clock}: SignerFault {signer}")?
        }
        PrepareFault::KeyClash { id, met } => {
            let (code, clock) = (met.code(), met.clock());
            let digits = hex::encode(alloc, id.bytes)?;
            format!(in alloc; "{code} at {clock}: KeyClash {digits}")?
        }
        PrepareFault::JournalFull { held, needed, met } => {
            let (code, clock) = (met.code(), met.clock());
            format!(in alloc; "{code} at {clock}: JournalFull {held} {needed}")?
        }
        PrepareFault::Shut { .. } => String::from_str(alloc, "shut")?,
        PrepareFault::Memory => String::from_str(alloc, "out of memory")?,
    };
    Ok(text)
}
