//! Cases of signers: a line a case, its fields separated by tabs. The name and the answers are printed.
//!
//! `key` and hex: whether the bytes are a public key. `line`, the bytes that come back and calls:
//! a signer over two streams, whose meetings are counted from 0; the last answer is what it wrote. `greet` and
//! the bytes that come back: how such a signer is met at the start. `ring`, signers and calls. A signer is
//! `rehearsal` and its start, or `memory`, its start and the calls that fail.
//!
//! A call has the signer's number where one is called. `@` and a number stand for the key or the
//! signature that this call answered, counted from 0.

pub mod beside;
mod calls;
mod fields;

use crate::signers::calls::run;
use crate::signers::fields::read_bytes;
use anyhow::{Result, bail};
use signer_api::{MemorySigner, PublicKey, Rehearsal, Signer};
use signer_line::LineSigner;
use std::alloc::Global;
use test_support::numbers_of;

// Signers written as `KIND:START` or `memory:START:FAILS`, separated by commas, each boxed.
fn run_ring(alloc: Global, written: &str, script: &str) -> Result<String> {
    let mut signers: Vec<Box<dyn Signer + Send>> = Vec::new(alloc);
    for one in written.split(',') {
        let mut parts = one.split(':');
        let kind = parts.next().unwrap_or("");
        let start = read_bytes(parts.next().unwrap_or(""))?;
        match kind {
            "rehearsal" => signers.push(Box::new(alloc, Rehearsal::new(start))?)?,
            "memory" => {
                let fails = numbers_of(alloc, parts.next().unwrap_or(""), ';')?;
                signers.push(Box::new(alloc, MemorySigner::new(alloc, start, fails))?)?;
            }
            _ => bail!("no such signer: {kind}"),
        }
    }
    run(alloc, signers, script)
}

fn run_line(alloc: Global, coming: &str, script: &str) -> Result<String> {
    let coming = hex::decode(alloc, coming)?;
    let mut sent: Vec<u8> = Vec::new(alloc);
    let mut signers = Vec::new(alloc);
    signers.push(LineSigner::new(coming.as_slice(), &mut sent, 0))?;
    let mut answers = run(alloc, signers, script)?;
    answers.push('\t')?;
    answers.push_str(hex::encode(alloc, sent.as_slice())?.as_str())?;
    Ok(answers)
}

fn greet(alloc: Global, coming: &str) -> Result<String> {
    let coming = hex::decode(alloc, coming)?;
    let mut sent: Vec<u8> = Vec::new(alloc);
    let (met, faults) = {
        let mut signer = LineSigner::new(coming.as_slice(), &mut sent, 0);
        (signer.greet(), signer.faults())
    };
    let told = match met {
        Ok(()) => String::from_str(alloc, "met")?,
        Err(unmet) => format!(in alloc; "{unmet}")?,
    };
    let sent = hex::encode(alloc, sent.as_slice())?;
    Ok(format!(in alloc; "{told}, faults {faults}\t{sent}")?)
}

fn answer(alloc: Global, fields: &[&str]) -> Result<String> {
    match fields {
        [_, "key", bytes] => {
            let bytes = hex::decode(alloc, *bytes)?;
            let is_key = PublicKey::read(&bytes).is_some();
            Ok(format!(in alloc; "{is_key}")?)
        }
        [_, "ring", signers, script] => run_ring(alloc, signers, script),
        [_, "line", coming, script] => run_line(alloc, coming, script),
        [_, "greet", coming] => greet(alloc, coming),
        _ => bail!("no such case"),
    }
}

/// Prints the answer to the case of a line.
pub fn print_case(rt: &HostRuntime, line: &str) -> Result<()> {
    let alloc = rt.alloc();
    let fields: Vec<&str> = line.split('\t').collect(alloc)?;
    let answers = answer(alloc, &fields)?;
    let name = fields.first().copied().unwrap_or("");
    println!(rt; "{name}\t{answers}")?;
    Ok(())
}
