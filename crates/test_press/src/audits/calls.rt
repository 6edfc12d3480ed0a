//! The calls.

use crate::audits::asked::{Asked, Told};
use crate::audits::changed::{Count, changed};
use crate::audits::print::{audited_text, push_count, refused_text};
use anyhow::{Context, Result, bail};
use pub_set::{Object, ObjectSet};
use signer_api::{MemorySigner, Rehearsal, Signer};
use std::alloc::Global;
use test_support::read_changes;

/// The answer to a case.
pub fn answer(alloc: Global, base: &ObjectSet, call: &str, line: &str) -> Result<String> {
    let asked = Asked::read(alloc, line)?;
    let told = match call {
        "case" => one(alloc, base, &asked)?,
        "failing" => with_failure(alloc, base, &asked)?,
        "each" => each(alloc, base, &asked)?,
        _ => bail!("an unknown call: {call}"),
    };
    let name = asked.name.as_str();
    Ok(format!(in alloc; "{name}\t{told}")?)
}

fn told_text(alloc: Global, told: &Told) -> Result<String> {
    match told {
        Ok(audited) => audited_text(alloc, audited),
        Err(refused) => refused_text(alloc, refused),
    }
}

// What an audit of the changed set comes to.
fn one(alloc: Global, base: &ObjectSet, asked: &Asked) -> Result<String> {
    let mut set = base.copy(alloc)?;
    set.query(alloc, "", read_changes(alloc, asked.done.as_str())?)?;
    let told = asked.rehearse(alloc, &set)?;
    told_text(alloc, &told)
}

// What an audit of the set comes to behind a signer that vouches for nothing and fails at one call.
fn with_failure(alloc: Global, base: &ObjectSet, asked: &Asked) -> Result<String> {
    let mut fails = Vec::new(alloc);
    fails.push(asked.done.as_str().parse::<u64>()?)?;
    let mut signers: Vec<Box<dyn Signer + Send>> = Vec::new(alloc);
    signers.push(Box::new(alloc, MemorySigner::new(alloc, [0; 32], fails))?)?;
    signers.push(Box::new(alloc, Rehearsal::new([0; 32]))?)?;
    let told = asked.audit(alloc, base, signers)?;
    told_text(alloc, &told)
}

// How often each object is refused, and by which rules, where its bytes are changed in turn.
fn each(alloc: Global, base: &ObjectSet, asked: &Asked) -> Result<String> {
    let (mask, step) = asked.done.as_str().split_once('/').context("no step")?;
    let mask = u8::from_str_radix(mask, 16)?;
    let step = step.parse::<usize>()?;
    let mut told = String::new(alloc);
    for object in base.as_slice() {
        let count = counted(alloc, base, asked, object, mask, step)?;
        push_count(alloc, &mut told, object.uri.as_str(), &count)?;
    }
    Ok(told)
}

// What audits come to where the bytes of one object are changed in turn.
fn counted(
    alloc: Global,
    base: &ObjectSet,
    asked: &Asked,
    object: &Object,
    mask: u8,
    step: usize,
) -> Result<Count> {
    let mut count = Count::none();
    for place in (0..object.bytes.as_slice().len()).step_by(step.max(1)) {
        let set = changed(alloc, base, object, place, mask)?;
        count.add(&asked.rehearse(alloc, &set)?, object.uri.as_str());
    }
    Ok(count)
}
