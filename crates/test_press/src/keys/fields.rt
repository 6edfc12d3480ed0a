//! Fields of cases.

use anyhow::{Context, Result, bail};
use key_ids::KeyId;
use key_roll::Role;
use signer_api::PublicKey;
use std::alloc::Global;
use test_support::fixed_of;

/// The parts of a text between separators: none of an empty one.
pub fn parts(alloc: Global, text: &str, between: char) -> Result<Vec<&str>> {
    if text.is_empty() {
        return Ok(Vec::new(alloc));
    }
    Ok(text.split(between).collect(alloc)?)
}

pub fn field<'a>(fields: &[&'a str], place: usize) -> Result<&'a str> {
    match fields.get(place) {
        Some(field) => Ok(*field),
        None => bail!("a field is missing"),
    }
}

pub fn number(fields: &[&str], place: usize) -> Result<u64> {
    field(fields, place)?.parse::<u64>().context("no number")
}

pub fn short_number(fields: &[&str], place: usize) -> Result<u32> {
    field(fields, place)?.parse::<u32>().context("no number")
}

pub fn id(alloc: Global, digits: &str) -> Result<KeyId> {
    Ok(KeyId {
        bytes: fixed_of(alloc, digits)?,
    })
}

pub fn public_key(alloc: Global, digits: &str) -> Result<PublicKey> {
    PublicKey::read(&fixed_of::<270>(alloc, digits)?).context("no key")
}

pub fn role(text: &str) -> Result<Role> {
    match text {
        "New" => Ok(Role::New),
        "Current" => Ok(Role::Current),
        "Old" => Ok(Role::Old),
        _ => bail!("no role"),
    }
}
