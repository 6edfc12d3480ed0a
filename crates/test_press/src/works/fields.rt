//! Fields of cases.

ghost use Rattle.std.specs.Prelude.{◌≡◌, None, IfOk};
ghost use Rattle.authority_book.specs.Origins.{first_repeated};
ghost use Rattle.issue_values.specs.Certificates.{IsEditionMoment};

use anyhow::{Context, Result, bail};
use authority_book::OriginList;
use origins::{Origin, read_origin};
use signer_api::PublicKey;
use std::alloc::Global;
use test_support::{fixed_of, number_of};

/// A moment at which an edition can be made.
pub fn moment(text: &str) -> Result<u64>
    ensures { IfOk result IsEditionMoment }
{
    let moment = number_of(text)?;
    if moment < 946_684_800 || moment > 253_370_764_799 {
        bail!("no moment of an edition");
    }
    Ok(moment)
}

fn origin(text: &str) -> Result<Origin> {
    match read_origin(text) {
        Ok(origin) => Ok(origin),
        Err(_) => bail!("no origin"),
    }
}

/// The 24-bit prefix of that number in 10.0.0.0/8.
fn numbered(alloc: Global, number: u64) -> Result<Origin> {
    let (high, low) = (number / 256, number % 256);
    let text = format!(in alloc; "10.{high}.{low}.0/24 => 64496")?;
    origin(text.as_str())
}

fn listed(alloc: Global, text: &str) -> Result<Vec<Origin>> {
    let mut origins = Vec::new(alloc);
    if !text.is_empty() {
        for part in text.split('|') {
            origins.push(origin(part)?)?;
        }
    }
    Ok(origins)
}

/// So many origins.
fn many(alloc: Global, count: u64) -> Result<Vec<Origin>> {
    let mut origins = Vec::new(alloc);
    for number in 0..count {
        origins.push(numbered(alloc, number)?)?;
    }
    Ok(origins)
}

/// Whether a case gives no origins, but says how many.
pub fn is_counted(text: &str) -> bool {
    text.starts_with("#")
}

fn given(alloc: Global, text: &str) -> Result<Vec<Origin>> {
    match text.strip_prefix("#") {
        Some(count) => many(alloc, number_of(count)?),
        None => listed(alloc, text),
    }
}

/// Origins, none twice: with `|` between them, or behind `#` how many.
pub fn origins(alloc: Global, text: &str) -> Result<Vec<Origin>>
    ensures { IfOk result (λ origins. first_repeated origins.items ≡ None) }
{
    let list = OriginList::new(alloc, given(alloc, text)?)?;
    if list.first_repeated().is_some() {
        bail!("an origin stands twice");
    }
    Ok(list.into_vec())
}

/// A key, or none.
pub fn live_key(alloc: Global, digits: &str) -> Result<Option<PublicKey>> {
    if digits.is_empty() {
        return Ok(None);
    }
    let key = PublicKey::read(&fixed_of::<270>(alloc, digits)?).context("no key")?;
    Ok(Some(key))
}
