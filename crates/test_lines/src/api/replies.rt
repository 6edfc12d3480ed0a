//! Replies.

use crate::api::publications;
use anyhow::{Context, Result, bail};
use authority_book::Refusal;
use json_api::{MEMORY_REPLY, Refused, accepted_into, refused_into, verdict_into};
use names::Name;
use origins::{Origin, read_origin};
use std::alloc::Global;
use test_support::first_field;

pub fn answer(alloc: Global, call: &str, arguments: &str) -> Result<String> {
    match call {
        "accepted" => accepted(alloc, arguments),
        "no such authority" => refused(
            alloc,
            &Refused::NoSuchAuthority {
                name: name_of(arguments)?,
            },
        ),
        "shut" => refused(alloc, &Refused::Shut),
        "full" => full(alloc, arguments),
        "disk fault" => {
            let device = arguments.parse::<u32>()?;
            refused(alloc, &Refused::DiskFault { device })
        }
        "bad line" => refused(alloc, &Refused::BadLine),
        "unknown command" => refused(alloc, &Refused::UnknownCommand),
        "memory" => memory(alloc),
        "verdict" => verdict(alloc, arguments),
        _ => publications::answer(alloc, call, arguments),
    }
}

pub fn name_of(text: &str) -> Result<Name> {
    Name::read(text).context("no name")
}

fn accepted(alloc: Global, arguments: &str) -> Result<String> {
    let (name, count) = first_field(arguments)?;
    let mut out = Vec::with_capacity(alloc, 200)?;
    accepted_into(&mut out, &name_of(name)?, count.parse::<u64>()?);
    text_of(out)
}

fn full(alloc: Global, arguments: &str) -> Result<String> {
    let (held, needed) = first_field(arguments)?;
    let (held, needed) = (held.parse::<u64>()?, needed.parse::<u64>()?);
    refused(alloc, &Refused::JournalFull { held, needed })
}

// The reply where memory was wanting, as a constant and as it is written.
fn memory(alloc: Global) -> Result<String> {
    let written = refused(alloc, &Refused::Memory)?;
    if written.as_str() != MEMORY_REPLY {
        bail!("two replies");
    }
    Ok(written)
}

pub fn refused(alloc: Global, refused: &Refused) -> Result<String> {
    let mut out = Vec::with_capacity(alloc, 200)?;
    refused_into(&mut out, refused);
    text_of(out)
}

fn verdict(alloc: Global, arguments: &str) -> Result<String> {
    let mut out = Vec::new(alloc);
    verdict_into(alloc, &mut out, &refusal_of(arguments)?)?;
    text_of(out)
}

// The refusal of that number, for an origin or a count.
fn refusal_of(arguments: &str) -> Result<Refusal> {
    let (code, detail) = arguments.split_once(' ').context("a detail is missing")?;
    match code {
        "1" => Ok(Refusal::Deleted),
        "6" => Ok(Refusal::NoParent),
        "12" => Ok(Refusal::OriginThere {
            origin: origin_of(detail)?,
        }),
        "13" => Ok(Refusal::OriginTwice {
            origin: origin_of(detail)?,
        }),
        "14" => Ok(Refusal::NoSuchOrigin {
            origin: origin_of(detail)?,
        }),
        "15" => Ok(Refusal::TooManyOrigins {
            after: detail.parse::<u64>()?,
        }),
        "16" => Ok(Refusal::RollGoing),
        "17" => Ok(Refusal::NoRoll),
        "19" => Ok(Refusal::NotForAnchor),
        _ => bail!("an unknown number"),
    }
}

fn origin_of(text: &str) -> Result<Origin> {
    read_origin(text).context("no origin")
}

pub fn text_of(reply: Vec<u8>) -> Result<String> {
    String::from_utf8(reply)
        .ok()
        .context("a reply that is no text")
}
