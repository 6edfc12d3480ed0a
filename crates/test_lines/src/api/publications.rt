//! Replies to publications.

use crate::api::replies::{refused, text_of};
use crate::api::shown;
use anyhow::Result;
use hex::FromHex;
use json_api::{PublishedReply, Refused, published_into, reached_into, serial_into};
use key_ids::KeyId;
use std::alloc::Global;
use test_support::first_field;

pub fn answer(alloc: Global, call: &str, arguments: &str) -> Result<String> {
    let reason = match call {
        "published" => return published(alloc, arguments),
        "serial" => return serial(alloc, arguments),
        "reached" => return reached(alloc, arguments),
        "nothing" => Refused::Nothing {
            serial: arguments.parse::<u64>()?,
        },
        "clock range" => Refused::ClockRange {
            now: arguments.parse::<u64>()?,
        },
        "serial end" => Refused::SerialEnd {
            value: arguments.parse::<u64>()?,
        },
        "signer fault" => Refused::SignerFault {
            signer: arguments.parse::<u32>()?,
        },
        "key clash" => Refused::KeyClash {
            id: key_of(arguments)?,
        },
        "outlet fault" => Refused::OutletFault {
            serial: arguments.parse::<u64>()?,
        },
        "not yet" => Refused::NotYet {
            seen: arguments.parse::<u64>()?,
        },
        _ => return shown::answer(alloc, call, arguments),
    };
    refused(alloc, &reason)
}

// Serial, moment, objects and origins.
fn published(alloc: Global, arguments: &str) -> Result<String> {
    let (serial, rest) = first_field(arguments)?;
    let (moment, rest) = first_field(rest)?;
    let (objects, origins) = first_field(rest)?;
    let published = PublishedReply {
        serial: serial.parse::<u64>()?,
        moment: moment.parse::<u64>()?,
        objects: objects.parse::<u64>()?,
        origins: origins.parse::<u64>()?,
    };
    let mut out = Vec::with_capacity(alloc, 200)?;
    published_into(&mut out, &published);
    text_of(out)
}

fn serial(alloc: Global, serial: &str) -> Result<String> {
    let mut out = Vec::with_capacity(alloc, 200)?;
    serial_into(&mut out, serial.parse::<u64>()?);
    text_of(out)
}

fn reached(alloc: Global, serial: &str) -> Result<String> {
    let mut out = Vec::with_capacity(alloc, 200)?;
    reached_into(&mut out, serial.parse::<u64>()?);
    text_of(out)
}

fn key_of(digits: &str) -> Result<KeyId> {
    let bytes = <[u8; 20] as FromHex>::from_hex(digits)?;
    Ok(KeyId { bytes })
}
