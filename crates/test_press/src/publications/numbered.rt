//! Origins by numbers.

use anyhow::{Result, bail};
use authority_book::{Command, OriginList};
use origins::{Origin, read_origin};
use std::alloc::Global;

/// The origin of that number: one with an even number is of IPv4, one with an odd number of IPv6.
fn origin(alloc: Global, number: u64) -> Result<Origin> {
    let (half, odd) = (number / 2, number % 2 == 1);
    let (high, low) = (half / 256, half % 256);
    let text = if odd {
        format!(in alloc; "2001:db8:{half}::/48 => 64496")?
    } else {
        format!(in alloc; "10.{high}.{low}.0/24 => 64496")?
    };
    match read_origin(text.as_str()) {
        Ok(origin) => Ok(origin),
        Err(_) => bail!("no origin"),
    }
}

fn origins(alloc: Global, from: u64, to: u64) -> Result<OriginList> {
    let mut origins = Vec::new(alloc);
    for number in from..to {
        origins.push(origin(alloc, number)?)?;
    }
    Ok(OriginList::new(alloc, origins)?)
}

/// The command that adds the origins with numbers from one on and below another.
pub fn adding(alloc: Global, from: u64, to: u64) -> Result<Command> {
    Ok(Command::UpdateRoas {
        added: origins(alloc, from, to)?,
        removed: origins(alloc, 0, 0)?,
    })
}

/// The command that removes them.
pub fn removing(alloc: Global, from: u64, to: u64) -> Result<Command> {
    Ok(Command::UpdateRoas {
        added: origins(alloc, 0, 0)?,
        removed: origins(alloc, from, to)?,
    })
}
