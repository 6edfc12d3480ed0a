//! The tree that is timed, made of commands.
//!
//! Each authority has a block of 2^18 addresses of IPv4, and its origins are prefixes of 24 bits from
//! the block's start on. What the anchor grants has every second such prefix of the authority's block
//! and of its children's; what the others grant has three of every four in the child's block.

use anyhow::{Context, Result, bail};
use authority_book::{Command, Config, OriginList, verdict_unasked};
use names::Name;
use origins::{Origin, Prefix};
use res_sets::{Family, MOST_RANGES, Range, Ranges, Resources};
use std::alloc::Global;

/// How many authorities are below the anchor.
pub const AUTHORITIES: u32 = 63;

// How many stand right below it.
const UPPER: u32 = 7;

// How many prefixes of 24 bits a block has.
const PREFIXES: u32 = 1024;

/// The configurations of the anchor and of all others, each with so many origins.
pub fn configs(alloc: Global, origins: u32) -> Result<Vec<Config>> {
    let mut configs = Vec::new(alloc);
    for desk in 0..=AUTHORITIES {
        configs.push(config_of(alloc, desk, origins)?)?;
    }
    Ok(configs)
}

/// A configuration with the first origins of the desk's block.
pub fn with_origins(alloc: Global, desk: u32, count: u32) -> Result<Config> {
    let mut config = Config::new(alloc, desk)?;
    let mut added = Vec::new(alloc);
    for place in 0..count {
        added.push(origin_of(desk, place)?)?;
    }
    let added = OriginList::new(alloc, added)?;
    take(alloc, &mut config, update(alloc, added)?)?;
    Ok(config)
}

fn update(alloc: Global, added: OriginList) -> Result<Command> {
    Ok(Command::UpdateRoas {
        added,
        removed: OriginList::new(alloc, Vec::new(alloc))?,
    })
}

/// The update that removes one origin of the desk's block and adds another.
pub fn exchange(alloc: Global, desk: u32, removed: u32, added: u32) -> Result<Command> {
    Ok(Command::UpdateRoas {
        added: OriginList::new(alloc, vec![in alloc; origin_of(desk, added)?]?)?,
        removed: OriginList::new(alloc, vec![in alloc; origin_of(desk, removed)?]?)?,
    })
}

/// Takes the command, which has to be accepted.
pub fn take(alloc: Global, config: &mut Config, command: Command) -> Result<()> {
    if verdict_unasked(config, &command).is_err() {
        bail!("a command is refused");
    }
    config.reserve(alloc, &command)?;
    config.apply(command);
    Ok(())
}

fn config_of(alloc: Global, desk: u32, origins: u32) -> Result<Config> {
    let mut config = with_origins(alloc, desk, origins)?;
    if desk == 0 {
        add_names(alloc, &mut config)?;
    } else {
        let parent = name_of(alloc, parent_of(desk))?;
        take(alloc, &mut config, Command::AddParent { parent })?;
    }
    add_children(alloc, &mut config, desk)?;
    Ok(config)
}

fn add_names(alloc: Global, anchor: &mut Config) -> Result<()> {
    for desk in 1..=AUTHORITIES {
        let name = name_of(alloc, desk)?;
        take(alloc, anchor, Command::Add { name, signer: 0 })?;
    }
    Ok(())
}

// Grants something to each child of the desk.
fn add_children(alloc: Global, config: &mut Config, desk: u32) -> Result<()> {
    for below in 1..=AUTHORITIES {
        if parent_of(below) == desk {
            let child = name_of(alloc, below)?;
            let grant = grant_of(alloc, below)?;
            take(alloc, config, Command::AddChild { child, grant })?;
        }
    }
    Ok(())
}

// The desk of the parent: the anchor's for the first seven, then eight for each of these.
fn parent_of(desk: u32) -> u32 {
    if desk <= UPPER {
        0
    } else {
        (desk - UPPER - 1) / 8 + 1
    }
}

fn name_of(alloc: Global, desk: u32) -> Result<Name> {
    let text = match desk {
        0 => String::from_str(alloc, "ta")?,
        _ => format!(in alloc; "a{desk}")?,
    };
    Name::read(text.as_str()).context("no name")
}

// What the parent grants it.
fn grant_of(alloc: Global, desk: u32) -> Result<Resources> {
    let ranges = ranges_of(alloc, desk)?;
    if ranges.len() > MOST_RANGES {
        bail!("too many ranges");
    }
    Ok(Resources {
        asn: Ranges::empty(alloc, Family::Asn),
        v4: Ranges::from_sorted(Family::V4, ranges).context("ranges out of order")?,
        v6: Ranges::empty(alloc, Family::V6),
    })
}

fn ranges_of(alloc: Global, desk: u32) -> Result<Vec<Range>> {
    let mut ranges = Vec::new(alloc);
    if desk > UPPER {
        push_three_of_four(&mut ranges, desk)?;
        return Ok(ranges);
    }
    push_every_second(&mut ranges, desk)?;
    for below in 1..=AUTHORITIES {
        if parent_of(below) == desk {
            push_every_second(&mut ranges, below)?;
        }
    }
    Ok(ranges)
}

fn push_every_second(ranges: &mut Vec<Range>, desk: u32) -> Result<()> {
    for half in 0..PREFIXES / 2 {
        push_prefixes(ranges, desk, 2 * half, 0)?;
    }
    Ok(())
}

fn push_three_of_four(ranges: &mut Vec<Range>, desk: u32) -> Result<()> {
    for quarter in 0..PREFIXES / 4 {
        push_prefixes(ranges, desk, 4 * quarter, 2)?;
    }
    Ok(())
}

// The prefix at that place of the block, and so many behind it, in one range.
fn push_prefixes(ranges: &mut Vec<Range>, desk: u32, place: u32, more: u32) -> Result<()> {
    let first = address_of(desk, place);
    let last = first.saturating_add(u128::from(more) * 256 + 255);
    ranges.push(Range { first, last })?;
    Ok(())
}

// The lowest address of the prefix at that place of the desk's block.
fn address_of(desk: u32, place: u32) -> u128 {
    (10u128 << 24) + (u128::from(desk) << 18) + (u128::from(place) << 8)
}

fn origin_of(desk: u32, place: u32) -> Result<Origin> {
    let prefix = Prefix::new(false, address_of(desk, place), 24).context("no prefix")?;
    Origin::new(prefix, 24, 64_496).context("no origin")
}
