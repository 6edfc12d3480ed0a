//! Entries of ROAs (RFC 9582 section 4.3.2).

ghost use Rattle.std.specs.Prelude.{◌≡◌, ◌++◌, OnOk};
ghost use Rattle.std.specs.Option.{option_map};
ghost use Rattle.der.specs.Part.{place};
ghost use Rattle.der.specs.Outcome.{Gives};
ghost use Rattle.der.specs.Forms.{maybe, only};
ghost use Rattle.der.specs.Leaves.{number as number_form};
ghost use Rattle.payloads.specs.Prefixes.{prefix_parts};
ghost use Rattle.payloads.specs.RoaFormats.{Entry, entry_view, entry_parts, entry_of, entry_content, entry, is_below};

use crate::order::Ranked;
use crate::prefixes::{address_bits, prefix, push_prefix};
use crate::values::RoaEntry;
use der::tags::SEQUENCE;
use der::{Part, ShapeFault, number};
use origins::Prefix;
use std::alloc::{AllocError, Global};

/// The entry of a prefix and the maximum that is written, if there may be one.
#[tactic(auto, unfolding(crate::specs::RoaFormats::entry_of))]
fn entry_of(prefix: Prefix, written: Option<u64>) -> Option<RoaEntry>
    ensures { option_map entry_view result ≡ entry_of (prefix_parts prefix) written }
{
    let Some(max) = written else {
        return Some(RoaEntry {
            prefix,
            max: prefix.length,
        });
    };
    if max > u64::from(prefix.length) && max <= u64::from(address_bits(prefix.v6)) {
        Some(RoaEntry {
            prefix,
            max: max as u8,
        })
    } else {
        None
    }
}

/// The maximum, where one is written.
fn written_maximum(part: Part<'_>) -> Result<Option<u64>, ShapeFault>
    ensures { Gives (λ x. x) result ((maybe (only number_form)).read (place part.entry)) }
{
    if part.is_empty() {
        return Ok(None);
    }
    let (max, end) = number(part)?;
    end.end()?;
    Ok(Some(max))
}

/// What stands in an entry.
fn entry_content(v6: bool, part: Part<'_>) -> Result<RoaEntry, ShapeFault>
    ensures { Gives entry_view result ((entry_content v6).read (place part.entry)) }
{
    let (prefix, rest) = prefix(v6, part)?;
    let written = written_maximum(rest)?;
    match entry_of(prefix, written) {
        Some(entry) => Ok(entry),
        None => Err(part.fault()),
    }
}

/// An entry of the family (RFC 9582 section 4.3.2).
pub fn entry(v6: bool, part: Part<'_>) -> Result<(RoaEntry, Part<'_>), ShapeFault>
    ensures { Gives (λ x. (entry_view x.0, place x.1)) result ((entry v6).read (place part.entry)) }
{
    let (content, rest) = part.open(SEQUENCE)?;
    let entry = entry_content(v6, content)?;
    Ok((entry, rest))
}

impl Ranked for RoaEntry {
    ghost Meaning = { Entry };

    ghost view = { λ e. entry_view e };

    ghost below = { λ a b. is_below a b };

    /// By family, IPv4 first, by address, by length, by maximum.
    fn is_below(&self, other: &Self) -> bool {
        let (first, second) = (self.prefix, other.prefix);
        if first.v6 != second.v6 {
            second.v6
        } else if first.address != second.address {
            first.address < second.address
        } else if first.length != second.length {
            first.length < second.length
        } else {
            self.max < other.max
        }
    }
}

/// Appends the maximum, where it isn't the prefix's length.
fn push_maximum(alloc: Global, out: &mut Vec<u8>, item: &RoaEntry) -> Result<(), AllocError>
    ensures { OnOk result (out.new.items ≡ out.old.items
        ++ (maybe (only number_form)).spelling (entry_parts (entry_view item.now)).1) }
{
    if item.max == item.prefix.length {
        return Ok(());
    }
    der::unsigned(alloc, out, u64::from(item.max))
}

/// Appends an entry (RFC 9582 section 4.3.2).
#[tactic(auto, using(std::proofs::Common::append_assoc))]
pub fn push_entry(alloc: Global, out: &mut Vec<u8>, item: &RoaEntry) -> Result<(), AllocError>
    ensures { OnOk result (out.new.items ≡ out.old.items
        ++ (entry item.now.prefix.v6).spelling (entry_view item.now)) }
{
    let from = out.len();
    push_prefix(alloc, out, item.prefix)?;
    push_maximum(alloc, out, item)?;
    der::enclose(alloc, out, from, SEQUENCE)
}
