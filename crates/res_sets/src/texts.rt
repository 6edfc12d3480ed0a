//! Texts of sets: blocks separated by commas. AS numbers are written as RFC 5396 has them, IPv6
//! addresses as RFC 4291 section 2.2 does.

ghost use Rattle.std.specs.Prelude.{◌≡◌, ◌≢◌, ℕ, ◌^◌, ◌<◌, ◌≤◌, List, IfOk, OnOk, IfErr};
ghost use Rattle.ip_text.specs.Reader.{Reads};
ghost use Rattle.ip_text.specs.Number.{IsDecimalText};
ghost use Rattle.res_sets.specs.Numbers.{family_end, any_spans};
ghost use Rattle.res_sets.specs.declared.numbers.Family.{Family};
ghost use Rattle.res_sets.specs.declared.prefixes.BlockFault.{BlockFault};
ghost use Rattle.res_sets.specs.declared.texts.TextFault.{TextFault};
ghost use Rattle.res_sets.specs.declared.texts.TextFault.TheVariants.{Memory};
ghost use Rattle.res_sets.specs.Sets.{RangeSet};
ghost use Rattle.res_sets.specs.Blocks.{blocks};
ghost use Rattle.res_sets.specs.Prefixes.{ReadsPrefix};
ghost use Rattle.res_sets.specs.Texts.{Writes, ReadsNumber, ReadsEnds, ReadsAddress, ReadsOne, ReadsBlock, AllRead, PushesBlock, BlockHasFault, HasFault, Spells, SpellsRanges, IsFirstFault, fault_at};

use crate::numbers::{Family, Range};
use crate::prefixes::{BlockFault, prefix_range};
use crate::{bytes, merging};
use ip_text::{
    read_as_number, read_ipv4, read_ipv6, read_saturating, reads_as_number_once, reads_ipv4_once,
    reads_ipv6_once,
};
use std::alloc::{AllocError, AllocFailed, Global};
use thiserror::Error;

/// Why a text spells no set. The first faulty block is named, counted from 0.
#[derive(Clone, Copy, Debug, PartialEq, Eq, Error)]
pub enum TextFault {
    /// The block is no number, address or prefix, nor two numbers or addresses.
    #[error("block {at} is no number, address, prefix or range")]
    BadNumber { at: u64 },
    /// The last number is below the first, or the prefix is longer than an address.
    #[error("block {at} ends before it begins, or its prefix is too long")]
    BadRange { at: u64 },
    /// The address has a bit set behind the prefix's length.
    #[error("block {at} has an address with host bits")]
    HostBits { at: u64 },
    #[error("out of memory")]
    Memory,
}

impl From<AllocError> for TextFault {
    ghost from_gives = { λ _ fault. fault ≡ Memory };

    fn from(_: AllocError) -> Self {
        TextFault::Memory
    }
}

impl<T: Drop> From<AllocFailed<T>> for TextFault {
    ghost from_gives = { λ _ fault. fault ≡ Memory };

    fn from(_: AllocFailed<T>) -> Self {
        TextFault::Memory
    }
}

// The fault of the block at that place.
fn in_block(fault: BlockFault, at: u64) -> TextFault
    ensures { result ≡ fault_at fault at }
{
    match fault {
        BlockFault::BadNumber => TextFault::BadNumber { at },
        BlockFault::BadRange => TextFault::BadRange { at },
        BlockFault::HostBits => TextFault::HostBits { at },
    }
}

// The number that the whole text writes.
fn read_number(family: Family, text: &[u8]) -> Option<u128>
    ensures { Reads (Writes family text.now) result }
{
    match family {
        Family::Asn => read_as_number(text).map(u128::from),
        Family::V4 => read_ipv4(text).map(u128::from),
        Family::V6 => read_ipv6(text),
    }
}

fn read_ends(family: Family, first: &[u8], last: &[u8]) -> Result<Range, BlockFault>
    ensures { ReadsEnds (Writes family first.now) (Writes family last.now) result }
{
    let first = read_number(family, first).ok_or(BlockFault::BadNumber)?;
    let last = read_number(family, last).ok_or(BlockFault::BadNumber)?;
    if last < first {
        return Err(BlockFault::BadRange);
    }
    Ok(Range { first, last })
}

fn read_prefix(
    bits: u32,
    family: Family,
    address: &[u8],
    length: &[u8],
) -> Result<Range, BlockFault>
    requires short { bits ≤ 128 }
    requires fits { (n : ℕ) → Writes family address.now n → n < 2 ^ bits }
    ensures { ReadsPrefix bits (Writes family address.now) (IsDecimalText length.now) result }
{
    let address = read_number(family, address).ok_or(BlockFault::BadNumber)?;
    let length = read_saturating(length).ok_or(BlockFault::BadNumber)?;
    prefix_range(bits, address, length)
}

fn read_address(bits: u32, family: Family, block: &[u8]) -> Result<Range, BlockFault>
    requires short { bits ≤ 128 }
    requires fits { (text : List ℕ) (n : ℕ) → Writes family text n → n < 2 ^ bits }
    ensures { ReadsAddress bits family block.now result }
{
    if let Some((address, length)) = bytes::split_at_byte(block, b'/') {
        return read_prefix(bits, family, address, length);
    }
    read_alone(family, block)
}

// A number alone.
fn read_alone(family: Family, block: &[u8]) -> Result<Range, BlockFault>
    ensures { ReadsNumber (Writes family block.now) result }
{
    let number = read_number(family, block).ok_or(BlockFault::BadNumber)?;
    Ok(Range {
        first: number,
        last: number,
    })
}

fn read_one(family: Family, block: &[u8]) -> Result<Range, BlockFault>
    ensures { ReadsOne family block.now result }
{
    match family {
        Family::Asn => read_alone(family, block),
        Family::V4 => read_address(32, family, block),
        Family::V6 => read_address(128, family, block),
    }
}

fn read_block(family: Family, block: &[u8]) -> Result<Range, BlockFault>
    ensures { ReadsBlock family block.now result }
{
    match bytes::split_at_byte(block, b'-') {
        Some((first, last)) => read_ends(family, bytes::trim_end(first), bytes::trim_start(last)),
        None => read_one(family, block),
    }
}

fn push_block(
    ranges: &mut Vec<Range>,
    family: Family,
    block: &[u8],
    at: u64,
) -> Result<(), TextFault>
    ensures read { OnOk result (PushesBlock family block.now ranges.old.items ranges.new.items) }
    ensures fault { IfErr result (BlockHasFault family block.now at) }
{
    let range = match read_block(family, block) {
        Ok(range) => range,
        Err(fault) => return Err(in_block(fault, at)),
    };
    ranges.push(range)?;
    Ok(())
}

fn read_blocks(alloc: Global, family: Family, text: &[u8]) -> Result<Vec<Range>, TextFault>
    ensures read { IfOk result (λ ranges. AllRead family (blocks text.now) ranges.items) }
    ensures fault { IfErr result (HasFault family text.now) }
{
    let mut ranges = Vec::new(alloc);
    if bytes::is_all_blank(text) {
        return Ok(ranges);
    }
    let mut rest = text;
    let mut at = 0;
    while let Some((block, more)) = bytes::split_at_byte(rest, b',') {
        push_block(&mut ranges, family, bytes::trim_end(block), at)?;
        rest = bytes::trim_start(more);
        at += 1;
    }
    push_block(&mut ranges, family, rest, at)?;
    Ok(ranges)
}

// The set that the whole text spells.
pub fn read_ranges(alloc: Global, family: Family, text: &[u8]) -> Result<Vec<Range>, TextFault>
    ensures read { IfOk result (λ ranges. SpellsRanges family text.now ranges.items) }
    ensures fault { IfErr result (HasFault family text.now) }
{
    let ranges = read_blocks(alloc, family, text)?;
    Ok(merging::join_all(alloc, ranges)?)
}

/// A law, with nothing to run: no text spells two sets of a family, one that spells a set has no
/// faulty block, and none has two faults but for want of memory.
pub fn reads_texts_once()
    ensures one { (family : Family) (text : List ℕ) (a b : RangeSet) → Spells family text a
        → Spells family text b → a ≡ b }
    ensures no_fault { (family : Family) (text : List ℕ) (set : RangeSet) (at : ℕ) (fault : BlockFault)
        → Spells family text set → ¬ IsFirstFault family (blocks text) at fault }
    ensures one_fault { (family : Family) (text : List ℕ) (a b : TextFault) → HasFault family text a
        → HasFault family text b → a ≢ Memory → b ≢ Memory → a ≡ b }
{
    reads_as_number_once();
    reads_ipv4_once();
    reads_ipv6_once();
}
