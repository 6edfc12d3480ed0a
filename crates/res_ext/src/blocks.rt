//! Blocks: ranges of numbers as elements (RFC 3779 sections 2.2.3.7 and 3.2.3.5).

ghost use Rattle.std.specs.Prelude.{◌≡◌, ◌<◌, ◌≤◌, ◌+◌, ◌%◌, ◌^◌, ◌++◌, ℕ, List, map, length, IfOk, IfSome, OnOk};
ghost use Rattle.std.specs.Option.{option_map};
ghost use Rattle.der.specs.Spelling.{spelled};
ghost use Rattle.der.specs.Part.{place};
ghost use Rattle.der.specs.Outcome.{Gives, GivesUnlessMemory};
ghost use Rattle.der.specs.laws.ListLaws.{front-moves};
ghost use Rattle.res_sets.specs.declared.numbers.Range.{Range};
ghost use Rattle.res_sets.specs.Numbers.{family_end};
ghost use Rattle.res_ext.specs.Prefixes.{IsAddressSize, span_length};
ghost use Rattle.res_ext.specs.Formats.{span_of, as_ends, as_block, leading_good, ends_in, address_ends, address_block, block, if_canonical, blocks};
ghost use Rattle.res_ext.specs.laws.FormatLaws.{block-law};

use crate::leading::{Leading, kept_of_first, kept_of_last, leading, range_of};
use der::tags::{BIT_STRING, INTEGER, SEQUENCE};
use der::{FrontReader, Part, ShapeFault, many, number};
use res_sets::{Family, MOST_RANGES, Range, Ranges, prefix_length};
use std::alloc::{AllocError, Global};

/// The ends of AS numbers: two, the second above the first.
fn as_ends(part: Part<'_>) -> Result<Range, ShapeFault>
    ensures { Gives span_of result (as_ends.read (place part.entry)) }
{
    let (first, rest) = number(part)?;
    let (last, end) = number(rest)?;
    end.end()?;
    if first >= last {
        return Err(part.fault());
    }
    Ok(Range {
        first: u128::from(first),
        last: u128::from(last),
    })
}

/// A block of AS numbers.
#[tactic(auto, unfolding(crate::specs::Formats::as_block))]
fn as_block(part: Part<'_>) -> Result<(Range, Part<'_>), ShapeFault>
    ensures { Gives (λ x. (span_of x.0, place x.1)) result (as_block.read (place part.entry)) }
{
    if part.begins(INTEGER) {
        let (n, rest) = number(part)?;
        let number = u128::from(n);
        let range = Range {
            first: number,
            last: number,
        };
        return Ok((range, rest));
    }
    let (content, rest) = part.open(SEQUENCE)?;
    let range = as_ends(content)?;
    Ok((range, rest))
}

/// The length of the prefix that a range is, if it is one. Both are in bits: `size` of an address,
/// and the length that is given back.
pub fn span_length(size: u32, range: Range) -> Option<u32>
    requires short { size ≤ 128 }
    requires fits { range.last < 2 ^ size }
    ensures { result ≡ span_length size (span_of range) }
{
    prefix_length(size, range)
}

/// The range from the first address of one prefix to the last of another, if the two are as short as they
/// can be for its ends, and it is no prefix.
#[tactic(auto, unfolding(crate::specs::Formats::ends_in))]
fn ends_in(size: u32, low: Leading, high: Leading) -> Option<Range>
    requires short { size ≤ 128 }
    requires low { leading_good size low }
    requires high { leading_good size high }
    ensures { option_map span_of result ≡ ends_in size (low, high) }
{
    let last = range_of(size, high).last;
    let first = low.1;
    if first > last {
        return None;
    }
    if low.0 != kept_of_first(size, first) {
        return None;
    }
    if high.0 != kept_of_last(size, last) {
        return None;
    }
    let range = Range { first, last };
    if span_length(size, range).is_some() {
        return None;
    }
    Some(range)
}

/// The ends of a range of addresses of so many bits that is no prefix.
fn address_ends(size: u32, part: Part<'_>) -> Result<Range, ShapeFault>
    requires { IsAddressSize size }
    ensures { Gives span_of result ((address_ends size).read (place part.entry)) }
{
    let (low, rest) = leading(size, part)?;
    let (high, end) = leading(size, rest)?;
    end.end()?;
    match ends_in(size, low, high) {
        Some(range) => Ok(range),
        None => Err(part.fault()),
    }
}

/// A block of addresses of so many bits.
#[tactic(auto, unfolding(crate::specs::Formats::address_block))]
fn address_block(size: u32, part: Part<'_>) -> Result<(Range, Part<'_>), ShapeFault>
    requires { IsAddressSize size }
    ensures { Gives (λ x. (span_of x.0, place x.1)) result ((address_block size).read (place part.entry)) }
{
    if part.begins(BIT_STRING) {
        let (prefix, rest) = leading(size, part)?;
        return Ok((range_of(size, prefix), rest));
    }
    let (content, rest) = part.open(SEQUENCE)?;
    let range = address_ends(size, content)?;
    Ok((range, rest))
}

/// Reads a block of a family.
#[derive(Clone, Copy, Debug)]
struct BlockReader {
    family: Family,
}

impl FrontReader for BlockReader {
    type Item = Range;

    ghost Meaning = { ℕ × ℕ };

    ghost view = { span_of };

    ghost format = { λ reader. block reader.family };

    fn read_front<'a>(
        &self,
        _alloc: Global,
        part: Part<'a>,
    ) -> Result<(Range, Part<'a>), ShapeFault> {
        match self.family {
            Family::Asn => as_block(part),
            Family::V4 => address_block(32, part),
            Family::V6 => address_block(128, part),
        }
    }

    ghost moves = { λ reader. front-moves (block reader.family) (block-law reader.family) };
}

/// The set with these ranges, if they are canonical.
fn set_of(family: Family, ranges: Vec<Range>) -> Option<Ranges>
    requires { length ranges.items < 2 ^ 32 }
    ensures found { option_map (λ set. map span_of set.ranges) result ≡ if_canonical family (map span_of ranges.items) }
    ensures family { IfSome result (λ set. set.family ≡ family) }
{
    Ranges::from_sorted(family, ranges)
}

/// The set whose blocks are all of the part (RFC 3779 sections 2.2.3.6 and 3.2.3.4).
#[tactic(auto, unfolding(crate::specs::Formats::blocks))]
pub fn blocks(alloc: Global, family: Family, part: Part<'_>) -> Result<Ranges, ShapeFault>
    ensures read { GivesUnlessMemory (λ set. map span_of set.ranges) result ((blocks family).read (place part.entry)) }
    ensures family { IfOk result (λ set. set.family ≡ family) }
{
    let ranges = many(alloc, &BlockReader { family }, part)?;
    if ranges.len() > MOST_RANGES {
        return Err(ShapeFault::Memory);
    }
    match set_of(family, ranges) {
        Some(set) => Ok(set),
        None => Err(part.fault()),
    }
}
