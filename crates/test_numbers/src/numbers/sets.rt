//! Sets of numbers: read, printed, joined and parted.

ghost use Rattle.std.specs.Prelude.{◌≡◌, IfOk};

use crate::numbers::plain_text;
use anyhow::{Context, Result, bail, ensure};
use res_sets::{Family, MOST_RANGES, Range, Ranges, Resources};
use std::alloc::Global;
use test_support::first_field;

/// The family of this name.
pub fn family(name: &str) -> Result<Family> {
    match name {
        "asn" => Ok(Family::Asn),
        "ipv4" => Ok(Family::V4),
        "ipv6" => Ok(Family::V6),
        _ => bail!("an unknown family"),
    }
}

/// The ranges that the text spells and how they are printed, or its fault.
pub fn read(alloc: Global, family: Family, text: &str) -> Result<String> {
    let text = plain_text(alloc, text)?;
    match Ranges::read_text(alloc, family, text.as_str()) {
        Ok(set) => shown(alloc, &set),
        Err(fault) => Ok(format!(in alloc; "{fault:?}")?),
    }
}

/// The set of these ranges, or `none` where they are no canonical list.
pub fn sorted(alloc: Global, family: Family, text: &str) -> Result<String> {
    let mut ranges = Vec::new(alloc);
    for range in text.split(' ') {
        ranges.push(range_of(range)?)?;
    }
    if ranges.len() > MOST_RANGES {
        bail!("too many ranges");
    }
    match Ranges::from_sorted(family, ranges) {
        Some(set) => shown(alloc, &set),
        None => Ok(String::from_str(alloc, "none")?),
    }
}

/// Whether the set has the first of these numbers, and whether it has all from the first to the last.
pub fn holds(alloc: Global, family: Family, texts: &str) -> Result<String> {
    let (range, text) = first_field(texts)?;
    let range = range_of(range)?;
    let set = set_of(alloc, family, text)?;
    let (one, all) = (set.holds(range.first), set.holds_range(&range));
    Ok(format!(in alloc; "{one}\t{all}")?)
}

/// All resources, family by family, and how they compare with their meet with a copy.
pub fn whole(alloc: Global) -> Result<String> {
    let all = Resources::whole(alloc)?;
    let mut text = String::new(alloc);
    for set in [&all.asn, &all.v4, &all.v6] {
        push_shown(alloc, &mut text, set)?;
        text.push_str("\t")?;
    }
    let both = all.copy(alloc)?.meet(alloc, &all)?;
    push_compared(alloc, &mut text, &all, &both)?;
    Ok(text)
}

// Whether the first are inside the second, these inside the second without the first, and whether
// either is empty.
fn push_compared(
    alloc: Global,
    text: &mut String,
    all: &Resources,
    both: &Resources,
) -> Result<()> {
    let none = Resources {
        asn: Ranges::empty(alloc, Family::Asn),
        v4: Ranges::empty(alloc, Family::V4),
        v6: both.v6.minus(alloc, &all.v6)?,
    };
    let inside = (all.inside(both), both.inside(&none));
    let empty = (all.is_empty(), none.is_empty());
    Ok(write!(text, "{inside:?}\t{empty:?}")?)
}

/// What the two sets have in common, what they have together, what the first has alone, and whether it
/// is inside the second.
pub fn pair(alloc: Global, family: Family, texts: &str) -> Result<String> {
    let (ours, theirs) = first_field(texts)?;
    let a = set_of(alloc, family, ours)?;
    let b = set_of(alloc, family, theirs)?;
    let meet = a.meet(alloc, &b)?.text(alloc)?;
    let join = a.join(alloc, &b)?.text(alloc)?;
    let minus = a.minus(alloc, &b)?.text(alloc)?;
    let inside = a.inside(&b);
    Ok(format!(in alloc; "{meet}\t{join}\t{minus}\t{inside}")?)
}

/// The same, as the numbers below 42 that are in the first set, in both, in either and in the first
/// alone.
pub fn members(alloc: Global, family: Family, texts: &str) -> Result<String> {
    let (ours, theirs) = first_field(texts)?;
    let a = set_of(alloc, family, ours)?;
    let b = set_of(alloc, family, theirs)?;
    let listed = low_numbers(alloc, &a.copy(alloc)?)?;
    let meet = low_numbers(alloc, &a.meet(alloc, &b)?)?;
    let join = low_numbers(alloc, &a.join(alloc, &b)?)?;
    let minus = low_numbers(alloc, &a.minus(alloc, &b)?)?;
    let inside = a.inside(&b);
    Ok(format!(in alloc; "{listed}\t{meet}\t{join}\t{minus}\t{inside}")?)
}

// The numbers below 42 that are in the set, with a blank behind each.
fn low_numbers(alloc: Global, set: &Ranges) -> Result<String> {
    let mut numbers = String::new(alloc);
    for n in 0..42u8 {
        if set.holds(u128::from(n)) {
            write!(numbers, "{n} ")?;
        }
    }
    Ok(numbers)
}

pub fn set_of(alloc: Global, family: Family, text: &str) -> Result<Ranges>
    ensures { IfOk result (λ set. set.family ≡ family) }
{
    let set = Ranges::read_text(alloc, family, text).context("a set that isn't read")?;
    Ok(set)
}

// The range between two numbers with a hyphen between them.
pub fn range_of(text: &str) -> Result<Range> {
    let (first, last) = text.split_once('-').context("no range")?;
    let (first, last) = (first.parse::<u128>()?, last.parse::<u128>()?);
    ensure!(first <= last, "a range that falls");
    Ok(Range { first, last })
}

pub fn shown(alloc: Global, set: &Ranges) -> Result<String> {
    let mut text = String::new(alloc);
    push_shown(alloc, &mut text, set)?;
    Ok(text)
}

// The ranges of the set, with a blank behind each, and its text.
fn push_shown(alloc: Global, text: &mut String, set: &Ranges) -> Result<()> {
    for range in set.as_slice() {
        write!(text, "{}-{} ", range.first, range.last)?;
    }
    text.push_str("\t")?;
    text.push_str(&set.text(alloc)?)?;
    Ok(())
}
