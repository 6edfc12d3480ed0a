//! Sets built range by range, and of many ranges.

ghost use Rattle.std.specs.Prelude.{ℕ, ◌<◌, IsTrue};
ghost use Rattle.res_sets.specs.Numbers.{family_end, any_spans};

use crate::numbers::sets::{range_of, set_of, shown};
use anyhow::{Result, bail};
use res_sets::{Family, Range, Ranges, Resources};
use std::alloc::Global;
use test_support::first_field;

fn ranges_of(alloc: Global, text: &str) -> Result<Vec<Range>> {
    let mut ranges = Vec::new(alloc);
    for range in text.split(' ') {
        ranges.push(range_of(range)?)?;
    }
    Ok(ranges)
}

/// The set of these ranges, put one behind another, or the fault and the set up to there.
pub fn pushed(alloc: Global, family: Family, text: &str) -> Result<String> {
    let mut set = Ranges::with_room(alloc, family, 1)?;
    for range in ranges_of(alloc, text)? {
        if let Err(fault) = set.push(range) {
            let up_to = shown(alloc, &set)?;
            return Ok(format!(in alloc; "{fault:?}\t{up_to}")?);
        }
    }
    shown(alloc, &set)
}

/// The set of the numbers that one of these ranges has.
pub fn joined(alloc: Global, family: Family, text: &str) -> Result<String> {
    let ranges = ranges_of(alloc, text)?;
    if !are_within(family, &ranges) {
        bail!("a range of another family");
    }
    shown(alloc, &Ranges::join_all(alloc, family, ranges)?)
}

// Whether each range is of the family.
fn are_within(family: Family, ranges: &[Range]) -> bool
    ensures { IsTrue result → (n : ℕ) → IsTrue (any_spans ranges.now n) → n < family_end family }
{
    let greatest = family.last();
    for range in ranges {
        if range.last > greatest {
            return false;
        }
    }
    true
}

/// Whether the two texts spell one set.
pub fn same(alloc: Global, family: Family, texts: &str) -> Result<String> {
    let (ours, theirs) = first_field(texts)?;
    let a = set_of(alloc, family, ours)?;
    let b = set_of(alloc, family, theirs)?;
    let same = a.equals(&b);
    Ok(format!(in alloc; "{same}")?)
}

/// Whether no resources are empty, are the same as none, and as all; whether they have AS 0, and all
/// resources the last address of IPv6.
pub fn nothing(alloc: Global) -> Result<String> {
    let none = Resources::empty(alloc);
    let all = Resources::whole(alloc)?;
    let same = (none.equals(&none.copy(alloc)?), none.equals(&all));
    let has = (none.holds(Family::Asn, 0), all.holds(Family::V6, u128::MAX));
    let empty = none.is_empty();
    Ok(format!(in alloc; "{empty}\t{same:?}\t{has:?}")?)
}
