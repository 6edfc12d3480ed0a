//! Questions to sorted lists of ranges.

ghost use Rattle.std.specs.Prelude.{◌≡◌, ℕ, ◌+◌, ◌<◌, ◌≤◌, ◌↔◌, nat_lt, length, false, is_some, IsTrue, IfOk, IfSome};
ghost use Rattle.std.specs.List.{AllWithin};
ghost use Rattle.res_sets.specs.Numbers.{family_end, spans, any_spans, RisesFrom, AreCanonical};
ghost use Rattle.res_sets.specs.Merging.{low_after, room_from};

use crate::numbers::{Family, Range};
use std::alloc::{AllocError, Global};

// The one range of all numbers of the family.
pub fn all(alloc: Global, family: Family) -> Result<Vec<Range>, AllocError>
    ensures members { IfOk result (λ all. (n : ℕ) → any_spans all.items n ≡ nat_lt n (family_end family)) }
    ensures canonical { IfOk result (λ all. AreCanonical family all.items) }
    ensures one { IfOk result (λ all. length all.items ≡ 1) }
{
    let mut all = Vec::new(alloc);
    all.push(Range {
        first: 0,
        last: family.last(),
    })?;
    Ok(all)
}

// Whether at least one number is left out between the range before, if any, and this one.
fn leaves_gap(before: Option<Range>, range: &Range) -> bool
    ensures { IsTrue result ↔ (low_after before ≤ range.now.first) }
{
    match before {
        Some(before) => range.first > before.last && range.first - before.last > 1,
        None => true,
    }
}

/// Sorted, and no two overlap or touch (RFC 3779 sections 2.2.3.6 and 3.2.3.4).
pub fn is_canonical(family: Family, ranges: &[Range]) -> bool
    ensures { IsTrue result ↔ AreCanonical family ranges.now }
{
    let greatest = family.last();
    let mut before = None;
    for range in ranges {
        if range.last > greatest || !leaves_gap(before, range) {
            return false;
        }
        before = Some(*range);
    }
    true
}

// Whether the range is of the family, and leaves out a number behind the last of the ranges.
pub fn goes_behind(family: Family, ranges: &[Range], range: &Range) -> bool
    ensures { IsTrue result
        ↔ ((room_from 0 ranges.now ≤ range.now.first) × (range.now.last < family_end family)) }
{
    range.last <= family.last() && leaves_gap(last_of(ranges), range)
}

fn last_of(ranges: &[Range]) -> Option<Range>
    ensures { low_after result ≡ room_from 0 ranges.now }
{
    match ranges.split_last() {
        Some((last, _)) => Some(*last),
        None => None,
    }
}

// Whether the two lists are one.
pub fn are_same(a: &[Range], b: &[Range]) -> bool
    ensures { IsTrue result ↔ (a.now ≡ b.now) }
{
    a == b
}

// The place of the first range that ends at the number or later, by bisection.
fn place_of(ranges: &[Range], n: u128) -> usize
    requires { RisesFrom 0 ranges.now }
    ensures before { AllWithin (λ range. range.last < n) ranges.now 0 result }
    ensures behind { AllWithin (λ range. n ≤ range.last) ranges.now result (length ranges.now) }
{
    ranges.partition_point(|range| range.last < n)
}

// The range that has the number.
pub fn find(ranges: &[Range], n: u128) -> Option<Range>
    requires { RisesFrom 0 ranges.now }
    ensures found { is_some result ≡ any_spans ranges.now n }
    ensures range { IfSome result (λ range. IsTrue (spans range n)) }
    ensures part { IfSome result
        (λ range. (m : ℕ) → IsTrue (spans range m) → IsTrue (any_spans ranges.now m)) }
    ensures end { IfSome result (λ range. any_spans ranges.now (range.last + 1) ≡ false) }
{
    match ranges.get(place_of(ranges, n)) {
        Some(range) if range.first <= n => Some(*range),
        _ => None,
    }
}

pub fn is_inside(a: &[Range], b: &[Range]) -> bool
    requires a_rises { RisesFrom 0 a.now }
    requires b_rises { RisesFrom 0 b.now }
    ensures { IsTrue result ↔ ((n : ℕ) → IsTrue (any_spans a.now n) → IsTrue (any_spans b.now n)) }
{
    let (mut a, mut b) = (a, b);
    while let Some((inner, rest)) = a.split_first() {
        let Some((outer, others)) = b.split_first() else {
            return false;
        };
        if outer.last < inner.first {
            b = others;
        } else if outer.first <= inner.first && inner.last <= outer.last {
            a = rest;
        } else {
            return false;
        }
    }
    true
}
