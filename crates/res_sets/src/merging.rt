//! Merges of sorted lists of ranges, each in one pass.

ghost use Rattle.std.specs.Prelude.{◌≡◌, ℕ, ◌+◌, ◌≤◌, ◌<◌, ◌↔◌, ◌&&◌, ◌||◌, not, nat_le, nat_lt, max, [], length, if◌then◌else◌, IfOk, OnOk, IfSome, IfNone, IsSome};
ghost use Rattle.std.specs.List.Sorted.{IsNonDecreasingBy};
ghost use Rattle.res_sets.specs.Numbers.{spans, any_spans, RisesFrom};
ghost use Rattle.res_sets.specs.Merging.{room_from, last_first};

use crate::numbers::Range;
use std::alloc::{AllocError, Global};

// The numbers from the first of the left range to the last of either, where the two overlap or touch.
fn hull(left: Range, right: Range) -> Option<Range>
    requires { left.first ≤ right.first }
    ensures touch { IsSome result ↔ (right.first ≤ left.last + 1) }
    ensures hull { IfSome result
        (λ both. (both.first ≡ left.first) × (both.last ≡ max left.last right.last)) }
{
    if right.first <= left.last || right.first - left.last == 1 {
        Some(Range {
            first: left.first,
            last: left.last.max(right.last),
        })
    } else {
        None
    }
}

// Adds a range that begins at or behind the last one.
pub fn append(out: &mut Vec<Range>, range: Range) -> Result<(), AllocError>
    requires rises { RisesFrom 0 out.old.items }
    requires behind { last_first out.old.items ≤ range.first }
    ensures rises { OnOk result (RisesFrom 0 out.new.items) }
    ensures last { OnOk result (last_first out.new.items ≤ range.first) }
    ensures members { OnOk result
        ((n : ℕ) → any_spans out.new.items n ≡ (any_spans out.old.items n || spans range n)) }
{
    if let Some(last) = out.pop() {
        match hull(last, range) {
            Some(both) => {
                out.push(both)?;
                return Ok(());
            }
            None => out.push(last)?,
        }
    }
    out.push(range)?;
    Ok(())
}

// Adds the numbers from the first to the last, if any.
fn push_between(out: &mut Vec<Range>, first: u128, last: u128) -> Result<(), AllocError>
    requires rises { RisesFrom 0 out.old.items }
    requires room { first ≤ last → room_from 0 out.old.items ≤ first }
    ensures rises { OnOk result (RisesFrom 0 out.new.items) }
    ensures room { OnOk result (room_from 0 out.new.items
        ≡ (if nat_le first last then last + 2 else room_from 0 out.old.items)) }
    ensures members { OnOk result
        ((n : ℕ) → any_spans out.new.items n
        ≡ (any_spans out.old.items n || (nat_le first n && nat_le n last))) }
{
    if first <= last {
        out.push(Range { first, last })?;
    }
    Ok(())
}

// Adds the numbers from the first on that are below the end, if any.
fn push_before(out: &mut Vec<Range>, first: u128, end: u128) -> Result<(), AllocError>
    requires rises { RisesFrom 0 out.old.items }
    requires room { first < end → room_from 0 out.old.items ≤ first }
    ensures rises { OnOk result (RisesFrom 0 out.new.items) }
    ensures room { OnOk result (room_from 0 out.new.items
        ≡ (if nat_lt first end then end + 1 else room_from 0 out.old.items)) }
    ensures members { OnOk result
        ((n : ℕ) → any_spans out.new.items n
        ≡ (any_spans out.old.items n || (nat_le first n && nat_lt n end))) }
{
    if first < end {
        out.push(Range {
            first,
            last: end - 1,
        })?;
    }
    Ok(())
}

pub fn meet(alloc: Global, a: &[Range], b: &[Range]) -> Result<Vec<Range>, AllocError>
    requires a_rises { RisesFrom 0 a.now }
    requires b_rises { RisesFrom 0 b.now }
    ensures rises { IfOk result (λ out. RisesFrom 0 out.items) }
    ensures members { IfOk result
        (λ out. (n : ℕ) → any_spans out.items n ≡ (any_spans a.now n && any_spans b.now n)) }
{
    let (mut a, mut b) = (a, b);
    let mut out = Vec::new(alloc);
    while let (Some((left, rest_a)), Some((right, rest_b))) = (a.split_first(), b.split_first()) {
        push_between(
            &mut out,
            left.first.max(right.first),
            left.last.min(right.last),
        )?;
        if left.last <= right.last {
            a = rest_a;
        } else {
            b = rest_b;
        }
    }
    Ok(out)
}

// The range that begins first of those at the two heads, and what is left behind it.
fn take_first<'a>(a: &'a [Range], b: &'a [Range]) -> Option<(Range, &'a [Range], &'a [Range])>
    requires a_rises { RisesFrom 0 a.now }
    requires b_rises { RisesFrom 0 b.now }
    ensures none { IfNone result ((a.now ≡ []) × (b.now ≡ [])) }
    ensures least { IfSome result
        (λ x. (low : ℕ) → RisesFrom low a.now → RisesFrom low b.now → low ≤ x.0.first) }
    ensures a_rest { IfSome result (λ x. RisesFrom x.0.first x.1.now) }
    ensures b_rest { IfSome result (λ x. RisesFrom x.0.first x.2.now) }
    ensures shorter { IfSome result
        (λ x. length x.1.now + length x.2.now < length a.now + length b.now) }
    ensures members { IfSome result (λ x. (n : ℕ) → (any_spans a.now n || any_spans b.now n)
        ≡ (spans x.0 n || (any_spans x.1.now n || any_spans x.2.now n))) }
{
    match (a.split_first(), b.split_first()) {
        (Some((left, rest_a)), Some((right, rest_b))) => {
            if left.first <= right.first {
                Some((*left, rest_a, b))
            } else {
                Some((*right, a, rest_b))
            }
        }
        (Some((left, rest_a)), None) => Some((*left, rest_a, b)),
        (None, Some((right, rest_b))) => Some((*right, a, rest_b)),
        (None, None) => None,
    }
}

pub fn join(alloc: Global, a: &[Range], b: &[Range]) -> Result<Vec<Range>, AllocError>
    requires a_rises { RisesFrom 0 a.now }
    requires b_rises { RisesFrom 0 b.now }
    ensures rises { IfOk result (λ out. RisesFrom 0 out.items) }
    ensures members { IfOk result
        (λ out. (n : ℕ) → any_spans out.items n ≡ (any_spans a.now n || any_spans b.now n)) }
{
    let (mut a, mut b) = (a, b);
    let mut out = Vec::new(alloc);
    while let Some((range, rest_a, rest_b)) = take_first(a, b) {
        append(&mut out, range)?;
        a = rest_a;
        b = rest_b;
    }
    Ok(out)
}

pub fn minus(alloc: Global, a: &[Range], b: &[Range]) -> Result<Vec<Range>, AllocError>
    requires a_rises { RisesFrom 0 a.now }
    requires b_rises { RisesFrom 0 b.now }
    ensures rises { IfOk result (λ out. RisesFrom 0 out.items) }
    ensures members { IfOk result
        (λ out. (n : ℕ) → any_spans out.items n ≡ (any_spans a.now n && not (any_spans b.now n))) }
{
    let (mut a, mut b) = (a, b);
    let mut out = Vec::new(alloc);
    // The numbers below are done with.
    let mut from = 0;
    while let Some((left, rest)) = a.split_first() {
        let first = left.first.max(from);
        match b.split_first() {
            Some((right, others)) if right.last < first => b = others,
            Some((right, others)) if right.first <= left.last => {
                push_before(&mut out, first, right.first)?;
                if right.last < left.last {
                    from = right.last + 1;
                    b = others;
                } else {
                    a = rest;
                }
            }
            _ => {
                push_between(&mut out, first, left.last)?;
                a = rest;
            }
        }
    }
    Ok(out)
}

fn sort_by_first(ranges: &mut [Range])
    ensures sorted { IsNonDecreasingBy (λ range. range.first) ranges.new }
    ensures members { (n : ℕ) → any_spans ranges.new n ≡ any_spans ranges.old n }
{
    ranges.sort_unstable_by_key(|range| range.first);
}

fn join_sorted(alloc: Global, ranges: &[Range]) -> Result<Vec<Range>, AllocError>
    requires { IsNonDecreasingBy (λ range. range.first) ranges.now }
    ensures rises { IfOk result (λ out. RisesFrom 0 out.items) }
    ensures members { IfOk result (λ out. (n : ℕ) → any_spans out.items n ≡ any_spans ranges.now n) }
{
    let mut out = Vec::new(alloc);
    for range in ranges {
        append(&mut out, *range)?;
    }
    Ok(out)
}

// The numbers of all the ranges, which may overlap and stand in any order.
pub fn join_all(alloc: Global, ranges: Vec<Range>) -> Result<Vec<Range>, AllocError>
    ensures rises { IfOk result (λ out. RisesFrom 0 out.items) }
    ensures members { IfOk result (λ out. (n : ℕ) → any_spans out.items n ≡ any_spans ranges.items n) }
{
    let mut ranges = ranges;
    sort_by_first(&mut ranges);
    join_sorted(alloc, &ranges)
}
