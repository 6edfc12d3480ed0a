//! Objects that stand, by their positions in the table.

ghost use Rattle.std.specs.Prelude.{◌≡◌, ◌↔◌, ◌++◌, ◌∷◌, ℕ, List, [], length, map, IfOk, OnOk, IsTrue, option_map};
ghost use Rattle.std.specs.Ordering.{is_lt};
ghost use Rattle.std.specs.List.{filter_map, cons_option};
ghost use Rattle.std.specs.List.Sorted.{IsBinarySearchResult, IsSearchInRange};
ghost use Rattle.pub_set.specs.Objects.{uri_cmp, Rise};
ghost use Rattle.issue_plan.specs.inner.Positions.{position_in, found_in, AreMarks, unmarked};

use key_roll::IssuedRow;
use pub_set::Uri;
use std::alloc::{AllocError, Global};
use std::cmp::Ordering;

// How two URIs compare, byte by byte.
fn compare(a: &Uri, b: &Uri) -> Ordering
    ensures { result ≡ uri_cmp a.now b.now }
{
    a.as_str().cmp(b.as_str())
}

// Whether the one URI comes before the other.
fn is_below(a: &Uri, b: &Uri) -> bool
    ensures { result ≡ is_lt (uri_cmp a.now b.now) }
{
    compare(a, b).is_lt()
}

/// Whether objects stand by rising URI, each URI once, as `plan` asks.
pub fn are_by_uri(issued: &[IssuedRow]) -> bool
    ensures { IsTrue result ↔ Rise (λ row. row.uri) issued.now }
{
    for position in 1..issued.len() {
        if !is_below(&issued[position - 1].uri, &issued[position].uri) {
            return false;
        }
    }
    true
}

// Where a URI stands among rows, or else where it would stand.
fn search(issued: &[IssuedRow], uri: &Uri) -> Result<usize, usize>
    ensures bound { IsSearchInRange result (length issued.now) }
    ensures found { IsBinarySearchResult (λ row. uri_cmp row.uri uri.now) issued.now result }
{
    issued.binary_search_by(|row| compare(&row.uri, uri))
}

/// The position of what stands at the URI, found in logarithmic time.
pub fn position_of(issued: &[IssuedRow], uri: &Uri) -> Option<usize>
    requires { Rise (λ row. row.uri) issued.now }
    ensures { result ≡ position_in issued.now uri.now }
{
    match search(issued, uri) {
        Ok(position) => Some(position),
        Err(_) => None,
    }
}

/// What stands at the URI, found in logarithmic time.
pub fn row_at<'a>(issued: &'a [IssuedRow], uri: &Uri) -> Option<&'a IssuedRow>
    requires { Rise (λ row. row.uri) issued.now }
    ensures { option_map (λ row. row.now) result ≡ found_in issued.now uri.now }
{
    match position_of(issued, uri) {
        Some(position) => issued.get(position),
        None => None,
    }
}

/// The positions of what stands at these URIs, in the order of the URIs.
pub fn positions_of(
    alloc: Global,
    issued: &[IssuedRow],
    uris: &[Uri],
) -> Result<Vec<usize>, AllocError>
    requires { Rise (λ row. row.uri) issued.now }
    ensures { IfOk result (λ positions. positions.items ≡ filter_map (position_in issued.now) uris.now) }
{
    uris.iter()
        .filter_map(|uri| position_of(issued, uri))
        .collect(alloc)
}

/// A mark for each of so many positions that is among these.
pub fn marks(alloc: Global, count: usize, positions: &[usize]) -> Result<Vec<bool>, AllocError>
    ensures { IfOk result (λ marks. AreMarks count positions.now marks.items) }
{
    let mut marks = vec![in alloc; false; count]?;
    for position in positions {
        if let Some(mark) = marks.get_mut(*position) {
            *mark = true;
        }
    }
    Ok(marks)
}

// Marks the position, beside those that are marked.
fn mark_at(marks: &mut Vec<bool>, position: usize)
    ensures { (count : ℕ) (positions : List ℕ) → AreMarks count positions marks.old.items
        → AreMarks count (positions ++ position ∷ []) marks.new.items }
{
    if position < marks.len() {
        marks[position] = true;
    }
}

// Marks the position that there may be, beside those that are marked.
fn mark_one(marks: &mut Vec<bool>, position: Option<usize>)
    ensures { (count : ℕ) (positions : List ℕ) → AreMarks count positions marks.old.items
        → AreMarks count (positions ++ cons_option position []) marks.new.items }
{
    match position {
        Some(position) => mark_at(marks, position),
        None => {}
    }
}

/// Marks the positions that there are, beside those that are marked.
pub fn mark_found(marks: &mut Vec<bool>, found: &[Option<usize>])
    ensures { (count : ℕ) (positions : List ℕ) → AreMarks count positions marks.old.items
        → AreMarks count (positions ++ filter_map (λ p. p) found.now) marks.new.items }
{
    for position in found {
        mark_one(marks, *position);
    }
}

// Puts the URI of a row behind the others, if the row has no mark.
fn push_unmarked_uri(
    alloc: Global,
    uris: &mut Vec<Uri>,
    mark: bool,
    row: &IssuedRow,
) -> Result<(), AllocError>
    ensures { OnOk result (uris.new.items
        ≡ uris.old.items ++ map (λ r. r.uri) (unmarked (mark ∷ []) (row.now ∷ []))) }
{
    if !mark {
        uris.push(row.uri.copy(alloc)?)?;
    }
    Ok(())
}

/// The URIs of the rows without a mark.
pub fn unmarked_uris(
    alloc: Global,
    issued: &[IssuedRow],
    marks: &[bool],
) -> Result<Vec<Uri>, AllocError>
    requires { length marks.now ≡ length issued.now }
    ensures { IfOk result (λ uris. uris.items ≡ map (λ row. row.uri) (unmarked marks.now issued.now)) }
{
    let mut uris = Vec::new(alloc);
    for position in 0..issued.len() {
        push_unmarked_uri(alloc, &mut uris, marks[position], &issued[position])?;
    }
    Ok(uris)
}
