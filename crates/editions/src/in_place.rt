//! Tables and sets that are given up, changed in place.

ghost use Rattle.std.specs.Prelude.{◌≡◌, ◌<◌, ◌≤◌, suc, [], ◌∷◌, ◌++◌, length, insert, remove, Some, IfOk, OnOk};
ghost use Rattle.pub_set.specs.Objects.{Rise};
ghost use Rattle.pub_set.specs.Changes.{uri_of, IsApplied};
ghost use Rattle.editions.specs.Joining.{IsJoined};
ghost use Rattle.editions.specs.Standing.{next_uri, next_row, IsTableAfter};
ghost use Rattle.editions.specs.inner.RowPlaces.{IsRowPlace, IsExchanged, IsPutBehind};
ghost use Rattle.editions.specs.declared.standing.NextRow.TheVariants.{Issued, Gone};

use crate::joining::AtUri;
use crate::row_merging::{compare, merged};
use crate::standing::{NextRow, coming_rows};
use key_roll::IssuedRow;
use pub_set::{Change, ObjectSet, Uri};
use std::alloc::{AllocError, Global};

// So many rows may come where none was, or go: each moves the rows behind its place, half the table as a rule, where it
// isn't exchanged for another. Of more, all rows are merged into a new list, which moves each once.
const FEW: usize = 8;

// The place of the row at the URI, or the place where it would stand.
fn place_of(rows: &[IssuedRow], uri: &Uri) -> Result<usize, usize>
    requires { Rise (λ row. row.uri) rows.now }
    ensures { IsRowPlace rows.now uri.now result }
{
    rows.binary_search_by(|row: &IssuedRow| compare(row, uri))
}

// Puts a row at its place, over the one that is there.
fn put_row(rows: &mut Vec<IssuedRow>, row: IssuedRow) -> Result<(), AllocError>
    requires { Rise (λ row. row.uri) rows.old.items }
    ensures { OnOk result (IsJoined (λ row. row.uri) next_uri (λ row. row.uri) next_row
        rows.old.items (Issued row ∷ []) rows.new.items) }
{
    match place_of(rows, &row.uri) {
        Ok(place) => {
            rows[place] = row;
            Ok(())
        }
        Err(place) => Ok(rows.insert(place, row)?),
    }
}

// Takes out the row at the URI, if there is one.
fn take_row(rows: &mut Vec<IssuedRow>, uri: Uri)
    requires { Rise (λ row. row.uri) rows.old.items }
    ensures { IsJoined (λ row. row.uri) next_uri (λ row. row.uri) next_row
        rows.old.items (Gone uri ∷ []) rows.new.items }
{
    if let Ok(place) = place_of(rows, &uri) {
        rows.remove(place);
    }
}

// Makes what comes to one URI stand there.
fn put_next(rows: &mut Vec<IssuedRow>, next: NextRow) -> Result<(), AllocError>
    requires { Rise (λ row. row.uri) rows.old.items }
    ensures { OnOk result (IsJoined (λ row. row.uri) next_uri (λ row. row.uri) next_row
        rows.old.items (next ∷ []) rows.new.items) }
{
    match next {
        NextRow::Issued { row } => put_row(rows, row),
        NextRow::Gone { uri } => {
            take_row(rows, uri);
            Ok(())
        }
    }
}

// Puts a row in at `to`, and takes the one at `from` out: those between move up by one place.
fn shift_up(rows: &mut Vec<IssuedRow>, from: usize, to: usize, row: IssuedRow)
    requires between { from < to }
    requires bound { to ≤ length rows.old.items }
    ensures { rows.new.items ≡ remove (insert rows.old.items to row) from }
{
    rows[from] = row;
    rows[from..to].rotate_left(1);
}

// The same where the row that goes stands behind: those between move down by one place.
fn shift_down(rows: &mut Vec<IssuedRow>, from: usize, to: usize, row: IssuedRow)
    requires between { to ≤ from }
    requires bound { from < length rows.old.items }
    ensures { rows.new.items ≡ remove (insert rows.old.items to row) (suc from) }
{
    rows[from] = row;
    rows[to..from + 1].rotate_right(1);
}

// Puts a row at its place, and takes another out: only rows between the two places are moved.
fn exchange(rows: &mut Vec<IssuedRow>, gone: Uri, row: IssuedRow) -> Result<(), AllocError>
    requires { Rise (λ row. row.uri) rows.old.items }
    ensures { OnOk result (IsExchanged rows.old.items gone row rows.new.items) }
{
    if let (Ok(from), Err(to)) = (place_of(rows, &gone), place_of(rows, &row.uri)) {
        if from < to {
            shift_up(rows, from, to, row);
        } else {
            shift_down(rows, from, to, row);
        }
        return Ok(());
    }
    put_row(rows, row)?;
    take_row(rows, gone);
    Ok(())
}

// Makes both stand where a row comes and one goes, and else the first. What is left is answered.
fn put_movers(
    rows: &mut Vec<IssuedRow>,
    first: NextRow,
    one: NextRow,
) -> Result<Option<NextRow>, AllocError>
    requires { Rise (λ row. row.uri) rows.old.items }
    ensures { IfOk result (IsPutBehind rows.old.items (Some first) one rows.new.items) }
{
    match first {
        NextRow::Gone { uri } => match one {
            NextRow::Issued { row } => {
                exchange(rows, uri, row)?;
                Ok(None)
            }
            NextRow::Gone { uri: other } => {
                take_row(rows, uri);
                Ok(Some(NextRow::Gone { uri: other }))
            }
        },
        NextRow::Issued { row } => match one {
            NextRow::Gone { uri } => {
                exchange(rows, uri, row)?;
                Ok(None)
            }
            NextRow::Issued { row: other } => {
                put_row(rows, row)?;
                Ok(Some(NextRow::Issued { row: other }))
            }
        },
    }
}

// Whether this moves the rows behind its place: a row comes where none is, or goes.
fn moves(rows: &[IssuedRow], next: &NextRow) -> bool
    requires { Rise (λ row. row.uri) rows.now }
{
    let stays = matches!(next, NextRow::Issued { .. });
    place_of(rows, next.uri()).is_ok() != stays
}

// Makes what comes stand, or lets it wait for one with which it can be exchanged. What waits then is answered.
fn put_behind(
    rows: &mut Vec<IssuedRow>,
    waits: Option<NextRow>,
    one: NextRow,
) -> Result<Option<NextRow>, AllocError>
    requires { Rise (λ row. row.uri) rows.old.items }
    ensures { IfOk result (IsPutBehind rows.old.items waits one rows.new.items) }
{
    if !moves(rows, &one) {
        put_next(rows, one)?;
        return Ok(waits);
    }
    match waits {
        Some(first) => put_movers(rows, first, one),
        None => Ok(Some(one)),
    }
}

// Makes what comes stand at each of its URIs.
fn put_each(rows: &mut Vec<IssuedRow>, coming: Vec<NextRow>) -> Result<(), AllocError>
    requires rows { Rise (λ row. row.uri) rows.old.items }
    requires coming { Rise next_uri coming.items }
    ensures { OnOk result (IsJoined (λ row. row.uri) next_uri (λ row. row.uri) next_row
        rows.old.items coming.items rows.new.items) }
{
    let mut waits = None;
    for one in coming {
        waits = put_behind(rows, waits, one)?;
    }
    if let Some(last) = waits {
        put_next(rows, last)?;
    }
    Ok(())
}

// Whether few of what comes moves the rows behind its place.
fn moves_few(rows: &[IssuedRow], coming: &[NextRow]) -> bool
    requires { Rise (λ row. row.uri) rows.now }
{
    let mut left = FEW;
    for next in coming {
        if moves(rows, next) {
            if left == 0 {
                return false;
            }
            left -= 1;
        }
    }
    true
}

// The rows once these come: in place, or merged into a list of its own. No row is copied.
fn carried_out(
    alloc: Global,
    old: Vec<IssuedRow>,
    coming: Vec<NextRow>,
) -> Result<Vec<IssuedRow>, AllocError>
    requires old { Rise (λ row. row.uri) old.items }
    requires coming { Rise next_uri coming.items }
    ensures { IfOk result (λ rows. IsJoined (λ row. row.uri) next_uri (λ row. row.uri) next_row
        old.items coming.items rows.items) }
{
    if !moves_few(&old, &coming) {
        return merged(alloc, old, coming);
    }
    let mut rows = old;
    put_each(&mut rows, coming)?;
    Ok(rows)
}

#[tactic(auto, using(crate::proofs::StateLemmas::Tabled::table_after))]
/// The same as `next_table`, of a table that is given up: its rows are moved, and none is copied.
pub fn changed_table(
    alloc: Global,
    old: Vec<IssuedRow>,
    changes: &[Change],
    issued: &[IssuedRow],
) -> Result<Vec<IssuedRow>, AllocError>
    requires old { Rise (λ row. row.uri) old.items }
    requires changes { Rise uri_of changes.now }
    requires issued { Rise (λ row. row.uri) issued.now }
    ensures { IfOk result (λ rows. IsTableAfter old.items changes.now issued.now rows.items) }
{
    let coming = coming_rows(alloc, changes, issued)?;
    let rows = carried_out(alloc, old, coming)?;
    Ok(rows)
}

// Puts the same changes behind the others.
fn push_copies(alloc: Global, all: &mut Vec<Change>, changes: &[Change]) -> Result<(), AllocError>
    ensures { OnOk result (all.new.items ≡ all.old.items ++ changes.now) }
{
    for change in changes {
        all.push(change.copy(alloc)?)?;
    }
    Ok(())
}

/// The same changes once more.
pub fn copied_changes(alloc: Global, changes: &[Change]) -> Result<Vec<Change>, AllocError>
    ensures { IfOk result (λ copies. copies.items ≡ changes.now) }
{
    let mut copies = Vec::with_capacity(alloc, changes.len())?;
    push_copies(alloc, &mut copies, changes)?;
    Ok(copies)
}

/// What two lists of changes, one after the other, make of a set that is given up. Its objects are neither copied nor
/// hashed; where one URI is in both lists, it is changed once.
pub fn changed_set(
    alloc: Global,
    old: ObjectSet,
    first: Vec<Change>,
    then: &[Change],
) -> Result<ObjectSet, AllocError>
    ensures { IfOk result (λ set. IsApplied old (first.items ++ then.now) set) }
{
    let (mut set, mut changes) = (old, first);
    push_copies(alloc, &mut changes, then)?;
    set.apply(alloc, changes)?;
    Ok(set)
}
