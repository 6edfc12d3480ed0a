//! Rows that come, merged into a table that is given up.

ghost use Rattle.std.specs.Prelude.{◌≡◌, ◌++◌, ◌∷◌, [], ℕ, List, None, Some, option_to_list, IfOk, OnOk};
ghost use Rattle.std.specs.declared.cmp.Ordering.TheVariants.{Less};
ghost use Rattle.pub_set.specs.Objects.{uri_cmp, Rise, AllBelow};
ghost use Rattle.editions.specs.Joining.{IsJoined};
ghost use Rattle.editions.specs.Standing.{next_uri, next_row};
ghost use Rattle.editions.specs.inner.RowPlaces.{StartsElse, PopsIf};

use crate::joining::AtUri;
use crate::standing::NextRow;
use key_roll::IssuedRow;
use pub_set::Uri;
use std::alloc::{AllocError, Global};
use std::cmp::Ordering;
use std::collections::VecDeque;

/// The rows once these come, by a walk through both. Each row is moved, and none is copied.
pub fn merged(
    alloc: Global,
    old: Vec<IssuedRow>,
    coming: Vec<NextRow>,
) -> Result<Vec<IssuedRow>, AllocError>
    requires old { Rise (λ row. row.uri) old.items }
    requires coming { Rise next_uri coming.items }
    ensures { IfOk result (λ rows. IsJoined (λ row. row.uri) next_uri (λ row. row.uri) next_row
        old.items coming.items rows.items) }
{
    let mut rows = Vec::with_capacity(alloc, old.len().saturating_add(coming.len()))?;
    let mut rest = VecDeque::from_vec(old);
    for one in coming {
        merge_one(&mut rows, &mut rest, one)?;
    }
    move_all(&mut rows, rest)?;
    Ok(rows)
}

// Moves the rows below its URI, and makes what comes stand there behind them.
fn merge_one(
    rows: &mut Vec<IssuedRow>,
    rest: &mut VecDeque<IssuedRow>,
    next: NextRow,
) -> Result<(), AllocError>
    requires rising { Rise (λ row. row.uri) (rows.old.items ++ rest.old.items) }
    requires behind { AllBelow (λ row. row.uri) rows.old.items (next_uri next) }
    ensures joined { OnOk result (IsJoined (λ row. row.uri) next_uri (λ row. row.uri) next_row
        (rows.old.items ++ rest.old.items) (next ∷ []) (rows.new.items ++ rest.new.items)) }
    ensures behind { OnOk result ((later : List ℕ) → uri_cmp (next_uri next) later ≡ Less
        → AllBelow (λ row. row.uri) rows.new.items later) }
{
    move_below(rows, rest, next.uri())?;
    pop_if(rest, next.uri(), Ordering::Equal);
    push_next(rows, next)?;
    Ok(())
}

// Puts the row that comes, if one does, behind the others.
fn push_next(rows: &mut Vec<IssuedRow>, next: NextRow) -> Result<(), AllocError>
    ensures { OnOk result (rows.new.items ≡ rows.old.items ++ option_to_list (next_row None (Some next))) }
{
    match next {
        NextRow::Issued { row } => Ok(rows.push(row)?),
        NextRow::Gone { uri: _uri } => Ok(()),
    }
}

// Moves all rows.
fn move_all(rows: &mut Vec<IssuedRow>, rest: VecDeque<IssuedRow>) -> Result<(), AllocError>
    ensures { OnOk result (rows.new.items ≡ rows.old.items ++ rest.items) }
{
    for row in rest {
        rows.push(row)?;
    }
    Ok(())
}

// Moves the rows below the URI.
fn move_below(
    rows: &mut Vec<IssuedRow>,
    rest: &mut VecDeque<IssuedRow>,
    uri: &Uri,
) -> Result<(), AllocError>
    requires behind { AllBelow (λ row. row.uri) rows.old.items uri.now }
    ensures items { OnOk result (rows.new.items ++ rest.new.items ≡ rows.old.items ++ rest.old.items) }
    ensures behind { OnOk result (AllBelow (λ row. row.uri) rows.new.items uri.now) }
    ensures rest { OnOk result (StartsElse rest.new.items uri.now Less) }
{
    while let Some(row) = pop_if(rest, uri, Ordering::Less) {
        rows.push(row)?;
    }
    Ok(())
}

// Takes the first row if its URI compares so to another.
fn pop_if(rest: &mut VecDeque<IssuedRow>, uri: &Uri, order: Ordering) -> Option<IssuedRow>
    ensures { PopsIf rest.old.items uri.now order result rest.new.items }
{
    if compare(rest.front()?, uri) == order {
        rest.pop_front()
    } else {
        None
    }
}

/// How the row's URI compares to another.
pub fn compare(row: &IssuedRow, uri: &Uri) -> Ordering
    ensures { result ≡ uri_cmp row.now.uri uri.now }
{
    row.uri.as_str().cmp(uri.as_str())
}
