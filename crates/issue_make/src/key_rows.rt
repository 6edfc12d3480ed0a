//! The rows of the keys after an edition.

ghost use Rattle.std.specs.Prelude.{◌≡◌, ◌+◌, ◌<◌, ◌≤◌, ◌^◌, List, map, length, All, IsPermutation, IfOk};
ghost use Rattle.std.specs.List.Sorted.{IsSortedBy, IsStableBy};
ghost use Rattle.std.specs.Ordering.{is_lt};
ghost use Rattle.issue_drafts.specs.Drafts.{serial_behind};
ghost use Rattle.issue_drafts.specs.IssueInput.{IssueInput};
ghost use Rattle.issue_drafts.specs.Revoking.{has_point};
ghost use Rattle.issue_make.specs.Trace.{IssuingTrace, all_of, row_after, rank, is_before};
ghost use Rattle.issue_make.specs.inner.Keys.{row_with, rows_with, AreAfter};

use items::Items;
use key_roll::{KeyRow, RevokedRow, Role};
use std::alloc::{AllocError, Global};
use std::cmp::Ordering;

/// The order of roles.
fn rank(role: Role) -> u8
    ensures { result ≡ rank role }
{
    match role {
        Role::New => 0,
        Role::Current => 1,
        Role::Old => 2,
    }
}

/// By desk and role.
fn compare(a: &KeyRow, b: &KeyRow) -> Ordering
    ensures { is_lt result ≡ is_before a.now b.now }
{
    a.desk.cmp(&b.desk).then(rank(a.role).cmp(&rank(b.role)))
}

/// A key's row after the edition.
fn row_after(
    moment: u64,
    key: &KeyRow,
    has_point: bool,
    next: u64,
    revoked: Items<RevokedRow>,
) -> KeyRow
    requires next { next + 1 < 2 ^ 64 }
    requires number { key.now.number + 1 < 2 ^ 64 }
    ensures { result ≡ row_with moment key.now has_point next revoked }
{
    let (next_serial, number, this_update) = if has_point {
        (next + 1, key.number + 1, moment)
    } else {
        (next, key.number, key.this_update)
    };
    KeyRow {
        desk: key.desk,
        signer: key.signer,
        role: key.role,
        key: key.key,
        next_serial,
        number,
        this_update,
        since: key.since,
        done: key.done,
        revoked,
    }
}

/// The rows of the keys after the edition, in the keys' order.
fn unordered(
    alloc: Global,
    moment: u64,
    keys: &[KeyRow],
    points: &[bool],
    next: &[u64],
    revoked: Vec<Items<RevokedRow>>,
) -> Result<Vec<KeyRow>, AllocError>
    requires points { length points.now ≡ length keys.now }
    requires next { length next.now ≡ length keys.now }
    requires each { length revoked.items ≡ length keys.now }
    requires serials { All (λ n. n + 1 < 2 ^ 64) next.now }
    requires numbers { All (λ key. key.number + 1 < 2 ^ 64) keys.now }
    ensures { IfOk result (λ rows. rows.items ≡ rows_with moment keys.now points.now next.now revoked.items) }
{
    let mut rows = Vec::with_capacity(alloc, keys.len())?;
    for list in revoked {
        let position = rows.len();
        let row = row_after(
            moment,
            &keys[position],
            points[position],
            next[position],
            list,
        );
        rows.push(row)?;
    }
    Ok(rows)
}

/// The rows of the keys after the edition, by desk and role, those of one desk and role in the keys' order: from whether
/// each gets a CRL and a manifest, the serial that comes next under it, and the entries of its CRL. `moment` is in
/// seconds since 1970; the lists have an item for each key.
pub fn rows_after(
    alloc: Global,
    moment: u64,
    keys: &[KeyRow],
    points: &[bool],
    next: &[u64],
    revoked: Vec<Items<RevokedRow>>,
) -> Result<Items<KeyRow>, AllocError>
    requires points { length points.now ≡ length keys.now }
    requires next { length next.now ≡ length keys.now }
    requires each { length revoked.items ≡ length keys.now }
    requires serials { All (λ n. n + 1 < 2 ^ 64) next.now }
    requires numbers { All (λ key. key.number + 1 < 2 ^ 64) keys.now }

    // Those of whichever trace these are.
    ensures rows { IfOk result (λ rows. (s : IssueInput) (trace : IssuingTrace)
        → AreAfter s trace moment keys.now points.now next.now revoked.items
        → IsPermutation (map (row_after s trace) keys.now) rows) }
    ensures sorted { IfOk result (λ rows. IsSortedBy is_before rows) }
    ensures stable { IfOk result (λ rows. (s : IssueInput) (trace : IssuingTrace)
        → AreAfter s trace moment keys.now points.now next.now revoked.items
        → IsStableBy is_before (map (row_after s trace) keys.now) rows) }
{
    let mut rows = unordered(alloc, moment, keys, points, next, revoked)?;
    rows.sort_by(|a, b| compare(a, b))?;
    Ok(Items::new(rows))
}
