//! Which editions may follow what stands, as far as a record tells.

ghost use Rattle.std.specs.Prelude.{◌≡◌, ◌+◌, ◌≤◌, ◌^◌, ◌&&◌, ◌∷◌, ℕ, List, map, nat_le, false, length, IfOk, MatchOption};
ghost use Rattle.std.specs.List.{list_all, list_any};
ghost use Rattle.std.specs.Str.{bytes_eq};
ghost use Rattle.key_roll.specs.declared.rows.KeyRow.{KeyRow};
ghost use Rattle.press_records.specs.Rows.{row_value};
ghost use Rattle.press_records.specs.Stages.{is_alone, are_two, are_stages, are_staged};
ghost use Rattle.press_records.specs.Edition.{first_moment, last_moment, is_next, is_dated, grows, is_cut, is_counted, are_past, is_settled, id_of, are_apart, are_live};

use key_ids::KeyId;
use key_roll::{KeyRow, Role, is_role};
use std::alloc::{AllocError, Global};

// The year 2000 begins.
const FIRST_MOMENT: u64 = 946_684_800;

// What is issued then ends by the year 9999.
const LAST_MOMENT: u64 = 253_370_764_799;

// What a counter is at most.
const MOST_COUNTED: u64 = 1 << 63;

/// Whether a moment may come behind another.
pub fn is_dated(before: u64, moment: u64) -> bool
    ensures { result ≡ is_dated before moment }
{
    before < moment && FIRST_MOMENT <= moment && moment <= LAST_MOMENT
}

// Whether no number is less than before. One that is missing is 0.
fn grows(before: &[u64], cut: &[u64]) -> bool
    ensures { result ≡ grows before.now cut.now }
{
    let mut left = before;
    let mut held = cut;
    while let Some((n, rest)) = left.split_first() {
        let (m, others) = first_or_zero(held);
        if *n > m {
            return false;
        }
        left = rest;
        held = others;
    }
    true
}

// The first number, or 0 where there is none, and those behind it.
fn first_or_zero(numbers: &[u64]) -> (u64, &[u64])
    ensures { (before : List ℕ) (n : ℕ)
        → grows (n ∷ before) numbers.now ≡ (nat_le n result.0 && grows before result.1.now) }
{
    match numbers.split_first() {
        Some((first, rest)) => (*first, rest),
        None => (0, numbers),
    }
}

/// Whether it has a number for each desk, and none is less than before.
pub fn is_cut(before: &[u64], cut: &[u64]) -> bool
    ensures { result ≡ is_cut before.now cut.now }
{
    cut.len() == 64 && grows(before, cut)
}

// ---- the keys

fn is_alone(row: &KeyRow) -> bool
    ensures { result ≡ is_alone (row_value row.now) }
{
    is_role(row.role, Role::Current) && row.since == 0
}

fn are_two(row: &KeyRow, other: &KeyRow) -> bool
    ensures { result ≡ are_two (row_value row.now) (row_value other.now) }
{
    let begun = is_role(row.role, Role::New) && is_role(other.role, Role::Current);
    let ending = is_role(row.role, Role::Current) && is_role(other.role, Role::Old);
    row.since == other.since && row.done == other.done && (begun || (ending && row.since == 0))
}

// What is left behind the keys of the first row's authority, if they are those of a stage and its desk isn't
// below that.
fn stage_behind<'a>(low: u64, row: &KeyRow, rest: &'a [KeyRow]) -> Option<&'a [KeyRow]>
    ensures { MatchOption result
        (are_stages low (row_value row.now ∷ map row_value rest.now) ≡ false)
        (λ left. (length left.now ≤ length rest.now)
        × (are_stages low (row_value row.now ∷ map row_value rest.now)
        ≡ are_stages (row.now.desk + 1) (map row_value left.now))) }
{
    if u64::from(row.desk) < low {
        return None;
    }
    match rest.split_first() {
        Some((other, others)) => {
            if row.desk == other.desk {
                if are_two(row, other) {
                    Some(others)
                } else {
                    None
                }
            } else if is_alone(row) {
                Some(rest)
            } else {
                None
            }
        }
        None => { if is_alone(row) { Some(rest) } else { None } }
    }
}

// Whether these are, by their desks, the keys of a stage each, of authorities from some desk on.
fn are_stages(low: u64, rows: &[KeyRow]) -> bool
    ensures { result ≡ are_stages low (map row_value rows.now) }
{
    let mut low = low;
    let mut left = rows;
    while let Some((row, rest)) = left.split_first() {
        let Some(behind) = stage_behind(low, row, rest) else {
            return false;
        };
        low = u64::from(row.desk) + 1;
        left = behind;
    }
    true
}

fn are_staged(rows: &[KeyRow]) -> bool
    ensures { result ≡ are_staged (map row_value rows.now) }
{
    match rows.split_first() {
        Some((row, rest)) => row.desk == 0 && is_alone(row) && are_stages(1, rest),
        None => false,
    }
}

fn is_counted(row: &KeyRow) -> bool
    ensures { result ≡ is_counted (row_value row.now) }
{
    row.number <= MOST_COUNTED && row.next_serial <= MOST_COUNTED
}

fn are_past(moment: u64, row: &KeyRow) -> bool
    ensures { result ≡ are_past moment (row_value row.now) }
{
    let entries = row.revoked.as_slice();
    entries.iter().all(|entry| FIRST_MOMENT <= entry.revoked_at && entry.revoked_at <= moment)
}

// Whether counters are within their limit, and what was revoked is past.
fn is_settled(moment: u64, row: &KeyRow) -> bool
    ensures { result ≡ is_settled moment (row_value row.now) }
{
    is_counted(row) && are_past(moment, row)
}

fn are_settled(moment: u64, rows: &[KeyRow]) -> bool
    ensures { result ≡ list_all (is_settled moment) (map row_value rows.now) }
{
    let mut left = rows;
    while let Some((row, rest)) = left.split_first() {
        if !is_settled(moment, row) {
            return false;
        }
        left = rest;
    }
    true
}

// The identifiers of the keys.
#[tactic(auto, using(crate::proofs::Growing::pushed_on))]
fn ids_of(alloc: Global, rows: &[KeyRow]) -> Result<Vec<[u8; 20]>, AllocError>
    ensures { IfOk result (λ ids. ids.items ≡ map id_of (map row_value rows.now)) }
{
    let mut ids = Vec::with_capacity(alloc, rows.len())?;
    let mut left = rows;
    while let Some((row, rest)) = left.split_first() {
        ids.push(KeyId::of(&row.key.bytes).bytes)?;
        left = rest;
    }
    Ok(ids)
}

fn is_among(id: &[u8; 20], ids: &[[u8; 20]]) -> bool
    ensures { result ≡ list_any (bytes_eq id.now) ids.now }
{
    ids.iter().any(|other| id.as_slice() == other.as_slice())
}

fn are_apart(ids: &[[u8; 20]]) -> bool
    ensures { result ≡ are_apart ids.now }
{
    let mut left = ids;
    while let Some((id, rest)) = left.split_first() {
        if is_among(id, rest) {
            return false;
        }
        left = rest;
    }
    true
}

/// Whether the keys are in stages, counted and apart, and what was revoked is past.
pub fn are_live(alloc: Global, moment: u64, rows: &[KeyRow]) -> Result<bool, AllocError>
    ensures { IfOk result (λ live. live ≡ are_live moment (map row_value rows.now)) }
{
    let ids = ids_of(alloc, rows)?;
    Ok(are_staged(rows) && are_settled(moment, rows) && are_apart(&ids))
}

/// Whether the serial is the next one, and within its limit.
pub fn is_next(before: u64, serial: u64) -> bool
    ensures { result ≡ is_next before serial }
{
    before < serial && serial - before == 1 && serial <= MOST_COUNTED
}
