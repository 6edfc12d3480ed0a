//! The entries of a key's CRL: those that go on, and those that an edition adds (RFC 5280 section
//! 5.1.2.6).

ghost use Rattle.std.specs.Prelude.{◌≡◌, ◌+◌, ◌++◌, ◌∷◌, [], List, map, length, option_copied, IfOk, OnOk, MatchOption};
ghost use Rattle.std.specs.Option.{option_map};
ghost use Rattle.key_roll.specs.declared.rows.RevokedRow.{RevokedRow};
ghost use Rattle.record_forms.specs.Outcome.{Gives};
ghost use Rattle.press_records.specs.Rows.{row_value, row_of_key, lasting, carried, carried_by, added, merged, rise_behind, rise, revoked_by, revoked_rows};

use key_roll::{KeyRow, RevokedRow};
use record_forms::{ItemReader, ItemWriter, ReadFault, number_64, push_64};
use signer_api::PublicKey;
use std::alloc::{AllocError, Global};

/// Reads and writes entries.
#[derive(Clone, Copy, Debug)]
pub struct Entries;

impl ItemReader for Entries {
    type Item = RevokedRow;

    ghost Meaning = { RevokedRow };

    ghost view = { λ row. row };

    ghost form = { λ reader. revoked_rows };

    fn read_item<'a>(
        &self,
        _alloc: Global,
        bytes: &'a [u8],
    ) -> Result<(RevokedRow, &'a [u8]), ReadFault> {
        let (serial, bytes) = number_64(bytes)?;
        let (not_after, bytes) = number_64(bytes)?;
        let (revoked_at, bytes) = number_64(bytes)?;
        let row = RevokedRow {
            serial,
            not_after,
            revoked_at,
        };
        Ok((row, bytes))
    }
}

impl ItemWriter for Entries {
    type Item = RevokedRow;

    ghost spelling = { λ writer. revoked_rows.spelling };

    fn item_len(&self, item: &RevokedRow) -> u64 {
        row_len(item)
    }

    fn push_item(&self, out: &mut Vec<u8>, item: &RevokedRow) -> Result<(), AllocError> {
        push_64(out, item.serial)?;
        push_64(out, item.not_after)?;
        push_64(out, item.revoked_at)
    }
}

// How many bytes an entry takes.
#[tactic(auto, using(crate::proofs::Sizes::entry_size))]
fn row_len(row: &RevokedRow) -> u64
    ensures { result ≡ length (revoked_rows.spelling row.now) }
{
    let _row = *row;
    24
}

// ---- those that go on

// The row of the key, if there is one. There are at most two rows for each authority.
fn row_of_key<'a>(rows: &'a [KeyRow], key: &PublicKey) -> Option<&'a KeyRow>
    ensures { option_map row_value (option_copied result)
        ≡ row_of_key (map row_value rows.now) key.now.bytes }
{
    let mut left = rows;
    while let Some((row, rest)) = left.split_first() {
        if row.key.bytes.as_slice() == key.bytes.as_slice() {
            return Some(row);
        }
        left = rest;
    }
    None
}

// Puts the entry behind those that are kept, if its certificate hadn't ended by that time.
#[tactic(auto, using(crate::proofs::Growing::pushed_on))]
fn push_lasting(kept: &mut Vec<RevokedRow>, row: RevokedRow, time: u64) -> Result<(), AllocError>
    ensures { OnOk result ((rest : List RevokedRow) → kept.new.items ++ lasting time rest
        ≡ kept.old.items ++ lasting time (row ∷ rest)) }
{
    if row.not_after >= time {
        kept.push(row)?;
    }
    Ok(())
}

// The entries of certificates that hadn't ended by that time.
#[tactic(auto, using(crate::proofs::Growing::pushed_on))]
fn lasting(alloc: Global, entries: &[RevokedRow], time: u64) -> Result<Vec<RevokedRow>, AllocError>
    ensures { IfOk result (λ kept. kept.items ≡ lasting time entries.now) }
{
    let mut kept = Vec::with_capacity(alloc, entries.len())?;
    let mut left = entries;
    while let Some((row, rest)) = left.split_first() {
        push_lasting(&mut kept, *row, time)?;
        left = rest;
    }
    Ok(kept)
}

// The entries of the key's last CRL that go on in one of that time.
fn carried(
    alloc: Global,
    old: Option<&KeyRow>,
    this_update: u64,
) -> Result<Vec<RevokedRow>, AllocError>
    ensures { IfOk result (λ entries. entries.items
        ≡ carried (option_map row_value (option_copied old.entry)) this_update) }
{
    match old {
        Some(old) if old.this_update == this_update => {
            Vec::from_slice(alloc, old.revoked.as_slice())
        }
        Some(old) => lasting(alloc, old.revoked.as_slice(), old.this_update),
        None => Ok(Vec::new(alloc)),
    }
}

fn carried_by(
    alloc: Global,
    before: &[KeyRow],
    key: &PublicKey,
    this_update: u64,
) -> Result<Vec<RevokedRow>, AllocError>
    ensures { IfOk result (λ entries. entries.items
        ≡ carried_by (map row_value before.now) key.now.bytes this_update) }
{
    carried(alloc, row_of_key(before, key), this_update)
}

// ---- both together

// The least of two lists by serial, and what is left of both.
fn least<'a>(
    ones: &'a [RevokedRow],
    others: &'a [RevokedRow],
) -> Option<(RevokedRow, &'a [RevokedRow], &'a [RevokedRow])>
    ensures { MatchOption result (merged ones.now others.now ≡ [])
        (λ x. (merged ones.now others.now ≡ x.0 ∷ merged x.1.now x.2.now)
        × (length x.1.now + length x.2.now + 1 ≡ length ones.now + length others.now)) }
{
    match (ones.split_first(), others.split_first()) {
        (Some((one, more)), Some((other, rest))) => {
            if other.serial <= one.serial {
                Some((*other, ones, rest))
            } else {
                Some((*one, more, others))
            }
        }
        (Some((one, more)), None) => Some((*one, more, others)),
        (None, Some((other, rest))) => Some((*other, ones, rest)),
        (None, None) => None,
    }
}

// Two lists by serial as one.
#[tactic(auto, using(crate::proofs::Growing::pushed_on))]
fn merged(
    alloc: Global,
    carried: &[RevokedRow],
    added: &[RevokedRow],
) -> Result<Vec<RevokedRow>, AllocError>
    ensures { IfOk result (λ entries. entries.items ≡ merged carried.now added.now) }
{
    let mut entries = Vec::with_capacity(alloc, carried.len().saturating_add(added.len()))?;
    let (mut ones, mut others) = (carried, added);
    while let Some((next, more, rest)) = least(ones, others) {
        entries.push(next)?;
        ones = more;
        others = rest;
    }
    Ok(entries)
}

// Whether each serial is above the one before it, the first above that number.
fn rise_behind(serial: u64, entries: &[RevokedRow]) -> bool
    ensures { result ≡ rise_behind serial entries.now }
{
    let mut last = serial;
    let mut rest = entries;
    while let Some((first, others)) = rest.split_first() {
        if first.serial <= last {
            return false;
        }
        last = first.serial;
        rest = others;
    }
    true
}

// Whether each serial is above the one before it.
fn rise(entries: &[RevokedRow]) -> bool
    ensures { result ≡ rise entries.now }
{
    match entries.split_first() {
        Some((first, rest)) => rise_behind(first.serial, rest),
        None => true,
    }
}

/// The entries of the key's CRL of that time: those that go on and those that are added. Their
/// serials have to rise.
pub fn revoked_by(
    alloc: Global,
    before: &[KeyRow],
    key: &PublicKey,
    this_update: u64,
    added: &[RevokedRow],
) -> Result<Vec<RevokedRow>, ReadFault>
    ensures { Gives (λ entries. entries.items) result
        (revoked_by (map row_value before.now) key.now.bytes this_update added.now) }
{
    let carried = carried_by(alloc, before, key, this_update)?;
    let entries = merged(alloc, &carried, added)?;
    if !rise(&entries) {
        return Err(ReadFault::Bad);
    }
    Ok(entries)
}

// ---- those that are added

// Puts the entry behind those that are added, if it isn't the next of those carried on; and what is
// left of these.
#[tactic(auto, using(crate::proofs::Growing::pushed_on))]
fn push_added<'a>(
    fresh: &mut Vec<RevokedRow>,
    row: RevokedRow,
    known: &'a [RevokedRow],
) -> Result<&'a [RevokedRow], AllocError>
    ensures { IfOk result (λ left. (rest : List RevokedRow)
        → fresh.new.items ++ added rest left.now ≡ fresh.old.items ++ added (row ∷ rest) known.now) }
{
    match known.split_first() {
        Some((first, others)) if first.serial == row.serial => Ok(others),
        _ => {
            fresh.push(row)?;
            Ok(known)
        }
    }
}

#[tactic(auto, using(crate::proofs::Growing::pushed_on))]
fn added(
    alloc: Global,
    entries: &[RevokedRow],
    carried: &[RevokedRow],
) -> Result<Vec<RevokedRow>, AllocError>
    ensures { IfOk result (λ fresh. fresh.items ≡ added entries.now carried.now) }
{
    let mut fresh = Vec::new(alloc);
    let (mut left, mut known) = (entries, carried);
    while let Some((row, rest)) = left.split_first() {
        known = push_added(&mut fresh, *row, known)?;
        left = rest;
    }
    Ok(fresh)
}

/// The entries of the row that its key's last CRL doesn't carry on.
pub fn added_by(
    alloc: Global,
    before: &[KeyRow],
    row: &KeyRow,
) -> Result<Vec<RevokedRow>, AllocError>
    ensures { IfOk result (λ fresh. fresh.items ≡ added row.now.revoked
        (carried_by (map row_value before.now) row.now.key.bytes row.now.this_update)) }
{
    let carried = carried_by(alloc, before, &row.key, row.this_update)?;
    added(alloc, row.revoked.as_slice(), &carried)
}
