//! The rows of keys, read and written.

ghost use Rattle.std.specs.Prelude.{◌≡◌, ◌^◌, ◌-◌, ◌++◌, map, min, length, IfOk, OnOk};
ghost use Rattle.std.specs.Option.{option_map};
ghost use Rattle.record_forms.specs.Outcome.{Gives};
ghost use Rattle.press_records.specs.Rows.{RowValue, row_value, role_byte, roles, key_in, keys, row_names, row_counts, raw_rows, row_with, row_raw, key_rows};
ghost use Rattle.press_records.specs.inner.Raw.{name_value, counts_value, raw_value};

use crate::entries::{Entries, added_by, revoked_by};
use items::Items;
use key_roll::{KeyRow, RevokedRow, Role};
use record_forms::{
    ItemReader, ItemWriter, ReadFault, counted, counted_len, front, number_8, number_32, number_64,
    push_32, push_64, push_counted,
};
use signer_api::PublicKey;
use std::alloc::{AllocError, Global};

/// Whose key a row is.
#[derive(Clone, Copy, Debug)]
pub struct RowName {
    pub desk: u32,
    pub signer: u32,
    pub role: Role,
    pub key: PublicKey,
}

/// The counters of a key, and its stage.
#[derive(Clone, Copy, Debug)]
pub struct RowCounts {
    pub next_serial: u64,
    pub number: u64,
    pub this_update: u64,
    pub since: u64,
    pub done: u32,
}

/// What a record tells of a key.
#[derive(Debug, Drop)]
pub struct RawRow {
    pub name: RowName,
    pub counts: RowCounts,
    /// The entries that were added to its CRL.
    pub added: Items<RevokedRow>,
}

// ---- reading

fn role(bytes: &[u8]) -> Result<(Role, &[u8]), ReadFault>
    ensures { Gives (λ x. (x.0, x.1.now)) result (roles.read bytes.now) }
{
    let (byte, bytes) = number_8(bytes)?;
    match byte {
        0 => Ok((Role::New, bytes)),
        1 => Ok((Role::Current, bytes)),
        2 => Ok((Role::Old, bytes)),
        _ => Err(ReadFault::Bad),
    }
}

// The key of these 270 bytes, if they are one's.
fn key_of(field: &[u8]) -> Option<PublicKey>
    requires { length field.now ≡ 270 }
    ensures { option_map (λ key. key.bytes) result ≡ key_in field.now }
{
    PublicKey::read(field)
}

fn key(bytes: &[u8]) -> Result<(PublicKey, &[u8]), ReadFault>
    ensures { Gives (λ x. (x.0.bytes, x.1.now)) result (keys.read bytes.now) }
{
    let (field, bytes) = front(bytes, 270)?;
    match key_of(field) {
        Some(key) => Ok((key, bytes)),
        None => Err(ReadFault::Bad),
    }
}

fn row_name(bytes: &[u8]) -> Result<(RowName, &[u8]), ReadFault>
    ensures { Gives (λ x. (name_value x.0, x.1.now)) result (row_names.read bytes.now) }
{
    let (desk, bytes) = number_32(bytes)?;
    let (signer, bytes) = number_32(bytes)?;
    let (role, bytes) = role(bytes)?;
    let (key, bytes) = key(bytes)?;
    let name = RowName {
        desk,
        signer,
        role,
        key,
    };
    Ok((name, bytes))
}

fn row_counts(bytes: &[u8]) -> Result<(RowCounts, &[u8]), ReadFault>
    ensures { Gives (λ x. (counts_value x.0, x.1.now)) result (row_counts.read bytes.now) }
{
    let (next_serial, bytes) = number_64(bytes)?;
    let (number, bytes) = number_64(bytes)?;
    let (this_update, bytes) = number_64(bytes)?;
    let (since, bytes) = number_64(bytes)?;
    let (done, bytes) = number_32(bytes)?;
    let counts = RowCounts {
        next_serial,
        number,
        this_update,
        since,
        done,
    };
    Ok((counts, bytes))
}

fn raw_row<'a>(alloc: Global, bytes: &'a [u8]) -> Result<(RawRow, &'a [u8]), ReadFault>
    ensures { Gives (λ x. (raw_value x.0, x.1.now)) result (raw_rows.read bytes.now) }
{
    let (name, bytes) = row_name(bytes)?;
    let (counts, bytes) = row_counts(bytes)?;
    let (added, bytes) = counted(alloc, &Entries, bytes)?;
    let raw = RawRow {
        name,
        counts,
        added: Items::new(added),
    };
    Ok((raw, bytes))
}

// The row with those entries.
fn row_with(raw: &RawRow, revoked: Vec<RevokedRow>) -> KeyRow
    ensures { row_value result ≡ row_with (raw_value raw.now) revoked.items }
{
    KeyRow {
        desk: raw.name.desk,
        signer: raw.name.signer,
        role: raw.name.role,
        key: raw.name.key,
        next_serial: raw.counts.next_serial,
        number: raw.counts.number,
        this_update: raw.counts.this_update,
        since: raw.counts.since,
        done: raw.counts.done,
        revoked: Items::new(revoked),
    }
}

// A row, over the keys of the edition before.
#[tactic(auto, unfolding(crate::specs::Rows::key_rows))]
fn row_over<'a>(
    alloc: Global,
    before: &[KeyRow],
    bytes: &'a [u8],
) -> Result<(KeyRow, &'a [u8]), ReadFault>
    ensures { Gives (λ x. (row_value x.0, x.1.now)) result
        ((key_rows (map row_value before.now)).read bytes.now) }
{
    let (raw, bytes) = raw_row(alloc, bytes)?;
    let this_update = raw.counts.this_update;
    let revoked = revoked_by(
        alloc,
        before,
        &raw.name.key,
        this_update,
        raw.added.as_slice(),
    )?;
    Ok((row_with(&raw, revoked), bytes))
}

/// Reads rows, over the keys of the edition before.
#[derive(Clone, Copy, Debug)]
pub struct RowsOver<'b> {
    pub before: &'b [KeyRow],
}

impl<'b> ItemReader for RowsOver<'b> {
    type Item = KeyRow;

    ghost Meaning = { RowValue };

    ghost view = { row_value };

    ghost form = { λ reader. key_rows (map row_value reader.before.now) };

    fn read_item<'a>(
        &self,
        alloc: Global,
        bytes: &'a [u8],
    ) -> Result<(KeyRow, &'a [u8]), ReadFault> {
        row_over(alloc, self.before, bytes)
    }
}

// ---- writing

/// What is written of the row, over the keys of the edition before.
fn raw_of(alloc: Global, before: &[KeyRow], row: &KeyRow) -> Result<RawRow, AllocError>
    ensures { IfOk result (λ raw. raw_value raw ≡ row_raw (map row_value before.now) (row_value row.now)) }
{
    let name = RowName {
        desk: row.desk,
        signer: row.signer,
        role: row.role,
        key: row.key,
    };
    let counts = RowCounts {
        next_serial: row.next_serial,
        number: row.number,
        this_update: row.this_update,
        since: row.since,
        done: row.done,
    };
    let added = added_by(alloc, before, row)?;
    Ok(RawRow {
        name,
        counts,
        added: Items::new(added),
    })
}

/// What is written of the rows.
pub fn raw_rows(
    alloc: Global,
    before: &[KeyRow],
    rows: &[KeyRow],
) -> Result<Vec<RawRow>, AllocError>
    ensures { IfOk result (λ raws. map raw_value raws.items
        ≡ map (λ row. row_raw (map row_value before.now) (row_value row)) rows.now) }
{
    let mut raws = Vec::with_capacity(alloc, rows.len())?;
    let mut left = rows;
    while let Some((row, rest)) = left.split_first() {
        raws.push(raw_of(alloc, before, row)?)?;
        left = rest;
    }
    Ok(raws)
}

fn role_byte(role: Role) -> u8
    ensures { result ≡ role_byte role }
{
    match role {
        Role::New => 0,
        Role::Current => 1,
        Role::Old => 2,
    }
}

fn push_name(out: &mut Vec<u8>, name: &RowName) -> Result<(), AllocError>
    ensures { OnOk result (out.new.items ≡ out.old.items ++ row_names.spelling (name_value name.now)) }
{
    push_32(out, name.desk)?;
    push_32(out, name.signer)?;
    out.push(role_byte(name.role))?;
    out.extend_from_slice(name.key.bytes.as_slice())
}

fn push_counts(out: &mut Vec<u8>, counts: &RowCounts) -> Result<(), AllocError>
    ensures { OnOk result (out.new.items ≡ out.old.items ++ row_counts.spelling (counts_value counts.now)) }
{
    push_64(out, counts.next_serial)?;
    push_64(out, counts.number)?;
    push_64(out, counts.this_update)?;
    push_64(out, counts.since)?;
    push_32(out, counts.done)
}

// How many bytes a row takes, if a number of 64 bits can tell.
#[tactic(auto, using(crate::proofs::Sizes::raw_size))]
fn raw_len(raw: &RawRow) -> u64
    ensures { result ≡ min (length (raw_rows.spelling (raw_value raw.now))) (2 ^ 64 - 1) }
{
    counted_len(&Entries, raw.added.as_slice()).saturating_add(315)
}

fn push_raw(out: &mut Vec<u8>, raw: &RawRow) -> Result<(), AllocError>
    ensures { OnOk result (out.new.items ≡ out.old.items ++ raw_rows.spelling (raw_value raw.now)) }
{
    push_name(out, &raw.name)?;
    push_counts(out, &raw.counts)?;
    push_counted(out, &Entries, raw.added.as_slice())
}

/// Writes what a record tells of keys.
#[derive(Clone, Copy, Debug)]
pub struct RawRows;

impl ItemWriter for RawRows {
    type Item = RawRow;

    ghost spelling = { λ writer raw. raw_rows.spelling (raw_value raw) };

    fn item_len(&self, item: &RawRow) -> u64 {
        raw_len(item)
    }

    fn push_item(&self, out: &mut Vec<u8>, item: &RawRow) -> Result<(), AllocError> {
        push_raw(out, item)
    }
}
