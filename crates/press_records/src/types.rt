//! What the types of an edition say that is to be written: numbers that fit, and URIs in UTF-8. Nothing is
//! done here.

ghost use Rattle.std.specs.Prelude.{◌≡◌, ◌<◌, ◌^◌, true, map};
ghost use Rattle.std.specs.List.{AllByRecursion};
ghost use Rattle.std.specs.Str.{is_utf8};
ghost use Rattle.pub_set.specs.Changes.{uri_of};
ghost use Rattle.press_records.specs.Rows.{row_value};
ghost use Rattle.press_records.specs.Recordable.{IsEntry, IsTypedRow, IsTyped};
ghost use Rattle.press_records.specs.Views.{given_value};

use crate::edition::GivenEdition;
use key_roll::{KeyRow, RevokedRow};
use pub_set::Change;

fn fits(number: u64)
    ensures { number < 2 ^ 64 }
{}

fn is_short(number: u32)
    ensures { number < 2 ^ 32 }
{}

fn numbers_fit(numbers: &[u64])
    ensures { AllByRecursion (λ n. n < 2 ^ 64) numbers.now }
{}

fn entry_fits(entry: &RevokedRow)
    ensures { IsEntry entry.now }
{
    fits(entry.serial);
    fits(entry.not_after);
    fits(entry.revoked_at);
}

fn entries_fit(entries: &[RevokedRow])
    ensures { AllByRecursion IsEntry entries.now }
{
    let mut left = entries;
    while let Some((entry, rest)) = left.split_first() {
        entry_fits(entry);
        left = rest;
    }
}

fn row_fits(row: &KeyRow)
    ensures { IsTypedRow (row_value row.now) }
{
    is_short(row.desk);
    is_short(row.signer);
    is_short(row.done);
    fits(row.next_serial);
    fits(row.number);
    fits(row.this_update);
    fits(row.since);
    entries_fit(row.revoked.as_slice());
}

fn rows_fit(rows: &[KeyRow])
    ensures { AllByRecursion IsTypedRow (map row_value rows.now) }
{
    let mut left = rows;
    while let Some((row, rest)) = left.split_first() {
        row_fits(row);
        left = rest;
    }
}

fn uri_is_text(change: &Change)
    ensures { is_utf8 (uri_of change.now) ≡ true }
{
    let _text = change.uri().as_str().as_bytes();
}

fn uris_are_texts(changes: &[Change])
    ensures { AllByRecursion (λ change. is_utf8 (uri_of change) ≡ true) changes.now }
{
    let mut left = changes;
    while let Some((change, rest)) = left.split_first() {
        uri_is_text(change);
        left = rest;
    }
}

/// What the types of the edition say of it.
pub fn edition_fits(given: &GivenEdition<'_>)
    ensures { IsTyped (given_value given.now) }
{
    fits(given.serial);
    fits(given.moment);
    numbers_fit(given.cut);
    rows_fit(given.rows);
    uris_are_texts(given.changes);
}
