//! Whether the keys' rows agree with the points that were found.

ghost use Rattle.std.specs.Prelude.{◌≡◌, max};
ghost use Rattle.std.specs.Option.{option_map};
ghost use Rattle.rp_rules.specs.Views.{point_value, point_values};
ghost use Rattle.press_core.specs.Agreement as agreement;
ghost use Rattle.press_core.specs.inner.Resumed.{mismatch_value};

use crl_obj::CrlEntry;
use key_roll::{KeyRow, RevokedRow};
use rp_rules::AuditedPoint;
use signer_api::PublicKey;

/// A field of a row that doesn't agree with the point of its key. `field` is 0 for the number, 1 for the thisUpdate
/// (in seconds since 1970), 2 for the next serial, which is to be above the greatest that is known of under the key, and
/// 3 for the serials of the CRL. `kept` is the row's and `found` the point's; 0 stands where one of them is missing.
#[derive(Clone, Copy, Debug)]
pub struct Mismatch {
    pub key: PublicKey,
    pub field: u32,
    pub kept: u64,
    pub found: u64,
}

fn mismatch_in(key: &PublicKey, field: u32, kept: u64, found: u64) -> Mismatch
    ensures { mismatch_value result ≡ agreement.mismatch key.now.bytes field kept found }
{
    Mismatch {
        key: *key,
        field,
        kept,
        found,
    }
}

// The serials that differ first, with 0 where a list has ended.
fn first_other(rows: &[RevokedRow], entries: &[CrlEntry]) -> Option<(u64, u64)>
    ensures { result ≡ agreement.first_other rows.now entries.now }
{
    for place in 0..rows.len() {
        let Some(entry) = entries.get(place) else {
            return Some((rows[place].serial, 0));
        };
        if rows[place].serial != entry.serial {
            return Some((rows[place].serial, entry.serial));
        }
    }
    match entries.get(rows.len()) {
        Some(entry) => Some((0, entry.serial)),
        None => None,
    }
}

// Where the serials of a key's CRL differ.
fn crl_mismatch(row: &KeyRow, point: &AuditedPoint) -> Option<Mismatch>
    ensures { option_map mismatch_value result ≡ agreement.crl_mismatch row.now.key.bytes
        (agreement.first_other row.now.revoked (point_value point.now).crl) }
{
    match first_other(row.revoked.as_slice(), point.crl.as_slice()) {
        Some((kept, found)) => Some(mismatch_in(&row.key, 3, kept, found)),
        None => None,
    }
}

fn greater(one: u64, other: u64) -> u64
    ensures { result ≡ max one other }
{
    if one < other {
        return other;
    }
    one
}

// The greatest serial under the key, of the certificates that were found and of those that its CRL lists.
fn greatest_known(point: &AuditedPoint) -> u64
    ensures { result ≡ agreement.greatest_known (point_value point.now) }
{
    let mut greatest = point.greatest_serial;
    for entry in point.crl.as_slice() {
        greatest = greater(greatest, entry.serial);
    }
    greatest
}

// Where a row and a point of its key differ, if they do.
fn differs(row: &KeyRow, point: &AuditedPoint) -> Option<Mismatch>
    ensures { option_map mismatch_value result ≡ agreement.differs row.now (point_value point.now) }
{
    if row.number != point.number {
        return Some(mismatch_in(&row.key, 0, row.number, point.number));
    }
    if row.this_update != point.this_update {
        return Some(mismatch_in(&row.key, 1, row.this_update, point.this_update));
    }
    if row.this_update != point.manifest_update {
        return Some(mismatch_in(&row.key, 1, row.this_update, point.manifest_update));
    }
    let greatest = greatest_known(point);
    if row.next_serial <= greatest {
        return Some(mismatch_in(&row.key, 2, row.next_serial, greatest));
    }
    crl_mismatch(row, point)
}

// The same, if the point is one of the row's key.
fn differs_here(row: &KeyRow, point: &AuditedPoint) -> Option<Mismatch>
    ensures { option_map mismatch_value result ≡ agreement.differs_here row.now (point_value point.now) }
{
    if point.key.bytes == row.key.bytes {
        return differs(row, point);
    }
    None
}

// Whether there is a point of the row's key.
fn has_point(points: &[AuditedPoint], row: &KeyRow) -> bool
    ensures { result ≡ agreement.has_point (point_values points.now) row.now }
{
    for point in points {
        if point.key.bytes == row.key.bytes {
            return true;
        }
    }
    false
}

// Whether the point's key has a row.
fn has_row(rows: &[KeyRow], point: &AuditedPoint) -> bool
    ensures { result ≡ agreement.has_row rows.now (point_value point.now) }
{
    for row in rows {
        if row.key.bytes == point.key.bytes {
            return true;
        }
    }
    false
}

// The first point of the row's key from which it differs.
fn first_difference(row: &KeyRow, points: &[AuditedPoint]) -> Option<Mismatch>
    ensures { option_map mismatch_value result
        ≡ agreement.first_told (agreement.differs_here row.now) (point_values points.now) }
{
    for point in points {
        if let Some(found) = differs_here(row, point) {
            return Some(found);
        }
    }
    None
}

fn row_mismatch(points: &[AuditedPoint], row: &KeyRow) -> Option<Mismatch>
    ensures { option_map mismatch_value result ≡ agreement.row_mismatch (point_values points.now) row.now }
{
    if has_point(points, row) {
        return first_difference(row, points);
    }
    Some(mismatch_in(&row.key, 0, row.number, 0))
}

fn point_mismatch(rows: &[KeyRow], point: &AuditedPoint) -> Option<Mismatch>
    ensures { option_map mismatch_value result ≡ agreement.point_mismatch rows.now (point_value point.now) }
{
    if has_row(rows, point) {
        return None;
    }
    Some(mismatch_in(&point.key, 0, 0, point.number))
}

fn first_of_rows(rows: &[KeyRow], points: &[AuditedPoint]) -> Option<Mismatch>
    ensures { option_map mismatch_value result
        ≡ agreement.first_told (agreement.row_mismatch (point_values points.now)) rows.now }
{
    for row in rows {
        if let Some(found) = row_mismatch(points, row) {
            return Some(found);
        }
    }
    None
}

fn first_of_points(rows: &[KeyRow], points: &[AuditedPoint]) -> Option<Mismatch>
    ensures { option_map mismatch_value result
        ≡ agreement.first_told (agreement.point_mismatch rows.now) (point_values points.now) }
{
    for point in points {
        if let Some(found) = point_mismatch(rows, point) {
            return Some(found);
        }
    }
    None
}

/// The first field that doesn't agree: of the rows by desk and role, and behind them of the points without a row, in
/// the order of the walk.
///
/// There are at most 128 rows, and a point for each key that is found.
pub fn first_mismatch(rows: &[KeyRow], points: &[AuditedPoint]) -> Option<Mismatch>
    ensures { option_map mismatch_value result ≡ agreement.first_mismatch rows.now (point_values points.now) }
{
    match first_of_rows(rows, points) {
        Some(found) => Some(found),
        None => first_of_points(rows, points),
    }
}
