//! What is printed.

use anyhow::Result;
use key_roll::{KeyRow, Role};
use press_records::{ReadEdition, StoreRecord};
use std::alloc::Global;
use test_support::{changes_text, digits_of};

/// The session, the bases, and whether they are written so again.
pub fn store_text(alloc: Global, found: &StoreRecord, is_same: bool) -> Result<String> {
    let session = digits_of(alloc, &found.session)?;
    let (rsync, rrdp) = (found.site.rsync(), found.site.rrdp());
    Ok(format!(in alloc; "{session}\t{rsync}\t{rrdp}\t{is_same}")?)
}

/// The serial, the moment, how many commands are taken in, the rows, the changes, and whether they are written so
/// again.
pub fn edition_text(alloc: Global, found: &ReadEdition, is_same: bool) -> Result<String> {
    let mut text = String::new(alloc);
    for count in found.cut.as_slice() {
        if *count > 0 {
            text.push_str(format!(in alloc; " {count}")?.as_str())?;
        }
    }
    for row in found.rows.as_slice() {
        text.push_str(row_text(alloc, row)?.as_str())?;
    }
    let changes = changes_text(alloc, found.changes.as_slice())?;
    let (serial, moment) = (found.serial, found.moment);
    Ok(format!(in alloc; "{serial} {moment}{text}\t{changes}\t{is_same}\t")?)
}

fn row_text(alloc: Global, row: &KeyRow) -> Result<String> {
    let role = match row.role {
        Role::New => "new",
        Role::Current => "current",
        Role::Old => "old",
    };
    let mut entries = String::new(alloc);
    for entry in row.revoked.as_slice() {
        let (serial, not_after, at) = (entry.serial, entry.not_after, entry.revoked_at);
        entries.push_str(format!(in alloc; " {serial}/{not_after}/{at}")?.as_str())?;
    }
    let (desk, signer, next, number) = (row.desk, row.signer, row.next_serial, row.number);
    let (update, since, done) = (row.this_update, row.since, row.done);
    Ok(format!(in alloc;
        "\t{desk} {signer} {role} {next} {number} {update} {since} {done}{entries}"
    )?)
}
