//! The entries of a key's CRL: of revoked certificates the first of each serial, by rising serial
//! (RFC 5280 section 5.1.2.6).

ghost use Rattle.std.specs.Prelude.{IfOk};
ghost use Rattle.issue_drafts.specs.Firsts.{AreFirsts};

use key_roll::RevokedRow;
use std::alloc::AllocError;

/// Of each serial the first of the rows, by rising serial.
pub fn first_of_each(rows: Vec<RevokedRow>) -> Result<Vec<RevokedRow>, AllocError>
    ensures { IfOk result (λ entries. AreFirsts rows.items entries.items) }
{
    let mut entries = rows;
    entries.sort_by_key(|row| row.serial)?;
    entries.dedup_by_key(|row| row.serial);
    Ok(entries)
}
