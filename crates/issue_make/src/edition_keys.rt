//! The keys of an edition (RFC 6489 section 2).

ghost use Rattle.std.specs.Prelude.{◌≡◌, ◌<◌, ◌≤◌, length, take, drop, All, IfOk, IfErr};
ghost use Rattle.signer_ring.specs.Ring.{Keeps};
ghost use Rattle.issue_keys.specs.Keys.{kept_rows};
ghost use Rattle.issue_keys.specs.Making.{AreMade, IsKeyStop};

use issue_keys::{MakeFault, kept_rows, make_keys};
use key_roll::{KeyRow, Work};
use signer_api::Signer;
use signer_ring::Ring;
use std::alloc::Global;

/// The rows of an edition's keys: of those that stay, and behind them of those that were made.
#[derive(Debug, Drop)]
pub struct EditionKeys {
    pub rows: Vec<KeyRow>,
    /// Where the first of the keys that were made stands. An index in the rows.
    pub first_fresh: usize,
}

/// Makes the new keys of the work, by their desks, and has the others do what the work says.
pub fn edition_keys<S: Signer>(
    alloc: Global,
    work: &Work,
    rows: &[KeyRow],
    ring: &mut Ring<S>,
) -> Result<EditionKeys, MakeFault>
    requires { All (λ new. new.signer < length ring.old) work.now.new_keys }
    ensures inside { IfOk result (λ keys. keys.first_fresh ≤ length keys.rows.items) }
    ensures kept { IfOk result (λ keys. take keys.first_fresh keys.rows.items ≡ kept_rows work.now rows.now) }
    ensures made { IfOk result (λ keys. AreMade work.now.new_keys rows.now ring.old ring.new
        (drop keys.first_fresh keys.rows.items)) }
    ensures stopped { IfErr result (IsKeyStop work.now.new_keys rows.now ring.old ring.new) }
    ensures signers { Keeps ring.old ring.new }
{
    let mut fresh = make_keys(alloc, work.new_keys.as_slice(), rows, ring)?;
    let mut rows = kept_rows(alloc, work, rows)?;
    let first_fresh = rows.len();
    rows.append(&mut fresh)?;
    Ok(EditionKeys { rows, first_fresh })
}
