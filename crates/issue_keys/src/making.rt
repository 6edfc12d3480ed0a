//! The making of new keys (RFC 6489 section 2).

ghost use Rattle.std.specs.Prelude.{◌≡◌, ◌<◌, ◌||◌, ℕ, List, false, length, All, IfOk, IfErr};
ghost use Rattle.std.specs.Str.{bytes_eq};
ghost use Rattle.signer_ring.specs.Ring.{Keeps};
ghost use Rattle.signer_ring.specs.Calls.{after_call};
ghost use Rattle.issue_keys.specs.Keys.{fresh_row, id_of, AreByDesk};
ghost use Rattle.issue_keys.specs.Making.{making, AreMade, IsKeyStop, IsOneStop};
ghost use Rattle.issue_keys.specs.inner.IdSet.{has};

use crate::fault::MakeFault;
use crate::id_set::{IdSet, add, live_ids};
use items::Items;
use key_ids::KeyId;
use key_roll::{KeyRow, NewKey};
use signer_api::{PublicKey, Signer};
use signer_ring::Ring;
use std::alloc::{AllocError, Global};

/// The new keys by their desks.
fn by_desk(alloc: Global, new_keys: &[NewKey]) -> Result<Vec<NewKey>, AllocError>
    ensures { IfOk result (λ news. AreByDesk new_keys.now news.items) }
{
    let mut news = Vec::from_slice(alloc, new_keys)?;
    news.sort_by_key(|new| new.desk)?;
    Ok(news)
}

/// The row of a key that was made.
fn fresh_row(alloc: Global, new: &NewKey, key: PublicKey) -> KeyRow
    ensures { result ≡ fresh_row new.now key }
{
    KeyRow {
        desk: new.desk,
        signer: new.signer,
        role: new.role,
        key,
        next_serial: 1,
        number: 0,
        this_update: 0,
        since: new.since,
        done: new.done,
        revoked: Items::new(Vec::new(alloc)),
    }
}

/// Makes a new key. One that has the identifier of a key that is there stops it.
fn make_one<S: Signer>(
    alloc: Global,
    new: &NewKey,
    id_set: &mut IdSet,
    ring: &mut Ring<S>,
) -> Result<KeyRow, MakeFault>
    requires { new.now.signer < length ring.old }
    ensures row { IfOk result (λ row. row ≡ fresh_row new.now row.key) }
    ensures signers { IfOk result (λ row. ring.new ≡ after_call ring.old (making row)) }
    ensures apart { IfOk result (λ row. has id_set.old (id_of row) ≡ false) }
    ensures id_set { IfOk result (λ row. (id : List ℕ)
        → has id_set.new id ≡ (bytes_eq (id_of row) id || has id_set.old id)) }
    ensures stopped { IfErr result (IsOneStop new.now (has id_set.old) ring.old ring.new) }
    ensures kept { Keeps ring.old ring.new }
{
    let key = signer_ring::make_key(alloc, ring, new.signer)?;
    let id = KeyId::of(&key.bytes);
    let row = fresh_row(alloc, new, key);
    let added = add(id_set, &id.bytes)?;
    if added {
        Ok(row)
    } else {
        Err(MakeFault::KeyClash { id })
    }
}

/// Makes the new keys, by their desks. A key that has the identifier of a live one or of an earlier one stops it.
pub fn make_keys<S: Signer>(
    alloc: Global,
    new_keys: &[NewKey],
    rows: &[KeyRow],
    ring: &mut Ring<S>,
) -> Result<Vec<KeyRow>, MakeFault>
    requires { All (λ new. new.signer < length ring.old) new_keys.now }
    ensures made { IfOk result (λ fresh.
        AreMade new_keys.now rows.now ring.old ring.new fresh.items) }
    ensures stopped { IfErr result (IsKeyStop new_keys.now rows.now ring.old ring.new) }
    ensures kept { Keeps ring.old ring.new }
{
    let mut id_set = live_ids(alloc, rows)?;
    let news = by_desk(alloc, new_keys)?;
    let mut fresh = Vec::with_capacity(alloc, news.len())?;
    for new in &news {
        let row = make_one(alloc, new, &mut id_set, ring)?;
        fresh.push(row)?;
    }
    Ok(fresh)
}
