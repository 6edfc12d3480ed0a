//! The rows of the keys that stay.

ghost use Rattle.std.specs.Prelude.{◌≡◌, map, Some, IfOk, option_copied};
ghost use Rattle.issue_keys.specs.Keys.{with_role, role_of, is_dropped, kept_rows, id_of};
ghost use Rattle.issue_keys.specs.Indexes.{IsIndex, first_at};

use crate::key_index::KeyIndex;
use crate::list_index::index_of;
use items::Items;
use key_ids::KeyId;
use key_roll::{KeyRow, RoleWork, Work};
use std::alloc::{AllocError, Global};

/// A row that stays, with what the work says of it.
fn kept_row(alloc: Global, row: &KeyRow, change: Option<&RoleWork>) -> Result<KeyRow, AllocError>
    ensures { IfOk result (λ kept. kept ≡ with_role row.now (option_copied change.entry)) }
{
    let (role, since, done) = match change {
        Some(change) => (change.role, change.since, change.done),
        None => (row.role, row.since, row.done),
    };
    let revoked = Vec::from_slice(alloc, row.revoked.as_slice())?;
    Ok(KeyRow {
        desk: row.desk,
        signer: row.signer,
        role,
        key: row.key,
        next_serial: row.next_serial,
        number: row.number,
        this_update: row.this_update,
        since,
        done,
        revoked: Items::new(revoked),
    })
}

/// The keys of roles.
fn role_keys(alloc: Global, roles: &[RoleWork]) -> Result<Vec<Option<KeyId>>, AllocError>
    ensures { IfOk result (λ keys. keys.items ≡ map (λ r. Some r.key) roles.now) }
{
    roles.iter().map(|role| Some(role.key)).collect(alloc)
}

/// The positions of roles by their keys.
fn role_index(alloc: Global, roles: &[RoleWork]) -> Result<KeyIndex, AllocError>
    ensures { IfOk result (IsIndex (map (λ r. Some r.key) roles.now)) }
{
    let keys = role_keys(alloc, roles)?;
    let index = index_of(alloc, &keys)?;
    Ok(index)
}

/// The keys that end.
fn dropped_keys(alloc: Global, dropped: &[KeyId]) -> Result<Vec<Option<KeyId>>, AllocError>
    ensures { IfOk result (λ keys. keys.items ≡ map (λ key. Some key) dropped.now) }
{
    dropped.iter().map(|key| Some(*key)).collect(alloc)
}

/// Their positions.
fn dropped_index(alloc: Global, dropped: &[KeyId]) -> Result<KeyIndex, AllocError>
    ensures { IfOk result (IsIndex (map (λ key. Some key) dropped.now)) }
{
    let keys = dropped_keys(alloc, dropped)?;
    let index = index_of(alloc, &keys)?;
    Ok(index)
}

/// What the work says of a key.
fn role_of<'a>(roles: &'a [RoleWork], index: &KeyIndex, row: &KeyRow) -> Option<&'a RoleWork>
    requires { IsIndex (map (λ r. Some r.key) roles.now) index.now }
    ensures { option_copied result ≡ role_of roles.now row.now }
{
    let id = KeyId::of(&row.key.bytes);
    match index.first(&id) {
        Some(position) => Some(&roles[position]),
        None => None,
    }
}

/// Whether a key ends.
fn is_dropped(dropped: &[KeyId], index: &KeyIndex, row: &KeyRow) -> bool
    requires { IsIndex (map (λ key. Some key) dropped.now) index.now }
    ensures { result ≡ is_dropped dropped.now row.now }
{
    let id = KeyId::of(&row.key.bytes);
    let position = index.first(&id);
    position.is_some()
}

/// The rows of the keys that stay, with what the work says of them.
pub fn kept_rows(alloc: Global, work: &Work, rows: &[KeyRow]) -> Result<Vec<KeyRow>, AllocError>
    ensures { IfOk result (λ kept. kept.items ≡ kept_rows work.now rows.now) }
{
    let (roles, dropped) = (work.roles.as_slice(), work.dropped.as_slice());
    let role_positions = role_index(alloc, roles)?;
    let dropped_positions = dropped_index(alloc, dropped)?;
    let mut kept = Vec::with_capacity(alloc, rows.len())?;
    for row in rows {
        if !is_dropped(dropped, &dropped_positions, row) {
            kept.push(kept_row(alloc, row, role_of(roles, &role_positions, row))?)?;
        }
    }
    Ok(kept)
}
