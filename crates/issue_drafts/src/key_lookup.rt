//! How a key finder is made, and the keys that it finds.

ghost use Rattle.std.specs.Prelude.{◌≡◌, ◌+◌, ◌^◌, ◌<◌, ◌≤◌, length, map, drop, Some, IfOk};
ghost use Rattle.std.specs.List.{AllWithin};
ghost use Rattle.std.specs.List.Sorted.{IsNonDecreasing};
ghost use Rattle.issue_keys.specs.Indexes.{IsIndex};
ghost use Rattle.issue_drafts.specs.WorkKeys.{Keys, key_of, keys_at, Finds, IsPosition, fresh_position};

use crate::key_finder::KeyFinder;
use issue_keys::{KeyIndex, index_of};
use key_ids::KeyId;
use key_roll::{KeyName, KeyRow};
use std::alloc::{AllocError, Global};

/// The identifiers of keys, each of which is hashed here and nowhere else in an edition's drafts.
fn ids_of(alloc: Global, rows: &[KeyRow]) -> Result<Vec<KeyId>, AllocError>
    ensures { IfOk result (λ ids. ids.items ≡ map key_of rows.now) }
{
    let mut ids = Vec::with_capacity(alloc, rows.len())?;
    for row in rows {
        ids.push(KeyId::of(&row.key.bytes))?;
    }
    Ok(ids)
}

/// The same, as an index takes them.
fn live_keys(alloc: Global, ids: &[KeyId]) -> Result<Vec<Option<KeyId>>, AllocError>
    ensures { IfOk result (λ keys. keys.items ≡ map (λ id. Some id) ids.now) }
{
    ids.iter().map(|id| Some(*id)).collect(alloc)
}

/// The positions of the keys with these identifiers.
fn live_index(alloc: Global, ids: &[KeyId]) -> Result<KeyIndex, AllocError>
    ensures { IfOk result (IsIndex (map (λ id. Some id) ids.now)) }
{
    let keys = live_keys(alloc, ids)?;
    let index = index_of(alloc, &keys)?;
    Ok(index)
}

/// The rows from that number on.
fn behind(rows: &[KeyRow], first: usize) -> &[KeyRow]
    requires { first ≤ length rows.now }
    ensures { result.now ≡ drop first rows.now }
{
    rows.split_at(first).1
}

/// The desks of keys.
fn desks_of(alloc: Global, rows: &[KeyRow]) -> Result<Vec<u32>, AllocError>
    ensures { IfOk result (λ desks. desks.items ≡ map (λ row. row.desk) rows.now) }
{
    rows.iter().map(|row| row.desk).collect(alloc)
}

/// Where the first of rising numbers stands that isn't below another.
fn first_not_below(desks: &[u32], desk: u32) -> usize
    ensures bound { result ≤ length desks.now }
    ensures below { IsNonDecreasing desks.now → AllWithin (λ d. d < desk) desks.now 0 result }
    ensures above { IsNonDecreasing desks.now → AllWithin (λ d. desk ≤ d) desks.now result (length desks.now) }
{
    desks.partition_point(|d| *d < desk)
}

impl KeyFinder {
    /// Finds keys among these rows, of which those from that number on are of keys that were made.
    pub fn new(alloc: Global, rows: &[KeyRow], first_fresh: usize) -> Result<KeyFinder, AllocError>
        requires inside { first_fresh ≤ length rows.now }
        requires rising { IsNonDecreasing (map (λ row. row.desk) (drop first_fresh rows.now)) }
        ensures { IfOk result (Finds (keys_at rows.now first_fresh)) }
    {
        let ids = ids_of(alloc, rows)?;
        let live = live_index(alloc, &ids)?;
        let fresh = behind(rows, first_fresh);
        let desks = desks_of(alloc, fresh)?;
        Ok(KeyFinder {
            ids,
            live,
            desks,
            first_fresh,
        })
    }

    /// The position of the first new key of a desk.
    fn fresh_position(&self, desk: u32) -> Option<usize>
        ensures { IsNonDecreasing self.now.desks.items
            → result ≡ fresh_position self.now.desks.items self.now.first_fresh desk }
    {
        let at = first_not_below(&self.desks, desk);
        match self.desks.get(at) {
            Some(found) if *found == desk => Some(self.first_fresh + at),
            _ => None,
        }
    }

    /// The position of the key among the rows of the edition. An index.
    pub fn position(&self, name: &KeyName) -> Option<usize>
        ensures { (keys : Keys) → Finds keys self.now → IsPosition keys name.now result }
    {
        match name {
            KeyName::Live { id } => self.live.first(id),
            KeyName::Fresh { desk } => self.fresh_position(*desk),
        }
    }
}
