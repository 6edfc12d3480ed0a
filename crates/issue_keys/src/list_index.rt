//! The first positions of keys in a list.

ghost use Rattle.std.specs.Prelude.{◌≡◌, ◌++◌, ◌∷◌, [], IfOk, OnOk};
ghost use Rattle.issue_keys.specs.Indexes.{IsIndex, key_positions};

use crate::key_index::{KeyIndex, KeyPosition};
use key_ids::KeyId;
use std::alloc::{AllocError, Global};

/// Appends the position of an item that has a key.
fn push_position(
    entries: &mut Vec<KeyPosition>,
    key: Option<KeyId>,
    position: usize,
) -> Result<(), AllocError>
    ensures { OnOk result (entries.new.items ≡ entries.old.items ++ key_positions position (key ∷ [])) }
{
    if let Some(key) = key {
        entries.push(KeyPosition { key, position })?;
    }
    Ok(())
}

/// The positions of the keys of a list, some of whose items have one.
pub fn index_of(alloc: Global, keys: &[Option<KeyId>]) -> Result<KeyIndex, AllocError>
    ensures { IfOk result (IsIndex keys.now) }
{
    let mut entries = Vec::with_capacity(alloc, keys.len())?;
    for (position, key) in keys.iter().enumerate() {
        push_position(&mut entries, *key, position)?;
    }
    KeyIndex::new(entries)
}
