//! Positions under keys.

ghost use Rattle.std.specs.Prelude.{◌≡◌, ℕ, List, [], filter, slice_get, option_copied, IfOk};
ghost use Rattle.std.specs.Option.{option_map};
ghost use Rattle.std.specs.Ordering.{is_lt};
ghost use Rattle.issue_keys.specs.Under.{id_cmp, is_under, positions_under};

use key_ids::KeyId;
use std::alloc::AllocError;
use std::cmp::Ordering;
use std::marker::Model;

/// A position under a key.
#[derive(Clone, Copy, Debug, PartialEq, Eq)]
pub struct KeyPosition {
    pub key: KeyId,
    /// An index from 0 in the list whose items are found by it.
    pub position: usize,
}

/// Positions under keys. Those of a key are found in logarithmic time, in the order in which they came.
///
/// Contracts see the list of the positions by rising identifier.
#[derive(Debug, Drop)]
pub struct KeyIndex {
    entries: Vec<KeyPosition>,
}

impl Model for KeyIndex {
    ghost use Rattle.std.specs.Prelude.{List};
    ghost use Rattle.issue_keys.specs.declared.key_index.KeyPosition.{KeyPosition};
    ghost use Rattle.issue_keys.specs.Under.{AreByKey};

    ghost Value = { List KeyPosition };

    ghost view = { λ index. index.entries.items };

    ghost invariant = { λ index. AreByKey index.entries.items };
}

/// How the identifier of a position's key compares to another.
fn compare(entry: &KeyPosition, id: &[u8; 20]) -> Ordering
    ensures { result ≡ id_cmp entry.now.key.bytes id.now }
{
    entry.key.bytes.as_slice().cmp(id.as_slice())
}

/// Whether the position's key is below another.
fn is_below(entry: &KeyPosition, id: &[u8; 20]) -> bool
    ensures { result ≡ is_lt (id_cmp entry.now.key.bytes id.now) }
{
    compare(entry, id).is_lt()
}

/// Whether the position is under the key with that identifier.
fn is_under(entry: &KeyPosition, id: &[u8; 20]) -> bool
    ensures { result ≡ is_under id.now entry.now }
{
    entry.key.bytes == *id
}

impl KeyIndex {
    ghost use Rattle.std.specs.Prelude.{◌≡◌, ℕ, List, option_copied, IfOk, slice_get};
    ghost use Rattle.std.specs.Option.{option_map};
    ghost use Rattle.issue_keys.specs.Under.{positions_under};

    /// The index of these positions.
    pub fn new(entries: Vec<KeyPosition>) -> Result<KeyIndex, AllocError>
        ensures { IfOk result (λ index. (id : List ℕ) → positions_under id index ≡ positions_under id entries.items) }
    {
        let mut entries = entries;
        entries.sort_by(|a, b| compare(a, &b.key.bytes))?;
        Ok(KeyIndex { entries })
    }

    /// The positions of a key, in the order in which they came.
    pub fn positions(&self, key: &KeyId) -> &[KeyPosition]
        ensures { result.now ≡ positions_under key.now.bytes self.now }
    {
        let id = &key.bytes;
        let from = self.entries.partition_point(|entry| is_below(entry, id));
        let rest = &self.entries[from..];
        let count = rest.partition_point(|entry| is_under(entry, id));
        &rest[..count]
    }

    /// The first position of a key.
    pub fn first(&self, key: &KeyId) -> Option<usize>
        ensures { result ≡ option_map (λ entry. entry.position) (slice_get (positions_under key.now.bytes self.now) 0) }
    {
        match self.positions(key).first() {
            Some(entry) => Some(entry.position),
            None => None,
        }
    }
}
