//! What finds the keys that the work names. `key_lookup` makes it and asks it: a struct with a ghost
//! field can't stand beside clauses that speak of it.

ghost use Rattle.std.specs.Prelude.{◌+◌, ◌^◌, ◌<◌, length};

use issue_keys::KeyIndex;
use key_ids::KeyId;

/// Finds the keys that the work names, in logarithmic time.
#[derive(Debug, Drop)]
pub struct KeyFinder {
    /// The identifiers of all keys of the edition, in their order.
    pub ids: Vec<KeyId>,
    /// The positions of these keys.
    pub live: KeyIndex,
    /// The desks of the new keys, which rise.
    pub desks: Vec<u32>,
    /// Where the first of these keys stands. An index in the keys of the edition.
    pub first_fresh: usize,
    pub ghost short: { first_fresh + length desks.items < 2 ^ 64 },
}
