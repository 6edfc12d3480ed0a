//! The identifiers of keys that are there (RFC 6487 section 4.8.2).

ghost use Rattle.std.specs.Prelude.{◌≡◌, ℕ, List, not, ◌||◌, map, IfOk, OnOk};
ghost use Rattle.std.specs.Str.{bytes_eq};
ghost use Rattle.issue_keys.specs.Keys.{id_of};
ghost use Rattle.issue_keys.specs.Making.{clashes};
ghost use Rattle.issue_keys.specs.inner.IdSet.{has};

use key_ids::KeyId;
use key_roll::KeyRow;
use std::alloc::{AllocError, Global};
use std::collections::BTreeSet;

/// Identifiers, found in logarithmic time.
pub type IdSet = BTreeSet<[u8; 20]>;

/// Adds an identifier. Answers whether it is a new one.
pub fn add(id_set: &mut IdSet, id: &[u8; 20]) -> Result<bool, AllocError>
    ensures added { IfOk result (λ added. added ≡ not (has id_set.old id.now)) }
    ensures has { OnOk result ((other : List ℕ)
        → has id_set.new other ≡ (bytes_eq id.now other || has id_set.old other)) }
{
    let added = id_set.insert(*id)?;
    Ok(added)
}

/// The identifiers of live keys.
pub fn live_ids(alloc: Global, rows: &[KeyRow]) -> Result<IdSet, AllocError>
    ensures { IfOk result (λ id_set. (id : List ℕ) → has id_set id ≡ clashes (map id_of rows.now) id) }
{
    let mut id_set = BTreeSet::new(alloc);
    for row in rows {
        add(&mut id_set, &KeyId::of(&row.key.bytes).bytes)?;
    }
    Ok(id_set)
}
