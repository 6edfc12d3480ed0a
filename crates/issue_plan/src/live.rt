//! Live keys by their identifiers.

ghost use Rattle.std.specs.Prelude.{◌≡◌, map, find, option_map, IfOk};
ghost use Rattle.std.specs.Str.{bytes_eq};
ghost use Rattle.issue_plan.specs.inner.Live as spec;

use crate::keys::{id_of, is_same_id};
use key_ids::KeyId;
use key_roll::{KeyName, KeyRow};
use std::alloc::{AllocError, Global};

/// A live key: its identifier, and its authority's desk, numbered from 0.
#[derive(Clone, Copy)]
pub struct LiveKey {
    pub id: KeyId,
    pub desk: u32,
}

fn live_key(row: &KeyRow) -> LiveKey
    ensures { result ≡ spec.live_key row.now }
{
    LiveKey {
        id: id_of(row),
        desk: row.desk,
    }
}

/// The live keys, with their identifiers.
pub fn live_keys(alloc: Global, rows: &[KeyRow]) -> Result<Vec<LiveKey>, AllocError>
    ensures { IfOk result (λ live. live.items ≡ map spec.live_key rows.now) }
{
    rows.iter().map(|row| live_key(row)).collect(alloc)
}

// The first live key with that identifier.
fn find_id<'a>(live: &'a [LiveKey], id: &KeyId) -> Option<&'a LiveKey>
    ensures { option_map (λ key. key.now) result ≡ find (λ key. bytes_eq key.id.bytes id.now.bytes) live.now }
{
    live.iter().find(|key| is_same_id(&key.id, id))
}

/// The live key of that name.
pub fn live_at<'a>(live: &'a [LiveKey], name: &KeyName) -> Option<&'a LiveKey>
    ensures { option_map (λ key. key.now) result ≡ spec.live_at live.now name.now }
{
    match name {
        KeyName::Live { id } => find_id(live, id),
        KeyName::Fresh { .. } => None,
    }
}
