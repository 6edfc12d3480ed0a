//! Keys that an edition ended (RFC 6489 section 2).

ghost use Rattle.std.specs.Prelude.{◌≡◌, List, map, IfOk};
ghost use Rattle.std.specs.List.{list_any};
ghost use Rattle.std.specs.Str.{bytes_eq};
ghost use Rattle.key_roll.specs.declared.rows.KeyRow.{KeyRow};
ghost use Rattle.issue_keys.specs.Keys.{id_of};
ghost use Rattle.editions.specs.Ended as spec;
ghost use Rattle.editions.specs.Ended.{is_among};

use key_ids::KeyId;
use key_roll::KeyRow;
use signer_api::PublicKey;
use std::alloc::{AllocError, Global};

/// A key that ended, and the signer that holds it.
#[derive(Clone, Copy, Debug, PartialEq, Eq)]
pub struct EndedKey {
    /// Numbered from 0.
    pub signer: u32,
    pub key: PublicKey,
}

// The identifiers of keys.
fn ids_of(alloc: Global, rows: &[KeyRow]) -> Result<Vec<KeyId>, AllocError>
    ensures { IfOk result (λ ids. map (λ id. id.bytes) ids.items ≡ map id_of rows.now) }
{
    let mut ids = Vec::with_capacity(alloc, rows.len())?;
    for row in rows {
        ids.push(KeyId::of(&row.key.bytes))?;
    }
    Ok(ids)
}

// Whether the identifier is one of these.
fn is_in(ids: &[KeyId], own: &KeyId) -> bool
    ensures { result ≡ list_any (λ id. bytes_eq id.bytes own.now.bytes) ids.now }
{
    ids.iter()
        .any(|id| id.bytes.as_slice() == own.bytes.as_slice())
}

// Whether the key of the row is the one of one of these rows, whose identifiers are given.
fn is_among(ids: &[KeyId], row: &KeyRow) -> bool
    ensures { (rows : List KeyRow) → map (λ id. id.bytes) ids.now ≡ map id_of rows
        → result ≡ is_among rows row.now }
{
    is_in(ids, &KeyId::of(&row.key.bytes))
}

/// The keys that were live before and aren't after, in the order of their rows.
pub fn ended_keys(
    alloc: Global,
    before: &[KeyRow],
    after: &[KeyRow],
) -> Result<Vec<EndedKey>, AllocError>
    ensures { IfOk result (λ ended. ended.items ≡ spec.ended_keys before.now after.now) }
{
    let ids = ids_of(alloc, after)?;
    let mut ended = Vec::new(alloc);
    for row in before {
        if !is_among(&ids, row) {
            ended.push(EndedKey {
                signer: row.signer,
                key: row.key,
            })?;
        }
    }
    Ok(ended)
}
