//! The keys of an edition at their positions, with their identifiers.

ghost use Rattle.std.specs.Prelude.{◌≡◌, ◌<◌, length, option_map, IfSome};
ghost use Rattle.issue_drafts.specs.WorkKeys.{key_of, key_named, keys_at, Finds};
ghost use Rattle.issue_drafts.specs.Views.{IsPositioned};

use crate::draft::KeyAt;
use crate::key_finder::KeyFinder;
use key_ids::KeyId;
use key_roll::{KeyName, KeyRow};

impl KeyAt<'_> {
    /// The key's identifier, which was hashed before.
    pub fn id(&self) -> KeyId
        ensures { result ≡ key_of self.now.row.now }
    {
        self.id
    }
}

/// The key that stands there. An index from 0.
pub fn key_there<'a>(rows: &'a [KeyRow], finder: &KeyFinder, position: usize) -> KeyAt<'a>
    requires finds { Finds (keys_at rows.now finder.now.first_fresh) finder.now }
    requires inside { position < length rows.now }
    ensures position { result.position ≡ position }
    ensures positioned { IsPositioned rows.now result }
{
    KeyAt {
        position,
        row: &rows[position],
        id: finder.ids[position],
    }
}

/// The key that a name stands for.
pub fn key_named<'a>(rows: &'a [KeyRow], finder: &KeyFinder, name: &KeyName) -> Option<KeyAt<'a>>
    requires { Finds (keys_at rows.now finder.now.first_fresh) finder.now }
    ensures key { option_map (λ k. k.row.now) result
        ≡ key_named (keys_at rows.now finder.now.first_fresh) name.now }
    ensures positioned { IfSome result (IsPositioned rows.now) }
{
    match finder.position(name) {
        Some(position) => Some(key_there(rows, finder, position)),
        None => None,
    }
}
