//! The objects of an edition before they are signed.

ghost use Rattle.std.specs.Prelude.{◌≡◌};
ghost use Rattle.sha1.specs.Sha1.{sha1};

use key_ids::KeyId;
use key_roll::KeyRow;
use origins::Origin;
use pub_set::Uri;
use res_sets::Resources;

/// A key of the edition with its identifier, and its position among the edition's keys.
#[derive(Clone, Copy)]
pub struct KeyAt<'a> {
    /// An index from 0.
    pub position: usize,
    pub row: &'a KeyRow,
    /// The key's identifier.
    pub(crate) id: KeyId,
    pub ghost identified: { id.bytes ≡ sha1 row.now.key.bytes },
}

/// What an object is to say.
#[derive(Clone, Copy)]
pub enum DraftKind<'a> {
    Authority {
        subject: KeyAt<'a>,
        held: &'a Resources,
    },
    Route {
        origin: Origin,
    },
    Crl,
}

/// An object to be made: where it is to stand, and the key that issues it.
#[derive(Drop)]
pub struct Draft<'a> {
    pub uri: Uri,
    pub issuer: KeyAt<'a>,
    pub kind: DraftKind<'a>,
}

/// A manifest to be made.
#[derive(Drop)]
pub struct ManifestDraft<'a> {
    pub uri: Uri,
    pub issuer: KeyAt<'a>,
}
