//! What the making of an edition's objects comes to.

use items::Items;
use key_roll::{IssuedRow, KeyRow};
use pub_set::Change;

/// The objects of an edition's work, and what is known of keys and objects after it.
#[derive(Debug, Drop)]
pub struct Made {
    /// By rising URI.
    pub changes: Items<Change>,
    /// The live keys after the edition, by desk and role.
    pub rows: Items<KeyRow>,
    /// The objects that are put, by rising URI.
    pub issued: Items<IssuedRow>,
    /// How many signatures the signers gave.
    pub signatures: u64,
}
