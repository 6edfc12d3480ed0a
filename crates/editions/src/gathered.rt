//! Commands that are gathered for an edition.

use authority_book::Command;
use items::Items;

/// Commands of a desk that an edition takes in.
#[derive(Drop)]
pub struct Gathered {
    /// Numbered from 0, which is the trust anchor's.
    pub desk: u32,
    /// How many commands of the desk came before them.
    pub from: u64,
    /// In the order in which the desk accepted them.
    pub commands: Items<Command>,
}
