//! The work of an edition, and what stands before it.

use authority_book::NameRow;
use key_ids::Site;
use key_roll::{IssuedRow, Work};

/// The work of an edition, and what stands published before it.
#[derive(Clone, Copy)]
pub struct IssueParts<'a> {
    pub work: &'a Work,
    /// The names of the authorities, by their desks.
    pub names: &'a [NameRow],
    pub issued: &'a [IssuedRow],
    pub site: &'a Site,
}
