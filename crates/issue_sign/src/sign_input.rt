//! What the objects of an edition are made of.

use issue_drafts::IssueParts;
use issue_values::Publisher;
use items::Items;
use key_roll::RevokedRow;

/// What the objects of an edition are made of. Each key has its position in the lists: an index from 0,
/// the same in each of them.
#[derive(Clone, Copy)]
pub struct SignInput<'a> {
    pub input: &'a IssueParts<'a>,
    /// Where the keys publish.
    pub publishers: &'a [Publisher],
    /// The entries of their CRLs after the edition.
    pub revoked: &'a [Items<RevokedRow>],
}
