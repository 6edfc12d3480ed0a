//! What the objects of an edition are drafted from.

use crate::issue_parts::IssueParts;
use crate::key_finder::KeyFinder;
use key_roll::KeyRow;

/// What drafts are made of.
#[derive(Clone, Copy)]
pub struct DraftInput<'a> {
    pub input: &'a IssueParts<'a>,
    /// The keys of the edition.
    pub rows: &'a [KeyRow],
    pub finder: &'a KeyFinder,
}
