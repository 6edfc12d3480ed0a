//! Certified sets and owed origins (RFC 6487 section 7.2, RFC 9582 section 5).

use origins::Origin;
use res_sets::Resources;

/// What each authority of a tree is certified for: a set of resources for each name, at its place.
#[derive(Debug, Drop)]
pub struct Tree {
    pub sets: Vec<Resources>,
}

/// A route origin that an authority owes a ROA for, and the authority's desk (RFC 9582 section 5).
#[derive(Clone, Copy, Debug, PartialEq, Eq)]
pub struct Owed {
    /// Desks are numbered from 0, which is the trust anchor's.
    pub desk: u32,
    pub origin: Origin,
}
