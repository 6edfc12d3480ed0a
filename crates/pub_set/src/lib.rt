//! What a publication point's relying parties fetch: a set of objects by URI, the queries that
//! change it whole or not at all (RFC 8181 section 2.2), and the changes from one set to another
//! (RFC 8182 section 3.5.3).
#![tactic(auto)]

mod deltas;
mod laws;
mod merging;
mod objects;
mod overlays;
mod parts;
mod refusals;
mod steps;

pub use deltas::changes;
pub use laws::{changes_leave_a_set, changes_make_the_new_set, same_contents_same_set};
pub use objects::{Object, ObjectSet};
pub use parts::{Content, Uri};
pub use refusals::{
    NO_OBJECT_MATCHING_HASH, NO_OBJECT_PRESENT, OBJECT_ALREADY_PRESENT, PERMISSION_FAILURE,
    QueryRefused,
};
pub use steps::Change;
