//! What the programs over cases share: arguments, resources, sets of objects, and where reading stops.
#![tactic(auto)]

mod arguments;
mod objects;
mod places;
mod resources;

pub use arguments::{
    bytes_of, digits_of, first_field, fixed_of, number_of, numbers_of, split_field, step_parts,
};
pub use objects::{
    changes_text, digest_text, read_changes, read_hash, read_set, read_uri, set_text,
};
pub use places::{Probe, changes, cuts, push_fault};
pub use resources::resources_of;
