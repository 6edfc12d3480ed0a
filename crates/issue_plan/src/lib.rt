//! What an edition has to make and to withdraw: the keys that it has (RFC 6489 section 2), all that
//! it wants to stand (RFC 6481 section 2), and what stands and isn't wanted.
#![tactic(auto)]

mod anew;
mod beside;
mod by_name;
mod changed;
mod due;
mod firsts;
mod groups;
mod guesses;
mod keys;
mod live;
mod lookups;
mod owed_places;
mod places;
mod plans;
mod positions;
mod requests;
mod roas;
mod serving;
mod settled;
mod spellings;
mod uris;
mod wanted;

pub use by_name::stand_by_name;
pub use due::is_due;
pub use keys::NextKey;
pub use plans::plan;
pub use positions::are_by_uri;
