//! The keys of an edition: those that it makes, those that stay (RFC 6489 section 2), and how they
//! are found by their identifiers (RFC 6487 section 4.8.2).
#![tactic(auto)]

mod fault;
mod id_set;
mod key_index;
mod list_index;
mod making;
mod rows;

pub use fault::MakeFault;
pub use key_index::{KeyIndex, KeyPosition};
pub use list_index::index_of;
pub use making::make_keys;
pub use rows::kept_rows;
