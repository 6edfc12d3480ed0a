//! What the authorities of a tree are certified for (RFC 6487 section 7.2), and which of their
//! route origins are owed (RFC 9582 section 5).
#![tactic(auto)]

mod certifying;
mod links;
mod owing;
mod trees;

pub use certifying::certified;
pub use links::names_of;
pub use owing::{is_certified, owed};
pub use trees::{Owed, Tree};
