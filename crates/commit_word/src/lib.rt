//! A word that counts a growing list, and the seats of those who know parts of the list.
//!
//! The list is that of an authority's accepted commands. What threads share is the word alone, the
//! list's length. The list itself stands in contracts: the owner's seat has seen it whole, and a
//! follower's has seen a prefix of it, which grows at each load. Each entry stands in what one seat
//! made, at its place.
#![tactic(auto)]

mod entries;
mod follower;
pub mod laws;
mod owner;
mod recovered;
mod views;
mod word;

pub use entries::Entries;
pub use follower::Follower;
pub use owner::Owner;
pub use word::Word;
