//! An authority's book: its commands, which of them are accepted, and the configuration that the
//! accepted ones come to.
#![tactic(auto)]

mod children;
mod commands;
mod configs;
mod laws;
mod origin_lists;
mod refusals;
mod rows;
mod sorted_origins;
mod verdicts;

pub use commands::Command;
pub use configs::Config;
pub use laws::{accepted_origins_ascend, membership_is_by_equality, rollovers_take_turns};
pub use origin_lists::OriginList;
pub use refusals::Refusal;
pub use rows::{Child, NameRow};
pub use verdicts::{MOST_AUTHORITIES, verdict, verdict_unasked};
