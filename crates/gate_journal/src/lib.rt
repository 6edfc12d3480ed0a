//! A journal of records on a disk, in which each record is kept once it is acknowledged, and which
//! a crash at any moment leaves with the records from before the call, or with these and the new one.
//!
//! Before each record stands a gate, a byte of its own. A record counts where its gate is open. It is
//! written behind a closed gate and synced, and only then the gate is opened.
#![tactic(auto)]

mod entry;
mod fault;
mod journal;
mod open;
mod place;
mod rose;
mod store;
mod window;

pub use entry::Entry;
pub use fault::{AppendFault, JournalFault, OpenRefused};
pub use journal::Journal;
pub use rose::Rose;
pub use store::add_to_body;
