//! The records of a press's journal: whose store it is, and the editions, each over what stood before
//! it.
#![tactic(auto)]

mod changes;
mod edition;
mod entries;
mod fronts;
mod laws;
mod numbers;
mod recovered;
mod rows;
mod rules;
mod store;
mod taking;
mod types;

pub use edition::{EditionRecord, GivenEdition, ReadEdition, Standing, read_edition};
pub use laws::{
    carried_entries_are_found, edition_records_are_read_back, one_more_edition,
    recordable_editions_have_a_record, records_are_read_back, what_stands_alike_reads_alike,
};
pub use recovered::{Recovered, RecoveredParts};
pub use store::{StoreRecord, read_store};
