//! The press: what stands after the last edition, the signers, and the keys that the edition ended. It prepares the
//! next edition, which then becomes the last one.
#![tactic(auto)]

mod exact_holdings;
mod exporting;
mod fault;
mod hash_laws;
mod homes;
mod journal_laws;
mod last_export;
mod laws;
mod loading;
mod making;
mod next_edition;
mod opening;
mod prepared;
mod preparing;
mod press;
mod reading;
mod record_laws;
mod resume;
mod resuming;
mod roa_uris;
mod setup;
mod stored;
mod stored_fault;
mod tables;

pub use editions::{Gathered, PublishedNumbers};
pub use fault::Met;
pub use hash_laws::prepared_tables_tell_hashes;
pub use journal_laws::records_tell_one_store;
pub use last_export::LastExport;
pub use laws::{
    edition_records_go_on, first_published_state_stands, made_keys_are_staged, more_commands_stand,
    more_commands_stay_published, more_editions_stay_shown, prepared_editions_are_published,
    prepared_editions_follow, prepared_editions_leave, prepared_editions_put_what_is_unfit,
    published_editions_have_an_anchor, rrdp_editions_are_what_editions_leave,
    telling_signers_vouch, vouching_signers_vouch_for_editions,
};
pub use loading::{LoadFault, LoadRefused, Loaded, load};
pub use press::Press;
pub use record_laws::{
    prepared_editions_can_be_recorded, recorded_editions_leave_what_editions_leave,
};
pub use resume::{ResumeFault, ResumeRefused};
pub use stored::{StoredPrepared, StoredPress};
pub use stored_fault::{CommitFault, PrepareFault};
