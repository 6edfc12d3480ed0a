//! A store at work for several sessions at once: press and desks behind their locks, and what a session knows.
//!
//! What lies behind a lock is known by its type alone, so the types carry a `Names`, whose members say in
//! contracts what was found when the store was opened.
#![tactic(auto)]

mod awaiting;
mod followers;
mod locked_desk;
mod locked_desks;
mod locked_desks_answers;
mod locked_desks_ending;
mod locked_desks_reads;
mod locked_desks_starting;
mod locked_press;
mod naming;
mod opened_desk;
mod passes;
mod passes_seats;
mod pressing;
mod publish_fault;
mod ready_closing;
mod ready_laws;
mod ready_store;
mod rounds;
mod shared;
mod shared_closing;
mod shared_passes;
mod shared_starting;
mod words;

pub use awaiting::Awaited;
pub use followers::Followers;
pub use locked_desk::LockedDesk;
pub use locked_desks::LockedDesks;
pub use locked_desks_answers::{
    CommandFault, ListRow, ReadFault, RoaState, Shown, ShownRoa, ShownRoas,
};
pub use locked_desks_starting::{StartedDesks, UnstartedDesks};
pub use locked_press::{Closed, LockedPress};
pub use naming::Names;
pub use opened_desk::OpenedDesk;
pub use passes::Pass;
pub use passes_seats::DeskSeat;
pub use publish_fault::{PublishFault, Unmade};
pub use ready_closing::StoreParts;
pub use ready_laws::ready_stores_can_start;
pub use ready_store::{ReadyStore, UnreadyStore, make_store_ready};
pub use shared::Manager;
pub use shared_closing::ClosedStore;
pub use shared_passes::MOST_SESSIONS;
pub use shared_starting::{OpenedStore, UnstartedStore, start};
pub use words::Words;
