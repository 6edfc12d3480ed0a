//! The RRDP files of an edition (RFC 8182 section 3.3.2): its snapshot, its delta, the notification
//! that names them, and what an export puts and removes.
#![tactic(auto)]

mod delta;
mod laws;
mod leaving;
mod lengths;
mod named;
mod next;
mod paths;
mod putting;
mod resuming;
mod state;
mod text;

pub use delta::Delta;
pub use laws::{
    exports_keep_files_coherent, named_deltas_are_the_longest_run,
    named_deltas_lead_to_the_snapshot, notifications_name_what_is_put,
};
pub use next::NextDelta;
pub use resuming::{Resuming, TELLING_EDITIONS};
pub use state::Rrdp;
pub use text::FileText;
