//! The lines of a session, answered over its pass: what each says is done by the manager that sessions share, and the
//! reply is of what the pass then knows. And the sessions of a run, each in a thread of its own.
#![tactic(auto)]

mod handler;
mod kept;
mod laws;
mod long_lines;
mod reads;
mod reply_lines;
mod running;
mod serving;

pub use handler::Handler;
pub use kept::Kept;
pub use laws::sessions_make_what_is_accepted;
pub use long_lines::takes_long_alone;
pub use running::{ServedStore, SessionEnds, SessionOutcome, serve_store};
pub use serving::{ServedSession, Session, SessionParts, serve_all};

/// The number of the press's disk, behind those of the desks, in replies.
pub const PRESS_DEVICE: u32 = 64;
