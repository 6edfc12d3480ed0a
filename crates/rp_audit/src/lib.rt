//! An audit of a published set: the walk of a relying party, computed (RFC 6487 section 7, RFC 9286
//! section 6, RFC 9582 section 5).
#![tactic(auto)]

mod authorities;
mod authority;
mod bytes;
mod certificates;
mod files;
mod holdings;
mod laws;
mod noted;
mod objects;
mod points;
mod refusal;
mod roas;
mod scene;
mod signed;
mod signing;
mod uris;
mod visited_uris;
mod walking;

pub use laws::{rings_go_on_vouching, rings_vouch_by_their_signers};
pub use refusal::AuditRefused;
pub use walking::audit;
