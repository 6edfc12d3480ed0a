//! A signer at the other end of two streams: one line is written, and one line is read.
//!
//! Before the first request and after each fault both ends meet anew, so that no answer to an earlier
//! request is taken for one to a later request.
#![tactic(auto)]

mod ahead;
mod answer;
mod calls;
mod inbox;
mod line;
mod meeting;
mod opening;
mod request;
mod signer;

pub use calls::HandsOn;
pub use opening::Unmet;
pub use signer::{LineSigner, SignerOver};
