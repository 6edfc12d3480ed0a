//! Moments as the times of certificates: UTCTime and GeneralizedTime (RFC 5280 section 4.1.2.5).
//!
//! A moment is in whole seconds since 1970-01-01T00:00:00Z, without leap seconds. Nothing here takes
//! memory.
#![tactic(auto)]

mod civil;
mod fault;
mod laws;
mod reading;
mod text;
mod writing;

pub use fault::TimeFault;
pub use laws::{civil_time, one_time, spelled_is_read, text_length};
pub use reading::read;
pub use text::TimeText;
pub use writing::{cert_time, general, is_moment};
