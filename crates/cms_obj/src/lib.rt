//! The format of a signed object of the RPKI (RFC 6488 section 2, RFC 9589), which holds a manifest
//! or a ROA, read and written.
#![tactic(auto)]

mod kinds;
mod reading;
mod values;
mod writing;

pub use moments::is_moment;
pub use reading::read;
pub use values::{HashedContent, ObjectKind, SignedObject};
pub use writing::{attributes, hashed_attributes, is_certificate, write, write_hashed};
