//! The format of a certificate revocation list of the RPKI (RFC 5280 section 5, RFC 6487 section
//! 5), read and written.
#![tactic(auto)]

mod entries;
mod reading;
mod values;
mod writing;

pub use reading::read;
pub use values::{Crl, CrlEntry, ReadCrl};
pub use writing::write;
