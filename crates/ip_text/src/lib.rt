//! Decimal numbers, AS numbers (RFC 5396) and IP addresses (RFC 4291 section 2.2, RFC 5952) as
//! texts.
//!
//! The readers take whole texts and no memory.
#![tactic(auto)]

mod ipv4;
mod ipv6;
mod number;

pub use ipv4::{push_ipv4, read_ipv4, reads_ipv4_once};
pub use ipv6::{push_ipv6, read_ipv6, reads_ipv6_once, reads_own_ipv6_text};
pub use number::{read_as_number, read_saturating, reads_as_number_once};
