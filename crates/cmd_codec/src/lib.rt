//! Accepted commands as records of bytes.
//!
//! A record is a first byte, which says which command it is, and the command's parts in their order:
//!
//! | first byte | command | parts |
//! |---|---|---|
//! | 1 | `Add` | name, signer |
//! | 2 | `Delete` | none |
//! | 3 | `AddParent` | parent |
//! | 4, 5 | `AddChild`, `UpdateChild` | child, AS numbers, IPv4 and IPv6 addresses |
//! | 6 | `RemoveChild` | child |
//! | 7 | `UpdateRoas` | added origins, removed origins |
//! | 8, 9 | `SuspendChild`, `UnsuspendChild` | child |
//! | 10, 11 | `InitRoll`, `ActivateRoll` | none |
//!
//! A name is its length in 4 bytes and its bytes. Numbers are a count in 4 bytes and for each range its
//! first and last in 16 bytes each. Origins are a count in 4 bytes and 23 bytes each: the family (1 for
//! IPv6, 0 for IPv4), the address in 16 bytes, the length, the maximum length, and the AS number in 4
//! bytes. All numbers are big-endian.
#![tactic(auto)]

mod big_endian;
mod cursor;
mod faults;
mod fields;
mod format;
mod laws;
mod origin_field;
mod parts;
mod reading;
mod writing;

pub use faults::RecordFault;
pub use laws::listed_names_are_names;
pub use reading::read;
pub use writing::{record_len, spelled_apart, write};
