//! Sets of Internet number resources: AS numbers, IPv4 addresses and IPv6 addresses (RFC 3779
//! sections 2 and 3).
//!
//! A set's meaning is the numbers that are in it. A set is kept as the one sorted list of ranges
//! that has them, and each operation goes over such lists once.
#![tactic(auto)]

mod bytes;
mod holdings;
mod lookup;
mod merging;
mod numbers;
mod prefixes;
mod printing;
mod pushing;
mod sets;
mod texts;

pub use holdings::Resources;
pub use numbers::{Family, Range};
pub use prefixes::prefix_length;
pub use printing::reads_own_texts;
pub use pushing::PushFault;
pub use sets::{MOST_RANGES, Ranges, same_members_same_set};
pub use texts::{TextFault, reads_texts_once};
