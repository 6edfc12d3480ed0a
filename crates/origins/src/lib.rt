//! Route origins: which AS may announce a prefix, and how far it may be split (RFC 9582 section 4).
#![tactic(auto)]

ghost use Rattle.std.specs.Prelude.{◌<◌, ◌^◌};
ghost use Rattle.origins.specs.Prefix.{IsPrefix, IsMaximum};

mod addresses;
mod fronts;
mod grammar;
mod laws;
mod making;
mod quick;
mod reading;
mod writing;

pub use laws::{orders_origins, same_numbers_same_origin};
pub use reading::{OriginFault, read_origin, reads_origin_once};
pub use writing::reads_own_text;

/// An address prefix of IPv4 or IPv6 (RFC 4632 section 3.1, RFC 4291 section 2.3).
///
/// The order is by family, IPv4 first, then by address, then by length.
#[derive(Clone, Copy, Debug, PartialEq, Eq, PartialOrd, Ord)]
pub struct Prefix {
    /// Whether the family is IPv6.
    pub v6: bool,
    /// The lowest address. An IPv4 address stands in the low 32 bits.
    pub address: u128,
    /// How many leading bits are fixed, at most 32 or 128. In bits.
    pub length: u8,
    ghost prefix: { IsPrefix v6 address length },
}

/// A route origin: the AS that may announce a prefix, and the longest prefix that it may announce
/// below it (RFC 9582 sections 4.2 and 4.3.2).
///
/// The order is by prefix, then by maximum length, then by AS number.
#[derive(Clone, Copy, Debug, PartialEq, Eq, PartialOrd, Ord)]
pub struct Origin {
    pub prefix: Prefix,
    /// The greatest length that may be announced, from the prefix's length to 32 or 128. In bits
    /// (RFC 9582 section 4.3.2.2).
    pub max: u8,
    /// The number of the AS (RFC 6793).
    pub asn: u32,
    ghost maximum: { IsMaximum prefix.v6 prefix.length max },
    ghost number: { asn < 2 ^ 32 },
}
