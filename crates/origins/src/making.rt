// Prefixes and origins made of numbers: the one place where the rules of both are tested.
ghost use Rattle.std.specs.Prelude.{◌≡◌, ◌↔◌, ◌%◌, ◌^◌, IsTrue, MatchOption};
ghost use Rattle.origins.specs.Prefix.{IsPrefix, IsMaximum};

use crate::grammar::address_bits;
use crate::{Origin, Prefix};

impl Prefix {
    /// The prefix of these numbers, if they are those of one: an address of its family without a
    /// bit below the length, which is at most that of an address.
    pub fn new(v6: bool, address: u128, length: u8) -> Option<Prefix>
        ensures { MatchOption result (¬ IsPrefix v6 address length)
            (λ p. (p.v6 ≡ v6) × (p.address ≡ address) × (p.length ≡ length)) }
    {
        if !is_prefix(v6, address, length) {
            return None;
        }
        Some(Prefix {
            v6,
            address,
            length,
        })
    }
}

impl Origin {
    /// The origin of these, if the maximum lies between the prefix's length and the family's. `max`
    /// is in bits, `asn` the number of the AS.
    pub fn new(prefix: Prefix, max: u8, asn: u32) -> Option<Origin>
        ensures { MatchOption result (¬ IsMaximum prefix.v6 prefix.length max)
            (λ origin. (origin.prefix ≡ prefix) × (origin.max ≡ max) × (origin.asn ≡ asn)) }
    {
        if max < prefix.length || max > address_bits(prefix.v6) {
            return None;
        }
        Some(Origin { prefix, max, asn })
    }
}

// Whether the address is of the family, and no bit of it below the length is set.
fn is_prefix(v6: bool, address: u128, length: u8) -> bool
    ensures { IsTrue result ↔ IsPrefix v6 address length }
{
    let bits = address_bits(v6);
    length <= bits
        && (v6 || address <= u128::from(u32::MAX))
        && ends_in_zeros(address, bits - length)
}

// Whether that many low bits of the address are 0.
fn ends_in_zeros(address: u128, count: u8) -> bool
    ensures { IsTrue result ↔ (address % 2 ^ count ≡ 0) }
{
    match 1u128.checked_shl(u32::from(count)) {
        Some(block) => address & (block - 1) == 0,
        None => address == 0,
    }
}
