//! Prefixes as ranges (RFC 3779 section 2.1).

ghost use Rattle.std.specs.Prelude.{◌≡◌, ℕ, ◌+◌, ◌^◌, ◌<◌, ◌≤◌, MatchOption};
ghost use Rattle.res_sets.specs.Prefixes.{IsPrefixRange, ReadsPrefix};

use crate::numbers::Range;

// Why a block of a text says no range.
#[derive(Clone, Copy, Debug)]
pub enum BlockFault {
    BadNumber,
    BadRange,
    HostBits,
}

// The greatest number of so many bits.
fn ones(bits: u32) -> u128
    requires { bits ≤ 128 }
    ensures { result + 1 ≡ 2 ^ bits }
{
    if bits == 128 {
        u128::MAX
    } else {
        (1 << bits) - 1
    }
}

/// The addresses, of so many bits, that begin as the address does: `length` is how many of its bits
/// are fixed.
pub fn prefix_range(bits: u32, address: u128, length: u64) -> Result<Range, BlockFault>
    requires short { bits ≤ 128 }
    requires fits { address < 2 ^ bits }
    ensures { ReadsPrefix bits (λ m. m ≡ address) (λ len. len ≡ length) result }
{
    if length > u64::from(bits) {
        return Err(BlockFault::BadRange);
    }
    let host = ones(bits - length as u32);
    if address & host != 0 {
        return Err(BlockFault::HostBits);
    }
    Ok(Range {
        first: address,
        last: address + host,
    })
}

/// The length of the prefix that the range is, if it is one, of addresses of so many bits.
pub fn prefix_length(bits: u32, range: Range) -> Option<u32>
    requires short { bits ≤ 128 }
    requires fits { range.last < 2 ^ bits }
    ensures { MatchOption result ((len : ℕ) → ¬ IsPrefixRange bits len range)
        (λ len. IsPrefixRange bits len range) }
{
    let host = range.last - range.first;
    let host_bits = 128 - host.leading_zeros();
    if host == ones(host_bits) && range.first & host == 0 {
        Some(bits - host_bits)
    } else {
        None
    }
}
