//! Leading bits of addresses as bit strings (RFC 3779 section 2.1.1).

ghost use Rattle.std.specs.Prelude.{◌≡◌, ◌<◌, ◌≤◌, ◌+◌, ◌-◌, ◌*◌, ◌/◌, ◌%◌, ◌^◌, ◌++◌, length, IfOk, OnOk};
ghost use Rattle.std.specs.Int.Digits.{number_from_digits};
ghost use Rattle.der.specs.Part.{place};
ghost use Rattle.der.specs.Outcome.{Gives};
ghost use Rattle.res_ext.specs.Prefixes.{IsAddressSize, leading_spelling, kept};
ghost use Rattle.res_ext.specs.Formats.{span_of, leading_in, leading_good, leading, last_of};

use der::{Part, ShapeFault, bits_at as bits};
use res_sets::Range;
use std::alloc::{AllocError, Global};

/// How many leading bits, and the first address that begins with them.
pub type Leading = (u32, u128);

/// The greatest number of so many bits.
fn ones(bits: u32) -> u128
    requires { bits ≤ 128 }
    ensures { result + 1 ≡ 2 ^ bits }
{
    if bits == 128 {
        u128::MAX
    } else {
        (1 << bits) - 1
    }
}

/// How many leading bits of so many stay of a number without its trailing zeros. RFC 3779 section
/// 2.2.3.9.
pub fn kept_of_first(bits: u32, n: u128) -> u32
    requires { bits ≤ 128 }
    ensures { result ≡ kept 0 bits n }
{
    bits - n.trailing_zeros().min(bits)
}

/// How many leading bits of so many stay of a number without its trailing ones. RFC 3779 section
/// 2.2.3.9.
pub fn kept_of_last(bits: u32, n: u128) -> u32
    requires { bits ≤ 128 }
    ensures { result ≡ kept 1 bits n }
{
    bits - n.trailing_ones().min(bits)
}

/// The number that the bytes are in base 256.
fn number(bytes: &[u8]) -> u128
    requires { length bytes.now ≤ 16 }
    ensures { result ≡ number_from_digits 256 bytes.now }
{
    let mut n: u128 = 0;
    for b in bytes {
        n = n * 256 + u128::from(*b);
    }
    n
}

/// The address of so many bits that begins with the bytes and goes on with zeros.
fn address(bits: u32, bytes: &[u8]) -> u128
    requires short { bits ≤ 128 }
    requires fits { 8 * length bytes.now ≤ bits }
    ensures { result ≡ number_from_digits 256 bytes.now * 2 ^ (bits - 8 * length bytes.now) }
{
    match bytes {
        [] => 0,
        _ => number(bytes) << (bits - 8 * bytes.len() as u32),
    }
}

/// The leading bits that a bit string is, if it isn't too long.
#[tactic(auto, unfolding(crate::specs::Formats::leading_in))]
fn leading_in(size: u32, unused: u8, bytes: &[u8]) -> Option<Leading>
    requires { size ≤ 128 }
    ensures { result ≡ leading_in size (unused, bytes.now) }
{
    let count = bytes.len();
    if count > (size / 8) as usize {
        return None;
    }
    let length = (8 * count as u32).saturating_sub(u32::from(unused));
    Some((length, address(size, bytes)))
}

/// The leading bits of an address (RFC 3779 section 2.1.1). `size` is how many bits an address has.
pub fn leading(size: u32, part: Part<'_>) -> Result<(Leading, Part<'_>), ShapeFault>
    requires { IsAddressSize size }
    ensures read { Gives (λ x. (x.0, place x.1)) result ((leading size).read (place part.entry)) }
    ensures good { IfOk result (λ x. leading_good size x.0) }
{
    let (string, rest) = bits(part)?;
    match leading_in(size, string.unused, string.bytes) {
        Some(prefix) => Ok((prefix, rest)),
        None => Err(part.fault()),
    }
}

/// The last address that begins with the leading bits.
fn last_of(size: u32, prefix: Leading) -> u128
    requires short { size ≤ 128 }
    requires good { leading_good size prefix }
    ensures { result ≡ last_of size prefix }
{
    prefix.1 + ones(size - prefix.0)
}

/// The addresses that begin with the leading bits.
#[tactic(auto, using(crate::specs::laws::FormatLaws::last_within))]
pub fn range_of(size: u32, prefix: Leading) -> Range
    requires short { size ≤ 128 }
    requires good { leading_good size prefix }
    ensures span { span_of result ≡ (prefix.1, last_of size prefix) }
    ensures within { result.last < 2 ^ size }
{
    Range {
        first: prefix.1,
        last: last_of(size, prefix),
    }
}

/// Appends the first bits of an address that has so many, the others of which are zero.
pub fn push_leading(
    alloc: Global,
    out: &mut Vec<u8>,
    bits: u32,
    length: u32,
    address: u128,
) -> Result<(), AllocError>
    requires size { IsAddressSize bits }
    requires within { length ≤ bits }
    requires fits { address < 2 ^ bits }
    requires clear { address % 2 ^ (bits - length) ≡ 0 }
    ensures { OnOk result (out.new.items ≡ out.old.items ++ leading_spelling bits length address) }
{
    let count = length.div_ceil(8);
    let unused = 8 * count - length;
    let bytes = (address << (128 - bits)).to_be_bytes();
    der::bits(alloc, out, unused as u8, &bytes[..count as usize])
}

/// Appends the first bits of the last address of a range, the others of which are ones.
pub fn push_leading_of_last(
    alloc: Global,
    out: &mut Vec<u8>,
    bits: u32,
    length: u32,
    last: u128,
) -> Result<(), AllocError>
    requires size { IsAddressSize bits }
    requires within { length ≤ bits }
    requires fits { last < 2 ^ bits }
    requires set { (last + 1) % 2 ^ (bits - length) ≡ 0 }
    ensures { OnOk result (out.new.items ≡ out.old.items ++ leading_spelling bits length last) }
{
    push_leading(alloc, out, bits, length, last - ones(bits - length))
}
