// The parts of an origin's text.
ghost use Rattle.std.specs.Prelude.{◌≡◌, ◌≢◌, ◌≤◌, ◌<◌, ◌^◌, ◌++◌, ℕ, Bool, List, Option, MatchOption, IfSome};
ghost use Rattle.origins.specs.Text.{IsAddressText, IsLengthsText, IsPrefixText};
ghost use Rattle.origins.specs.inner.Told.{IsTold, TellsLengths};
ghost use Rattle.origins.specs.Prefix as bits;

use crate::fronts::{after, split_before};
use ip_text::{read_ipv4, read_ipv6, read_saturating};

// A prefix and its maximum as they are written.
#[derive(Clone, Copy)]
pub(crate) struct WrittenPrefix {
    pub(crate) v6: bool,
    pub(crate) address: u128,
    pub(crate) length: u8,
    // `u64::MAX` stands for each greater number.
    pub(crate) maximum: Option<u64>,
}

// How many bits an address has.
pub(crate) fn address_bits(v6: bool) -> u8
    ensures { result ≡ bits.address_bits v6 }
{
    if v6 { 128 } else { 32 }
}

fn read_lengths(text: &[u8]) -> Option<(u64, Option<u64>)>
    ensures { MatchOption result
        ((len : ℕ) (maximum : Option ℕ) → ¬ (IsLengthsText text.now len maximum))
        (λ lengths. TellsLengths text.now lengths.0 lengths.1) }
{
    let (length, rest) = split_before(text, b"-");
    let maximum = match after(rest, b"-") {
        Some(digits) => Some(read_saturating(digits)?),
        None => None,
    };
    Some((read_saturating(length)?, maximum))
}

fn read_address(text: &[u8]) -> Option<(bool, u128)>
    ensures { MatchOption result
        ((v6 : Bool) (address : ℕ) → ¬ (IsAddressText text.now v6 address))
        (λ found. IsAddressText text.now found.0 found.1) }
{
    if let Some(address) = read_ipv4(text) {
        return Some((false, u128::from(address)));
    }
    let address = read_ipv6(text)?;
    Some((true, address))
}

pub(crate) fn read_prefix(text: &[u8]) -> Option<WrittenPrefix>
    ensures { MatchOption result
        ((v6 : Bool) (address len : ℕ) (maximum : Option ℕ) → ¬ (IsPrefixText text.now v6 address len maximum))
        (λ found. (maximum : Option ℕ) × IsTold found.maximum maximum
        × IsPrefixText text.now found.v6 found.address found.length maximum) }
{
    let (address, rest) = split_before(text, b"/");
    let (length, maximum) = read_lengths(after(rest, b"/")?)?;
    let (v6, address) = read_address(address)?;
    if length > u64::from(address_bits(v6)) {
        return None;
    }
    Some(WrittenPrefix {
        v6,
        address,
        length: length as u8,
        maximum,
    })
}
