//! Origins of IPv4 as they are printed, read in one pass. What isn't read so may be an origin all the same.

ghost use Rattle.std.specs.Prelude.{◌≡◌, ◌<◌, ◌++◌, ◌∷◌, ℕ, List, Option, IfSome, codes, decimal};
ghost use Rattle.origins.specs.Text.{IsOriginText};
ghost use Rattle.origins.specs.Origin.{parts_of};
ghost use Rattle.origins.specs.inner.Quick.{BeginsWith, BeginsWithAddress, BeginsWithLengths};
ghost use Rattle.origins.specs.inner.Told.{IsTold};

use crate::grammar::WrittenPrefix;

// What comes behind that byte, where it comes first.
fn behind(text: &[u8], byte: u8) -> Option<&[u8]>
    ensures { IfSome result (λ rest. text.now ≡ byte ∷ rest.now) }
{
    match text.split_first() {
        Some((first, rest)) if *first == byte => Some(rest),
        _ => None,
    }
}

// The number that comes first, without a zero in front, and what comes behind its digits.
fn number_at(text: &[u8]) -> Option<(u32, &[u8])>
    ensures { IfSome result (λ found. BeginsWith text.now found.0 found.1.now) }
{
    let mut value = 0u32;
    let mut read = 0;
    for byte in text {
        let digit = byte.wrapping_sub(b'0');
        if digit > 9 {
            break;
        }
        value = value.checked_mul(10)?.checked_add(u32::from(digit))?;
        read += 1;
    }
    if read == 0 || (read > 1 && text[0] == b'0') {
        return None;
    }
    Some((value, &text[read..]))
}

// The number of a byte that comes first, and what comes behind the mark that follows.
fn octet_at(text: &[u8], mark: u8) -> Option<(u8, &[u8])>
    ensures fits { IfSome result (λ found. found.0 < 256) }
    ensures reads { IfSome result (λ found. text.now ≡ decimal found.0 ++ (mark ∷ found.1.now)) }
{
    let (value, rest) = number_at(text)?;
    if value > 255 {
        return None;
    }
    Some((value as u8, behind(rest, mark)?))
}

// The address that comes first, and what comes behind the slash that follows.
fn address_at(text: &[u8]) -> Option<(u32, &[u8])>
    ensures { IfSome result (λ found. BeginsWithAddress text.now found.0 found.1.now) }
{
    let (first, rest) = octet_at(text, b'.')?;
    let (second, rest) = octet_at(rest, b'.')?;
    let (third, rest) = octet_at(rest, b'.')?;
    let (fourth, rest) = octet_at(rest, b'/')?;
    Some((u32::from_be_bytes([first, second, third, fourth]), rest))
}

// The length that comes first, the maximum if a hyphen follows, and what comes behind.
fn lengths_at(text: &[u8]) -> Option<(u32, Option<u64>, &[u8])>
    ensures { IfSome result (λ found. BeginsWithLengths text.now found.0 found.1 found.2.now) }
{
    let (length, rest) = number_at(text)?;
    let Some(digits) = behind(rest, b'-') else {
        return Some((length, None, rest));
    };
    let (maximum, rest) = number_at(digits)?;
    Some((length, Some(u64::from(maximum)), rest))
}

// What comes behind the arrow, with one blank on each side of it, where it comes first.
fn behind_arrow(text: &[u8]) -> Option<&[u8]>
    ensures { IfSome result (λ rest. text.now ≡ codes " => " ++ rest.now) }
{
    match text {
        [b' ', b'=', b'>', b' ', rest @ ..] => Some(rest),
        _ => None,
    }
}

/// What an origin of IPv4 writes, where it is written with one blank on each side of `=>` and no `AS`.
pub(crate) fn read_quickly(text: &[u8]) -> Option<(WrittenPrefix, u32)>
    ensures { IfSome result (λ found. (maximum : Option ℕ) × IsTold found.0.maximum maximum
        × IsOriginText text.now (parts_of found.0 found.1 maximum)) }
{
    let (address, rest) = address_at(text)?;
    let (length, maximum, rest) = lengths_at(rest)?;
    if length > 32 {
        return None;
    }
    let (asn, rest) = number_at(behind_arrow(rest)?)?;
    if !rest.is_empty() {
        return None;
    }
    let prefix = WrittenPrefix {
        v6: false,
        address: u128::from(address),
        length: length as u8,
        maximum,
    };
    Some((prefix, asn))
}
