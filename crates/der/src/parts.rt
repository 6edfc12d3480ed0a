//! Parts of a slice: an element's content, and what stands in it (X.690 sections 8.1, 8.3 and 8.6).

ghost use Rattle.std.specs.Prelude.{◌≡◌, ◌+◌, ◌<◌, ◌≤◌, ◌^◌, ◌++◌, ℕ, List, length, IfOk, Ok, SomeIff};
ghost use Rattle.der.specs.Spelling.{spelled, unsigned_spelling, bits_spelling, AreBits};
ghost use Rattle.der.specs.Reading.{Gives, number, length_at, element_at, number_of, unsigned_at, are_bits, bits_of, bits_at};

use crate::fault::DerFault;
use crate::{BIT_STRING, INTEGER};

/// The content of a BIT STRING: how many of the last byte's low bits are unused, and the bytes
/// (X.690 section 8.6.2).
#[derive(Clone, Copy, Debug)]
pub struct Bits<'a> {
    /// 0 to 7, and 0 where there is no byte. The unused bits are zero.
    pub unused: u8,
    pub bytes: &'a [u8],
}

/// An element at the front of a slice: all its bytes, its content, and the bytes behind it (X.690
/// section 8.1.1).
#[derive(Clone, Copy, Debug)]
pub struct Element<'a> {
    pub whole: &'a [u8],
    pub content: &'a [u8],
    pub rest: &'a [u8],
}

/// The number in base 256, if it fits.
fn number(bytes: &[u8]) -> Option<u64>
    ensures { SomeIff result (number bytes.now < 2 ^ 64) (number bytes.now) }
{
    let mut n: u64 = 0;
    for b in bytes {
        if n >= 1 << 56 {
            return None;
        }
        n = n * 256 + u64::from(*b);
    }
    Some(n)
}

/// The length that is stated at the front, and the bytes behind it (X.690 section 8.1.3).
#[tactic(auto, unfolding(crate::specs::Reading::length_at))]
fn length(at: u64, bytes: &[u8]) -> Result<(usize, &[u8]), DerFault>
    ensures { Gives (λ x. (x.0, x.1.now)) result (length_at at bytes.now) }
{
    let [first, rest @ ..] = bytes else {
        return Err(DerFault::Truncated { at });
    };
    if *first < 128 {
        return Ok((usize::from(*first), rest));
    }
    let count = usize::from(*first - 128);
    if rest.len() < count {
        return Err(DerFault::Truncated { at });
    }
    if count == 0 || count > 4 {
        return Err(DerFault::BadLength { at });
    }
    let (digits, rest) = rest.split_at(count);
    let n = number(digits).unwrap();
    if digits[0] == 0 || n < 128 {
        return Err(DerFault::NotCanonical { at });
    }
    Ok((n as usize, rest))
}

/// The content of the element of that tag at the front of the bytes, which start at `at`, and the bytes
/// behind the element. `at` is an offset in bytes in the whole object, which a fault names (X.690
/// section 8.1).
#[tactic(auto, unfolding(crate::specs::Reading::element_at))]
pub fn content_of(at: u64, tag: u8, bytes: &[u8]) -> Result<(&[u8], &[u8]), DerFault>
    ensures { Gives (λ x. (x.0.now, x.1.now)) result (element_at at tag bytes.now) }
{
    let [first, rest @ ..] = bytes else {
        return Err(DerFault::Truncated { at });
    };
    if *first != tag {
        return Err(DerFault::BadTag { at });
    }
    let (n, rest) = length(at, rest)?;
    if rest.len() < n {
        return Err(DerFault::Truncated { at });
    }
    Ok(rest.split_at(n))
}

/// The element of that tag at the front of the bytes, which start at `at` (X.690 section 8.1).
pub fn element_of(at: u64, tag: u8, bytes: &[u8]) -> Result<Element<'_>, DerFault>
    ensures read { Gives (λ e. (e.content.now, e.rest.now)) result (element_at at tag bytes.now) }
    ensures parts { IfOk result (λ e. bytes.now ≡ e.whole.now ++ e.rest.now) }
    ensures whole { IfOk result (λ e. e.whole.now ≡ spelled tag e.content.now) }
    ensures short { IfOk result (λ e. length e.content.now < 2 ^ 32) }
    ensures header { IfOk result (λ e. length e.content.now + 2 ≤ length e.whole.now) }
{
    let (content, rest) = content_of(at, tag, bytes)?;
    let whole = &bytes[..bytes.len() - rest.len()];
    Ok(Element {
        whole,
        content,
        rest,
    })
}

/// The number that is an INTEGER's content (X.690 section 8.3).
pub fn number_of(at: u64, content: &[u8]) -> Result<u64, DerFault>
    ensures { Gives (λ n. n) result (number_of at content.now) }
{
    match content {
        [] | [128..=255, ..] | [0, 0..128, ..] => Err(DerFault::NotCanonical { at }),
        _ => number(content).ok_or(DerFault::BadLength { at }),
    }
}

/// Whether the bytes, with so many unused bits, are those of a BIT STRING.
fn are_bits(unused: u8, bytes: &[u8]) -> bool
    ensures { result ≡ are_bits unused bytes.now }
{
    match bytes {
        [] => unused == 0,
        [.., last] => unused < 8 && *last % (1 << unused) == 0,
    }
}

/// What the content of a BIT STRING holds (X.690 sections 8.6 and 11.2).
pub fn bits_of(at: u64, content: &[u8]) -> Result<Bits<'_>, DerFault>
    ensures { Gives (λ b. (b.unused, b.bytes.now)) result (bits_of at content.now) }
{
    match content {
        [unused, bytes @ ..] if are_bits(*unused, bytes) => Ok(Bits {
            unused: *unused,
            bytes,
        }),
        _ => Err(DerFault::NotCanonical { at }),
    }
}

/// The number at the front of the bytes, which start at `at`, and its element.
#[tactic(auto, unfolding(crate::specs::Reading::unsigned_at))]
pub(crate) fn unsigned_of(at: u64, bytes: &[u8]) -> Result<(u64, Element<'_>), DerFault>
    ensures read { Gives (λ x. (x.0, x.1.rest.now)) result (unsigned_at at bytes.now) }
    ensures parts { IfOk result (λ x. bytes.now ≡ x.1.whole.now ++ x.1.rest.now) }
    ensures whole { IfOk result (λ x. x.1.whole.now ≡ unsigned_spelling x.0) }
    ensures header { IfOk result (λ x. 2 ≤ length x.1.whole.now) }
{
    let element = element_of(at, INTEGER, bytes)?;
    let n = number_of(at, element.content)?;
    Ok((n, element))
}

/// The BIT STRING at the front of the bytes, which start at `at`, and its element.
#[tactic(auto, unfolding(crate::specs::Reading::bits_at))]
pub(crate) fn bit_string_of(at: u64, bytes: &[u8]) -> Result<(Bits<'_>, Element<'_>), DerFault>
    ensures read { Gives (λ x. ((x.0.unused, x.0.bytes.now), x.1.rest.now)) result (bits_at at bytes.now) }
    ensures parts { IfOk result (λ x. bytes.now ≡ x.1.whole.now ++ x.1.rest.now) }
    ensures whole { IfOk result (λ x. x.1.whole.now ≡ bits_spelling x.0.unused x.0.bytes.now) }
    ensures bits { IfOk result (λ x. AreBits x.0.unused x.0.bytes.now) }
    ensures header { IfOk result (λ x. 2 ≤ length x.1.whole.now) }
{
    let element = element_of(at, BIT_STRING, bytes)?;
    let bits = bits_of(at, element.content)?;
    Ok((bits, element))
}
