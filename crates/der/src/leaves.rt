//! Readers of single elements (X.690 section 8).

ghost use Rattle.std.specs.Prelude.{◌≡◌, length};
ghost use Rattle.der.specs.Part.{place};
ghost use Rattle.der.specs.Outcome.{Gives};
ghost use Rattle.der.specs.Leaves.{number_in, number_content, number, short_number, bits_in, bits_content, bits, octets, fixed, exactly, constant, octet_bits, are_same};

use crate::part::Part;
use crate::parts::Bits;
use crate::shape_fault::ShapeFault;
use crate::tags::{BIT_STRING, INTEGER, OCTET_STRING};

/// The number that is an INTEGER's content (X.690 section 8.3).
#[tactic(auto, unfolding(crate::specs::Leaves::number_in))]
pub fn number_content(part: Part<'_>) -> Result<u64, ShapeFault>
    ensures { Gives (λ n. n) result (number_content.read (place part.entry)) }
{
    match crate::parts::number_of(0, part.bytes) {
        Ok(n) => Ok(n),
        Err(_) => Err(part.fault()),
    }
}

/// An INTEGER from 0 to 2 ^ 64 - 1 (X.690 section 8.3).
pub fn number(part: Part<'_>) -> Result<(u64, Part<'_>), ShapeFault>
    ensures { Gives (λ x. (x.0, place x.1)) result (number.read (place part.entry)) }
{
    let (content, rest) = part.open(INTEGER)?;
    let n = number_content(content)?;
    Ok((n, rest))
}

/// An INTEGER from 0 to 2 ^ 32 - 1 (X.690 section 8.3).
pub fn short_number(part: Part<'_>) -> Result<(u32, Part<'_>), ShapeFault>
    ensures { Gives (λ x. (x.0, place x.1)) result (short_number.read (place part.entry)) }
{
    let (n, rest) = number(part)?;
    if n < 1 << 32 {
        Ok((n as u32, rest))
    } else {
        Err(part.fault())
    }
}

/// The content of a BIT STRING (X.690 sections 8.6 and 11.2).
#[tactic(auto, unfolding(crate::specs::Leaves::bits_in))]
pub fn bits_content(part: Part<'_>) -> Result<Bits<'_>, ShapeFault>
    ensures { Gives (λ b. (b.unused, b.bytes.now)) result (bits_content.read (place part.entry)) }
{
    match crate::parts::bits_of(0, part.bytes) {
        Ok(bits) => Ok(bits),
        Err(_) => Err(part.fault()),
    }
}

/// A BIT STRING (X.690 sections 8.6 and 11.2).
pub fn bits(part: Part<'_>) -> Result<(Bits<'_>, Part<'_>), ShapeFault>
    ensures { Gives (λ x. ((x.0.unused, x.0.bytes.now), place x.1)) result (bits.read (place part.entry)) }
{
    let (content, rest) = part.open(BIT_STRING)?;
    let bits = bits_content(content)?;
    Ok((bits, rest))
}

/// An OCTET STRING (X.690 section 8.7).
pub fn octets(part: Part<'_>) -> Result<(&[u8], Part<'_>), ShapeFault>
    ensures { Gives (λ x. (x.0.now, place x.1)) result (octets.read (place part.entry)) }
{
    let (content, rest) = part.open(OCTET_STRING)?;
    Ok((content.bytes, rest))
}

/// Just so many bytes.
pub fn fixed<const N: usize>(part: Part<'_>) -> Result<[u8; N], ShapeFault>
    ensures { Gives (λ b. b) result ((fixed N).read (place part.entry)) }
{
    match <[u8; N]>::try_from(part.bytes) {
        Ok(bytes) => Ok(bytes),
        Err(_) => Err(part.fault()),
    }
}

/// Whether two lists of bytes are the same.
pub fn are_same(a: &[u8], b: &[u8]) -> bool
    ensures { result ≡ are_same a.now b.now }
{
    a == b
}

/// Just these bytes.
pub fn exactly(part: Part<'_>, bytes: &[u8]) -> Result<(), ShapeFault>
    ensures { Gives (λ x. x) result ((exactly bytes.now).read (place part.entry)) }
{
    if are_same(part.bytes, bytes) {
        Ok(())
    } else {
        Err(part.fault())
    }
}

/// An element of that tag with just these bytes; what stands behind it.
pub fn constant<'a>(part: Part<'a>, tag: u8, bytes: &[u8]) -> Result<Part<'a>, ShapeFault>
    ensures { Gives (λ q. (tt, place q)) result ((constant tag bytes.now).read (place part.entry)) }
{
    let (content, rest) = part.open(tag)?;
    exactly(content, bytes)?;
    Ok(rest)
}

/// So many bytes as the content of a BIT STRING, none of whose bits are unused (X.690 section 8.6).
pub fn octet_bits<const N: usize>(part: Part<'_>) -> Result<[u8; N], ShapeFault>
    ensures { Gives (λ b. b) result ((octet_bits N).read (place part.entry)) }
{
    let [0, bytes @ ..] = part.bytes else {
        return Err(part.fault());
    };
    match <[u8; N]>::try_from(bytes) {
        Ok(bytes) => Ok(bytes),
        Err(_) => Err(part.fault()),
    }
}
