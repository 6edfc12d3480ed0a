// From texts to origins.
ghost use Rattle.std.specs.Prelude.{◌≡◌, ◌≢◌, ◌-◌, ◌%◌, ◌^◌, ◌<◌, ◌≤◌, ◌↔◌, ℕ, List, Option, IsTrue, MatchOption, unwrap_or};
ghost use Rattle.origins.specs.Prefix.{IsPrefix, IsMaximum};
ghost use Rattle.origins.specs.Prefix as bits;
ghost use Rattle.origins.specs.Text.{IsPrefixText, IsOriginText, Parts};
ghost use Rattle.origins.specs.inner.Told.{IsTold};
ghost use Rattle.origins.specs.inner.Fronts.{IsAround};
ghost use Rattle.origins.specs.declared.Origin.{Origin};
ghost use Rattle.origins.specs.Origin.{ReadsOrigin, MakesOrigin, SpellsOrigin, parts_of};

use crate::fronts::{after, skip_blanks, split_before};
use crate::grammar::{WrittenPrefix, read_prefix};
use crate::quick::read_quickly;
use crate::{Origin, Prefix};
use ip_text::read_as_number;
use thiserror::Error;

/// Why a text is no origin, in the order in which it is tested.
#[derive(Clone, Copy, Debug, PartialEq, Eq, Error)]
pub enum OriginFault {
    /// The text is not of the form `PREFIX-MAXIMUM => ASN`, or the length is above the family's.
    #[error("not an origin")]
    BadOrigin,
    /// The address has a bit set below the prefix length.
    #[error("host bits are set")]
    HostBits,
    /// The maximum is below the prefix length, or above the family's.
    #[error("maximum length out of range")]
    MaxLength,
}

// The texts round `=>`, without blanks.
fn split_arrow(text: &[u8]) -> Option<(&[u8], &[u8])>
    ensures { MatchOption result
        ((before behind : List ℕ) → ¬ (IsAround text.now before behind))
        (λ found. IsAround text.now found.0.now found.1.now) }
{
    let (before, rest) = split_before(text, b" \t=");
    let behind = after(skip_blanks(rest), b"=>")?;
    Some((before, skip_blanks(behind)))
}

fn read_parts(text: &[u8]) -> Option<(WrittenPrefix, u32)>
    ensures { MatchOption result
        ((parts : Parts) → ¬ (IsOriginText text.now parts))
        (λ found. (maximum : Option ℕ) × IsTold found.0.maximum maximum
        × IsOriginText text.now (parts_of found.0 found.1 maximum)) }
{
    let (prefix, asn) = split_arrow(text)?;
    Some((read_prefix(prefix)?, read_as_number(asn)?))
}

fn make_origin(prefix: WrittenPrefix, asn: u32) -> Result<Origin, OriginFault>
    requires short { prefix.length ≤ bits.address_bits prefix.v6 }
    requires fits { prefix.address < 2 ^ bits.address_bits prefix.v6 }
    ensures { MakesOrigin (parts_of prefix asn prefix.maximum) result }
{
    let max = prefix.maximum.unwrap_or(u64::from(prefix.length));
    let Some(prefix) = Prefix::new(prefix.v6, prefix.address, prefix.length) else {
        return Err(OriginFault::HostBits);
    };
    if max > u64::from(u8::MAX) {
        return Err(OriginFault::MaxLength);
    }
    Origin::new(prefix, max as u8, asn).ok_or(OriginFault::MaxLength)
}

// Reads an origin that may be written in any way. Few are.
#[inline(never)]
fn read_any(text: &[u8]) -> Result<Origin, OriginFault>
    ensures reads { ReadsOrigin text.now result }
    ensures spelled { (origin : Origin) → SpellsOrigin text.now origin → result ≡ Ok origin }
{
    let Some((prefix, asn)) = read_parts(text) else {
        return Err(OriginFault::BadOrigin);
    };
    make_origin(prefix, asn)
}

/// Reads an origin, as `10.0.0.0/16-24 => 64496`.
///
/// The maximum may be left out where it is the length. Round `=>` stand any number of spaces and
/// tabs, and the AS number may have `AS` in front. It takes no memory. Addresses are written as RFC
/// 5952 or in dotted decimal, the AS number as RFC 5396 has it.
pub fn read_origin(text: &str) -> Result<Origin, OriginFault>
    ensures reads { ReadsOrigin text.now result }
    // A text that spells an origin is read to it and to nothing else.
    ensures spelled { (origin : Origin) → SpellsOrigin text.now origin → result ≡ Ok origin }
{
    let text = text.as_bytes();
    match read_quickly(text) {
        Some((prefix, asn)) => make_origin(prefix, asn),
        None => read_any(text),
    }
}

impl Prefix {
    ghost use Rattle.std.specs.Prelude.{MatchOption};
    ghost use Rattle.origins.specs.declared.Prefix.{Prefix};
    ghost use Rattle.origins.specs.Origin.{SpellsPrefix};

    /// Reads a prefix, as `10.0.0.0/16`. It takes no memory.
    pub fn read(text: &str) -> Option<Prefix>
        ensures { MatchOption result ((prefix : Prefix) → ¬ SpellsPrefix text.now prefix)
            (λ prefix. SpellsPrefix text.now prefix) }
    {
        let written = read_prefix(text.as_bytes())?;
        match written.maximum {
            Some(_) => None,
            None => Prefix::new(written.v6, written.address, written.length),
        }
    }
}

/// A law, with nothing to run: a text is read in one way, so the answers exclude each other.
pub fn reads_origin_once()
    ensures { (text : List ℕ) (p q : Parts) → IsOriginText text p → IsOriginText text q → p ≡ q }
{}
