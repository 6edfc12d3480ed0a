//! IP address blocks, read (RFC 3779 section 2.2.3).

ghost use Rattle.std.specs.Prelude.{◌≡◌, Option, IfOk, IfSome};
ghost use Rattle.std.specs.Option.{option_map};
ghost use Rattle.der.specs.Part.{place};
ghost use Rattle.der.specs.Forms.{ends, possibly};
ghost use Rattle.der.specs.Outcome.{GivesUnlessMemory};
ghost use Rattle.res_sets.specs.declared.numbers.Family.TheVariants.{V4, V6};
ghost use Rattle.res_ext.specs.Formats.{part as part_form, joined, ip_content, ip_blocks};
ghost use Rattle.res_ext.specs.Views.{set_view, choice_view, ip_view, IsOf, listed_of};

use crate::choices::family_part;
use crate::values::IpRead;
use der::tags::SEQUENCE;
use der::{Part, ShapeFault};
use res_sets::{Family, Ranges};
use std::alloc::Global;

/// What stands for a family, if it is there: None in it where its addresses are the issuer's (RFC
/// 3779 section 2.2.3.4).
pub type Found = Option<Option<Ranges>>;

/// What stands for IPv6, and nothing behind it.
fn last_family(alloc: Global, part: Part<'_>) -> Result<Found, ShapeFault>
    ensures read { GivesUnlessMemory (λ v6. (option_map choice_view v6, tt)) result
        ((possibly (part_form V6) ends).read (place part.entry)) }
    ensures family { IfOk result (IsOf V6) }
{
    match family_part(alloc, Family::V6, part) {
        Ok((v6, rest)) => {
            rest.end()?;
            Ok(Some(v6))
        }
        Err(ShapeFault::Memory) => Err(ShapeFault::Memory),
        Err(first) => match part.end() {
            Ok(()) => Ok(None),
            Err(second) => Err(first.later(second)),
        },
    }
}

/// What stands for IPv4 and for IPv6.
fn families(alloc: Global, part: Part<'_>) -> Result<(Found, Found), ShapeFault>
    ensures read { GivesUnlessMemory (λ x. (option_map choice_view x.0, (option_map choice_view x.1, tt))) result
        ((possibly (part_form V4) (possibly (part_form V6) ends)).read (place part.entry)) }
    ensures v4 { IfOk result (λ x. IsOf V4 x.0) }
    ensures v6 { IfOk result (λ x. IsOf V6 x.1) }
{
    match family_part(alloc, Family::V4, part) {
        Ok((v4, rest)) => {
            let v6 = last_family(alloc, rest)?;
            Ok((Some(v4), v6))
        }
        Err(ShapeFault::Memory) => Err(ShapeFault::Memory),
        Err(first) => match last_family(alloc, part) {
            Ok(v6) => Ok((None, v6)),
            Err(ShapeFault::Memory) => Err(ShapeFault::Memory),
            Err(second) => Err(first.later(second)),
        },
    }
}

/// The set that stands there, or the empty one where none is.
fn set_of(alloc: Global, family: Family, found: Found) -> Option<Ranges>
    requires { IsOf family found }
    ensures set { option_map set_view result ≡ listed_of (option_map choice_view found) }
    ensures family { IfSome result (λ set. set.family ≡ family) }
{
    match found {
        None => Some(Ranges::empty(alloc, family)),
        Some(choice) => choice,
    }
}

/// What the two families say together.
fn joined(alloc: Global, v4: Found, v6: Found) -> Option<IpRead>
    requires v4 { IsOf V4 v4 }
    requires v6 { IsOf V6 v6 }
    ensures { option_map ip_view result ≡ joined (option_map choice_view v4) (option_map choice_view v6) }
{
    if let (Some(None), Some(None)) = (&v4, &v6) {
        return Some(IpRead {
            inherit: true,
            v4: Ranges::empty(alloc, Family::V4),
            v6: Ranges::empty(alloc, Family::V6),
        });
    }
    let v4 = set_of(alloc, Family::V4, v4)?;
    let v6 = set_of(alloc, Family::V6, v6)?;
    Some(IpRead {
        inherit: false,
        v4,
        v6,
    })
}

/// What the content of an extension says (RFC 3779 section 2.2.3).
#[tactic(auto, unfolding(crate::specs::Formats::ip_content, crate::specs::Formats::ip_in))]
pub fn ip_content(alloc: Global, part: Part<'_>) -> Result<IpRead, ShapeFault>
    ensures { GivesUnlessMemory ip_view result (ip_content.read (place part.entry)) }
{
    let (v4, v6) = families(alloc, part)?;
    match joined(alloc, v4, v6) {
        Some(read) => Ok(read),
        None => Err(part.fault()),
    }
}

/// What an extension of IP address blocks says, which is all of the part (RFC 3779 section
/// 2.2.3.1).
pub fn ip_blocks(alloc: Global, part: Part<'_>) -> Result<IpRead, ShapeFault>
    ensures { GivesUnlessMemory ip_view result (ip_blocks.read (place part.entry)) }
{
    ip_content(alloc, part.sole(SEQUENCE)?)
}
