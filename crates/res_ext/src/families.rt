//! A family of addresses that may not come next (RFC 3779 section 2.2.3.3).

ghost use Rattle.std.specs.Prelude.{◌≡◌, ◌≢◌, Option, IfOk, if◌then◌else◌};
ghost use Rattle.std.specs.Option.{option_map};
ghost use Rattle.der.specs.Part.{place};
ghost use Rattle.der.specs.Outcome.{Gives};
ghost use Rattle.res_ext.specs.Formats.{part as part_form};
ghost use Rattle.res_ext.specs.Views.{choice_view};
ghost use Rattle.res_ext.specs.declared.fault.ExtFault.TheVariants.{NotCanonical, Family as BadFamily, Memory};
ghost use Rattle.res_ext.specs.Extensions.{named, are_alike, may_follow};
ghost use Rattle.res_ext.specs.Answers.{tried, goes_wrong};

use crate::choices::{family_number, family_part};
use crate::fault::ExtFault;
use der::tags::{OCTET_STRING, SEQUENCE};
use der::{Part, ShapeFault, are_same};
use res_sets::{Family, Ranges};
use std::alloc::{AllocError, Global};

/// What stands for a family, if it is there: None in it where its addresses are the issuer's.
type Found = Option<Option<Ranges>>;

/// What stands for a family in front, if it is there, and what stands behind it.
fn family_in<'a>(
    alloc: Global,
    family: Family,
    part: Part<'a>,
) -> Result<(Found, Part<'a>), AllocError>
    ensures { IfOk result (λ x. (option_map choice_view x.0, place x.1) ≡ tried (part_form family) (place part.entry)) }
{
    match family_part(alloc, family, part) {
        Ok((choice, rest)) => Ok((Some(choice), rest)),
        Err(ShapeFault::Memory) => Err(AllocError),
        Err(ShapeFault::Shape { .. }) => Ok((None, part)),
    }
}

/// The bytes of the OCTET STRING with which the SEQUENCE in front begins, what stands behind them in
/// it, and what stands behind it.
fn named(part: Part<'_>) -> Result<((&[u8], &[u8]), Part<'_>), ShapeFault>
    ensures { Gives (λ x. ((x.0.0.now, x.0.1.now), place x.1)) result (named.read (place part.entry)) }
{
    let (content, rest) = part.open(SEQUENCE)?;
    let (number, more) = content.open(OCTET_STRING)?;
    Ok(((number.bytes, more.bytes), rest))
}

/// Whether both families inherit, or none does.
fn are_alike(v4: &Found, v6: &Found) -> bool
    ensures { result ≡ are_alike (option_map choice_view v4.now) (option_map choice_view v6.now) }
{
    !matches!(
        (v4, v6),
        (Some(None), Some(Some(_))) | (Some(Some(_)), Some(None))
    )
}

/// Whether a family with this number may come next, behind those.
fn may_follow(number: &[u8], v4: &Found, v6: &Found) -> bool
    ensures { result ≡ may_follow number.now (option_map choice_view v4.now) (option_map choice_view v6.now) }
{
    are_same(number, family_number(Family::V4)) && v4.is_none() && v6.is_none()
        || are_same(number, family_number(Family::V6)) && v6.is_none()
}

/// Whether a family that may not come next stands behind families that are as they may be.
fn goes_wrong(alloc: Global, part: Part<'_>) -> Result<bool, AllocError>
    ensures { IfOk result (λ wrong. wrong ≡ goes_wrong (place part.entry)) }
{
    let (v4, rest) = family_in(alloc, Family::V4, part)?;
    let (v6, rest) = family_in(alloc, Family::V6, rest)?;
    match named(rest) {
        Ok(((number, _), _)) => Ok(are_alike(&v4, &v6) && !may_follow(number, &v4, &v6)),
        Err(_) => Ok(false),
    }
}

/// Why bytes are no content of IP address blocks.
pub fn fault_of(alloc: Global, part: Part<'_>) -> ExtFault
    ensures { result ≢ Memory
        → result ≡ (if goes_wrong (place part.entry) then BadFamily else NotCanonical) }
{
    match goes_wrong(alloc, part) {
        Ok(true) => ExtFault::Family,
        Ok(false) => ExtFault::NotCanonical,
        Err(_) => ExtFault::Memory,
    }
}
