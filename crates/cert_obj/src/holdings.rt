//! The resources of a certificate (RFC 6487 sections 4.8.10 and 4.8.11).

ghost use Rattle.std.specs.Prelude.{◌≡◌};
ghost use Rattle.std.specs.Option.{option_map};
ghost use Rattle.der.specs.Part.{place};
ghost use Rattle.der.specs.Forms.{ends, possibly};
ghost use Rattle.der.specs.Outcome.{GivesUnlessMemory};
ghost use Rattle.res_sets.specs.declared.numbers.Family.TheVariants.{Asn, V4, V6};
ghost use Rattle.res_ext.specs.Formats.{has_numbers};
ghost use Rattle.res_ext.specs.Views.{as_view, ip_view, set_view};
ghost use Rattle.cert_obj.specs.Values.{is_empty_list, held_value, has_no_numbers};
ghost use Rattle.cert_obj.specs.Holdings.{has_addresses, addresses, numbers, joined, held, entity_held};

use crate::values::Held;
use der::{Part, ShapeFault};
use object_parts::critical_extension;
use object_parts::identifiers::{AS_IDENTIFIERS, IP_BLOCKS};
use res_ext::{AsRead, IpRead, as_identifiers, ip_blocks};
use res_sets::{Family, Ranges, Resources};
use std::alloc::Global;

/// Whether a set is empty.
pub fn is_empty(set: &Ranges) -> bool
    ensures { result ≡ is_empty_list (set_view set.now) }
{
    set.is_empty()
}

/// Whether there is an address, or the issuer's are meant.
fn has_addresses(read: &IpRead) -> bool
    ensures { result ≡ has_addresses (ip_view read.now) }
{
    if read.inherit {
        return true;
    }
    !(is_empty(&read.v4) && is_empty(&read.v6))
}

/// IP address blocks, which aren't empty.
fn addresses<'a>(alloc: Global, part: Part<'a>) -> Result<(IpRead, Part<'a>), ShapeFault>
    ensures { GivesUnlessMemory (λ x. (ip_view x.0, place x.1))
        result (addresses.read (place part.entry)) }
{
    let (value, rest) = critical_extension(part, &IP_BLOCKS)?;
    let read = ip_blocks(alloc, value)?;
    if has_addresses(&read) {
        Ok((read, rest))
    } else {
        Err(value.fault())
    }
}

/// Whether there is an AS number, or the issuer's are meant.
#[tactic(auto, using(crate::specs::laws::HoldingLaws::some_numbers))]
fn has_numbers(read: &AsRead) -> bool
    ensures { result ≡ has_numbers (as_view read.now) }
{
    if read.inherit {
        return true;
    }
    !is_empty(&read.asn)
}

/// AS identifiers, which aren't empty.
fn numbers<'a>(alloc: Global, part: Part<'a>) -> Result<(AsRead, Part<'a>), ShapeFault>
    ensures { GivesUnlessMemory (λ x. (as_view x.0, place x.1))
        result (numbers.read (place part.entry)) }
{
    let (value, rest) = critical_extension(part, &AS_IDENTIFIERS)?;
    let read = as_identifiers(alloc, value)?;
    if has_numbers(&read) {
        Ok((read, rest))
    } else {
        Err(value.fault())
    }
}

/// AS identifiers or nothing, and nothing behind them.
fn last(alloc: Global, part: Part<'_>) -> Result<Option<AsRead>, ShapeFault>
    ensures { GivesUnlessMemory (λ asn. (option_map as_view asn, tt)) result
        ((possibly numbers ends).read (place part.entry)) }
{
    match numbers(alloc, part) {
        Ok((read, rest)) => {
            rest.end()?;
            Ok(Some(read))
        }
        Err(ShapeFault::Memory) => Err(ShapeFault::Memory),
        Err(first) => match part.end() {
            Ok(()) => Ok(None),
            Err(second) => Err(first.later(second)),
        },
    }
}

/// The two extensions, each of which may be missing.
fn both(alloc: Global, part: Part<'_>) -> Result<(Option<IpRead>, Option<AsRead>), ShapeFault>
    ensures { GivesUnlessMemory (λ x. (option_map ip_view x.0, (option_map as_view x.1, tt))) result
        ((possibly addresses (possibly numbers ends)).read (place part.entry)) }
{
    match addresses(alloc, part) {
        Ok((read, rest)) => {
            let asn = last(alloc, rest)?;
            Ok((Some(read), asn))
        }
        Err(ShapeFault::Memory) => Err(ShapeFault::Memory),
        Err(first) => match last(alloc, part) {
            Ok(asn) => Ok((None, asn)),
            Err(ShapeFault::Memory) => Err(ShapeFault::Memory),
            Err(second) => Err(first.later(second)),
        },
    }
}

/// The resources of these sets.
fn set_of(asn: Ranges, v4: Ranges, v6: Ranges) -> Held
    requires asn { asn.family ≡ Asn }
    requires v4 { v4.family ≡ V4 }
    requires v6 { v6.family ≡ V6 }
    ensures { held_value result
        ≡ Some (record { asn = set_view asn; v4 = set_view v4; v6 = set_view v6 }) }
{
    Held::Set {
        resources: Resources { asn, v4, v6 },
    }
}

/// What the two extensions say together.
fn joined(alloc: Global, ip: Option<IpRead>, asn: Option<AsRead>) -> Option<Held>
    ensures { option_map held_value result
        ≡ joined (option_map ip_view ip) (option_map as_view asn) }
{
    match (ip, asn) {
        (None, None) => Some(set_of(
            Ranges::empty(alloc, Family::Asn),
            Ranges::empty(alloc, Family::V4),
            Ranges::empty(alloc, Family::V6),
        )),
        (Some(ip), None) => match ip.inherit {
            true => None,
            false => Some(set_of(Ranges::empty(alloc, Family::Asn), ip.v4, ip.v6)),
        },
        (None, Some(numbers)) => match numbers.inherit {
            true => None,
            false => Some(set_of(
                numbers.asn,
                Ranges::empty(alloc, Family::V4),
                Ranges::empty(alloc, Family::V6),
            )),
        },
        (Some(ip), Some(numbers)) => match (ip.inherit, numbers.inherit) {
            (true, true) => Some(Held::Inherit),
            (false, false) => Some(set_of(numbers.asn, ip.v4, ip.v6)),
            _ => None,
        },
    }
}

/// The resources, behind which nothing stands (RFC 6487 sections 4.8.10 and 4.8.11).
#[tactic(auto, unfolding(crate::specs::Holdings::held, crate::specs::Holdings::held_in))]
pub fn held(alloc: Global, part: Part<'_>) -> Result<Held, ShapeFault>
    ensures { GivesUnlessMemory held_value result (held.read (place part.entry)) }
{
    let (ip, asn) = both(alloc, part)?;
    match joined(alloc, ip, asn) {
        Some(held) => Ok(held),
        None => Err(part.fault()),
    }
}

/// Whether no AS number is held but the issuer's (RFC 6487 section 4.8.11).
pub fn has_no_numbers(held: &Held) -> bool
    ensures { result ≡ has_no_numbers (held_value held.now) }
{
    match held {
        Held::Inherit => true,
        Held::Set { resources } => is_empty(&resources.asn),
    }
}

/// The resources of an end-entity (RFC 9582 section 5).
#[tactic(auto, unfolding(crate::specs::Holdings::entity_held))]
pub fn entity_held(alloc: Global, part: Part<'_>) -> Result<Held, ShapeFault>
    ensures { GivesUnlessMemory held_value result (entity_held.read (place part.entry)) }
{
    let held = held(alloc, part)?;
    if has_no_numbers(&held) {
        Ok(held)
    } else {
        Err(part.fault())
    }
}
