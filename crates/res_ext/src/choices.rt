//! What stands for a family: that its numbers are the issuer's, or which they are (RFC 3779
//! sections 2.2.3.4 and 3.2.3.2).

ghost use Rattle.std.specs.Prelude.{◌≡◌, Option, map, IfOk, IfSome};
ghost use Rattle.std.specs.Option.{option_map};
ghost use Rattle.der.specs.Part.{place};
ghost use Rattle.der.specs.Outcome.{GivesUnlessMemory};
ghost use Rattle.res_ext.specs.Formats.{choice, has_numbers, family_bytes, part as part_form};
ghost use Rattle.res_ext.specs.Views.{choice_view};

use crate::blocks::blocks;
use der::tags::{NULL, OCTET_STRING, SEQUENCE};
use der::{Part, ShapeFault, constant};
use res_sets::{Family, Ranges};
use std::alloc::Global;

/// What stands for a family: None where its numbers are the issuer's (RFC 3779 sections 2.2.3.4 and
/// 3.2.3.2).
#[tactic(auto, unfolding(crate::specs::Formats::choice))]
pub fn choice(alloc: Global, family: Family, part: Part<'_>) -> Result<Option<Ranges>, ShapeFault>
    ensures read { GivesUnlessMemory choice_view result ((choice family).read (place part.entry)) }
    ensures family { IfOk result (λ o. IfSome o (λ set. set.family ≡ family)) }
{
    if part.begins(NULL) {
        let (content, rest) = part.open(NULL)?;
        content.end()?;
        rest.end()?;
        return Ok(None);
    }
    let (content, rest) = part.open(SEQUENCE)?;
    let set = blocks(alloc, family, content)?;
    rest.end()?;
    Ok(Some(set))
}

/// The number of a family of addresses (RFC 3779 section 2.2.3.3).
pub fn family_number(family: Family) -> &'static [u8]
    ensures { result.now ≡ family_bytes family }
{
    match family {
        Family::Asn => b"",
        Family::V4 => b"\x00\x01",
        Family::V6 => b"\x00\x02",
    }
}

/// Whether the issuer's numbers stand there, or at least one.
fn has_numbers(choice: &Option<Ranges>) -> bool
    ensures { result ≡ has_numbers (choice_view choice.now) }
{
    match choice {
        None => true,
        Some(set) => !set.is_empty(),
    }
}

/// A family of addresses: its number, and what stands for it (RFC 3779 section 2.2.3.2).
#[tactic(auto, unfolding(crate::specs::Formats::part))]
pub fn family_part<'a>(
    alloc: Global,
    family: Family,
    part: Part<'a>,
) -> Result<(Option<Ranges>, Part<'a>), ShapeFault>
    ensures read { GivesUnlessMemory (λ x. (choice_view x.0, place x.1)) result ((part_form family).read (place part.entry)) }
    ensures family { IfOk result (λ x. IfSome x.0 (λ set. set.family ≡ family)) }
{
    let (content, rest) = part.open(SEQUENCE)?;
    let content = constant(content, OCTET_STRING, family_number(family))?;
    let choice = choice(alloc, family, content)?;
    if has_numbers(&choice) {
        Ok((choice, rest))
    } else {
        Err(content.fault())
    }
}
