//! Writers of the extensions (RFC 3779 sections 2.2.3 and 3.2.3).

ghost use Rattle.std.specs.Prelude.{◌≡◌, ◌<◌, ◌-◌, ◌^◌, ◌++◌, Some, None, map, OnOk};
ghost use Rattle.der.specs.Tags as tag;
ghost use Rattle.der.specs.Spelling.{spelled};
ghost use Rattle.der.specs.Forms.{AreAll, many as many_form, spelled_some};
ghost use Rattle.res_sets.specs.declared.numbers.Family.TheVariants.{Asn, V4, V6};
ghost use Rattle.res_ext.specs.Prefixes.{IsAddressSize, kept, span_length};
ghost use Rattle.res_ext.specs.Formats.{span_of, as_ends, as_block, leading, address_ends, address_block, block, blocks, part as part_form, listed_spans, as_identifiers, ip_blocks};
ghost use Rattle.res_ext.specs.Views.{set_view};
ghost use Rattle.res_ext.specs.laws.Written.{IsWithin};

use crate::blocks::span_length;
use crate::choices::family_number;
use crate::leading::{kept_of_first, kept_of_last, push_leading, push_leading_of_last};
use der::tags::{CONTEXT_0, NULL, OCTET_STRING, SEQUENCE};
use res_sets::{Family, Range, Ranges};
use std::alloc::{AllocError, Global};

/// Appends the ends of a range of AS numbers.
#[tactic(auto, using(std::proofs::Common::append_assoc), unfolding(der::specs::Spelling::unsigned_spelling))]
fn push_as_ends(alloc: Global, out: &mut Vec<u8>, range: Range) -> Result<(), AllocError>
    requires { range.last < 2 ^ 32 }
    ensures { OnOk result (out.new.items ≡ out.old.items ++ as_ends.spelling (span_of range)) }
{
    der::unsigned(alloc, out, range.first as u64)?;
    der::unsigned(alloc, out, range.last as u64)
}

/// Appends a block of more than one AS number.
fn push_as_range(alloc: Global, out: &mut Vec<u8>, range: Range) -> Result<(), AllocError>
    requires { range.last < 2 ^ 32 }
    ensures { OnOk result (out.new.items ≡ out.old.items ++ spelled tag.sequence (as_ends.spelling (span_of range))) }
{
    let from = out.len();
    push_as_ends(alloc, out, range)?;
    der::enclose(alloc, out, from, SEQUENCE)
}

/// Appends a block of AS numbers.
#[tactic(auto, unfolding(crate::specs::Formats::as_block, der::specs::Spelling::unsigned_spelling))]
fn push_as_block(alloc: Global, out: &mut Vec<u8>, range: Range) -> Result<(), AllocError>
    requires { range.last < 2 ^ 32 }
    ensures { OnOk result (out.new.items ≡ out.old.items ++ as_block.spelling (span_of range)) }
{
    if range.first == range.last {
        der::unsigned(alloc, out, range.first as u64)
    } else {
        push_as_range(alloc, out, range)
    }
}

/// Appends the first address of a range without its trailing zeros.
fn push_low(alloc: Global, out: &mut Vec<u8>, size: u32, address: u128) -> Result<(), AllocError>
    requires size { IsAddressSize size }
    requires fits { address < 2 ^ size }
    ensures { OnOk result (out.new.items ≡ out.old.items
        ++ (leading size).spelling (kept 0 size address, address)) }
{
    let length = kept_of_first(size, address);
    push_leading(alloc, out, size, length, address)
}

/// Appends the last address of a range without its trailing ones.
fn push_high(alloc: Global, out: &mut Vec<u8>, size: u32, last: u128) -> Result<(), AllocError>
    requires size { IsAddressSize size }
    requires fits { last < 2 ^ size }
    ensures { OnOk result (out.new.items ≡ out.old.items
        ++ (leading size).spelling (kept 1 size last, last - (2 ^ (size - kept 1 size last) - 1))) }
{
    let length = kept_of_last(size, last);
    push_leading_of_last(alloc, out, size, length, last)
}

/// Appends a block of the ends of a range of addresses.
#[tactic(auto, using(std::proofs::Common::append_assoc))]
fn push_ends(alloc: Global, out: &mut Vec<u8>, size: u32, range: Range) -> Result<(), AllocError>
    requires size { IsAddressSize size }
    requires fits { range.last < 2 ^ size }
    ensures { OnOk result (out.new.items ≡ out.old.items
        ++ spelled tag.sequence ((address_ends size).spelling (span_of range))) }
{
    let from = out.len();
    push_low(alloc, out, size, range.first)?;
    push_high(alloc, out, size, range.last)?;
    der::enclose(alloc, out, from, SEQUENCE)
}

/// Appends the prefix that a range of addresses is.
#[tactic(auto, unfolding(crate::specs::Prefixes::leading_spelling, der::specs::Spelling::bits_spelling))]
fn push_prefix(
    alloc: Global,
    out: &mut Vec<u8>,
    size: u32,
    length: u32,
    range: Range,
) -> Result<(), AllocError>
    requires size { IsAddressSize size }
    requires fits { range.last < 2 ^ size }
    requires prefix { span_length size (span_of range) ≡ Some length }
    ensures { OnOk result (out.new.items ≡ out.old.items
        ++ (leading size).spelling (length, range.first)) }
{
    push_leading(alloc, out, size, length, range.first)
}

/// Appends a block of addresses.
#[tactic(auto, unfolding(crate::specs::Formats::address_block))]
fn push_address_block(
    alloc: Global,
    out: &mut Vec<u8>,
    size: u32,
    range: Range,
) -> Result<(), AllocError>
    requires size { IsAddressSize size }
    requires fits { range.last < 2 ^ size }
    ensures { OnOk result (out.new.items ≡ out.old.items ++ (address_block size).spelling (span_of range)) }
{
    match span_length(size, range) {
        Some(length) => push_prefix(alloc, out, size, length, range),
        None => push_ends(alloc, out, size, range),
    }
}

/// Appends a block of a family.
#[tactic(auto, using(crate::specs::laws::Written::is_v4_size, crate::specs::laws::Written::is_v6_size))]
fn push_block(
    alloc: Global,
    out: &mut Vec<u8>,
    family: Family,
    range: Range,
) -> Result<(), AllocError>
    requires { IsWithin family range }
    ensures { OnOk result (out.new.items ≡ out.old.items ++ (block family).spelling (span_of range)) }
{
    match family {
        Family::Asn => push_as_block(alloc, out, range),
        Family::V4 => push_address_block(alloc, out, 32, range),
        Family::V6 => push_address_block(alloc, out, 128, range),
    }
}

/// Appends blocks, one after the other.
fn push_blocks(
    alloc: Global,
    out: &mut Vec<u8>,
    family: Family,
    ranges: &[Range],
) -> Result<(), AllocError>
    requires { AreAll (IsWithin family) ranges.now }
    ensures { OnOk result (out.new.items ≡ out.old.items
        ++ (many_form (block family)).spelling (map span_of ranges.now)) }
{
    let mut rest = ranges;
    while let Some((first, others)) = rest.split_first() {
        push_block(alloc, out, family, *first)?;
        rest = others;
    }
    Ok(())
}

/// Appends the blocks of a set.
#[tactic(auto, using(crate::specs::laws::Written::all_within), unfolding(crate::specs::Formats::blocks))]
fn push_set(alloc: Global, out: &mut Vec<u8>, set: &Ranges) -> Result<(), AllocError>
    ensures { OnOk result (out.new.items ≡ out.old.items
        ++ spelled tag.sequence ((blocks set.now.family).spelling (set_view set.now))) }
{
    let from = out.len();
    push_blocks(alloc, out, set.family(), set.as_slice())?;
    der::enclose(alloc, out, from, SEQUENCE)
}

/// Appends the extension of these AS numbers (RFC 3779 section 3.2.3).
#[tactic(auto, unfolding(crate::specs::Formats::as_content, crate::specs::Formats::choice))]
pub fn push_as_identifiers(alloc: Global, out: &mut Vec<u8>, asn: &Ranges) -> Result<(), AllocError>
    requires { asn.now.family ≡ Asn }
    ensures { OnOk result (out.new.items ≡ out.old.items ++ as_identifiers.spelling (Some (set_view asn.now))) }
{
    let from = out.len();
    push_set(alloc, out, asn)?;
    der::enclose(alloc, out, from, CONTEXT_0)?;
    der::enclose(alloc, out, from, SEQUENCE)
}

/// Appends the extension that says that the AS numbers are the issuer's (RFC 3779 section 3.2.3.3).
#[tactic(auto, unfolding(crate::specs::Formats::as_content, crate::specs::Formats::choice))]
pub fn push_inherited_as(alloc: Global, out: &mut Vec<u8>) -> Result<(), AllocError>
    ensures { OnOk result (out.new.items ≡ out.old.items ++ as_identifiers.spelling None) }
{
    let from = out.len();
    der::element(alloc, out, NULL, &[])?;
    der::enclose(alloc, out, from, CONTEXT_0)?;
    der::enclose(alloc, out, from, SEQUENCE)
}

/// Appends what stands for a set of addresses.
#[tactic(auto, using(std::proofs::Common::append_assoc), unfolding(crate::specs::Formats::part, crate::specs::Formats::choice))]
fn push_family(alloc: Global, out: &mut Vec<u8>, set: &Ranges) -> Result<(), AllocError>
    ensures { OnOk result (out.new.items ≡ out.old.items
        ++ (part_form set.now.family).spelling (Some (set_view set.now))) }
{
    let from = out.len();
    der::element(alloc, out, OCTET_STRING, family_number(set.family()))?;
    push_set(alloc, out, set)?;
    der::enclose(alloc, out, from, SEQUENCE)
}

/// Appends what stands for a family whose addresses are the issuer's.
#[tactic(auto, using(std::proofs::Common::append_assoc), unfolding(crate::specs::Formats::part, crate::specs::Formats::choice))]
fn push_inherited(alloc: Global, out: &mut Vec<u8>, family: Family) -> Result<(), AllocError>
    ensures { OnOk result (out.new.items ≡ out.old.items ++ (part_form family).spelling None) }
{
    let from = out.len();
    der::element(alloc, out, OCTET_STRING, family_number(family))?;
    der::element(alloc, out, NULL, &[])?;
    der::enclose(alloc, out, from, SEQUENCE)
}

/// Appends what stands for a set of addresses: nothing where it is empty.
fn push_listed(alloc: Global, out: &mut Vec<u8>, set: &Ranges) -> Result<(), AllocError>
    ensures { OnOk result (out.new.items ≡ out.old.items
        ++ spelled_some (part_form set.now.family).spelling (listed_spans (set_view set.now))) }
{
    match set.as_slice() {
        [] => Ok(()),
        _ => push_family(alloc, out, set),
    }
}

/// Appends the extension of these addresses (RFC 3779 section 2.2.3).
#[tactic(auto, using(std::proofs::Common::append_assoc, crate::specs::laws::Written::nothing_behind), unfolding(crate::specs::Formats::ip_content))]
pub fn push_ip_blocks(
    alloc: Global,
    out: &mut Vec<u8>,
    v4: &Ranges,
    v6: &Ranges,
) -> Result<(), AllocError>
    requires v4_family { v4.now.family ≡ V4 }
    requires v6_family { v6.now.family ≡ V6 }
    ensures { OnOk result (out.new.items ≡ out.old.items
        ++ ip_blocks.spelling (Some (set_view v4.now, set_view v6.now))) }
{
    let from = out.len();
    push_listed(alloc, out, v4)?;
    push_listed(alloc, out, v6)?;
    der::enclose(alloc, out, from, SEQUENCE)
}

/// Appends the extension that says that the addresses are the issuer's (RFC 3779 section 2.2.3.5).
#[tactic(auto, using(std::proofs::Common::append_assoc, crate::specs::laws::Written::nothing_behind), unfolding(crate::specs::Formats::ip_content))]
pub fn push_inherited_ip(alloc: Global, out: &mut Vec<u8>) -> Result<(), AllocError>
    ensures { OnOk result (out.new.items ≡ out.old.items ++ ip_blocks.spelling None) }
{
    let from = out.len();
    push_inherited(alloc, out, Family::V4)?;
    push_inherited(alloc, out, Family::V6)?;
    der::enclose(alloc, out, from, SEQUENCE)
}
