//! Families of addresses and their entries (RFC 9582 sections 4.3 and 4.3.1).

ghost use Rattle.std.specs.Prelude.{◌≡◌, ◌≤◌, ◌++◌, false, length, map, OnOk};
ghost use Rattle.std.specs.List.{flat_map};
ghost use Rattle.der.specs.Part.{place};
ghost use Rattle.der.specs.Outcome.{Gives, GivesUnlessMemory};
ghost use Rattle.der.specs.Forms.{both, maybe, only};
ghost use Rattle.der.specs.laws.ListLaws.{front-moves};
ghost use Rattle.payloads.specs.RoaFormats.{Entry, entry_view, entry, family_bytes, family_in, family_number, family, families_of, leading_v4, blocks, placed_entries, placed_entry, placed_view, placed_blocks};
ghost use Rattle.payloads.specs.laws.EntryLaws.{entry-law};

use crate::entries::{entry, push_entry};
use crate::values::RoaEntry;
use der::tags::{OCTET_STRING, SEQUENCE};
use der::{FrontReader, Part, Placed, ShapeFault, are_same, many};
use std::alloc::{AllocError, Global};

/// Reads entries of one family.
#[derive(Clone, Copy)]
struct Entries {
    v6: bool,
}

impl FrontReader for Entries {
    type Item = RoaEntry;

    ghost Meaning = { Entry };

    ghost view = { λ e. entry_view e };

    ghost format = { λ reader. entry reader.v6 };

    fn read_front<'a>(
        &self,
        _alloc: Global,
        part: Part<'a>,
    ) -> Result<(RoaEntry, Part<'a>), ShapeFault> {
        entry(self.v6, part)
    }

    ghost moves = { λ reader. front-moves (entry reader.v6) (entry-law reader.v6) };
}

/// Whether the number is that of IPv6, and not that of IPv4.
fn family_in(bytes: &[u8]) -> Option<bool>
    ensures { result ≡ family_in bytes.now }
{
    if are_same(bytes, &[0, 1]) {
        Some(false)
    } else if are_same(bytes, &[0, 2]) {
        Some(true)
    } else {
        None
    }
}

/// The family whose number stands in front.
fn family_number(part: Part<'_>) -> Result<(bool, Part<'_>), ShapeFault>
    ensures { Gives (λ x. (x.0, place x.1)) result (family_number.read (place part.entry)) }
{
    let (content, rest) = part.open(OCTET_STRING)?;
    match family_in(content.bytes) {
        Some(v6) => Ok((v6, rest)),
        None => Err(content.fault()),
    }
}

/// The entries of a family, with their places. There is one at least.
fn entries_of(alloc: Global, v6: bool, part: Part<'_>) -> Result<Vec<(u64, RoaEntry)>, ShapeFault>
    ensures { GivesUnlessMemory (λ v. map placed_view v.items)
        result ((placed_entries v6).read (place part.entry)) }
{
    let entries = many(alloc, &Placed(Entries { v6 }), part)?;
    if entries.is_empty() {
        Err(part.fault())
    } else {
        Ok(entries)
    }
}

/// A family's entries, with their places.
#[derive(Drop)]
struct FamilyEntries {
    v6: bool,
    entries: Vec<(u64, RoaEntry)>,
}

/// A family, and what stands behind it.
#[tactic(auto, unfolding(crate::specs::RoaFormats::family))]
fn family(alloc: Global, part: Part<'_>) -> Result<(FamilyEntries, Part<'_>), ShapeFault>
    ensures { GivesUnlessMemory (λ x. ((x.0.v6, map placed_view x.0.entries.items), place x.1))
        result ((family placed_entry).read (place part.entry)) }
{
    let (content, rest) = part.open(SEQUENCE)?;
    let (v6, content) = family_number(content)?;
    let entries = entries_of(alloc, v6, content.sole(SEQUENCE)?)?;
    Ok((FamilyEntries { v6, entries }, rest))
}

/// The entries of one family or of both, with their places (RFC 9582 section 4.3). A place is the
/// offset in bytes of the entry in the body.
#[tactic(auto, unfolding(crate::specs::RoaFormats::blocks))]
pub fn blocks(alloc: Global, part: Part<'_>) -> Result<Vec<(u64, RoaEntry)>, ShapeFault>
    ensures { GivesUnlessMemory (λ v. map placed_view v.items)
        result (placed_blocks.read (place part.entry)) }
{
    let (first, rest) = family(alloc, part)?;
    if rest.is_empty() {
        return Ok(first.entries);
    }
    let (mut second, end) = family(alloc, rest)?;
    end.end()?;
    if first.v6 || !second.v6 {
        return Err(part.fault());
    }
    let mut entries = first.entries;
    entries.append(&mut second.entries)?;
    Ok(entries)
}

/// How many entries of IPv4 stand in front (RFC 9582 section 4.3.3).
pub fn leading_v4(entries: &[RoaEntry]) -> usize
    ensures within { result ≤ length entries.now }
    ensures count { result ≡ leading_v4 (λ e. e.v6) (map entry_view entries.now) }
{
    let mut count = 0;
    for entry in entries {
        if entry.prefix.v6 {
            return count;
        }
        count += 1;
    }
    count
}

/// Appends entries.
fn push_entries(alloc: Global, out: &mut Vec<u8>, entries: &[RoaEntry]) -> Result<(), AllocError>
    ensures { OnOk result (out.new.items ≡ out.old.items
        ++ flat_map (entry false).spelling (map entry_view entries.now)) }
{
    for entry in entries {
        push_entry(alloc, out, entry)?;
    }
    Ok(())
}

/// The number of the family.
fn family_bytes(v6: bool) -> [u8; 2]
    ensures { result ≡ family_bytes v6 }
{
    if v6 { [0, 2] } else { [0, 1] }
}

/// Appends a family with those entries.
#[tactic(auto, using(std::proofs::Common::append_assoc), unfolding(crate::specs::RoaFormats::family))]
fn push_family(
    alloc: Global,
    out: &mut Vec<u8>,
    v6: bool,
    entries: &[RoaEntry],
) -> Result<(), AllocError>
    ensures { OnOk result (out.new.items ≡ out.old.items
        ++ (family entry).spelling (v6, map entry_view entries.now)) }
{
    let from = out.len();
    der::element(alloc, out, OCTET_STRING, &family_bytes(v6))?;
    let list = out.len();
    push_entries(alloc, out, entries)?;
    der::enclose(alloc, out, list, SEQUENCE)?;
    der::enclose(alloc, out, from, SEQUENCE)
}

/// Appends the families that have entries (RFC 9582 section 4.3).
pub fn push_families(
    alloc: Global,
    out: &mut Vec<u8>,
    v4: &[RoaEntry],
    v6: &[RoaEntry],
) -> Result<(), AllocError>
    ensures { OnOk result (out.new.items ≡ out.old.items
        ++ (both (family entry) (maybe (only (family entry)))).spelling
        (families_of (map entry_view v4.now) (map entry_view v6.now))) }
{
    if v6.is_empty() {
        return push_family(alloc, out, false, v4);
    }
    if v4.is_empty() {
        return push_family(alloc, out, true, v6);
    }
    push_family(alloc, out, false, v4)?;
    push_family(alloc, out, true, v6)
}
