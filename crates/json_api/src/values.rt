//! What values of `serde_json` say as members of a line (RFC 8259 section 3).

ghost use Rattle.std.specs.Prelude.{◌≡◌, ◌<◌, ◌^◌, ℕ, List, IfOk, MatchOption, MatchResult, Some, None, option_map, option_and_then, true, IsSomeAnd, string_bytes, IsTrue, ◌↔◌};
ghost use Rattle.std.specs.BTreeMap.{keys};
ghost use Rattle.std.specs.List.{list_all};
ghost use Rattle.serde_json.specs.Find.{get, as_str, as_u64, as_number, as_object, as_array};
ghost use Rattle.serde_json.specs.View.{view, items_view, members_view};
ghost use Rattle.names.specs.Name.{IsName};
ghost use Rattle.res_sets.specs.Sets.{RangeSet};
ghost use Rattle.res_sets.specs.declared.holdings.Resources.{Resources};
ghost use Rattle.origins.specs.declared.Origin.{Origin};
ghost use Rattle.origins.specs.Origin.{SpellsOrigin};
ghost use Rattle.json_api.specs.Names.{name_of, kind_of};
ghost use Rattle.json_api.specs.inner.Slots.{slot_at, first_left};
ghost use Rattle.json_api.specs.Line.{Tells, AreSlots, AreResources, IsSetText, is_set_name, all_names, IsOriginText, AreOriginTexts};

use crate::fields::{FIELDS, Field, Kind, Row};
use crate::line::MemberName;
use crate::slots::{Slot, Slots};
use authority_book::OriginList;
use names::Name;
use origins::{Origin, read_origin};
use res_sets::{Family, Ranges, Resources, TextFault, reads_texts_once};
use serde_json::{Map, Value};
use std::alloc::{AllocError, Global};

/// The slots of a line's members.
pub(crate) fn slots_of(alloc: Global, line: &Value) -> Result<Slots, AllocError>
    ensures { IfOk result (λ slots. AreSlots (view line.now) (slot_at slots)) }
{
    let mut slots = Slots::absent();
    for field in &FIELDS {
        slots.set(*field, slot_of(alloc, line, *field)?);
    }
    Ok(slots)
}

fn slot_of(alloc: Global, line: &Value, field: Field) -> Result<Slot, AllocError>
    ensures { IfOk result (Tells (kind_of field) (get (name_of field) (view line.now))) }
{
    match line.get(field.name()) {
        Some(value) => told(alloc, value, field.kind()),
        None => Ok(Slot::Absent),
    }
}

fn told(alloc: Global, value: &Value, kind: Kind) -> Result<Slot, AllocError>
    ensures { IfOk result (Tells kind (Some (view value.now))) }
{
    match kind {
        Kind::Row => Ok(row_told(value)),
        Kind::Name => Ok(name_told(value)),
        Kind::Number => Ok(number_told(value)),
        Kind::Serial => Ok(serial_told(value)),
        Kind::Looks => Ok(looks_told(value)),
        Kind::Resources => resources_told(alloc, value),
        Kind::Origins => origins_told(alloc, value),
    }
}

fn row_told(value: &Value) -> Slot
    ensures { Tells Kind.Row (Some (view value.now)) result }
{
    let Some(text) = value.as_str() else {
        return Slot::Bad;
    };
    match Row::named(text) {
        Some(row) => Slot::Row(row),
        None => Slot::Bad,
    }
}

fn name_told(value: &Value) -> Slot
    ensures { Tells Kind.Name (Some (view value.now)) result }
{
    let Some(text) = value.as_str() else {
        return Slot::Bad;
    };
    match Name::read(text) {
        Some(name) => Slot::Name(name),
        None => Slot::Bad,
    }
}

fn number_told(value: &Value) -> Slot
    ensures { Tells Kind.Number (Some (view value.now)) result }
{
    let Some(number) = value.as_u64() else {
        return Slot::Bad;
    };
    match u32::try_from(number) {
        Ok(small) => Slot::Number(small),
        Err(_) => Slot::Bad,
    }
}

fn serial_told(value: &Value) -> Slot
    ensures { Tells Kind.Serial (Some (view value.now)) result }
{
    match value.as_u64() {
        Some(serial) => Slot::Serial(serial),
        None => Slot::Bad,
    }
}

// How often is looked at most.
const MOST_LOOKS: u64 = 1_000_000_000;

fn looks_told(value: &Value) -> Slot
    ensures { Tells Kind.Looks (Some (view value.now)) result }
{
    match value.as_u64() {
        Some(looks) if looks >= 1 && looks <= MOST_LOOKS => Slot::Looks(looks),
        _ => Slot::Bad,
    }
}

fn resources_told(alloc: Global, value: &Value) -> Result<Slot, AllocError>
    ensures { IfOk result (Tells Kind.Resources (Some (view value.now))) }
{
    match read_resources(alloc, value)? {
        Some(held) => Ok(Slot::Resources(held)),
        None => Ok(Slot::Bad),
    }
}

fn read_resources(alloc: Global, value: &Value) -> Result<Option<Resources>, AllocError>
    ensures { IfOk result (λ found. MatchOption found
        ((held : Resources) → ¬ AreResources (view value.now) held)
        (AreResources (view value.now))) }
{
    if !has_set_names_alone(value) {
        return Ok(None);
    }
    let Some(asn) = read_set(alloc, Family::Asn, value.get("asn"))? else {
        return Ok(None);
    };
    let Some(v4) = read_set(alloc, Family::V4, value.get("ipv4"))? else {
        return Ok(None);
    };
    let Some(v6) = read_set(alloc, Family::V6, value.get("ipv6"))? else {
        return Ok(None);
    };
    Ok(Some(Resources { asn, v4, v6 }))
}

fn has_set_names_alone(value: &Value) -> bool
    ensures { IsTrue result
        ↔ IsSomeAnd (as_object (view value.now)) (λ members. all_names is_set_name members ≡ true) }
{
    match value.as_object() {
        Some(members) => have_set_names(members),
        None => false,
    }
}

fn have_set_names(members: &Map<String, Value>) -> bool
    ensures { result ≡ list_all (λ name. is_set_name (string_bytes name)) (keys members.now) }
{
    members.keys().all(|name| is_set_name(name))
}

fn is_set_name(name: &str) -> bool
    ensures { result ≡ is_set_name name.now }
{
    name == "asn" || name == "ipv4" || name == "ipv6"
}

// The set whose text this is, which is empty where the text is left out.
fn read_set(
    alloc: Global,
    family: Family,
    found: Option<&Value>,
) -> Result<Option<Ranges>, AllocError>
    ensures { IfOk result (λ read. MatchOption read
        ((set : RangeSet) → ¬ IsSetText family (option_map (λ value. view value.now) found.entry) set)
        (λ set. IsSetText family (option_map (λ value. view value.now) found.entry) set
        × (set.family ≡ family))) }
{
    let Some(value) = found else {
        return Ok(Some(Ranges::empty(alloc, family)));
    };
    let Some(text) = value.as_str() else {
        return Ok(None);
    };
    match Ranges::read_text(alloc, family, text) {
        Ok(set) => Ok(Some(set)),
        Err(TextFault::Memory) => Err(AllocError),
        Err(_) => {
            // A text with a faulty block spells no set.
            reads_texts_once();
            Ok(None)
        }
    }
}

fn origins_told(alloc: Global, value: &Value) -> Result<Slot, AllocError>
    ensures { IfOk result (Tells Kind.Origins (Some (view value.now))) }
{
    let Some(items) = value.as_array() else {
        return Ok(Slot::Bad);
    };
    match read_items(alloc, items)? {
        Some(origins) => Ok(Slot::Origins(OriginList::new(alloc, origins)?)),
        None => Ok(Slot::Bad),
    }
}

fn read_items(alloc: Global, items: &[Value]) -> Result<Option<Vec<Origin>>, AllocError>
    ensures { IfOk result (λ found. MatchOption found
        ((origins : List Origin) → ¬ AreOriginTexts (items_view items.now) origins)
        (λ origins. AreOriginTexts (items_view items.now) origins.items)) }
{
    let mut origins = Vec::with_capacity(alloc, items.len())?;
    for item in items {
        let Some(origin) = read_item(item) else {
            return Ok(None);
        };
        origins.push(origin)?;
    }
    Ok(Some(origins))
}

fn read_item(item: &Value) -> Option<Origin>
    ensures { MatchOption result ((origin : Origin) → ¬ IsOriginText (view item.now) origin)
        (IsOriginText (view item.now)) }
{
    match item.as_str() {
        Some(text) => origin_of(text),
        None => None,
    }
}

pub(crate) fn origin_of(text: &str) -> Option<Origin>
    ensures { MatchOption result ((origin : Origin) → ¬ SpellsOrigin text.now origin)
        (SpellsOrigin text.now) }
{
    match read_origin(text) {
        Ok(origin) => Some(origin),
        Err(_) => None,
    }
}

/// The first member in byte order that is left in the slots, or that has none.
pub(crate) fn first_left(
    alloc: Global,
    members: &Map<String, Value>,
    left: &Slots,
) -> Result<Option<MemberName>, AllocError>
    ensures { IfOk result (λ other. other ≡ first_left left.now (members_view members.now.entries)) }
{
    for (name, _) in members.iter() {
        if !left.is_name_taken(name) {
            return Ok(Some(MemberName::copied(alloc, name)?));
        }
    }
    Ok(None)
}
