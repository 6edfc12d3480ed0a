//! Lines read from their tokens, where each member is a text or a list of origins in good form.

ghost use Rattle.std.specs.Prelude.{◌≡◌, ◌≤◌, ◌∷◌, ℕ, List, length, Some, IfOk, IfSome, IsTrue};
ghost use Rattle.json.specs.Token.{string as string_token};
ghost use Rattle.serde_json.specs.Data.{Data, object, Items, Members, put};
ghost use Rattle.serde_json.specs.Read.{read};
ghost use Rattle.origins.specs.Origin.{SpellsOrigin};
ghost use Rattle.json_api.specs.Line.{Says, AreOriginTexts};
ghost use Rattle.json_api.specs.inner.Slots.{slot_at};
ghost use Rattle.json_api.specs.Names.{kind_of};
ghost use Rattle.json_api.specs.inner.Passes.{ReadsValue, ReadsItems, ReadsMembers, AreMembers, Fills};

use crate::fields::{Field, Kind, Row};
use crate::plain::PlainReader;
use crate::slots::{Slot, Slots};
use crate::values::origin_of;
use authority_book::OriginList;
use names::Name;
use origins::Origin;
use std::alloc::{AllocError, Global};

/// Fills the slots of a line whose members are all fields, each plainly a text or a list of origins in
/// good form, and says whether the text is such a line.
pub(crate) fn read_slots(alloc: Global, text: &str, slots: &mut Slots) -> Result<bool, AllocError>
    requires absent { (f : Field) → slot_at slots.old f ≡ Slot.Absent }
    ensures { IfOk result (λ good. IsTrue good
        → (ms : Members) × (read text.now ≡ Some (object ms)) × AreMembers ms slots.new) }
{
    let mut reader = PlainReader::new(text);
    if !reader.begins_object() {
        return Ok(false);
    }
    if !read_members(alloc, &mut reader, slots)? {
        return Ok(false);
    }
    Ok(reader.is_over())
}

fn read_members(
    alloc: Global,
    reader: &mut PlainReader<'_>,
    slots: &mut Slots,
) -> Result<bool, AllocError>
    requires absent { (f : Field) → slot_at slots.old f ≡ Slot.Absent }
    ensures { IfOk result (λ good. IsTrue good
        → (ms : Members) × ReadsMembers reader.old ms reader.new × AreMembers ms slots.new) }
{
    'members: loop {
        if reader.ends_object() {
            return Ok(true);
        }
        let Some(name) = reader.next_key() else {
            return Ok(false);
        };
        if !read_member(alloc, reader, name, slots)? {
            return Ok(false);
        }
    }
}

// Fills the slot of the field of that name, and says whether there is one and its value is plainly in good
// form.
fn read_member(
    alloc: Global,
    reader: &mut PlainReader<'_>,
    name: &str,
    slots: &mut Slots,
) -> Result<bool, AllocError>
    ensures good { IfOk result (λ good. IsTrue good
        → (d : Data) × ReadsValue reader.old d reader.new
        × ((ms : Members) → AreMembers ms slots.old → AreMembers (put name.now d ms) slots.new)) }
    ensures shorter { length reader.new ≤ length reader.old }
{
    let Some(field) = Field::named(name) else {
        return Ok(false);
    };
    fill(alloc, reader, field, slots)
}

// Fills the field's slot where the next value is plainly a text or a list in its grammar, and says whether
// it did.
fn fill(
    alloc: Global,
    reader: &mut PlainReader<'_>,
    field: Field,
    slots: &mut Slots,
) -> Result<bool, AllocError>
    ensures good { IfOk result (λ good. IsTrue good
        → Fills field reader.old reader.new slots.old slots.new) }
    ensures shorter { length reader.new ≤ length reader.old }
{
    match field.kind() {
        Kind::Row => Ok(fill_row(reader, field, slots)),
        Kind::Name => Ok(fill_name(reader, field, slots)),
        Kind::Origins => fill_origins(alloc, reader, field, slots),
        Kind::Number | Kind::Serial | Kind::Looks | Kind::Resources => Ok(false),
    }
}

// Fills the field's slot where the next value is plainly a row's command, and says whether it did.
fn fill_row(reader: &mut PlainReader<'_>, field: Field, slots: &mut Slots) -> bool
    requires kind { kind_of field ≡ Kind.Row }
    ensures good { IsTrue result → Fills field reader.old reader.new slots.old slots.new }
    ensures shorter { length reader.new ≤ length reader.old }
{
    let Some(row) = take_row(reader) else {
        return false;
    };
    slots.set(field, Slot::Row(row));
    true
}

// Fills the field's slot where the next value is plainly a name, and says whether it did.
fn fill_name(reader: &mut PlainReader<'_>, field: Field, slots: &mut Slots) -> bool
    requires kind { kind_of field ≡ Kind.Name }
    ensures good { IsTrue result → Fills field reader.old reader.new slots.old slots.new }
    ensures shorter { length reader.new ≤ length reader.old }
{
    let Some(name) = take_name(reader) else {
        return false;
    };
    slots.set(field, Slot::Name(name));
    true
}

// Fills the field's slot where the next value is plainly a list of origins, and says whether it did.
fn fill_origins(
    alloc: Global,
    reader: &mut PlainReader<'_>,
    field: Field,
    slots: &mut Slots,
) -> Result<bool, AllocError>
    requires kind { kind_of field ≡ Kind.Origins }
    ensures good { IfOk result (λ good. IsTrue good
        → Fills field reader.old reader.new slots.old slots.new) }
    ensures shorter { length reader.new ≤ length reader.old }
{
    if !reader.begins_list() {
        return Ok(false);
    }
    let Some(origins) = take_items(alloc, reader)? else {
        return Ok(false);
    };
    slots.set(field, Slot::Origins(OriginList::new(alloc, origins)?));
    Ok(true)
}

fn take_row(reader: &mut PlainReader<'_>) -> Option<Row>
    ensures good { IfSome result
        (λ row. (d : Data) × ReadsValue reader.old d reader.new × Says Kind.Row d (Slot.Row row)) }
    ensures shorter { length reader.new ≤ length reader.old }
{
    let text = reader.next_text()?;
    Row::named(text)
}

fn take_name(reader: &mut PlainReader<'_>) -> Option<Name>
    ensures good { IfSome result
        (λ name. (d : Data) × ReadsValue reader.old d reader.new × Says Kind.Name d (Slot.Name name)) }
    ensures shorter { length reader.new ≤ length reader.old }
{
    let text = reader.next_text()?;
    Name::read(text)
}

fn take_items(
    alloc: Global,
    reader: &mut PlainReader<'_>,
) -> Result<Option<Vec<Origin>>, AllocError>
    ensures good { IfOk result (λ found. IfSome found
        (λ origins. (ds : Items) × ReadsItems reader.old ds reader.new
        × AreOriginTexts ds origins.items)) }
    ensures shorter { length reader.new ≤ length reader.old }
{
    let mut origins = Vec::new(alloc);
    'items: while !reader.ends_list() {
        let Some(origin) = take_origin(reader) else {
            return Ok(None);
        };
        origins.push(origin)?;
    }
    Ok(Some(origins))
}

// The origin whose text the next value is.
fn take_origin(reader: &mut PlainReader<'_>) -> Option<Origin>
    ensures good { IfSome result (λ origin. (text : List ℕ)
        × (reader.old ≡ string_token text ∷ reader.new) × SpellsOrigin text origin) }
    ensures shorter { length reader.new ≤ length reader.old }
{
    match reader.next_text() {
        Some(text) => origin_of(text),
        None => None,
    }
}
