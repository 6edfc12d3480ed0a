//! What a line's members hold, field by field (RFC 8259 section 4).

ghost use Rattle.std.specs.Prelude.{◌≡◌, ◌≢◌, [], ℕ, ◌<◌, Err, Some, None, slice_set, get_or, length};
ghost use Rattle.json_api.specs.Names.{name_of, place_of, field_named};
ghost use Rattle.json_api.specs.Rows.{as_row, held_or, of_field};
ghost use Rattle.json_api.specs.inner.Slots.{slot_at, is_taken, are_taken, is_taken_some};
ghost use Rattle.json_api.specs.declared.line.LineFault.TheVariants.{BadField, Memory};

use crate::fields::{FIELDS, Field, Kind, Row};
use crate::line::{LineFault, MemberName};
use authority_book::OriginList;
use names::Name;
use res_sets::Resources;
use std::alloc::Global;
use std::marker::Model;
use std::mem;

/// What a member is of which the last value counts.
#[derive(Drop)]
pub enum Slot {
    /// It is left out.
    Absent,
    /// Its value is outside its grammar.
    Bad,
    Row(Row),
    Name(Name),
    Number(u32),
    Serial(u64),
    Looks(u64),
    Resources(Resources),
    Origins(OriginList),
}

/// A slot for each field.
#[derive(Drop)]
pub(crate) struct Slots {
    items: [Slot; 10],
}

impl Model for Slots {
    ghost use Rattle.std.specs.Prelude.{◌≡◌, List, length};
    ghost use Rattle.json_api.specs.declared.slots.Slot.{Slot};

    ghost Value = { List Slot };

    ghost view = { λ slots. slots.items };

    ghost invariant = { λ slots. length slots.items ≡ 10 };
}

impl Slots {
    /// The slots of no member.
    pub(crate) fn absent() -> Slots
        ensures { (f : Field) → slot_at result f ≡ Slot.Absent }
    {
        Slots {
            items: [
                Slot::Absent,
                Slot::Absent,
                Slot::Absent,
                Slot::Absent,
                Slot::Absent,
                Slot::Absent,
                Slot::Absent,
                Slot::Absent,
                Slot::Absent,
                Slot::Absent,
            ],
        }
    }

    /// Leaves the slots of no member.
    pub(crate) fn clear(&mut self)
        ensures { (f : Field) → slot_at self.new f ≡ Slot.Absent }
    {
        for place in 0..FIELDS.len() {
            self.vacate(place);
        }
    }

    // Leaves the slot of no member at that place.
    fn vacate(&mut self, place: usize)
        requires { place < 10 }
        ensures here { get_or self.new place Slot.Absent ≡ Slot.Absent }
        ensures others { (p : ℕ) → get_or self.old p Slot.Absent ≡ Slot.Absent
            → get_or self.new p Slot.Absent ≡ Slot.Absent }
    {
        if !matches!(self.items[place], Slot::Absent) {
            self.items[place] = Slot::Absent;
        }
    }

    pub(crate) fn set(&mut self, field: Field, slot: Slot)
        ensures new { self.new ≡ slice_set self.old (place_of field) slot }
        ensures here { slot_at self.new field ≡ slot }
    {
        self.items[field.place()] = slot;
    }

    pub(crate) fn get(&self, field: Field) -> &Slot
        ensures { result.now ≡ slot_at self.now field }
    {
        &self.items[field.place()]
    }

    // Takes a slot out, and leaves the slot of no member.
    fn take(&mut self, field: Field) -> Slot
        ensures slot { result ≡ slot_at self.old field }
        ensures left { self.new ≡ slice_set self.old (place_of field) Slot.Absent }
    {
        mem::replace(&mut self.items[field.place()], Slot::Absent)
    }

    /// The row that `command` names.
    pub(crate) fn row(&self) -> Option<Row>
        ensures { result ≡ as_row (slot_at self.now Field.Command) }
    {
        match self.get(Field::Command) {
            Slot::Row(row) => Some(*row),
            _ => None,
        }
    }

    /// Takes the name that the field has.
    pub(crate) fn name(&mut self, field: Field) -> Result<Name, LineFault>
        ensures value { result ≡ of_field field (held_or Kind.Name None (slot_at self.old field)) }
        ensures left { self.new ≡ slice_set self.old (place_of field) Slot.Absent }
    {
        match self.take(field) {
            Slot::Name(name) => Ok(name),
            _ => Err(bad_field(field)),
        }
    }

    /// Takes the number that the field has, or the default where it is left out.
    pub(crate) fn number_or(&mut self, field: Field, default: u32) -> Result<u32, LineFault>
        ensures value { result
            ≡ of_field field (held_or Kind.Number (Some default) (slot_at self.old field)) }
        ensures left { self.new ≡ slice_set self.old (place_of field) Slot.Absent }
    {
        match self.take(field) {
            Slot::Absent => Ok(default),
            Slot::Number(n) => Ok(n),
            _ => Err(bad_field(field)),
        }
    }

    /// Takes the serial that the field has.
    pub(crate) fn serial(&mut self, field: Field) -> Result<u64, LineFault>
        ensures value { result ≡ of_field field (held_or Kind.Serial None (slot_at self.old field)) }
        ensures left { self.new ≡ slice_set self.old (place_of field) Slot.Absent }
    {
        match self.take(field) {
            Slot::Serial(serial) => Ok(serial),
            _ => Err(bad_field(field)),
        }
    }

    /// Takes how often is looked, or the default where the field is left out.
    pub(crate) fn looks_or(&mut self, field: Field, otherwise: u64) -> Result<u64, LineFault>
        ensures value { result
            ≡ of_field field (held_or Kind.Looks (Some otherwise) (slot_at self.old field)) }
        ensures left { self.new ≡ slice_set self.old (place_of field) Slot.Absent }
    {
        match self.take(field) {
            Slot::Absent => Ok(otherwise),
            Slot::Looks(looks) => Ok(looks),
            _ => Err(bad_field(field)),
        }
    }

    /// Takes the resources that the field has.
    pub(crate) fn resources(&mut self, field: Field) -> Result<Resources, LineFault>
        ensures value { result
            ≡ of_field field (held_or Kind.Resources None (slot_at self.old field)) }
        ensures left { self.new ≡ slice_set self.old (place_of field) Slot.Absent }
    {
        match self.take(field) {
            Slot::Resources(held) => Ok(held),
            _ => Err(bad_field(field)),
        }
    }

    /// Takes the origins that the field has, of which there are none where it is left out.
    pub(crate) fn origins(&mut self, alloc: Global, field: Field) -> Result<OriginList, LineFault>
        ensures value { result ≢ Err Memory
            → result ≡ of_field field (held_or Kind.Origins (Some []) (slot_at self.old field)) }
        ensures left { self.new ≡ slice_set self.old (place_of field) Slot.Absent }
    {
        match self.take(field) {
            Slot::Absent => Ok(OriginList::new(alloc, Vec::new(alloc))?),
            Slot::Origins(origins) => Ok(origins),
            _ => Err(bad_field(field)),
        }
    }

    // Whether the field is `command`, or nothing is left of it.
    fn is_taken(&self, field: Field) -> bool
        ensures { result ≡ is_taken self.now field }
    {
        field.place() == Field::Command.place() || matches!(self.get(field), Slot::Absent)
    }

    /// Whether no member is left but `command`.
    pub(crate) fn are_taken(&self) -> bool
        ensures { result ≡ are_taken self.now }
    {
        FIELDS.iter().all(|field| self.is_taken(*field))
    }

    /// Whether nothing is left of the member of that name.
    pub(crate) fn is_name_taken(&self, name: &str) -> bool
        ensures { result ≡ is_taken_some self.now (field_named name.now) }
    {
        match Field::named(name) {
            Some(field) => self.is_taken(field),
            None => false,
        }
    }
}

fn bad_field(field: Field) -> LineFault
    ensures { result ≡ BadField (name_of field) }
{
    LineFault::BadField {
        name: MemberName::of(field),
    }
}
