//! Lines: one JSON object each (RFC 8259 section 4), which gives a command to an authority or asks
//! for something.

ghost use Rattle.std.specs.Prelude.{◌≡◌, ◌≢◌, ℕ, List, Result, IfOk, IfSome, MatchResult, Some, None, Ok, Err};
ghost use Rattle.serde_json.specs.Data.{object, Members};
ghost use Rattle.serde_json.specs.Read.{read};
ghost use Rattle.serde_json.specs.View.{view};
ghost use Rattle.json_api.specs.Names.{name_of};
ghost use Rattle.json_api.specs.inner.Slots.{slot_at};
ghost use Rattle.json_api.specs.inner.Passes.{AreMembers, ReadsText};
ghost use Rattle.json_api.specs.Rows.{as_row};
ghost use Rattle.json_api.specs.Table.{only};
ghost use Rattle.json_api.specs.Line.{ReadsLine, ReadsValue};
ghost use Rattle.json_api.specs.declared.line.LineFault.TheVariants.{Memory};

use crate::fields::{Field, Row};
use crate::slots::{Slot, Slots};
use crate::tokens::read_slots;
use crate::values::{first_left, slots_of};
use authority_book::Command;
use line_loop::LINE_LIMIT;
use names::Name;
use serde_json::Value;
use std::alloc::{AllocError, AllocFailed, Global};
use std::marker::Model;
use thiserror::Error;

/// What a line says.
#[derive(Drop)]
pub enum Line {
    /// A command to the authority of this name.
    Command { name: Name, command: Command },
    /// What was accepted is to be published.
    Publish,
    /// The serial of the last publication is asked for.
    Serial,
    /// The edition of that serial or a later one is waited for, by so many looks at most.
    Await { serial: u64, looks: u64 },
    /// All authorities are asked for.
    List,
    /// An authority's state is asked for.
    Show { name: Name },
    /// An authority's origins are asked for.
    Roas { name: Name },
    /// An authority's commands are asked for.
    History { name: Name },
}

/// The name of a member of a line.
#[derive(Debug, Drop)]
pub struct MemberName {
    text: Text,
}

// A field's name takes no memory.
#[derive(Debug, Drop)]
enum Text {
    Field(Field),
    Other(String),
}

impl Model for MemberName {
    ghost use Rattle.std.specs.Prelude.{ℕ, List};
    ghost use Rattle.json_api.specs.inner.MemberName.{text_of};

    ghost Value = { List ℕ };

    ghost view = { λ name. text_of name.text };
}

impl MemberName {
    pub(crate) fn of(field: Field) -> MemberName
        ensures { result ≡ name_of field }
    {
        MemberName {
            text: Text::Field(field),
        }
    }

    pub(crate) fn copied(alloc: Global, name: &str) -> Result<MemberName, AllocError>
        ensures { IfOk result (λ copy. copy ≡ name.now) }
    {
        Ok(MemberName {
            text: Text::Other(String::from_str(alloc, name)?),
        })
    }

    /// The name's text.
    pub fn as_str(&self) -> &str
        ensures { result.now ≡ self.now }
    {
        match &self.text {
            Text::Field(field) => field.name(),
            Text::Other(text) => text,
        }
    }
}

/// Why a line is not read.
#[derive(Debug, Drop, Error)]
pub enum LineFault {
    /// The line is too long or is no JSON object.
    #[error("not a JSON object")]
    BadLine,
    /// The member `command` is missing, is no text or is no command of the table.
    #[error("not a command of the table")]
    UnknownCommand,
    /// The first field that is missing, of another type or outside its grammar, or else the first
    /// member that the command doesn't have.
    #[error("a field is missing or bad")]
    BadField { name: MemberName },
    #[error("out of memory")]
    Memory,
}

impl From<AllocError> for LineFault {
    ghost use Rattle.json_api.specs.declared.line.LineFault.TheVariants.{Memory};

    ghost from_gives = { λ _ fault. fault ≡ Memory };

    fn from(_wanting: AllocError) -> LineFault {
        LineFault::Memory
    }
}

impl<T: Drop> From<AllocFailed<T>> for LineFault {
    ghost use Rattle.json_api.specs.declared.line.LineFault.TheVariants.{Memory};

    ghost from_gives = { λ _ fault. fault ≡ Memory };

    fn from(_wanting: AllocFailed<T>) -> LineFault {
        LineFault::Memory
    }
}

/// Reads lines one after another, and keeps what a read takes for the next one.
#[derive(Drop)]
pub struct LineReader {
    // What the members of a line hold.
    slots: Slots,
}

// A clause sees nothing of it: what a line means doesn't depend on the lines before.
impl Model for LineReader {
    ghost Value = { Unit {0} };

    ghost view = { λ _. tt };
}

impl LineReader {
    /// A reader that has taken nothing yet.
    pub fn new(_alloc: Global) -> LineReader {
        LineReader {
            slots: Slots::absent(),
        }
    }

    /// Reads a line, without its line feed: one JSON object as `serde_json` reads it, with the
    /// members that the table has for its `command`. Of equal members the last counts. A fault is
    /// told in this order: `BadLine`, `UnknownCommand`, `BadField`; `Memory` may come at any time.
    #[tactic(auto, using(crate::proofs::Answered::line_read))]
    pub fn read(&mut self, alloc: Global, line: &[u8]) -> Result<Line, LineFault>
        ensures { result ≢ Err Memory → ReadsLine line.now result }
    {
        if line.len() > LINE_LIMIT {
            return Err(LineFault::BadLine);
        }
        let Ok(text) = simdutf8::compat::from_utf8(line) else {
            return Err(LineFault::BadLine);
        };
        self.slots.clear();
        line_of_text(alloc, text, &mut self.slots)
    }
}

/// Reads one line, as [`LineReader::read`] does.
pub fn read_line(alloc: Global, line: &[u8]) -> Result<Line, LineFault>
    ensures { result ≢ Err Memory → ReadsLine line.now result }
{
    LineReader::new(alloc).read(alloc, line)
}

// The line that the text is, or its fault: by its tokens where they tell it, and else by its value.
fn line_of_text(alloc: Global, text: &str, slots: &mut Slots) -> Result<Line, LineFault>
    requires absent { (f : Field) → slot_at slots.old f ≡ Slot.Absent }
    ensures { result ≢ Err Memory → ReadsText text.now result }
{
    let Some(row) = row_by_tokens(alloc, text, slots)? else {
        return line_by_value(alloc, text);
    };
    let found = row.line(alloc, slots);
    if found.is_ok() && !slots.are_taken() {
        // Which other member comes first is told by the value.
        return line_by_value(alloc, text);
    }
    found
}

// The row that the text names, where its tokens tell its slots. It is `None` for any other text, and for
// some that are lines.
fn row_by_tokens(alloc: Global, text: &str, slots: &mut Slots) -> Result<Option<Row>, AllocError>
    requires absent { (f : Field) → slot_at slots.old f ≡ Slot.Absent }
    ensures { IfOk result (λ found. IfSome found (λ row. (ms : Members)
        × (read text.now ≡ Some (object ms)) × AreMembers ms slots.new
        × (as_row (slot_at slots.new Field.Command) ≡ Some row))) }
{
    if !read_slots(alloc, text, slots)? {
        return Ok(None);
    }
    Ok(slots.row())
}

// The line that any text is, or its fault, by its value.
fn line_by_value(alloc: Global, text: &str) -> Result<Line, LineFault>
    ensures { result ≢ Err Memory → ReadsText text.now result }
{
    let value = read_value(alloc, text)?;
    line_in(alloc, &value)
}

// The JSON value that the text is.
fn read_value(alloc: Global, text: &str) -> Result<Value, LineFault>
    ensures { MatchResult result
        (λ value. read text.now ≡ Some (view value))
        (λ fault. fault ≢ Memory → (read text.now ≡ None) × (fault ≡ LineFault.BadLine)) }
{
    match Value::from_str(alloc, text) {
        Ok(value) => Ok(value),
        Err(e) if e.is_memory() => Err(LineFault::Memory),
        Err(_) => Err(LineFault::BadLine),
    }
}

fn line_in(alloc: Global, value: &Value) -> Result<Line, LineFault>
    ensures { result ≢ Err Memory → ReadsValue (view value.now) result }
{
    let Some(members) = value.as_object() else {
        return Err(LineFault::BadLine);
    };
    let mut slots = slots_of(alloc, value)?;
    let Some(row) = slots.row() else {
        return Err(LineFault::UnknownCommand);
    };
    let found = row.line(alloc, &mut slots);
    let other = first_left(alloc, members, &slots)?;
    only(found, other)
}

// The line that the fields come to, where there is no other member.
fn only(found: Result<Line, LineFault>, other: Option<MemberName>) -> Result<Line, LineFault>
    ensures { result ≡ only found other }
{
    match (found, other) {
        (Ok(_), Some(name)) => Err(LineFault::BadField { name }),
        (found, _) => found,
    }
}
