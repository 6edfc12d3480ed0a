//! The rows of the table: each takes its fields out of the slots, and makes a line of them (RFC
//! 8259 section 4).

ghost use Rattle.std.specs.Prelude.{◌≡◌, ◌≢◌, [], ◌∷◌, Err, OnOk};
ghost use Rattle.json_api.specs.Rows.{made, required};
ghost use Rattle.json_api.specs.Table.{anchor, fields_of, line_at};
ghost use Rattle.json_api.specs.inner.Slots.{slot_at, left_of};
ghost use Rattle.json_api.specs.declared.line.LineFault.TheVariants.{Memory};

use crate::fields::{Field, Row};
use crate::line::{Line, LineFault};
use crate::slots::Slots;
use authority_book::Command;
use names::{ANCHOR, Name};
use std::alloc::Global;

/// How often is looked where a line doesn't say it.
const LOOKS: u64 = 1_000_000;

impl Row {
    /// The line of that row, where no other member is left. An arm a row: its fields are taken out of the
    /// slots in their order, and the first that can't be taken is the fault.
    pub(crate) fn line(self, alloc: Global, slots: &mut Slots) -> Result<Line, LineFault>
        ensures line { result ≢ Err Memory → result ≡ line_at self (slot_at slots.old) }
        ensures left { OnOk result (slots.new ≡ left_of (fields_of self) slots.old) }
    {
        match self {
            Row::Add => add_authority(slots),
            Row::Delete => name_alone(slots, Command::Delete),
            Row::ParentsAdd => add_parent(slots),
            Row::ChildrenAdd => add_child(slots),
            Row::ChildrenUpdate => update_child(slots),
            Row::ChildrenRemove => remove_child(slots),
            Row::ChildrenSuspend => suspend_child(slots),
            Row::ChildrenUnsuspend => unsuspend_child(slots),
            Row::RoasUpdate => update_roas(alloc, slots),
            Row::KeyrollInit => name_alone(slots, Command::InitRoll),
            Row::KeyrollActivate => name_alone(slots, Command::ActivateRoll),
            Row::Publish => Ok(Line::Publish),
            Row::Serial => Ok(Line::Serial),
            Row::Await => wait(slots),
            Row::List => Ok(Line::List),
            Row::Show => show(slots),
            Row::RoasList => roas(slots),
            Row::HistoryCommands => history(slots),
        }
    }
}

fn add_authority(slots: &mut Slots) -> Result<Line, LineFault>
    ensures line { result ≢ Err Memory → result ≡ line_at Row.Add (slot_at slots.old) }
    ensures left { OnOk result (slots.new ≡ left_of (fields_of Row.Add) slots.old) }
{
    let name = slots.name(Field::Ca)?;
    let signer = slots.number_or(Field::Signer, 0)?;
    Ok(command(anchor(), Command::Add { name, signer }))
}

// A command that says nothing but its authority's name.
fn name_alone(slots: &mut Slots, given: Command) -> Result<Line, LineFault>
    ensures line { result ≢ Err Memory → result
        ≡ made (slot_at slots.old) (required Field.Ca ∷ []) (λ ca. Line.Command ca given) }
    ensures left { OnOk result (slots.new ≡ left_of (Field.Ca ∷ []) slots.old) }
{
    Ok(command(slots.name(Field::Ca)?, given))
}

fn add_parent(slots: &mut Slots) -> Result<Line, LineFault>
    ensures line { result ≢ Err Memory → result ≡ line_at Row.ParentsAdd (slot_at slots.old) }
    ensures left { OnOk result (slots.new ≡ left_of (fields_of Row.ParentsAdd) slots.old) }
{
    let name = slots.name(Field::Ca)?;
    let parent = slots.name(Field::Parent)?;
    Ok(command(name, Command::AddParent { parent }))
}

fn add_child(slots: &mut Slots) -> Result<Line, LineFault>
    ensures line { result ≢ Err Memory → result ≡ line_at Row.ChildrenAdd (slot_at slots.old) }
    ensures left { OnOk result (slots.new ≡ left_of (fields_of Row.ChildrenAdd) slots.old) }
{
    let name = slots.name(Field::Ca)?;
    let child = slots.name(Field::Child)?;
    let grant = slots.resources(Field::Resources)?;
    Ok(command(name, Command::AddChild { child, grant }))
}

fn update_child(slots: &mut Slots) -> Result<Line, LineFault>
    ensures line { result ≢ Err Memory → result ≡ line_at Row.ChildrenUpdate (slot_at slots.old) }
    ensures left { OnOk result (slots.new ≡ left_of (fields_of Row.ChildrenUpdate) slots.old) }
{
    let name = slots.name(Field::Ca)?;
    let child = slots.name(Field::Child)?;
    let grant = slots.resources(Field::Resources)?;
    Ok(command(name, Command::UpdateChild { child, grant }))
}

fn remove_child(slots: &mut Slots) -> Result<Line, LineFault>
    ensures line { result ≢ Err Memory → result ≡ line_at Row.ChildrenRemove (slot_at slots.old) }
    ensures left { OnOk result (slots.new ≡ left_of (fields_of Row.ChildrenRemove) slots.old) }
{
    let name = slots.name(Field::Ca)?;
    let child = slots.name(Field::Child)?;
    Ok(command(name, Command::RemoveChild { child }))
}

fn suspend_child(slots: &mut Slots) -> Result<Line, LineFault>
    ensures line { result ≢ Err Memory → result ≡ line_at Row.ChildrenSuspend (slot_at slots.old) }
    ensures left { OnOk result (slots.new ≡ left_of (fields_of Row.ChildrenSuspend) slots.old) }
{
    let name = slots.name(Field::Ca)?;
    let child = slots.name(Field::Child)?;
    Ok(command(name, Command::SuspendChild { child }))
}

fn unsuspend_child(slots: &mut Slots) -> Result<Line, LineFault>
    ensures line { result ≢ Err Memory → result ≡ line_at Row.ChildrenUnsuspend (slot_at slots.old) }
    ensures left { OnOk result (slots.new ≡ left_of (fields_of Row.ChildrenUnsuspend) slots.old) }
{
    let name = slots.name(Field::Ca)?;
    let child = slots.name(Field::Child)?;
    Ok(command(name, Command::UnsuspendChild { child }))
}

fn update_roas(alloc: Global, slots: &mut Slots) -> Result<Line, LineFault>
    ensures line { result ≢ Err Memory → result ≡ line_at Row.RoasUpdate (slot_at slots.old) }
    ensures left { OnOk result (slots.new ≡ left_of (fields_of Row.RoasUpdate) slots.old) }
{
    let name = slots.name(Field::Ca)?;
    let added = slots.origins(alloc, Field::Add)?;
    let removed = slots.origins(alloc, Field::Remove)?;
    Ok(command(name, Command::UpdateRoas { added, removed }))
}

fn wait(slots: &mut Slots) -> Result<Line, LineFault>
    ensures line { result ≢ Err Memory → result ≡ line_at Row.Await (slot_at slots.old) }
    ensures left { OnOk result (slots.new ≡ left_of (fields_of Row.Await) slots.old) }
{
    let serial = slots.serial(Field::Serial)?;
    let looks = slots.looks_or(Field::Looks, LOOKS)?;
    Ok(Line::Await { serial, looks })
}

fn show(slots: &mut Slots) -> Result<Line, LineFault>
    ensures line { result ≢ Err Memory → result ≡ line_at Row.Show (slot_at slots.old) }
    ensures left { OnOk result (slots.new ≡ left_of (fields_of Row.Show) slots.old) }
{
    Ok(Line::Show {
        name: slots.name(Field::Ca)?,
    })
}

fn roas(slots: &mut Slots) -> Result<Line, LineFault>
    ensures line { result ≢ Err Memory → result ≡ line_at Row.RoasList (slot_at slots.old) }
    ensures left { OnOk result (slots.new ≡ left_of (fields_of Row.RoasList) slots.old) }
{
    Ok(Line::Roas {
        name: slots.name(Field::Ca)?,
    })
}

fn history(slots: &mut Slots) -> Result<Line, LineFault>
    ensures line { result ≢ Err Memory → result ≡ line_at Row.HistoryCommands (slot_at slots.old) }
    ensures left { OnOk result (slots.new ≡ left_of (fields_of Row.HistoryCommands) slots.old) }
{
    Ok(Line::History {
        name: slots.name(Field::Ca)?,
    })
}

fn command(name: Name, command: Command) -> Line
    ensures { result ≡ Line.Command name command }
{
    Line::Command { name, command }
}

fn anchor() -> Name
    ensures { result ≡ anchor }
{
    match Name::read(ANCHOR) {
        Some(name) => name,
        None => unreachable!(),
    }
}
