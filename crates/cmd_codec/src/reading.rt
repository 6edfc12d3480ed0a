//! Records read back.

ghost use Rattle.std.specs.Prelude.{◌≡◌, ℕ, ◌∷◌, IfOk, Ok, Err, Some};
ghost use Rattle.authority_book.specs.declared.commands.Command.{Command};
ghost use Rattle.cmd_codec.specs.declared.faults.RecordFault.TheVariants.{BadRecord};
ghost use Rattle.cmd_codec.specs.Spelling.{granted, spelling, IsRecordable};
ghost use Rattle.cmd_codec.specs.Spelling.Part.{TheName};
ghost use Rattle.cmd_codec.specs.Fault.{grant_kinds, first_bad};
ghost use Rattle.cmd_codec.specs.Fault.Kind.{NamePart};
ghost use Rattle.cmd_codec.specs.Outcome.{IsUnlessMemory, Answers, ReadsParts, ReadsRow};

use crate::cursor::Cursor;
use crate::faults::RecordFault;
use crate::format::{
    ACTIVATE_ROLL, ADD, ADD_CHILD, ADD_PARENT, DELETE, INIT_ROLL, REMOVE_CHILD, SUSPEND_CHILD,
    UNSUSPEND_CHILD, UPDATE_CHILD, UPDATE_ROAS,
};
use authority_book::Command;
use names::Name;
use res_sets::Resources;
use std::alloc::Global;

/// The command that the record spells, in linear time.
///
/// It answers `BadRecord` where the bytes aren't a command's record, and `Memory` where memory runs
/// out. A count is compared with the bytes that are left before memory is taken for what it counts.
pub fn read(alloc: Global, bytes: &[u8]) -> Result<Command, RecordFault>
    // What is read is spelled so, each byte of it, and what is spelled so is read.
    ensures found { IfOk result (λ command. IsRecordable command × (bytes.now ≡ spelling command)) }
    ensures only { (command : Command) → IsRecordable command → bytes.now ≡ spelling command →
        IsUnlessMemory result (Ok command) }

    // A bad record is so at its first bad field, and where a field is bad the record is.
    ensures bad { (at : ℕ) → result ≡ Err (BadRecord at) → first_bad bytes.now ≡ Some at }
    ensures bad_only { (at : ℕ) → first_bad bytes.now ≡ Some at → IsUnlessMemory result (Err (BadRecord at)) }
{
    record_of(alloc, bytes)
}

// The command of a record, or where the bytes are bad.
fn record_of(alloc: Global, bytes: &[u8]) -> Result<Command, RecordFault>
    ensures { Answers bytes.now result }
{
    let Some((first, left)) = bytes.split_first() else {
        return Err(RecordFault::BadRecord { at: 0 });
    };
    let mut cursor = Cursor::behind_first(left);
    let command = command_of(alloc, *first, &mut cursor)?;
    if cursor.len() > 0 {
        return Err(cursor.fault());
    }
    Ok(command)
}

// The command whose record begins with that byte.
fn command_of(alloc: Global, first: u8, cursor: &mut Cursor<'_>) -> Result<Command, RecordFault>
    ensures { ReadsRow first cursor.old cursor.new result }
{
    match first {
        ADD => add(cursor),
        DELETE => Ok(Command::Delete),
        ADD_PARENT => Ok(Command::AddParent {
            parent: cursor.name()?,
        }),
        ADD_CHILD => {
            let (child, grant) = child_and_grant(alloc, cursor)?;
            Ok(Command::AddChild { child, grant })
        }
        UPDATE_CHILD => {
            let (child, grant) = child_and_grant(alloc, cursor)?;
            Ok(Command::UpdateChild { child, grant })
        }
        REMOVE_CHILD => Ok(Command::RemoveChild {
            child: cursor.name()?,
        }),
        UPDATE_ROAS => update_roas(alloc, cursor),
        SUSPEND_CHILD => Ok(Command::SuspendChild {
            child: cursor.name()?,
        }),
        UNSUSPEND_CHILD => Ok(Command::UnsuspendChild {
            child: cursor.name()?,
        }),
        INIT_ROLL => Ok(Command::InitRoll),
        ACTIVATE_ROLL => Ok(Command::ActivateRoll),
        _ => Err(RecordFault::BadRecord { at: 0 }),
    }
}

fn add(cursor: &mut Cursor<'_>) -> Result<Command, RecordFault>
    ensures { ReadsRow 1 cursor.old cursor.new result }
{
    let name = cursor.name()?;
    let signer = cursor.number()?;
    Ok(Command::Add { name, signer })
}

fn child_and_grant(alloc: Global, cursor: &mut Cursor<'_>) -> Result<(Name, Resources), RecordFault>
    ensures { ReadsParts (NamePart ∷ grant_kinds) (λ both. TheName both.0 ∷ granted both.1)
        cursor.old cursor.new result }
{
    let child = cursor.name()?;
    let grant = cursor.resources(alloc)?;
    Ok((child, grant))
}

fn update_roas(alloc: Global, cursor: &mut Cursor<'_>) -> Result<Command, RecordFault>
    ensures { ReadsRow 7 cursor.old cursor.new result }
{
    let added = cursor.origins(alloc)?;
    let removed = cursor.origins(alloc)?;
    Ok(Command::UpdateRoas { added, removed })
}
