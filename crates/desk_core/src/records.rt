// A command as a record of the journal.
ghost use Rattle.std.specs.Prelude.{◌≡◌, ◌≤◌, ◌<◌, ◌+◌, length, vec_len, vec_capacity, IfOk, OnOk};
ghost use Rattle.authority_book.specs.declared.commands.Command.{Command};
ghost use Rattle.authority_book.specs.Settings.{Covers};
ghost use Rattle.authority_book.specs.Fold.{needs};
ghost use Rattle.cmd_codec.specs.Spelling.{spelling, IsRecordable};
ghost use Rattle.gate_journal.specs.View.{IsSameButRoom};
ghost use Rattle.desk_core.specs.Answers.{needed_for, fault_of};

use crate::{DeskFault, DeskRose};
use authority_book::{Command, Config};
use cmd_codec::RecordFault;
use disk_api::Disk;
use gate_journal::{AppendFault, Journal};
use std::alloc::{AllocError, Global};

/// How many bytes the command takes in the journal, which puts 9 before its record.
pub(crate) fn needed(command: &Command) -> u64
    ensures { result ≡ needed_for command.now }
{
    cmd_codec::record_len(command) + 9
}

/// Takes the memory that keeping the command needs, and puts together its record's payload.
pub(crate) fn prepare<D: Disk>(
    alloc: Global,
    command: &Command,
    journal: &mut Journal<D>,
    config: &mut Config,
    body: &mut Vec<u8>,
) -> Result<Vec<u8>, AllocError>
    ensures payload { IfOk result (λ payload. (payload.items ≡ spelling command.now) × (length payload.items < journal.new.room)) }
    ensures room { IfOk result (λ payload. vec_len body.new + (length payload.items + 9) ≤ vec_capacity body.new) }
    ensures recordable { OnOk result (IsRecordable command.now) }
    ensures journal { IsSameButRoom journal.old journal.new }
    ensures config { config.new.settings ≡ config.old.settings }
    ensures room_of { OnOk result (Covers config.new.room (needs command.now)) }
    ensures body { body.new.items ≡ body.old.items }
{
    let payload = cmd_codec::write(alloc, command)?;
    journal.reserve(alloc, payload.len())?;
    config.reserve(alloc, command)?;
    body.reserve(payload.len() + 9)?;
    Ok(payload)
}

/// The command that a payload records.
pub(crate) fn recorded(alloc: Global, payload: &[u8]) -> Result<Command, AllocError>
    requires { (command : Command) × IsRecordable command × (payload.now ≡ spelling command) }
    ensures { IfOk result (λ command. (other : Command) → IsRecordable other → payload.now ≡ spelling other → command ≡ other) }
{
    match cmd_codec::read(alloc, payload) {
        Ok(command) => Ok(command),
        Err(RecordFault::BadRecord { .. }) => unreachable!(),
        Err(RecordFault::Memory) => Err(AllocError),
    }
}

/// What a journal's refusal is for the desk.
pub(crate) fn fault_of<D: Disk>(number: u32, fault: AppendFault<D>) -> DeskFault<D>
    ensures { result ≡ fault_of number fault }
{
    match fault {
        AppendFault::Shut { rose } => DeskFault::Shut {
            rose: DeskRose::new(number, rose),
        },
        AppendFault::JournalFull { held, needed } => DeskFault::JournalFull { held, needed },
        AppendFault::DiskFault { rose } => DeskFault::DiskFault {
            rose: DeskRose::new(number, rose),
        },
    }
}
