//! Why a command to an authority isn't accepted.

ghost use Rattle.std.specs.Prelude.{◌≡◌};
ghost use Rattle.krill_top.specs.Outcomes.{command_fault_of, fault_outcome};
ghost use Rattle.krill_top.specs.Replies.{is_change};

use authority_book::Refusal;
use desk_core::{DeskFault, DeskRose};
use disk_api::Disk;

/// Why a command to an authority isn't accepted, in the order in which it is asked. `held` and
/// `needed` are in bytes.
#[derive(Drop)]
pub enum CommandFault<D: Disk> {
    /// No authority has the name.
    NoSuchAuthority,
    /// An earlier call of the authority's disk failed.
    Shut { rose: DeskRose<D> },
    /// The verdict on the command.
    Verdict { refusal: Refusal },
    /// The bytes that the journal takes and those of the record are more than 16 MiB.
    JournalFull { held: u64, needed: u64 },
    /// The disk failed. The command may be found after a restart, or not.
    DiskFault { rose: DeskRose<D> },
    /// Out of memory, before anything was written.
    Memory,
}

impl<D: Disk> CommandFault<D> {
    /// Whether the command may be found after a restart.
    pub fn leaves_doubt(&self) -> bool
        ensures { result ≡ is_change (fault_outcome self.now) }
    {
        matches!(self, CommandFault::DiskFault { .. })
    }

    // What a desk's fault is called here.
    pub(crate) fn of_desk(fault: DeskFault<D>) -> Self
        ensures { result ≡ command_fault_of fault }
    {
        match fault {
            DeskFault::Shut { rose } => CommandFault::Shut { rose },
            DeskFault::Verdict { refusal } => CommandFault::Verdict { refusal },
            DeskFault::JournalFull { held, needed } => CommandFault::JournalFull { held, needed },
            DeskFault::DiskFault { rose } => CommandFault::DiskFault { rose },
            DeskFault::Memory => CommandFault::Memory,
        }
    }
}
