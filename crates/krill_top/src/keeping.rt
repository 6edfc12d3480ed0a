//! What is kept of refusals where a session has the instance to itself.

ghost use Rattle.std.specs.Prelude.{◌≡◌};
ghost use Rattle.krill_top.specs.Keeps.{keeps_of_command_outcome, keeps_of_publication_outcome, keeps_of_no_edition};
ghost use Rattle.krill_top.specs.Outcomes.{fault_outcome};
ghost use Rattle.krill_top.specs.Publishing.{outcome_of, unmade_of};

use crate::command_fault::CommandFault;
use crate::publication::Publication;
use crate::publish_fault::PublishFault;
use desk_core::DeskFault;
use disk_api::Disk;
use manager::Unmade;
use outlet_api::Outlet;
use session_lines::Kept;

/// Keeps what the refusal of a command has.
pub(crate) fn keep_command<D: Disk, O: Outlet>(kept: &mut Kept<D, O>, fault: CommandFault<D>)
    ensures { kept.new ≡ keeps_of_command_outcome (fault_outcome fault) kept.old }
{
    match fault {
        CommandFault::Shut { rose } => kept.keep_desk(DeskFault::Shut { rose }),
        CommandFault::DiskFault { rose } => kept.keep_desk(DeskFault::DiskFault { rose }),
        CommandFault::NoSuchAuthority
        | CommandFault::Verdict { .. }
        | CommandFault::JournalFull { .. }
        | CommandFault::Memory => {}
    }
}

/// Keeps what the refusal of a publication has, or the export that was stopped.
pub(crate) fn keep_publication<D: Disk, O: Outlet>(
    kept: &mut Kept<D, O>,
    publication: Publication<D, O>,
)
    ensures { kept.new ≡ keeps_of_publication_outcome (outcome_of publication) kept.old }
{
    match publication {
        Publication::Published { .. } => {}
        Publication::Unexported { fault, .. } => kept.keep_export(fault),
        Publication::Repeated { fault } | Publication::Refused { fault, .. } => {
            keep_unmade(kept, fault)
        }
    }
}

// Keeps why no edition is made.
fn keep_unmade<D: Disk, O: Outlet>(kept: &mut Kept<D, O>, fault: PublishFault<D>)
    ensures { kept.new ≡ keeps_of_no_edition (unmade_of fault) kept.old }
{
    match fault {
        PublishFault::Unprepared { fault } => kept.keep_unmade(Unmade::Unprepared { fault }),
        PublishFault::Uncommitted { fault } => kept.keep_unmade(Unmade::Uncommitted { fault }),
    }
}
