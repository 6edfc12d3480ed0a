//! What calls on the desks answer.
ghost use Rattle.std.specs.Prelude.{◌≡◌};

use authority_book::Child;
use desk_core::DeskFault;
use disk_api::Disk;
use items::Items;
use names::Name;
use notice_board::SheetRow;
use origins::Origin;
use std::alloc::{AllocError, AllocFailed};

/// Why a command to the authority of a name isn't accepted.
#[derive(Drop)]
pub enum CommandFault<D: Disk> {
    /// No authority has the name.
    NoSuchAuthority,
    /// The desk of the authority refused it.
    Refused { fault: DeskFault<D> },
}

impl<D: Disk> From<DeskFault<D>> for CommandFault<D> {
    ghost use Rattle.std.specs.Prelude.{◌≡◌};
    ghost use Rattle.manager.specs.declared.locked_desks_answers.CommandFault.TheVariants as made;

    ghost from_gives = { λ fault refused. refused ≡ made.Refused fault };

    fn from(fault: DeskFault<D>) -> Self {
        CommandFault::Refused { fault }
    }
}

/// Why an authority can't be read.
#[derive(Clone, Copy, Debug, PartialEq, Eq)]
pub enum ReadFault {
    /// No authority has the name.
    NoSuchAuthority,
    /// Out of memory.
    Memory,
}

impl From<AllocError> for ReadFault {
    ghost use Rattle.std.specs.Prelude.{◌≡◌};
    ghost use Rattle.manager.specs.declared.locked_desks_answers.ReadFault.TheVariants.{Memory};

    ghost from_gives = { λ _ fault. fault ≡ Memory };

    fn from(_: AllocError) -> Self {
        ReadFault::Memory
    }
}

/// A name of the tree, and whether its authority is deleted.
#[derive(Clone, Copy, Debug, PartialEq, Eq)]
pub struct ListRow {
    pub name: Name,
    pub deleted: bool,
}

/// An authority: its parent and its children as they are configured, and what the edition of that serial says
/// of it.
#[derive(Debug, Drop)]
pub struct Shown {
    pub parent: Option<Name>,
    pub children: Items<Child>,
    pub row: SheetRow,
    pub serial: u64,
}

/// Where an origin of an authority stands.
#[derive(Clone, Copy, Debug, PartialEq, Eq)]
pub enum RoaState {
    /// The edition publishes it.
    Published,
    /// The authority isn't certified for its prefix.
    Held,
    /// The next edition may publish it.
    Pending,
}

/// An origin of an authority, and where it stands.
#[derive(Clone, Copy, Debug, PartialEq, Eq)]
pub struct ShownRoa {
    pub origin: Origin,
    pub state: RoaState,
}

/// The origins of an authority as they are configured, and where each stands in the edition of that serial.
#[derive(Debug, Drop)]
pub struct ShownRoas {
    pub rows: Items<ShownRoa>,
    pub serial: u64,
}
