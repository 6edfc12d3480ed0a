// Why a desk can't be opened, and why a command isn't taken.
ghost use Rattle.std.specs.Prelude.{◌≡◌};
ghost use Rattle.desk_core.specs.declared.faults.DeskOpenFault.TheVariants.{Memory};

use crate::DeskRose;
use authority_book::Refusal;
use disk_api::Disk;
use gate_journal::JournalFault;
use std::alloc::{AllocError, AllocFailed};
use thiserror::Error;

/// Why a desk can't be opened.
#[derive(Clone, Copy, Debug, PartialEq, Eq, Error)]
pub enum DeskOpenFault {
    /// The journal is damaged at this offset in bytes.
    #[error("the journal is damaged at offset {at}")]
    Damaged { at: u64 },
    /// The record at this place, counted from 0, is no command's, or that of a command that is
    /// refused after those before it.
    #[error("record {at} is no command that was accepted")]
    BadRecord { at: u64 },
    #[error("the disk failed")]
    DiskFault,
    #[error("out of memory")]
    Memory,
}

/// A disk that couldn't be opened as a desk, and why.
#[derive(Drop)]
pub struct DeskRefused<D: Disk> {
    pub disk: D,
    pub fault: DeskOpenFault,
}

/// Why a command wasn't taken. `held` and `needed` are in bytes.
#[derive(Drop)]
pub enum DeskFault<D: Disk> {
    /// An earlier call failed.
    Shut { rose: DeskRose<D> },
    /// The verdict on the command.
    Verdict { refusal: Refusal },
    /// The bytes that the journal takes and those of the record are more than 16 MiB.
    JournalFull { held: u64, needed: u64 },
    /// The disk failed, and the journal is shut. The command may be found after a restart, or not.
    DiskFault { rose: DeskRose<D> },
    /// Out of memory, before anything was written.
    Memory,
}

impl From<AllocError> for DeskOpenFault {
    ghost from_gives = { λ _ fault. fault ≡ Memory };

    fn from(_: AllocError) -> Self {
        DeskOpenFault::Memory
    }
}

impl<T: Drop> From<AllocFailed<T>> for DeskOpenFault {
    ghost from_gives = { λ _ fault. fault ≡ Memory };

    fn from(_: AllocFailed<T>) -> Self {
        DeskOpenFault::Memory
    }
}

impl From<JournalFault> for DeskOpenFault {
    ghost use Rattle.std.specs.Prelude.{◌≡◌};
    ghost use Rattle.desk_core.specs.Answers.{open_fault_of};

    ghost from_gives = { λ journal fault. fault ≡ open_fault_of journal };

    fn from(fault: JournalFault) -> Self {
        match fault {
            JournalFault::DiskFault => DeskOpenFault::DiskFault,
            JournalFault::Damaged { at } => DeskOpenFault::Damaged { at },
            JournalFault::Memory => DeskOpenFault::Memory,
        }
    }
}
