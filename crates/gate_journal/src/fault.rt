// What a journal answers when it can't do what it is asked.
ghost use Rattle.std.specs.Prelude.{◌≡◌};
ghost use Rattle.gate_journal.specs.declared.fault.JournalFault.TheVariants.{Memory};

use crate::Rose;
use disk_api::{Disk, DiskStop};
use std::alloc::{AllocError, AllocFailed};
use thiserror::Error;

/// Why a journal can't be opened or read. Offsets are in bytes.
#[derive(Clone, Copy, Debug, PartialEq, Eq, Error)]
pub enum JournalFault {
    #[error("the disk failed")]
    DiskFault,
    /// The offset of the first gate that is missing, or is open before a record that isn't whole or
    /// passes the limit. It is 0 where the header isn't that of a journal.
    #[error("the journal is damaged at offset {at}")]
    Damaged { at: u64 },
    #[error("out of memory")]
    Memory,
}

/// A disk that couldn't be opened as a journal, and why.
#[derive(Drop)]
pub struct OpenRefused<D: Disk> {
    pub disk: D,
    pub fault: JournalFault,
}

/// Why a record wasn't appended. It is asked in this order.
#[derive(Drop)]
pub enum AppendFault<D: Disk> {
    /// An earlier call failed.
    Shut { rose: Rose<D> },
    /// The bytes up to the closed gate, `held`, and those of the record, `needed`, are more than
    /// the limit.
    JournalFull { held: u64, needed: u64 },
    /// The disk failed, and the journal is shut. The record may count after a restart, or not.
    DiskFault { rose: Rose<D> },
}

impl From<DiskStop> for JournalFault {
    ghost use Rattle.std.specs.Prelude.{◌≡◌};
    ghost use Rattle.gate_journal.specs.inner.Reading.{fault_of};

    ghost from_gives = { λ stop fault. fault ≡ fault_of stop };

    fn from(stop: DiskStop) -> Self {
        match stop {
            DiskStop::Fault => JournalFault::DiskFault,
            DiskStop::Memory => JournalFault::Memory,
        }
    }
}

impl From<AllocError> for JournalFault {
    ghost from_gives = { λ _ fault. fault ≡ Memory };

    fn from(_: AllocError) -> Self {
        JournalFault::Memory
    }
}

impl<T: Drop> From<AllocFailed<T>> for JournalFault {
    ghost from_gives = { λ _ fault. fault ≡ Memory };

    fn from(_: AllocFailed<T>) -> Self {
        JournalFault::Memory
    }
}
