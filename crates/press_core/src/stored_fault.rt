//! Why no edition is prepared or committed over a journal.

ghost use Rattle.std.specs.Prelude.{◌≡◌};
ghost use Rattle.press_core.specs.declared.stored_fault.PrepareFault.TheVariants.{Memory};
ghost use Rattle.press_core.specs.StoredAnswers.{prepare_fault_of};

use crate::fault::{Met, PressFault};
use disk_api::Disk;
use gate_journal::Rose;
use key_ids::KeyId;
use std::alloc::AllocError;

/// Why no edition is prepared. `now` is the clock of the call, in seconds since 1970.
#[derive(Drop)]
pub enum PrepareFault<D: Disk> {
    /// The disk failed an earlier commit, and the press takes no edition any more.
    Shut { rose: Rose<D> },
    /// The clock is before the year 2000, or the edition's moment behind the year 9998.
    ClockRange { now: u64, met: Met<D> },
    /// The serial, or the number or the next serial of a live key, is 2^62 or more.
    SerialEnd { value: u64, met: Met<D> },
    /// There is nothing to publish behind the edition with that serial.
    Nothing { serial: u64, met: Met<D> },
    /// A call of that signer failed.
    SignerFault { signer: u32, met: Met<D> },
    /// A key that was made has the identifier of a live key, or of another one that was made.
    KeyClash { id: KeyId, met: Met<D> },
    /// The journal holds so many bytes, and the edition's record needs more than are left.
    JournalFull { held: u64, needed: u64, met: Met<D> },
    /// Out of memory.
    Memory,
}

impl<D: Disk> PrepareFault<D> {
    /// What the press over its journal answers where the press alone answers this.
    pub(crate) fn of(fault: PressFault) -> PrepareFault<D>
        ensures { result ≡ prepare_fault_of fault }
    {
        match fault {
            PressFault::ClockRange { now, met } => PrepareFault::ClockRange {
                now,
                met: Met::of(met),
            },
            PressFault::SerialEnd { value, met } => PrepareFault::SerialEnd {
                value,
                met: Met::of(met),
            },
            PressFault::Nothing { serial, met } => PrepareFault::Nothing {
                serial,
                met: Met::of(met),
            },
            PressFault::SignerFault { signer, met } => PrepareFault::SignerFault {
                signer,
                met: Met::of(met),
            },
            PressFault::KeyClash { id, met } => PrepareFault::KeyClash {
                id,
                met: Met::of(met),
            },
            PressFault::Memory => PrepareFault::Memory,
        }
    }
}

impl<D: Disk> From<AllocError> for PrepareFault<D> {
    ghost from_gives = { λ _ fault. fault ≡ Memory };

    fn from(_: AllocError) -> Self {
        PrepareFault::Memory
    }
}

/// Why an edition that was prepared isn't committed: a call of the disk failed. Its record may stand
/// there or not.
#[derive(Drop)]
pub enum CommitFault<D: Disk> {
    /// The disk failed, and the press takes no edition any more.
    DiskFault { rose: Rose<D> },
}
