//! Why bytes are no record.

ghost use Rattle.std.specs.Prelude.{◌≡◌};
ghost use Rattle.cmd_codec.specs.declared.faults.RecordFault.TheVariants.{Memory};

use std::alloc::{AllocError, AllocFailed};
use thiserror::Error;

/// Why a record isn't read.
#[derive(Clone, Copy, Debug, PartialEq, Eq, Error)]
pub enum RecordFault {
    /// The offset of the first field that isn't whole or is outside its rule, or of the bytes left
    /// over. The first byte, a count and an origin are one field each.
    #[error("no record of a command: the field at offset {at}")]
    BadRecord { at: u64 },
    #[error("out of memory")]
    Memory,
}

impl From<AllocError> for RecordFault {
    ghost from_gives = { λ _ fault. fault ≡ Memory };

    fn from(_: AllocError) -> Self {
        RecordFault::Memory
    }
}

impl<T: Drop> From<AllocFailed<T>> for RecordFault {
    ghost from_gives = { λ _ fault. fault ≡ Memory };

    fn from(_: AllocFailed<T>) -> Self {
        RecordFault::Memory
    }
}
