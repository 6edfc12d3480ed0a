//! Why bytes are no body (RFC 9582 section 4, RFC 9286 section 4.2).

ghost use Rattle.std.specs.Prelude.{◌≡◌};
ghost use Rattle.payloads.specs.Outcome.{body_fault};
ghost use Rattle.payloads.specs.declared.fault.BodyFault.TheVariants.{Memory};

use der::ShapeFault;
use std::alloc::{AllocError, AllocFailed};
use thiserror::Error;

/// Why a body could not be read.
#[derive(Clone, Copy, Debug, PartialEq, Eq, Error)]
pub enum BodyFault {
    /// The bytes aren't in the grammar, also if order is left out of account. `at` is at most their
    /// length, and below it no spelling begins with the first `at` + 1 bytes.
    #[error("the bytes aren't in the grammar: see the byte at {at}")]
    Shape { at: u64 },
    /// But for the order the bytes are in the grammar. What starts at `at` isn't above what stands
    /// before it.
    #[error("what starts at byte {at} isn't above what stands before it")]
    Order { at: u64 },
    /// Memory ran out.
    #[error("out of memory")]
    Memory,
}

impl From<ShapeFault> for BodyFault {
    ghost from_gives = { λ shape fault. fault ≡ body_fault shape };

    fn from(fault: ShapeFault) -> Self {
        match fault {
            ShapeFault::Shape { at } => BodyFault::Shape { at },
            ShapeFault::Memory => BodyFault::Memory,
        }
    }
}

impl From<AllocError> for BodyFault {
    ghost from_gives = { λ _ fault. fault ≡ Memory };

    fn from(_: AllocError) -> Self {
        BodyFault::Memory
    }
}

impl<T: Drop> From<AllocFailed<T>> for BodyFault {
    ghost from_gives = { λ _ fault. fault ≡ Memory };

    fn from(_: AllocFailed<T>) -> Self {
        BodyFault::Memory
    }
}
