//! Why bytes are no object.

ghost use Rattle.std.specs.Prelude.{◌≡◌};
ghost use Rattle.der.specs.declared.shape_fault.ShapeFault.TheVariants.{Memory};

use std::alloc::{AllocError, AllocFailed};
use thiserror::Error;

/// Why bytes could not be read. `at` is an offset in bytes from the object's start.
#[derive(Clone, Copy, Debug, PartialEq, Eq, Error)]
pub enum ShapeFault {
    /// The bytes aren't in the grammar. `at` is at most their length, and below it no spelling begins
    /// with the first `at` + 1 bytes.
    #[error("the bytes aren't in the grammar: see the byte at {at}")]
    Shape { at: u64 },
    /// Memory ran out.
    #[error("out of memory")]
    Memory,
}

impl From<AllocError> for ShapeFault {
    ghost from_gives = { λ _ fault. fault ≡ Memory };

    fn from(_: AllocError) -> Self {
        ShapeFault::Memory
    }
}

impl<T: Drop> From<AllocFailed<T>> for ShapeFault {
    ghost from_gives = { λ _ fault. fault ≡ Memory };

    fn from(_: AllocFailed<T>) -> Self {
        ShapeFault::Memory
    }
}

impl ShapeFault {
    ghost use Rattle.der.specs.Forms.{later};

    /// The later of two faults: what is told where neither of two readings takes the bytes.
    pub fn later(self, other: ShapeFault) -> ShapeFault
        ensures { result ≡ later self other }
    {
        match (self, other) {
            (ShapeFault::Shape { at: first }, ShapeFault::Shape { at: second }) =>
                ShapeFault::Shape {
                    at: if first < second { second } else { first },
                },
            _ => ShapeFault::Memory,
        }
    }
}
