//! Why a text could not be read (RFC 8182 section 3.5).

ghost use Rattle.std.specs.Prelude.{◌≡◌};

use std::alloc::AllocError;
use thiserror::Error;

/// What is wrong with a text. Places are offsets in bytes.
#[derive(Clone, Copy, Debug, PartialEq, Eq, Error)]
pub enum XmlFault {
    /// The bytes are no text of the template. Where `at` is below their length, no text begins with
    /// the bytes up to that place and the byte there.
    #[error("not of the template at {at}")]
    NotTemplate { at: u64 },
    #[error("out of memory")]
    Memory,
}

/// A fault while a text is read: how many bytes are left at its place.
#[derive(Clone, Copy, Debug, PartialEq, Eq)]
pub(crate) enum Stop {
    Here { left: usize },
    Memory,
}

impl From<AllocError> for Stop {
    ghost use Rattle.rrdp_text.specs.declared.fault.Stop.TheVariants.{Memory};

    ghost from_gives = { λ _ e. e ≡ Memory };

    fn from(_error: AllocError) -> Stop {
        Stop::Memory
    }
}
