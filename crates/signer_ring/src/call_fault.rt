//! Why a call on a signer stopped.

ghost use Rattle.std.specs.Prelude.{◌≡◌};
ghost use Rattle.signer_ring.specs.declared.call_fault.CallFault.TheVariants.{Memory};

use std::alloc::AllocError;
use thiserror::Error;

/// Why a call on a signer that is there stopped.
#[derive(Clone, Copy, Debug, PartialEq, Eq, Error)]
pub enum CallFault {
    /// It failed, which it counted.
    #[error("signer {signer} failed")]
    SignerFault { signer: u32 },
    #[error("out of memory")]
    Memory,
}

impl From<AllocError> for CallFault {
    ghost from_gives = { λ _ fault. fault ≡ Memory };

    fn from(_: AllocError) -> Self {
        CallFault::Memory
    }
}
