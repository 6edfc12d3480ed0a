// Why a call of a ring stopped.
ghost use Rattle.std.specs.Prelude.{◌≡◌};
ghost use Rattle.signer_ring.specs.Ring.{answer_of};
ghost use Rattle.signer_ring.specs.declared.fault.RingFault.TheVariants.{Memory};

use signer_api::SignerStop;
use std::alloc::AllocError;
use thiserror::Error;

/// Why a call of a ring stopped.
#[derive(Clone, Copy, Debug, PartialEq, Eq, Error)]
pub enum RingFault {
    #[error("there is no signer {signer}")]
    NoSuchSigner { signer: u32 },
    #[error("signer {signer} failed")]
    SignerFault { signer: u32 },
    #[error("out of memory")]
    Memory,
}

impl From<AllocError> for RingFault {
    ghost from_gives = { λ _ fault. fault ≡ Memory };

    fn from(_: AllocError) -> Self {
        RingFault::Memory
    }
}

/// What a signer answered, to those who called it by its number.
pub(crate) fn answered<T>(signer: u32, told: Result<T, SignerStop>) -> Result<T, RingFault>
    ensures { result ≡ answer_of signer told }
{
    match told {
        Ok(x) => Ok(x),
        Err(SignerStop::Fault) => Err(RingFault::SignerFault { signer }),
        Err(SignerStop::Memory) => Err(RingFault::Memory),
    }
}
