//! Why the making of an edition's objects stopped.

ghost use Rattle.std.specs.Prelude.{◌≡◌};
ghost use Rattle.issue_keys.specs.declared.fault.MakeFault.TheVariants.{Memory};
ghost use Rattle.issue_keys.specs.Faults.{fault_of};

use key_ids::KeyId;
use signer_ring::CallFault;
use std::alloc::{AllocError, AllocFailed};
use thiserror::Error;

/// Why the making of an edition's objects stopped.
#[derive(Clone, Copy, Debug, PartialEq, Eq, Error)]
pub enum MakeFault {
    /// A call of that signer failed.
    #[error("signer {signer} failed")]
    SignerFault { signer: u32 },
    /// A key that was made has the identifier of a live key, or of another one that was made.
    #[error("two keys have one identifier")]
    KeyClash { id: KeyId },
    #[error("out of memory")]
    Memory,
}

impl From<AllocError> for MakeFault {
    ghost from_gives = { λ _ fault. fault ≡ Memory };

    fn from(_: AllocError) -> Self {
        MakeFault::Memory
    }
}

impl<T: Drop> From<AllocFailed<T>> for MakeFault {
    ghost from_gives = { λ _ fault. fault ≡ Memory };

    fn from(_: AllocFailed<T>) -> Self {
        MakeFault::Memory
    }
}

impl From<CallFault> for MakeFault {
    ghost from_gives = { λ call fault. fault ≡ fault_of call };

    fn from(call: CallFault) -> Self {
        match call {
            CallFault::SignerFault { signer } => MakeFault::SignerFault { signer },
            CallFault::Memory => MakeFault::Memory,
        }
    }
}
