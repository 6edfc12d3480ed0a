ghost use Rattle.std.specs.Prelude.{◌≡◌};
ghost use Rattle.res_sets.specs.declared.pushing.PushFault.TheVariants.{Memory};

use std::alloc::AllocFailed;
use thiserror::Error;

/// Why a range isn't added to a set.
#[derive(Clone, Copy, Debug, PartialEq, Eq, Error)]
pub enum PushFault {
    /// The range isn't of the family, or leaves out no number behind the last range of the set.
    #[error("the range does not go behind those before it")]
    NotBehind,
    #[error("out of memory")]
    Memory,
}

impl<T: Drop> From<AllocFailed<T>> for PushFault {
    ghost from_gives = { λ _ fault. fault ≡ Memory };

    fn from(_: AllocFailed<T>) -> Self {
        PushFault::Memory
    }
}
