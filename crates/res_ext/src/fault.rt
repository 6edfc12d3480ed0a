//! Why an extension could not be read (RFC 3779 sections 2.2.3 and 3.2.3).

ghost use Rattle.std.specs.Prelude.{◌≡◌};
ghost use Rattle.res_ext.specs.declared.fault.ExtFault.TheVariants.{Memory};

use std::alloc::{AllocError, AllocFailed};
use thiserror::Error;

/// Why bytes are no extension of that kind.
#[derive(Clone, Copy, Debug, PartialEq, Eq, Error)]
pub enum ExtFault {
    /// The bytes are the spelling of no extension.
    #[error("the extension isn't spelled canonically")]
    NotCanonical,
    /// Up to here the extension is spelled right, and the next address family is another than IPv4 and
    /// IPv6, or doesn't rise.
    #[error("an address family is unknown or out of order")]
    Family,
    #[error("out of memory")]
    Memory,
}

impl From<AllocError> for ExtFault {
    ghost from_gives = { λ _ fault. fault ≡ Memory };

    fn from(_: AllocError) -> Self {
        ExtFault::Memory
    }
}

impl<T: Drop> From<AllocFailed<T>> for ExtFault {
    ghost from_gives = { λ _ fault. fault ≡ Memory };

    fn from(_: AllocFailed<T>) -> Self {
        ExtFault::Memory
    }
}
