// What every outlet promises.
ghost use Rattle.std.specs.Prelude.{◌≡◌, ℕ, Option, option_map, OnOk, OnErr};
ghost use Rattle.outlet_api.specs.declared.outlet.OutletStop.TheVariants.{Memory};
ghost use Rattle.outlet_api.specs.Calls.{Files, put, removal, after, MayHaveDone};
ghost use Rattle.outlet_api.specs.Faults.{CountsFaults};

use std::alloc::{AllocError, AllocFailed, Global};
use thiserror::Error;

/// Why a call of an outlet stopped.
#[derive(Clone, Copy, Debug, PartialEq, Eq, Error)]
pub enum OutletStop {
    #[error("the outlet failed")]
    Fault,
    #[error("out of memory")]
    Memory,
}

impl From<AllocError> for OutletStop {
    ghost from_gives = { λ _ stop. stop ≡ Memory };

    fn from(_: AllocError) -> Self {
        OutletStop::Memory
    }
}

impl<T: Drop> From<AllocFailed<T>> for OutletStop {
    ghost from_gives = { λ _ stop. stop ≡ Memory };

    fn from(_: AllocFailed<T>) -> Self {
        OutletStop::Memory
    }
}

/// Whatever shows files by their paths to those who fetch them.
///
/// A file is replaced whole: whoever fetches it gets the old one or the new one. A call changes what
/// stands at its own path alone. An outlet that doesn't tell promises nothing of files.
///
/// A call that may take memory is handed an allocator for it.
pub trait Outlet: Drop {
    /// What stands at each path, where the outlet tells.
    ghost files: { Self → Option Files };

    /// How often the outlet has failed. An adapter's count stands still at the last value of a `u64`.
    ghost fault_count: { Self → ℕ };

    /// Makes these bytes stand at the path, in place of what is there. At an `Err` the old file stands
    /// there, or the new one.
    fn put(&mut self, alloc: Global, path: &str, bytes: &[u8]) -> Result<(), OutletStop>
        ensures done { OnOk result (files self.new ≡ option_map (after (put path.now bytes.now)) (files self.old)) }
        ensures doubt { OnErr result (MayHaveDone (put path.now bytes.now) (files self.old) (files self.new)) }
        ensures faults { CountsFaults (fault_count self.old) (fault_count self.new) result };

    /// Makes nothing stand at the path. It is `Ok` where nothing does. At an `Err` the file still stands
    /// there, or it doesn't.
    fn remove(&mut self, alloc: Global, path: &str) -> Result<(), OutletStop>
        ensures done { OnOk result (files self.new ≡ option_map (after (removal path.now)) (files self.old)) }
        ensures doubt { OnErr result (MayHaveDone (removal path.now) (files self.old) (files self.new)) }
        ensures faults { CountsFaults (fault_count self.old) (fault_count self.new) result };

    /// How often the outlet has failed: at each `Fault`.
    fn faults(&self) -> u64
        ensures { result ≡ fault_count self.now };
}
