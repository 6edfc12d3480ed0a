// The word of a fault of a disk: only this crate makes one.
ghost use Rattle.std.specs.Prelude.{◌≡◌, ℕ};
ghost use Rattle.host_calls.specs.Rise.{HasRisen};

use disk_api::Disk;
use std::marker::{Model, PhantomData};

/// That a call on a disk of this type failed: the disk's counts of faults before the journal's call
/// and after it. It can be neither copied nor made elsewhere.
#[derive(Drop)]
pub struct Rose<D: Disk> {
    before: u64,
    after: u64,
    disk: PhantomData<D>,
}

impl<D: Disk> Model for Rose<D> {
    ghost Value = { ℕ × ℕ };

    ghost view = { λ r. (r.before, r.after) };

    ghost invariant = { λ r. HasRisen r.before r.after };
}

impl<D: Disk> Rose<D> {
    pub(crate) fn new(before: u64, after: u64) -> Self
        requires { HasRisen before after }
        ensures { result ≡ (before, after) }
    {
        Rose {
            before,
            after,
            disk: PhantomData,
        }
    }

    /// The count before the call that failed. How many calls had failed by then.
    pub fn before(&self) -> u64
        ensures count { result ≡ self.now.0 }
        ensures risen { HasRisen self.now.0 self.now.1 }
    {
        self.before
    }

    /// The count after it. How many calls had failed by then.
    pub fn after(&self) -> u64
        ensures count { result ≡ self.now.1 }
        ensures risen { HasRisen self.now.0 self.now.1 }
    {
        self.after
    }
}
