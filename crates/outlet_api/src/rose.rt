// The word of a fault of an outlet: only this crate makes one.
ghost use Rattle.std.specs.Prelude.{◌≡◌, ℕ};
ghost use Rattle.host_calls.specs.Rise.{HasRisen};

use crate::Outlet;
use std::marker::{Model, PhantomData};

/// That a call on an outlet of this type answered `Fault`: the outlet's counts of faults before the
/// export and after it. It can be neither copied nor made elsewhere.
#[derive(Drop)]
pub struct Rose<O: Outlet> {
    before: u64,
    after: u64,
    outlet: PhantomData<O>,
}

impl<O: Outlet> Model for Rose<O> {
    ghost Value = { ℕ × ℕ };

    ghost view = { λ r. (r.before, r.after) };

    ghost invariant = { λ r. HasRisen r.before r.after };
}

impl<O: Outlet> Rose<O> {
    pub(crate) fn new(before: u64, after: u64) -> Self
        requires { HasRisen before after }
        ensures { result ≡ (before, after) }
    {
        Rose {
            before,
            after,
            outlet: PhantomData,
        }
    }

    /// The count before the export that failed. How many calls had failed by then.
    pub fn before(&self) -> u64
        ensures count { result ≡ self.now.0 }
        ensures risen { HasRisen self.now.0 self.now.1 }
    {
        self.before
    }

    /// The count after it. How many calls had failed by then.
    pub fn after(&self) -> u64
        ensures count { result ≡ self.now.1 }
        ensures risen { HasRisen self.now.0 self.now.1 }
    {
        self.after
    }
}
