//! Desks and press out of their locks again, once no other thread has them.
ghost use Rattle.std.specs.Prelude.{◌≡◌, ◌≤◌, [], length, vec_capacity};
ghost use Rattle.authority_book.specs.Verdict.{most_authorities};
ghost use Rattle.manager.specs.Ended.{AreEnded, AreLeftDesks};
ghost use Rattle.manager.specs.Ends.{AreEnds};
ghost use Rattle.manager.specs.Risen.{AreRisenDesks};
ghost use Rattle.manager.specs.Limits.{AreWithinLimit};

use crate::{Closed, Manager, Names, Pass};
use desk_core::Desk;
use disk_api::Disk;
use outlet_api::{ExportFault, Outlet};
use signer_api::Signer;
use signer_ring::Ring;
use std::alloc::Global;
use std::sync::Wait;

/// What is left of a store beside its desks: the press's disk, the signers and the outlet; and whether the last edition
/// had to be brought to the outlet in the end, or why it couldn't be.
#[derive(Drop)]
pub struct ClosedStore<D: Disk, S: Signer, O: Outlet> {
    pub disk: D,
    pub ring: Ring<S>,
    pub outlet: O,
    pub repeated: Result<bool, ExportFault<O>>,
}

impl<N: Names, D: Disk, S: Signer, O: Outlet> Manager<N, D, S, O> {
    /// Puts the desks into an empty list with room for them, by their numbers, and hands back what the press had.
    /// Where the last export failed it is repeated first. The pass is the one that all others were joined into.
    ///
    /// It waits for ever where a pass is missing that made a command.
    pub fn close<R: Wait>(
        self,
        rt: &R,
        alloc: Global,
        pass: Pass<N>,
        into: &mut Vec<Desk<D>>,
    ) -> ClosedStore<D, S, O>
        requires empty { into.old.items ≡ [] }
        requires room { most_authorities ≤ vec_capacity into.old }
        ensures ended { AreEnded pass.seats into.new.items }
        ensures left { AreLeftDesks (length N.named.signers) into.new.items }
        ensures faults { AreRisenDesks D.Disk N.named into.new.items }
        ensures limits { AreWithinLimit N.named into.new.items }
        ensures ends { AreEnds D.Disk O.Outlet N.named pass.shown into.new.items result.disk result.ring result.outlet result.repeated }
    {
        let (desks, press) = self.into_parts();
        let mut press = press;
        let mut pass = pass;
        desks.learn_all(rt, alloc, &mut press, &mut pass);
        pass.tell(rt, &mut press);
        desks.close(rt, alloc, pass, into);
        let repeated = press.repeat_export(alloc);
        let Closed {
            disk,
            ring,
            outlet,
            ..
        } = press.close(rt);
        ClosedStore {
            disk,
            ring,
            outlet,
            repeated,
        }
    }
}
