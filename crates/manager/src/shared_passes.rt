//! The passes of sessions: split off before they are served, and joined again.
ghost use Rattle.std.specs.Prelude.{◌≡◌, ◌≤◌, ◌-◌, [], ◌∷◌, ℕ, List, All, length, vec_capacity, IfOk, OnOk, OnErr};
ghost use mathlib.Core.List.{IsPrefix};
ghost use Rattle.authority_book.specs.Verdict.{most_authorities};
ghost use Rattle.notice_board.specs.declared.shown.ShownEdition.{ShownEdition};
ghost use Rattle.manager.specs.Passes.{IsSplitOff};
ghost use Rattle.manager.specs.Ended.{AreLeftDesks};
ghost use Rattle.manager.specs.Ends.{AreEnds};
ghost use Rattle.manager.specs.Risen.{AreRisenDesks};
ghost use Rattle.manager.specs.Limits.{AreWithinLimit};
ghost use Rattle.manager.specs.Sharing.{pass_at, IsOfAll, AreShared};

use crate::{ClosedStore, Manager, Names, Pass};
use commit_word::laws::joined_has_both;
use desk_core::Desk;
use disk_api::Disk;
use outlet_api::Outlet;
use signer_api::Signer;
use std::alloc::{AllocError, Global};
use std::sync::Wait;

/// How many passes can be split off the first one, so how many sessions there are at most.
pub const MOST_SESSIONS: usize = 8;

impl<N: Names, D: Disk, S: Signer, O: Outlet> Manager<N, D, S, O> {
    /// So many passes for sessions, each with a place of the pass that it is split off. Where there is no memory
    /// the pass has lost the places of those that were split off before, and no more.
    pub fn split_passes(
        &self,
        alloc: Global,
        pass: &mut Pass<N>,
        count: usize,
    ) -> Result<Vec<Pass<N>>, AllocError>
        requires { count ≤ pass.old.places }
        ensures count { IfOk result (λ others. length others.items ≡ count) }
        ensures given { IfOk result (λ others. All (IsSplitOff pass.old) others.items) }
        ensures taken { OnOk result (pass.new ≡ record pass.old { places = pass.old.places - count }) }
        ensures rest { OnErr result (pass.new ≡ record pass.old { places = pass.new.places }) }
    {
        let mut others = Vec::with_capacity(alloc, count)?;
        for _ in 0..count {
            let other = self.desks().split_pass(alloc, pass)?;
            others.push_reserved(other);
        }
        Ok(others)
    }

    /// Takes in the passes of all sessions.
    ///
    /// It would wait for memory where they had more places than the first pass, which never comes: the room for as many
    /// was taken when the pass was made.
    pub fn join_passes<R: Wait>(&self, rt: &R, pass: &mut Pass<N>, others: Vec<Pass<N>>)
        ensures { IsOfAll (pass.old ∷ others.items) pass.new }
    {
        joined_has_both();
        let mut others = others;
        for _ in 0..others.len() {
            let Some(other) = others.pop() else {
                unreachable!()
            };
            self.desks().join_pass(rt, pass, other);
        }
    }

    /// Takes in the passes of all sessions, and puts the desks into an empty list with room for them, by their
    /// numbers, and hands back what the press had. Each command that a desk accepted was given with one of the
    /// passes.
    ///
    /// It waits for ever where a pass is missing that made a command.
    pub fn close_all<R: Wait>(
        self,
        rt: &R,
        alloc: Global,
        pass: Pass<N>,
        others: Vec<Pass<N>>,
        into: &mut Vec<Desk<D>>,
    ) -> ClosedStore<D, S, O>
        requires empty { into.old.items ≡ [] }
        requires room { most_authorities ≤ vec_capacity into.old }
        ensures shared { AreShared (pass ∷ others.items) into.new.items }
        ensures left { AreLeftDesks (length N.named.signers) into.new.items }
        ensures faults { AreRisenDesks D.Disk N.named into.new.items }
        ensures limits { AreWithinLimit N.named into.new.items }
        ensures ends { (viewed : List ShownEdition) × ((number : ℕ) → IsPrefix (pass_at (pass ∷ others.items) number).shown viewed)
            × AreEnds D.Disk O.Outlet N.named viewed into.new.items result.disk result.ring result.outlet result.repeated }
    {
        let mut pass = pass;
        self.join_passes(rt, &mut pass, others);
        self.close(rt, alloc, pass, into)
    }
}
