//! What the desks have accepted, seen desk by desk: each desk's lock is given back before the next is taken.
ghost use Rattle.std.specs.Prelude.{◌≡◌, ◌≢◌, ◌<◌, ℕ, List, length, IfOk, OnOk};
ghost use Rattle.std.specs.Sync.Mutex.{mutex_guard_value};
ghost use Rattle.authority_book.specs.declared.commands.Command.{Command};
ghost use Rattle.authority_book.specs.Verdict.{most_authorities};
ghost use Rattle.manager.specs.Lists.{AreSeen, seat_at};
ghost use Rattle.manager.specs.Gathered.{AreSince};
ghost use Rattle.manager.specs.Passes.{KnowsMore};
ghost use Rattle.manager.specs.inner.Gathering.{IsSinceSeen, SeeAlikeAt, SeeAlike};

use crate::{LockedDesks, LockedPress, Names, Pass};
use desk_core::commands_are_determined;
use disk_api::Disk;
use editions::Gathered;
use outlet_api::Outlet;
use signer_api::Signer;
use std::alloc::{AllocError, Global};
use std::sync::Wait;

impl<N: Names, D: Disk> LockedDesks<N, D> {
    /// Gathers what each desk has accepted behind the press's cut. The press, whose lock is held, and the pass
    /// see the whole list of each.
    pub(crate) fn gather<S: Signer, O: Outlet, R: Wait>(
        &self,
        rt: &R,
        alloc: Global,
        press: &mut LockedPress<N, D, S, O>,
        pass: &mut Pass<N>,
    ) -> Result<Vec<Gathered>, AllocError>
        ensures press { press.new ≡ record press.old { seats = press.new.seats } }
        ensures pass { pass.new ≡ record pass.old { seats = pass.new.seats } }
        ensures more { KnowsMore pass.old.seats pass.new.seats }
        ensures alike { OnOk result (SeeAlike press.new.seats pass.new.seats) }
        ensures since { IfOk result (λ groups. (lists : List (List Command)) → AreSeen (length N.named.signers) lists press.new.seats
            → AreSince 0 lists press.old.press.press.at.cut groups.items) }
    {
        let count = press.desks();
        pass.desks();
        let mut groups = Vec::with_capacity(alloc, count)?;
        for place in 0..count {
            let group = self.gather_one(rt, alloc, press, pass, place)?;
            groups.push(group)?;
        }
        Ok(groups)
    }

    // Gathers what a desk has accepted.
    fn gather_one<S: Signer, O: Outlet, R: Wait>(
        &self,
        rt: &R,
        alloc: Global,
        press: &mut LockedPress<N, D, S, O>,
        pass: &mut Pass<N>,
        place: usize,
    ) -> Result<Gathered, AllocError>
        requires place { place < most_authorities }
        requires press { length press.old.seats ≡ most_authorities }
        ensures press { press.new ≡ record press.old { seats = press.new.seats } }
        ensures count { length press.new.seats ≡ length press.old.seats }
        ensures others { (other : ℕ) → other ≢ place → seat_at press.new.seats other ≡ seat_at press.old.seats other }
        ensures pass { pass.new ≡ record pass.old { seats = pass.new.seats } }
        ensures more { KnowsMore pass.old.seats pass.new.seats }
        ensures apart { (other : ℕ) → other ≢ place → seat_at pass.new.seats other ≡ seat_at pass.old.seats other }
        ensures alike { SeeAlikeAt press.new.seats pass.new.seats place }
        ensures since { IfOk result (IsSinceSeen press.new.seats press.old.press.press.at.cut place) }
    {
        commands_are_determined();
        let mut guard = self.locked(rt, place);
        let desk = &mut *guard;
        pass.learn(alloc, self.word(place), place, desk);
        press.gather(alloc, self.word(place), place, desk)
    }

    /// The press and the pass see the whole list of each desk.
    pub(crate) fn learn_all<S: Signer, O: Outlet, R: Wait>(
        &self,
        rt: &R,
        alloc: Global,
        press: &mut LockedPress<N, D, S, O>,
        pass: &mut Pass<N>,
    )
        ensures press { press.new ≡ record press.old { seats = press.new.seats } }
        ensures pass { pass.new ≡ record pass.old { seats = pass.new.seats } }
        ensures more { KnowsMore pass.old.seats pass.new.seats }
        ensures alike { SeeAlike press.new.seats pass.new.seats }
    {
        pass.desks();
        for place in 0..press.desks() {
            self.learn_one(rt, alloc, press, pass, place);
        }
    }

    // They see the whole list of a desk.
    fn learn_one<S: Signer, O: Outlet, R: Wait>(
        &self,
        rt: &R,
        alloc: Global,
        press: &mut LockedPress<N, D, S, O>,
        pass: &mut Pass<N>,
        place: usize,
    )
        requires place { place < most_authorities }
        requires press { length press.old.seats ≡ most_authorities }
        ensures press { press.new ≡ record press.old { seats = press.new.seats } }
        ensures count { length press.new.seats ≡ length press.old.seats }
        ensures others { (other : ℕ) → other ≢ place → seat_at press.new.seats other ≡ seat_at press.old.seats other }
        ensures pass { pass.new ≡ record pass.old { seats = pass.new.seats } }
        ensures more { KnowsMore pass.old.seats pass.new.seats }
        ensures apart { (other : ℕ) → other ≢ place → seat_at pass.new.seats other ≡ seat_at pass.old.seats other }
        ensures alike { SeeAlikeAt press.new.seats pass.new.seats place }
    {
        let mut guard = self.locked(rt, place);
        let desk = &mut *guard;
        pass.learn(alloc, self.word(place), place, desk);
        press.learn(alloc, self.word(place), place, desk);
    }
}
