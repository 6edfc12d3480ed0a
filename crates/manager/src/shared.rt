//! Desks and press behind their locks, which sessions share.
ghost use Rattle.std.specs.Prelude.{◌≡◌, ◌⊎◌, ◌≤◌, ◌<◌, ℕ, List, IfOk, IfErr};
ghost use mathlib.Core.List.{IsPrefix};
ghost use Rattle.commit_word.specs.Seats.{FollowerSeat};
ghost use Rattle.notice_board.specs.Lists.{last_serial};
ghost use Rattle.line_loop.specs.Readings.{IsReading};
ghost use Rattle.manager.specs.Passes.{HasLearned};
ghost use Rattle.manager.specs.Answers.{IsAnswered, IsBehind, IsNextShown, IsNewlyShown, IsStill, IsNotPublished};
ghost use Rattle.manager.specs.Publishing.{IsUngathered, IsMetAt, IsPublication};

use crate::{LockedDesks, LockedPress, Names, Pass, PublishFault, Unmade};
use disk_api::Disk;
use editions::PublishedNumbers;
use line_loop::Clock;
use outlet_api::Outlet;
use press_core::PrepareFault;
use signer_api::Signer;
use std::alloc::Global;
use std::sync::{Mutex, MutexGuard, Wait};
use std::thread::Threads;

/// The desks behind their locks, and the press behind its own. Sessions share it, and each hands its pass to the
/// calls.
pub struct Manager<N: Names, D: Disk, S: Signer, O: Outlet> {
    desks: LockedDesks<N, D>,
    press: Mutex<LockedPress<N, D, S, O>>,
}

impl<N: Names, D: Disk, S: Signer, O: Outlet> Manager<N, D, S, O> {
    /// A manager of these desks and this press.
    pub fn over(desks: LockedDesks<N, D>, press: LockedPress<N, D, S, O>) -> Manager<N, D, S, O> {
        Manager {
            desks,
            press: Mutex::new(press),
        }
    }

    /// The desks: commands go to them, and reads.
    pub fn desks(&self) -> &LockedDesks<N, D> {
        &self.desks
    }

    /// Looks at the board, and answers the serial of the edition that is shown. It waits for nobody.
    pub fn look(&self, pass: &mut Pass<N>) -> u64
        ensures rest { pass.new ≡ record pass.old { shown = pass.new.shown } }
        ensures grows { IsPrefix pass.old.shown pass.new.shown }
        ensures serial { result ≡ last_serial pass.new.shown }
        ensures never_falls { last_serial pass.old.shown ≤ result }
    {
        pass.look()
    }

    /// The desks, and the press out of its lock, once no other thread has them.
    pub(crate) fn into_parts(self) -> (LockedDesks<N, D>, LockedPress<N, D, S, O>) {
        let Manager { desks, press } = self;
        (desks, press.into_inner())
    }
}

impl<N: Names, D: Disk, S: Signer + Send, O: Outlet> Manager<N, D, S, O> {
    /// Publishes all that the desks have accepted, which is no less than the pass has seen, and shows it to the
    /// pass, at the clock's next reading.
    ///
    /// The clock is read here, once, so that no edition is made at a time that isn't a reading of its caller's clock. The
    /// press's lock is held from then on. Each desk's lock is taken while its commands are gathered and given
    /// back before the next: so a command waits for no signature.
    pub fn publish<C: Clock, R: Threads + Wait + Sync>(
        &self,
        rt: &R,
        alloc: Global,
        pass: &mut Pass<N>,
        clock: &mut C,
    ) -> Result<PublishedNumbers, PublishFault<D, O>>
        ensures { (reading : ℕ) × IsReading (C.readings clock.old) reading (C.readings clock.new)
            × IsPublication D.Disk reading result pass.old pass.new }
    {
        let now = clock.now();
        let mut guard = self.press.lock(rt);
        let published = self.publish_held(rt, alloc, &mut *guard, pass, now);
        MutexGuard::unlock(guard);
        published
    }

    // Publishes with the press, whose lock is held. The pass is told first of what was shown before.
    fn publish_held<R: Threads + Wait + Sync>(
        &self,
        rt: &R,
        alloc: Global,
        locked: &mut LockedPress<N, D, S, O>,
        pass: &mut Pass<N>,
        now: u64,
    ) -> Result<PublishedNumbers, PublishFault<D, O>>
        ensures learned { HasLearned pass.old pass.new }
        ensures whole { pass.new.shown ≡ locked.new.board.shown }
        ensures published { IfOk result (λ told. IsAnswered told pass.old.seats pass.new.shown) }
        ensures later { IfOk result (λ told. last_serial pass.old.shown < told.serial) }
        ensures next { IfOk result (λ told. IsNextShown now locked.old.board.shown told locked.new.board.shown) }
        ensures newly { IfOk result (λ told. IsNewlyShown now pass.old.shown told pass.new.shown) }
        ensures still { IfErr result (IsStill now locked.old.board.shown locked.new.board.shown) }
        ensures refused { IfErr result (IsNotPublished pass.old.seats pass.new.shown) }
        ensures cause { IfErr result (λ fault. IsUngathered fault ⊎ IsMetAt D.Disk now fault) }
    {
        pass.tell(rt, locked);
        self.gather_and_publish(rt, alloc, locked, pass, now)
    }

    // Gathers of each desk, and publishes that with the press, whose lock is held.
    fn gather_and_publish<R: Threads + Wait + Sync>(
        &self,
        rt: &R,
        alloc: Global,
        press: &mut LockedPress<N, D, S, O>,
        pass: &mut Pass<N>,
        now: u64,
    ) -> Result<PublishedNumbers, PublishFault<D, O>>
        ensures learned { HasLearned pass.old pass.new }
        ensures whole { pass.new.shown ≡ press.new.board.shown }
        ensures published { IfOk result (λ told. IsAnswered told pass.old.seats pass.new.shown) }
        ensures behind { IfOk result (IsBehind now press.old.press.press.at) }
        ensures next { IfOk result (λ told. IsNextShown now press.old.board.shown told press.new.board.shown) }
        ensures still { IfErr result (IsStill now press.old.board.shown press.new.board.shown) }
        ensures refused { IfErr result (IsNotPublished pass.old.seats pass.new.shown) }
        ensures cause { IfErr result (λ fault. IsUngathered fault ⊎ IsMetAt D.Disk now fault) }
    {
        let gathered = match self.desks.gather(rt, alloc, press, pass) {
            Ok(gathered) => gathered,
            Err(_) => return Err(ungathered(rt, press, pass)),
        };
        pass.publish(rt, alloc, press, now, gathered)
    }
}

// Memory ran out while the desks were gathered.
fn ungathered<N: Names, D: Disk, S: Signer, O: Outlet, R: Wait>(
    rt: &R,
    press: &mut LockedPress<N, D, S, O>,
    pass: &mut Pass<N>,
) -> PublishFault<D, O>
    ensures rest { pass.new ≡ record pass.old { shown = pass.new.shown } }
    ensures grows { IsPrefix pass.old.shown pass.new.shown }
    ensures same { press.new ≡ press.old }
    ensures whole { pass.new.shown ≡ press.new.board.shown }
    ensures refused { (known : List FollowerSeat) → IsNotPublished known pass.new.shown result }
    ensures cause { IsUngathered result }
{
    pass.tell(rt, press);
    PublishFault::Unmade {
        serial: press.serial(),
        fault: Unmade::Unprepared {
            fault: PrepareFault::Memory,
        },
    }
}
