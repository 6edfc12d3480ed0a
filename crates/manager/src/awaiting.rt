//! Looking at the board until it shows an edition.
ghost use Rattle.std.specs.Prelude.{◌≡◌, ◌≤◌};
ghost use mathlib.Core.List.{IsPrefix};
ghost use Rattle.notice_board.specs.Lists.{last_serial};
ghost use Rattle.manager.specs.Awaiting.{IsAwaited, IsAwaitedAt};

use crate::{Manager, Names, Pass};
use disk_api::Disk;
use outlet_api::Outlet;
use signer_api::Signer;

/// What came of looking for an edition.
#[derive(Clone, Copy, Debug, PartialEq, Eq)]
pub enum Awaited {
    /// The edition of that serial is shown. It is the one that was asked for, or a later one.
    Reached { serial: u64 },
    /// The last look saw the edition of that serial, which is before the one that was asked for.
    NotYet { seen: u64 },
}

impl<N: Names, D: Disk, S: Signer, O: Outlet> Manager<N, D, S, O> {
    /// Looks at the board until it shows the edition of that serial or a later one, so many times at most, but once at
    /// least. It waits for nobody.
    pub fn await_edition(&self, pass: &mut Pass<N>, serial: u64, looks: u64) -> Awaited
        ensures rest { pass.new ≡ record pass.old { shown = pass.new.shown } }
        ensures grows { IsPrefix pass.old.shown pass.new.shown }
        ensures never_falls { last_serial pass.old.shown ≤ last_serial pass.new.shown }
        ensures awaited { IsAwaited serial pass.new.shown result }
    {
        let mut seen = self.look(pass);
        for _ in 1..looks {
            if seen >= serial {
                break;
            }
            seen = self.look(pass);
        }
        awaited_by(serial, seen)
    }
}

// What the last look comes to.
fn awaited_by(serial: u64, seen: u64) -> Awaited
    ensures { IsAwaitedAt serial seen result }
{
    if serial <= seen {
        Awaited::Reached { serial: seen }
    } else {
        Awaited::NotYet { seen }
    }
}
