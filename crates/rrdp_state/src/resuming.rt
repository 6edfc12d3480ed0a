//! A session that is taken up again (RFC 8182 section 3.3.1).

ghost use Rattle.std.specs.Prelude.{◌≡◌, ◌+◌, ◌<◌, ◌^◌, ℕ, List, ◌∷◌, length, IfOk};
ghost use Rattle.rrdp_state.specs.Editions.{Edition, FollowEachOther, next_delta, edition_delta};
ghost use Rattle.rrdp_state.specs.Exported.{Repository};
ghost use Rattle.rrdp_state.specs.State.{StandsFor};
ghost use Rattle.rrdp_state.specs.Resuming.{IsToldBy, IsEnough};

use crate::next::NextDelta;
use crate::state::Rrdp;
use key_ids::Site;
use pub_set::{Change, ObjectSet};
use std::alloc::{AllocError, Global};
use std::marker::Model;
use uuid::Uuid;

/// So many of the newest editions tell all that is kept of a session: at most sixteen deltas are
/// named, by each of the last three notifications.
pub const TELLING_EDITIONS: u64 = 18;

/// A session that is taken up again behind editions that were published before.
///
/// It takes in the newest of them, and writes their deltas as far as they are named, but no snapshot.
#[derive(Drop)]
pub struct Resuming {
    rrdp: Rrdp,
}

impl Model for Resuming {
    ghost use Rattle.rrdp_state.specs.Kept.{Kept};

    ghost Value = { Kept };

    ghost view = { λ resuming. resuming.rrdp };
}

impl Resuming {
    /// The session behind the edition with that serial, of which nothing is told, or before the first
    /// one.
    pub fn behind(
        alloc: Global,
        session: Uuid,
        site: &Site,
        serial: u64,
    ) -> Result<Resuming, AllocError>
        ensures { IfOk result (λ resuming. (editions : List Edition)
            → FollowEachOther editions → length editions ≡ serial
            → IsToldBy (record { session = session; base = site.now.rrdp }) 0 editions resuming) }
    {
        Ok(Resuming {
            rrdp: Rrdp::behind(alloc, session, site, serial)?,
        })
    }

    /// The serial of the newest edition that was taken in, and 0 before the first one.
    pub fn serial(&self) -> u64
        ensures { result ≡ self.now.serial }
    {
        self.rrdp.serial()
    }

    /// The delta of the next edition, by its set and the changes that lead to it: none where it can't be named.
    pub fn next(
        &self,
        alloc: Global,
        set: &ObjectSet,
        changes: &[Change],
    ) -> Result<NextDelta, AllocError>
        requires { self.now.serial < 2 ^ 63 }
        ensures { IfOk result (λ next. next
            ≡ next_delta self.now.session (self.now.serial + 1) set.now changes.now) }
    {
        let serial = self.rrdp.serial() + 1;
        self.rrdp.next(alloc, serial, set, changes)
    }

    /// Takes in the next edition, after which this set stands. Its delta is kept if it is named. It
    /// takes no memory, and time linear in the objects, whatever their bytes are.
    pub fn advance(&mut self, next: NextDelta, set: &ObjectSet)
        ensures told { (repository : Repository) (told : ℕ) (older : List Edition) (edition : Edition)
            → IsToldBy repository told older self.old → FollowEachOther (edition ∷ older)
            → set.now ≡ edition.objects → next ≡ edition_delta repository.session older edition
            → IsToldBy repository (told + 1) (edition ∷ older) self.new }
        ensures session { self.new.session ≡ self.old.session }
        ensures serial { self.new.serial ≡ next.serial }
    {
        self.rrdp.take_in(next, set);
    }

    /// The files of the session after the last edition: those of a run in which all of its editions were
    /// published, where enough of the newest were taken in. Takes no memory.
    pub fn open(self) -> Rrdp
        ensures stands { (repository : Repository) (told : ℕ) (editions : List Edition)
            → IsToldBy repository told editions self → IsEnough told editions
            → StandsFor repository editions result }
        ensures session { result.session ≡ self.session }
        ensures serial { result.serial ≡ self.serial }
    {
        self.rrdp
    }
}
