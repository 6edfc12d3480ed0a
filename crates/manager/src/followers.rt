//! Those who follow the desks' words.
ghost use Rattle.std.specs.Prelude.{◌≡◌, ◌<◌, length, slice_set};
ghost use mathlib.Core.List.{IsPrefix};
ghost use Rattle.manager.specs.Lists.{seat_at, IsListed};

use crate::{LockedDesk, Names};
use commit_word::{Follower, Word};
use disk_api::Disk;
use std::alloc::Global;
use std::marker::{Model, PhantomData};

/// A follower of each desk's word, by the desks' numbers.
#[derive(Drop)]
pub struct Followers<N: Names> {
    all: Vec<Follower>,
    of: PhantomData<N>,
}

impl<N: Names> Model for Followers<N> {
    ghost use Rattle.std.specs.Prelude.{List};
    ghost use Rattle.commit_word.specs.Seats.{FollowerSeat};
    ghost use Rattle.manager.specs.Lists.{AreOf};

    ghost Value = { List FollowerSeat };

    ghost view = { λ f. f.all.items };

    ghost invariant = { λ f. AreOf N.words f.all.items };
}

impl<N: Names> Followers<N> {
    ghost use Rattle.manager.specs.Lists.{AreOf};

    /// These followers.
    pub fn new(all: Vec<Follower>) -> Followers<N>
        requires { AreOf N.words all.items }
        ensures { result ≡ all.items }
    {
        Followers {
            all,
            of: PhantomData,
        }
    }

    /// How many there are.
    pub fn len(&self) -> usize
        ensures { result ≡ length self.now }
    {
        self.all.len()
    }

    /// The follower of that place sees the whole list of its desk, whose lock is held.
    pub fn learn<D: Disk>(
        &mut self,
        alloc: Global,
        word: &Word,
        place: usize,
        desk: &mut LockedDesk<N, D>,
    )
        requires place { place < length self.old }
        requires desk { desk.old.desk.number ≡ place }
        requires word { word.now ≡ N.words place }
        ensures set { self.new ≡ slice_set self.old place (record (seat_at self.old place) { seen = desk.old.desk.records }) }
        ensures grows { IsPrefix (seat_at self.old place).seen desk.old.desk.records }
        ensures listed { IsListed (length N.named.signers) desk.old.desk }
        ensures same { desk.new ≡ desk.old }
    {
        desk.tell(alloc, word, &mut self.all[place]);
    }
}
