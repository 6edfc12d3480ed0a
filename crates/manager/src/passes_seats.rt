//! A pass's seat at the word of one desk.
ghost use Rattle.std.specs.Prelude.{◌≡◌, ◌<◌, ◌+◌, ◌-◌, ◌^◌, [], true, length, IfOk, IfErr};
ghost use mathlib.Core.List.{IsPrefix};
ghost use Rattle.manager.specs.Lists.{IsListed};
ghost use Rattle.manager.specs.Passes.{unmade, IsJoinedSeat};
ghost use Rattle.manager.specs.Commanding.{IsTaken, IsRefusedAt};
ghost use Rattle.manager.specs.Ended.{IsAllMade};

use crate::{LockedDesk, Names};
use authority_book::Command;
use commit_word::laws::{as_many_as_places_are_all, joined_has_both};
use commit_word::{Follower, Word};
use desk_core::DeskFault;
use disk_api::Disk;
use std::alloc::Global;
use std::marker::Model;
use std::sync::Wait;

/// A follower of a desk's word. The program keeps how many records the desk had when its word began to count,
/// and how many of those behind them the follower made.
#[derive(Drop)]
pub struct DeskSeat {
    follower: Follower,
    recovered: u64,
    made: u64,
}

impl Model for DeskSeat {
    ghost use Rattle.std.specs.Prelude.{◌≡◌, length};
    ghost use Rattle.commit_word.specs.Seats.{FollowerSeat};
    ghost use Rattle.manager.specs.inner.AtPlaces.{counted_up, AreWithin};

    ghost Value = { FollowerSeat };

    ghost view = { λ s. s.follower };

    ghost invariant = { λ s. (s.recovered ≡ s.follower.recovered) × (s.made ≡ counted_up (length s.follower.mine))
        × AreWithin s.follower.mine (length s.follower.seen) };
}

impl DeskSeat {
    /// The seat of a follower that made nothing.
    pub fn new(follower: Follower, recovered: u64) -> DeskSeat
        requires none { follower.mine ≡ [] }
        requires recovered { recovered ≡ follower.recovered }
        ensures { result ≡ follower }
    {
        DeskSeat {
            follower,
            recovered,
            made: 0,
        }
    }

    /// Sees the whole list of the desk, whose lock is held.
    pub fn learn<N: Names, D: Disk>(
        &mut self,
        alloc: Global,
        word: &Word,
        desk: &mut LockedDesk<N, D>,
    )
        requires word { word.now ≡ N.words desk.old.desk.number }
        requires seat { self.old.word ≡ word.now }
        ensures told { self.new ≡ record self.old { seen = desk.old.desk.records } }
        ensures grows { IsPrefix self.old.seen desk.old.desk.records }
        ensures listed { IsListed (length N.named.signers) desk.old.desk }
        ensures same { desk.new ≡ desk.old }
    {
        desk.tell(alloc, word, &mut self.follower);
    }

    /// Gives the desk a command, whose lock is held.
    pub fn commit<N: Names, D: Disk>(
        &mut self,
        alloc: Global,
        word: &Word,
        desk: &mut LockedDesk<N, D>,
        command: Command,
        signers: u32,
    ) -> Result<u64, DeskFault<D>>
        requires word { word.now ≡ N.words desk.old.desk.number }
        requires seat { self.old.word ≡ word.now }
        requires signers { signers ≡ length N.named.signers }
        ensures taken { IfOk result (λ count. IsTaken desk.old.desk.number command signers count self.old self.new) }
        ensures refused { IfErr result (λ fault. IsRefusedAt desk.old.desk.number command signers fault self.old self.new) }
        ensures whole { self.new.seen ≡ desk.new.desk.records }
        ensures kept { (self.new.word ≡ self.old.word) × (self.new.recovered ≡ self.old.recovered) }
        ensures listed { IsListed (length N.named.signers) desk.new.desk }
        ensures number { desk.new.desk.number ≡ desk.old.desk.number }
    {
        let count = match desk.commit(alloc, word, &mut self.follower, command, signers) {
            Ok(count) => count,
            Err(fault) => return Err(fault),
        };
        self.made = self.made.saturating_add(1);
        Ok(count)
    }

    /// A seat that has seen the same, and made nothing.
    pub fn split(&mut self, alloc: Global, word: &Word) -> DeskSeat
        requires { self.old.word ≡ word.now }
        ensures same { self.new ≡ self.old }
        ensures given { result ≡ unmade self.old }
    {
        let Ok(follower) = self.follower.split(alloc, word) else {
            unreachable!()
        };
        DeskSeat {
            follower,
            recovered: self.recovered,
            made: 0,
        }
    }

    /// Takes in another seat at the word: what either has seen is seen, and what both made is this one's.
    pub fn join(&mut self, word: &Word, other: DeskSeat)
        requires seat { self.old.word ≡ word.now }
        requires other { other.word ≡ word.now }
        ensures { IsJoinedSeat self.old other self.new }
    {
        joined_has_both();
        let DeskSeat { follower, made, .. } = other;
        self.follower.join(word, follower);
        self.made = self.made.saturating_add(made);
    }

    /// Sees the whole list of the desk, and that this seat made all of it behind the recovered records. It waits
    /// for ever where another seat made one of them, which never comes once all were joined.
    pub fn end<N: Names, D: Disk, R: Wait>(
        &mut self,
        rt: &R,
        alloc: Global,
        word: &Word,
        desk: &mut LockedDesk<N, D>,
    )
        requires word { word.now ≡ N.words desk.old.desk.number }
        requires seat { self.old.word ≡ word.now }
        ensures begins { IsPrefix self.old.seen desk.old.desk.records }
        ensures made { IsAllMade self.old.recovered self.old.mine desk.old.desk.records }
        ensures same { desk.new ≡ desk.old }
    {
        as_many_as_places_are_all();
        self.follower.load(word);
        self.learn(alloc, word, desk);
        if are_all(self.made, self.recovered, desk.len()) {
            return;
        }
        for _ in rt.forever() {}
        unreachable!()
    }
}

// Whether so many made ones are all behind the recovered ones. The count of those made stands still at its end.
fn are_all(made: u64, recovered: u64, count: u64) -> bool
    ensures { result ≡ true → (made + recovered ≡ count) × (made < 2 ^ 64 - 1) }
{
    recovered <= count && count - recovered == made && made < u64::MAX
}
