// The seat of one who knows a part of the list.
ghost use Rattle.std.specs.Prelude.{◌≡◌, ◌≤◌, [], ℕ, List, length, IsOk, IfOk};
ghost use mathlib.Core.List.{IsPrefix};
ghost use Rattle.commit_word.specs.Entries.{Has, ShareNoPlace, joined, longer, IsMadeIn};

use crate::Word;
use crate::views::{Load, Look, Meets};
use crate::word::Place;
use std::alloc::{AllocError, Global};
use std::marker::Model;

/// A follower's seat, which has seen a prefix of the list. It takes no bytes.
#[derive(Drop)]
pub struct Follower {
    pub(crate) seat: Place,
}

impl Model for Follower {
    ghost use Rattle.std.specs.Prelude.{◌≡◌, [], false};
    ghost use Rattle.commit_word.specs.Seats.{FollowerSeat};

    ghost Value = { FollowerSeat };

    ghost use Rattle.commit_word.specs.inner.Steps.{follower_seat_of, IsMadeBy};

    ghost view = { λ f. follower_seat_of f.seat.table_id f.seat.me.0 };

    ghost invariant = { λ f. (f.seat.me.1 ≡ []) × (f.seat.me.0.owns ≡ false) × IsMadeBy f.seat.me.0 };
}

impl Follower {
    /// Sees the list as it is, and answers its length. It takes no memory and waits for nobody.
    pub fn load(&mut self, word: &Word) -> u64
        requires { self.old.word ≡ word.now }
        ensures rest { self.new ≡ record self.old { seen = self.new.seen } }
        ensures grows { IsPrefix self.old.seen self.new.seen }
        ensures counted { length self.new.seen ≡ result }
        ensures placed { IsMadeIn self.new.recovered self.new.seen self.new.mine }
        ensures near { (place : ℕ) (entry : List ℕ) → Has self.new.mine place entry → place ≤ result }
    {
        word.table.shared.load::<Load>(&mut self.seat, 0)
    }

    /// A follower that has seen what this one has, and made nothing. A seat takes no memory today, so it
    /// is never refused.
    pub fn split(&mut self, _alloc: Global, word: &Word) -> Result<Follower, AllocError>
        requires { self.old.word ≡ word.now }
        ensures same { self.new ≡ self.old }
        ensures taken { IsOk result }
        ensures given { IfOk result (λ f. f ≡ record self.old { mine = [] }) }
    {
        let seat = word.copied(&mut self.seat);
        Ok(Follower { seat })
    }

    /// Takes in another follower: it has seen what either has, and what both made is its own from then
    /// on. It takes no memory.
    pub fn join(&mut self, word: &Word, other: Follower)
        requires word { self.old.word ≡ word.now }
        requires other { other.word ≡ word.now }
        ensures both { self.new ≡ record self.old {
          seen = longer self.old.seen other.seen;
          mine = joined self.old.mine other.mine;
        } }
        ensures grows { IsPrefix self.old.seen self.new.seen }
        ensures begins { IsPrefix other.seen self.new.seen }
        ensures apart { ShareNoPlace self.old.mine other.mine }
        ensures placed { IsMadeIn self.new.recovered self.new.seen self.new.mine }
    {
        let Follower { seat } = other;
        word.table.shared.join_seat::<Meets>(&mut self.seat, seat);
        word.table.shared.load::<Look>(&mut self.seat, 0);
    }

    /// Is told by another follower what that one has seen, and sees the list as it is. It is never
    /// refused.
    pub fn meet(
        &mut self,
        alloc: Global,
        word: &Word,
        other: &mut Follower,
    ) -> Result<(), AllocError>
        requires word { self.old.word ≡ word.now }
        requires other { other.old.word ≡ word.now }
        ensures same { other.new ≡ other.old }
        ensures taken { IsOk result }
        ensures rest { self.new ≡ record self.old { seen = self.new.seen } }
        ensures grows { IsPrefix self.old.seen self.new.seen }
        ensures begins { IsPrefix other.old.seen self.new.seen }
        ensures placed { IsMadeIn self.new.recovered self.new.seen self.new.mine }
        ensures near { (place : ℕ) (entry : List ℕ)
            → Has self.new.mine place entry → place ≤ length self.new.seen }
    {
        let note = other.split(alloc, word)?;
        self.join(word, note);
        self.load(word);
        Ok(())
    }
}
