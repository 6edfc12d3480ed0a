// The seat of the one who adds to the list.
ghost use Rattle.std.specs.Prelude.{◌≡◌, ◌<◌, ◌^◌, ◌++◌, [], ◌∷◌, ℕ, List, Some, None, map, length};
ghost use Rattle.std.specs.Prelude.{slice_get, IsOk, IfOk, IfSome, IfNone};
ghost use mathlib.Core.List.{IsPrefix};
ghost use Rattle.commit_word.specs.Entries.{ShareNoPlace, StandsIn, IsMadeIn, joined, with_coming};

use crate::views::{Bump, Look, SetsAside, TakesIn};
use crate::word::Place;
use crate::{Entries, Follower, Word};
use std::alloc::{AllocError, Global};
use std::marker::Model;

/// The owner's seat, which has seen the list whole. It takes no bytes.
#[derive(Drop)]
pub struct Owner {
    pub(crate) seat: Place,
}

impl Model for Owner {
    ghost use Rattle.std.specs.Prelude.{◌≡◌, [], true};
    ghost use Rattle.commit_word.specs.Seats.{OwnerSeat};

    ghost Value = { OwnerSeat };

    ghost use Rattle.commit_word.specs.inner.Steps.{owner_seat, IsMadeBy, IsOwnedBy};

    ghost view = { λ o. owner_seat o.seat.table_id o.seat.me.0 };

    ghost invariant = { λ o. (o.seat.me.1 ≡ []) × (o.seat.me.0.owns ≡ true)
        × IsMadeBy o.seat.me.0 × IsOwnedBy o.seat.me.0 };
}

impl Owner {
    ghost use Rattle.commit_word.specs.Seats.{follower_seat};

    /// Counts one entry more: the one that is set aside, or where there is none one that the owner made.
    /// It takes no memory and waits for nobody.
    pub fn bump(&mut self, word: &Word)
        requires word { self.old.word ≡ word.now }
        requires room { length self.old.seen < 2 ^ 63 }
        ensures set_aside { IfSome self.old.coming (λ entry.
            self.new ≡ record self.old { seen = self.old.seen ++ entry ∷ []; coming = None }) }
        ensures own { IfNone self.old.coming ((entry : List ℕ) × (self.new ≡ record self.old {
          seen = self.old.seen ++ entry ∷ [];
          mine = self.old.mine ++ (length self.old.seen, entry) ∷ [];
        })) }
        ensures placed { IsMadeIn self.new.recovered self.new.seen self.new.mine }
        ensures stands { StandsIn (with_coming self.new.seen self.new.coming) self.new.mine }
    {
        word.table.shared.fetch_add::<Bump>(&mut self.seat, 0, 1);
    }

    /// A follower that has seen the list, and made nothing. A seat takes no memory today, so it is never
    /// refused.
    pub fn split(&mut self, _alloc: Global, word: &Word) -> Result<Follower, AllocError>
        requires { self.old.word ≡ word.now }
        ensures same { self.new ≡ self.old }
        ensures taken { IsOk result }
        ensures given { IfOk result (λ f. f ≡ follower_seat self.old []) }
    {
        let seat = word.copied(&mut self.seat);
        Ok(Follower { seat })
    }

    /// A follower that has seen the list, and made the one entry of `E`, which is set aside to come next.
    /// It is never refused.
    pub fn split_for<E: Entries>(
        &mut self,
        _alloc: Global,
        word: &Word,
    ) -> Result<Follower, AllocError>
        requires word { self.old.word ≡ word.now }
        requires one { length E.list ≡ 1 }
        requires none { self.old.coming ≡ None }
        ensures noted { self.new ≡ record self.old { coming = slice_get E.list 0 } }
        ensures stands { StandsIn (with_coming self.new.seen self.new.coming) self.new.mine }
        ensures taken { IsOk result }
        ensures given { IfOk result (λ f.
            f ≡ follower_seat self.old (map (λ entry. (length self.old.seen, entry)) E.list)) }
    {
        let seat = word.table.shared.split_seat::<SetsAside<E>>(&mut self.seat);
        Ok(Follower { seat })
    }

    /// Takes in a follower: what it made is the owner's from then on. It takes no memory.
    pub fn join(&mut self, word: &Word, other: Follower)
        requires word { self.old.word ≡ word.now }
        requires other { other.word ≡ word.now }
        ensures both { self.new ≡ record self.old { mine = joined self.old.mine other.mine } }
        ensures begins { IsPrefix other.seen self.old.seen }
        ensures apart { ShareNoPlace self.old.mine other.mine }
        ensures placed { IsMadeIn self.new.recovered self.new.seen self.new.mine }
        ensures stands { StandsIn (with_coming self.new.seen self.new.coming) self.new.mine }
    {
        let Follower { seat } = other;
        word.table.shared.join_seat::<TakesIn>(&mut self.seat, seat);
        word.table.shared.load::<Look>(&mut self.seat, 0);
    }
}
