// The word.
ghost use Rattle.std.specs.Prelude.{◌≡◌, [], None, length, IfOk};
ghost use Rattle.commit_word.specs.inner.Steps.{follower_of};

use crate::Entries;
use crate::owner::Owner;
use crate::recovered::{Recovered, recovered};
use crate::views::{Copies, Counts, View};
use atomic_table::{Seat, Table};
use std::alloc::{AllocError, Global};
use std::marker::Model;

/// The length of a list, which threads share. Contracts see which word it is.
#[derive(Drop)]
pub struct Word {
    pub(crate) table: Table<(), View, Recovered, Counts, Global>,
}

impl Model for Word {
    ghost use Rattle.std.specs.Prelude.{◌≡◌};
    ghost use Rattle.atomic_table.specs.Seated.{TableId};

    ghost Value = { TableId };

    ghost view = { λ w. w.table.shared.table_id };

    ghost invariant = { λ w. (w.table.shared.table_id.words ≡ 1)
        × (w.table.shared.table_id.slots ≡ 0) };
}

/// A seat at a word.
pub(crate) type Place = Seat<(), View>;

impl Word {
    /// A word that counts the recovered list `E`, with the seat of its owner. `count` is how many
    /// entries it has.
    pub fn new<E: Entries>(alloc: Global, count: u64) -> Result<(Word, Owner), AllocError>
        requires { length E.list ≡ count }
        ensures { IfOk result (λ r.
            r.1 ≡ record { word = r.0; recovered = count; seen = E.list; mine = []; coming = None }) }
    {
        let (table, seat) = Table::of_words(alloc, &[count], &recovered::<E>())?;
        Ok((Word { table }, Owner { seat }))
    }

    /// The seat of a follower that has seen what this seat has, and made nothing.
    pub(crate) fn copied(&self, seat: &mut Place) -> Place
        requires { seat.old.table_id ≡ self.now }
        ensures same { (seat.new.table_id ≡ seat.old.table_id) × (seat.new.me ≡ seat.old.me) }
        ensures given { (result.table_id ≡ self.now)
            × (result.me ≡ (follower_of seat.old.me.0 [], [])) }
    {
        self.table.shared.split_seat::<Copies>(seat)
    }

    /// The length of the list at the end.
    pub fn close(self, owner: Owner) -> u64
        requires { owner.word ≡ self }
        ensures { result ≡ length owner.seen }
    {
        let Word { table } = self;
        let Owner { seat } = owner;
        let closed = table.close_with(seat);
        let count = closed.word(0);
        closed.free();
        count
    }
}
