// What the seats know, and what each step does to it.
use crate::Entries;
use crate::recovered::Recovered;
use atomic_table::{Join, Play, Split, TableRule};
use std::collections::LinkedList;
use std::marker::PhantomData;

/// What a seat knows. No value of it is made.
pub struct View {
    /// Whether it is the owner.
    pub owns: bool,
    /// How many entries were recovered.
    pub recovered: u64,
    /// What it has seen of the list.
    pub seen: LinkedList<LinkedList<u8>>,
    /// What it was told of when it took in another seat.
    pub told: LinkedList<LinkedList<u8>>,
    /// The entries that it made, each with its place.
    pub mine: LinkedList<(u64, LinkedList<u8>)>,
    /// The owner's entry that is set aside to come next.
    pub coming: Option<LinkedList<u8>>,
}

/// The rule of the count word.
pub struct Counts;

impl TableRule<(), View, Recovered> for Counts {
    ghost use Rattle.commit_word.specs.Rule.{KeepsWordRule};
    ghost use Rattle.commit_word.specs.inner.Steps.{first_owner};

    ghost holds = { λ recovered state. KeepsWordRule recovered.log state.words state.views };

    ghost first = { λ recovered. first_owner recovered.log };
}

/// A follower sees the list whole.
pub struct Load;

impl Play<(), View> for Load {
    ghost use Rattle.commit_word.specs.inner.Steps.{Loads};

    ghost then = { Loads };
}

/// A seat is told what the rule says of it.
pub struct Look;

impl Play<(), View> for Look {
    ghost use Rattle.commit_word.specs.inner.Steps.{Looks};

    ghost then = { Looks };
}

/// The owner counts one entry more.
pub struct Bump;

impl Play<(), View> for Bump {
    ghost use Rattle.commit_word.specs.inner.Steps.{Bumps};

    ghost then = { Bumps };
}

/// A new follower has seen what the seat has.
pub struct Copies;

impl Split<View> for Copies {
    ghost use Rattle.std.specs.Prelude.{[]};
    ghost use Rattle.commit_word.specs.inner.Steps.{follower_of};

    ghost left = { λ v. v };

    ghost right = { λ v. follower_of v [] };
}

/// The same of the owner, and the new follower made the entry that comes next.
pub struct SetsAside<E> {
    of: PhantomData<E>,
}

impl<E: Entries> Split<View> for SetsAside<E> {
    ghost use Rattle.commit_word.specs.inner.Steps.{set_aside, made_aside};

    ghost left = { set_aside E.list };

    ghost right = { made_aside E.list };
}

/// A follower takes in another.
pub struct Meets;

impl Join<View> for Meets {
    ghost use Rattle.commit_word.specs.inner.Steps.{both_seats, spent};

    ghost both = { both_seats };

    ghost spent = { spent };
}

/// The owner takes in a follower.
pub struct TakesIn;

impl Join<View> for TakesIn {
    ghost use Rattle.commit_word.specs.inner.Steps.{owner_with, spent};

    ghost both = { owner_with };

    ghost spent = { spent };
}
