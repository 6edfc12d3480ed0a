//! The words that count the desks' commands.
ghost use Rattle.std.specs.Prelude.{◌≡◌, ◌<◌, length};

use crate::Names;
use commit_word::Word;
use std::marker::{Model, PhantomData};

/// The words of the desks, by the desks' numbers. Contracts see how many there are.
#[derive(Drop)]
pub struct Words<N: Names> {
    all: Vec<Word>,
    of: PhantomData<N>,
}

impl<N: Names> Model for Words<N> {
    ghost use Rattle.std.specs.Prelude.{ℕ, length};
    ghost use Rattle.manager.specs.inner.AtPlaces.{AreWords};

    ghost Value = { ℕ };

    ghost view = { λ w. length w.all.items };

    ghost invariant = { λ w. AreWords N.words w.all.items };
}

impl<N: Names> Words<N> {
    ghost use Rattle.manager.specs.inner.AtPlaces.{AreWords};

    /// These words.
    pub fn new(all: Vec<Word>) -> Words<N>
        requires { AreWords N.words all.items }
        ensures { result ≡ length all.items }
    {
        Words {
            all,
            of: PhantomData,
        }
    }

    /// The words, by the desks' numbers.
    pub(crate) fn into_vec(self) -> Vec<Word>
        ensures count { length result.items ≡ self }
        ensures words { AreWords N.words result.items }
    {
        self.all
    }

    /// How many there are.
    pub fn len(&self) -> usize
        ensures { result ≡ self.now }
    {
        self.all.len()
    }

    /// The word of that desk.
    pub fn at(&self, desk: usize) -> &Word
        requires { desk < self.now }
        ensures { result.now ≡ N.words desk }
    {
        &self.all[desk]
    }
}
