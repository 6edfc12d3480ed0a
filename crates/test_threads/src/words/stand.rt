//! A word with its owner and two followers.
ghost use Rattle.std.specs.Prelude.{◌≡◌, ◌+◌, ◌<◌, ◌≤◌, ◌^◌, IfOk};

use crate::words::commit::commit;
use anyhow::{Result, bail};
use commit_word::{Follower, Owner, Word};
use std::alloc::{AllocError, Global};
use std::marker::{Brand, Model};
use std::sync::Wait;

/// A word, its seats, and the seat that made the entry which is set aside. Contracts see how long the
/// list is.
#[derive(Drop)]
pub struct Stand {
    word: Word,
    owner: Owner,
    reader: Follower,
    other: Follower,
    aside: Option<Follower>,
    // Whether the owner may have an entry set aside.
    noted: bool,
    // The length of the list.
    len: u64,
}

impl Model for Stand {
    ghost use Rattle.std.specs.Prelude.{◌≡◌, ℕ, None, false, length, IfSome};

    ghost Value = { ℕ };

    ghost view = { λ s. s.len };

    ghost invariant = { λ s. (s.owner.word ≡ s.word) × (s.reader.word ≡ s.word) × (s.other.word ≡ s.word)
        × IfSome s.aside (λ f. f.word ≡ s.word) × (s.noted ≡ false → s.owner.coming ≡ None) × (length s.owner.seen ≡ s.len) };
}

impl Stand {
    /// A word over a list of empty entries.
    pub fn new(alloc: Global, count: u64) -> Result<Stand, AllocError>
        ensures { IfOk result (λ s. s ≡ count) }
    {
        let (word, mut owner) = Word::new::<Brand>(alloc, count)?;
        let mut reader = owner.split(alloc, &word)?;
        let other = reader.split(alloc, &word)?;
        Ok(Stand {
            word,
            owner,
            reader,
            other,
            aside: None,
            noted: false,
            len: count,
        })
    }

    /// One step, and the count that it found.
    pub fn step<R: Wait>(&mut self, rt: &R, alloc: Global, letter: u8) -> Result<Option<u64>>
        requires { self.old < 2 ^ 62 }
        ensures { self.new ≤ self.old + 1 }
    {
        match letter {
            b'b' => self.bump(),
            b'p' => self.set_aside(alloc)?,
            b'j' => self.take_in()?,
            b'h' => self.take_home()?,
            b'l' => return Ok(Some(self.reader.load(&self.word))),
            b'o' => return Ok(Some(self.other.load(&self.word))),
            b'm' => self.reader.meet(alloc, &self.word, &mut self.other)?,
            b's' => self.other = self.owner.split(alloc, &self.word)?,
            b'f' => self.other = self.reader.split(alloc, &self.word)?,
            b'c' => return Ok(Some(self.commit(rt, alloc)?)),
            _ => bail!("no such step"),
        }
        Ok(None)
    }

    fn bump(&mut self)
        requires { self.old < 2 ^ 62 }
        ensures { self.new ≡ self.old + 1 }
    {
        self.owner.bump(&self.word);
        self.noted = false;
        self.len += 1;
    }

    fn set_aside(&mut self, alloc: Global) -> Result<()>
        ensures { self.new ≡ self.old }
    {
        if self.noted {
            bail!("an entry is set aside");
        }
        let seat = self.owner.split_for::<Brand>(alloc, &self.word)?;
        self.noted = true;
        self.aside = Some(seat);
        Ok(())
    }

    fn take_in(&mut self) -> Result<()>
        ensures { self.new ≡ self.old }
    {
        let Some(seat) = self.aside.take() else {
            bail!("no seat made an entry");
        };
        self.reader.join(&self.word, seat);
        Ok(())
    }

    fn take_home(&mut self) -> Result<()>
        ensures { self.new ≡ self.old }
    {
        let Some(seat) = self.aside.take() else {
            bail!("no seat made an entry");
        };
        self.owner.join(&self.word, seat);
        Ok(())
    }

    fn commit<R: Wait>(&mut self, rt: &R, alloc: Global) -> Result<u64>
        requires { self.old < 2 ^ 62 }
        ensures { self.new ≤ self.old + 1 }
    {
        if self.noted {
            bail!("an entry is set aside");
        }
        let len = self.len;
        match commit::<Brand, R>(
            rt,
            alloc,
            &self.word,
            &mut self.owner,
            len,
            &mut self.reader,
        )? {
            Some(count) => {
                self.len = count;
                Ok(count)
            }
            None => bail!("the word counts another list"),
        }
    }

    /// The length of the list at the end.
    pub fn close(self) -> u64
        ensures { result ≡ self }
    {
        let Stand { word, owner, .. } = self;
        word.close(owner)
    }
}
