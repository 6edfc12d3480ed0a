//! The next edition, once it is made.

ghost use Rattle.std.specs.Prelude.{◌≡◌};

use editions::{CurrentState, EndedKey, PublishedState};
use items::Items;
use pub_set::Change;
use std::marker::Model;

/// What stands after the next edition, what it changes, and the keys that it ends.
#[derive(Drop)]
pub struct NextEdition {
    next: CurrentState,
    changes: Items<Change>,
    ended: Vec<EndedKey>,
}

impl Model for NextEdition {
    ghost use Rattle.press_core.specs.Next.{NextValue};

    ghost Value = { NextValue };

    ghost view = { λ edition. record {
      next = edition.next;
      changes = edition.changes;
      ended = edition.ended.items;
    } };
}

impl NextEdition {
    /// An edition after which that published state stands, with its changes and the keys that it ends.
    pub fn new(next: CurrentState, changes: Items<Change>, ended: Vec<EndedKey>) -> NextEdition
        ensures { result ≡ record { next = next; changes = changes; ended = ended.items } }
    {
        NextEdition {
            next,
            changes,
            ended,
        }
    }

    /// What stands after it.
    pub fn published_state(&self) -> &PublishedState
        ensures { result.now ≡ self.now.next }
    {
        self.next.state()
    }

    /// What it puts and withdraws, by rising URI.
    pub fn changes(&self) -> &[Change]
        ensures { result.now ≡ self.now.changes }
    {
        self.changes.as_slice()
    }

    /// What stands after it, and the keys that it ends.
    pub fn into_next(self) -> (CurrentState, Vec<EndedKey>)
        ensures next { result.0 ≡ self.next }
        ensures ended { result.1.items ≡ self.ended }
    {
        (self.next, self.ended)
    }
}
