//! A place in a record that is being read.

ghost use Rattle.std.specs.Prelude.{◌≡◌, ◌<◌, ◌≤◌, length, take, drop, MatchOption};
ghost use Rattle.cmd_codec.specs.Fault.{Place, further};

use crate::faults::RecordFault;
use std::marker::Model;

/// What is left of a record from a place on.
#[derive(Debug, Drop)]
pub struct Cursor<'a> {
    at: u64,
    left: &'a [u8],
}

impl<'a> Model for Cursor<'a> {
    ghost use Rattle.std.specs.Prelude.{◌+◌, ◌<◌, ◌^◌, length};
    ghost use Rattle.cmd_codec.specs.Fault.{Place};

    ghost Value = { Place };

    ghost view = { λ c. record { at = c.at; left = c.left.now } };

    ghost invariant = { λ c. c.at + length c.left.now < 2 ^ 64 };
}

impl<'a> Cursor<'a> {
    /// The place behind a record's first byte.
    pub fn behind_first(left: &'a [u8]) -> Cursor<'a>
        ensures at { result.at ≡ 1 }
        ensures left { result.left ≡ left.now }
    {
        Cursor { at: 1, left }
    }

    /// How many bytes are left.
    pub fn len(&self) -> usize
        ensures { result ≡ length self.now.left }
    {
        self.left.len()
    }

    /// That the field here is bad.
    pub fn fault(&self) -> RecordFault
        ensures { result ≡ RecordFault.BadRecord self.now.at }
    {
        RecordFault::BadRecord { at: self.at }
    }

    /// The next bytes, if there are so many. Else it stays where it is.
    pub fn take(&mut self, size: usize) -> Option<&'a [u8]>
        ensures { MatchOption result ((length self.old.left < size) × (self.new ≡ self.old))
            (λ field. (size ≤ length self.old.left) × (field.now ≡ take size self.old.left)
            × (self.new ≡ further size self.old)) }
    {
        if self.left.len() < size {
            return None;
        }
        let (field, left) = self.left.split_at(size);
        self.at += size as u64;
        self.left = left;
        Some(field)
    }
}
