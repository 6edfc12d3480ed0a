// Bytes that were read ahead.
ghost use Rattle.std.specs.Prelude.{◌≡◌, ◌∷◌, [], OnOk, OnErr, IfSome, IfNone};
ghost use Rattle.std.specs.Io.KnownBytes.{Consumes, Keeps, IsAtEnd};
ghost use Rattle.host_calls.specs.Rise.{HasRisen};

use crate::calls::{Broken, read_once};
use line_loop::RawReader;
use std::marker::Model;

const BLOCK: usize = 2048;

/// A block that was read, and the part of it that is still to be taken.
#[derive(Drop)]
pub struct Ahead {
    block: [u8; BLOCK],
    start: usize,
    end: usize,
}

impl Model for Ahead {
    ghost use Rattle.std.specs.Prelude.{◌≤◌, List, ℕ, take, drop};

    ghost Value = { List ℕ };

    ghost view = { λ a. drop a.start (take a.end a.block) };

    ghost invariant = { λ a. (a.start ≤ a.end) × (a.end ≤ 2048) };
}

impl Ahead {
    pub(crate) fn new() -> Self
        ensures { result ≡ [] }
    {
        Ahead {
            block: [0; BLOCK],
            start: 0,
            end: 0,
        }
    }

    /// Reads a block in the place of what is left.
    pub(crate) fn fill<R: RawReader>(&mut self, from: &mut R) -> Result<(), Broken>
        ensures read { OnOk result (Consumes (R.left from.old) (R.left from.new) self.new) }
        ensures end { OnOk result (self.new ≡ [] → IsAtEnd (R.left from.new)) }
        ensures ok { OnOk result (R.fault_count from.new ≡ R.fault_count from.old) }
        ensures stop { OnErr result (HasRisen (R.fault_count from.old) (R.fault_count from.new)) }
    {
        self.start = 0;
        self.end = 0;
        let n = read_once(from, &mut self.block)?;
        self.end = n;
        Ok(())
    }

    /// The first byte.
    pub(crate) fn take(&mut self) -> Option<u8>
        ensures some { IfSome result (λ byte. self.old ≡ byte ∷ self.new) }
        ensures none { IfNone result ((self.old ≡ []) × (self.new ≡ [])) }
    {
        if self.start >= self.end {
            return None;
        }
        let byte = self.block[self.start];
        self.start += 1;
        Some(byte)
    }
}
