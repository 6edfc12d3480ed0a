// The ends of a session as the loop sees them. What an end holds is known or not; its faults are counted.
ghost use Rattle.std.specs.Prelude.{◌≡◌, ℕ, ◌<◌, ◌≤◌, List, Option, Err, length, IfOk};
ghost use Rattle.std.specs.Io.KnownBytes.{ReadConsumes};
ghost use Rattle.line_loop.specs.Taking.{TakesFront};
ghost use Rattle.line_loop.specs.Readings.{IsReading};
ghost use Rattle.host_calls.specs.Rise.{HasRisen};

use std::alloc::Global;
use thiserror::Error;

/// Why a source gave nothing.
#[derive(Clone, Copy, Debug, PartialEq, Eq, Error)]
pub enum SourceStop {
    #[error("the source failed")]
    Fault,
    #[error("out of memory")]
    Memory,
}

/// Why a sink took nothing.
#[derive(Clone, Copy, Debug, PartialEq, Eq, Error)]
pub enum SinkStop {
    #[error("the sink failed")]
    Fault,
    #[error("out of memory")]
    Memory,
}

/// Where a session's bytes come from.
pub trait Source: Drop {
    /// The bytes that it will still give, where it is known.
    ghost left: { Self → Option (List ℕ) };

    /// How often it has failed.
    ghost fault_count: { Self → ℕ };

    /// Puts the next bytes into the first places, as many as it answers. It answers 0 for room that
    /// isn't empty exactly at the end. An `Err` gives nothing.
    fn take(&mut self, alloc: Global, into: &mut [u8]) -> Result<usize, SourceStop>
        ensures room { IfOk result (λ n. n ≤ length into.new) }
        ensures bytes { ReadConsumes (left self.old) (left self.new) result into.new }
        ensures later { fault_count self.old ≤ fault_count self.new }
        ensures fault { result ≡ Err SourceStop.Fault → HasRisen (fault_count self.old) (fault_count self.new) };
}

/// Where a session's replies go.
pub trait Sink: Drop {
    /// All bytes that it has taken, where it is known.
    ghost taken: { Self → Option (List ℕ) };

    /// How often it has failed.
    ghost fault_count: { Self → ℕ };

    /// Takes the first bytes, as many as it answers. At an `Err` it may have taken some of the first, as
    /// where it holds them back and can't hand them on.
    fn give(&mut self, alloc: Global, bytes: &[u8]) -> Result<usize, SinkStop>
        ensures piece { IfOk result (λ n. n ≤ length bytes.now) }
        ensures some { IfOk result (λ n. 0 < length bytes.now → 0 < n) }
        ensures bytes { TakesFront (taken self.old) (taken self.new) result bytes.now }
        ensures later { fault_count self.old ≤ fault_count self.new }
        ensures fault { result ≡ Err SinkStop.Fault → HasRisen (fault_count self.old) (fault_count self.new) };
}

/// What tells the time.
pub trait Clock: Drop {
    /// What its readings give, by their number from the next one on, where it tells.
    ghost readings: { Self → Option (ℕ → ℕ) };

    /// Seconds since 1970-01-01 UTC.
    fn now(&mut self) -> u64
        ensures { IsReading (readings self.old) result (readings self.new) };
}
