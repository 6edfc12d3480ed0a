// One call of a reader or a writer, as the system makes it.
ghost use Rattle.std.specs.Prelude.{◌≡◌, ℕ, ◌<◌, ◌≤◌, List, Option, length, IfOk};
ghost use Rattle.std.specs.Io.KnownBytes.{Keeps, ReadConsumes, WriteAppends};
ghost use Rattle.host_calls.specs.Faults.{CountsAnswer};

use host_calls::CallFault;

/// What bytes are read from. A read may give fewer than there is room for, and a signal may interrupt it.
pub trait RawReader: Drop {
    /// The bytes that it will still give, where it is known.
    ghost left: { Self → Option (List ℕ) };

    /// How often its calls have failed.
    ghost fault_count: { Self → ℕ };

    /// How many more interruptions are no failure.
    ghost patience: { Self → ℕ };

    /// Puts the next bytes into the first places, and says how many: none of some room only at the end.
    fn read(&mut self, into: &mut [u8]) -> Result<usize, CallFault>
        ensures room { IfOk result (λ n. n ≤ length into.new) }
        ensures bytes { ReadConsumes (left self.old) (left self.new) result into.new }
        ensures faults { CountsAnswer (fault_count self.old) (fault_count self.new) (patience self.old) (patience self.new) result };
}

/// What bytes are written to. A write may take fewer than it is given, and a signal may interrupt it.
pub trait RawWriter: Drop {
    /// All bytes that it has taken, where it is known.
    ghost taken: { Self → Option (List ℕ) };

    /// How often its calls have failed.
    ghost fault_count: { Self → ℕ };

    /// How many more interruptions are no failure.
    ghost patience: { Self → ℕ };

    /// Takes the first bytes, and says how many: at least one of some.
    fn write(&mut self, bytes: &[u8]) -> Result<usize, CallFault>
        ensures within { IfOk result (λ n. n ≤ length bytes.now) }
        ensures some { IfOk result (λ n. 0 < length bytes.now → 0 < n) }
        ensures bytes { WriteAppends (taken self.old) (taken self.new) result bytes.now }
        ensures faults { CountsAnswer (fault_count self.old) (fault_count self.new) (patience self.old) (patience self.new) result };

    /// Hands on what it has taken and holds back.
    fn flush(&mut self) -> Result<(), CallFault>
        ensures bytes { Keeps (taken self.old) (taken self.new) }
        ensures faults { CountsAnswer (fault_count self.old) (fault_count self.new) (patience self.old) (patience self.new) result };
}
