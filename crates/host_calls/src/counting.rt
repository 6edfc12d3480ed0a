//! The count by which an object of the outside shows that a call of it failed.
//!
//! Whoever blames the object compares the counts before and after the call. Nothing here takes memory.

ghost use Rattle.std.specs.Prelude.{◌≡◌, ◌+◌, ◌-◌, ◌^◌, min};
ghost use Rattle.host_calls.specs.Rise.{HasRisen};

/// The count after one failure more. It stands still at the last value of a `u64`.
pub fn raised(count: u64) -> u64
    ensures next { result ≡ min (count + 1) (2 ^ 64 - 1) }
    ensures risen { HasRisen count result }
{
    count.saturating_add(1)
}
