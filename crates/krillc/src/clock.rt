//! The clock that is handed in: the system's, a number of seconds behind.
//!
//! An edition's objects are good from its moment on, so a relying party whose own clock is behind that finds
//! nothing in it. Where krillc's clock is let run behind, such a relying party finds all.

ghost use Rattle.std.specs.Prelude.{None};

use krill_top::Clock;
use std::env::{self, VarError};

/// The variable that says how many seconds the clock is behind: 0 where it isn't set.
pub const VARIABLE: &str = "KRILL_CLOCK_BEHIND";

/// The most seconds that it may be behind.
const MOST: u64 = 3_600;

/// A clock that is so many seconds behind another one. Its readings aren't known.
#[derive(Drop)]
pub struct ClockBehind<C> {
    clock: C,
    seconds: u64,
}

impl<C: Clock> ClockBehind<C> {
    pub fn new(clock: C, seconds: u64) -> ClockBehind<C> {
        ClockBehind { clock, seconds }
    }
}

impl<C: Clock> Clock for ClockBehind<C> {
    ghost readings = { λ _. None };

    fn now(&mut self) -> u64 {
        self.clock.now().saturating_sub(self.seconds)
    }
}

/// Why the seconds aren't known.
#[derive(Drop)]
pub enum ClockFault {
    /// The variable is no number from 0 to 3,600.
    Value,
    Memory,
}

/// How many seconds the clock is to be behind.
pub fn seconds_behind(rt: &HostRuntime) -> Result<u64, ClockFault> {
    match env::var(rt, VARIABLE) {
        Ok(text) => seconds_of(&text).ok_or(ClockFault::Value),
        Err(VarError::NotPresent) => Ok(0),
        Err(VarError::NotUnicode) => Err(ClockFault::Value),
        Err(VarError::OutOfMemory) => Err(ClockFault::Memory),
    }
}

/// The number of the text, if it is one of those that may be.
fn seconds_of(text: &str) -> Option<u64> {
    match text.parse::<u64>() {
        Ok(seconds) if seconds <= MOST => Some(seconds),
        _ => None,
    }
}
