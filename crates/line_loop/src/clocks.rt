// The system's clock, and clocks that give what a list has.
ghost use Rattle.std.specs.Prelude.{◌≡◌, ℕ, ◌≤◌, Option, Some, None, option_map, vec_len};
ghost use Rattle.std.specs.Duration.{as_nanos};
ghost use Rattle.line_loop.specs.Readings.{IsReading};

use crate::Clock;
use std::rt;
use std::time::{Duration, SystemTime, UNIX_EPOCH};

/// A clock, as the system reads it.
pub trait RawClock: Drop {
    /// The nanoseconds since 1970-01-01 UTC that its readings give, by their number from the next one
    /// on, or none where one fails, where the clock tells.
    ghost readings: { Self → Option (ℕ → Option ℕ) };

    /// The time since 1970-01-01 UTC. None where the clock can't be read.
    fn read(&mut self) -> Option<Duration>
        ensures { IsReading (readings self.old) (option_map as_nanos result) (readings self.new) };
}

/// A clock of std. Its readings aren't known.
#[derive(Drop)]
pub struct HostClock<R> {
    rt: R,
}

impl<R: rt::Clock + Drop> RawClock for HostClock<R> {
    ghost readings = { λ _. None };

    fn read(&mut self) -> Option<Duration> {
        SystemTime::now(&self.rt)
            .ok()?
            .duration_since(UNIX_EPOCH)
            .ok()
    }
}

/// A clock over readings, which gives their whole seconds, and 0 where there is none.
#[derive(Drop)]
pub struct ClockOver<C> {
    clock: C,
}

/// The runtime's clock, which gives 0 where it can't be read.
pub type SystemClock<R> = ClockOver<HostClock<R>>;

impl<R: rt::Clock> ClockOver<HostClock<R>> {
    /// A clock that asks this runtime.
    pub fn new(rt: R) -> ClockOver<HostClock<R>> {
        ClockOver {
            clock: HostClock { rt },
        }
    }
}

impl<C: RawClock> ClockOver<C> {
    ghost use Rattle.line_loop.specs.Clocks.{raw_clock};

    /// A clock over these readings.
    pub fn over(clock: C) -> ClockOver<C>
        ensures { raw_clock result ≡ clock }
    {
        ClockOver { clock }
    }
}

impl<C: RawClock> Clock for ClockOver<C> {
    ghost use Rattle.line_loop.specs.Clocks.{raw_clock, seconds_given};

    ghost readings = { λ clock. option_map seconds_given (C.readings (raw_clock clock)) };

    fn now(&mut self) -> u64 {
        match self.clock.read() {
            Some(time) => time.as_secs(),
            None => 0,
        }
    }
}

/// A clock in memory that gives these readings in their order, and then fails.
#[derive(Drop)]
pub struct PlayedClock {
    readings: Vec<Option<Duration>>,
    at: usize,
    ghost within: { at ≤ vec_len readings },
}

impl PlayedClock {
    ghost use Rattle.line_loop.specs.Clocks.{readings_left};

    /// A clock that begins at the first reading.
    pub fn new(readings: Vec<Option<Duration>>) -> Self
        ensures { readings_left result ≡ readings.items }
    {
        PlayedClock { readings, at: 0 }
    }
}

impl RawClock for PlayedClock {
    ghost use Rattle.line_loop.specs.Clocks.{readings_left, reading_at};

    ghost readings = { λ clock. Some (reading_at (readings_left clock)) };

    fn read(&mut self) -> Option<Duration> {
        if self.at == self.readings.len() {
            return None;
        }
        let reading = self.readings[self.at];
        self.at += 1;
        reading
    }
}
