//! Clocks.

use crate::streams::fields::Fields;
use anyhow::{Result, bail};
use line_loop::{Clock, ClockOver, ListClock, PlayedClock, SystemClock};
use std::alloc::Global;
use std::time::Duration;
use test_support::number_of;

/// How often a clock is asked.
const ASKED: u32 = 4;

/// The moments of a list: what a clock over them gives.
pub fn moments(alloc: Global, fields: &mut Fields<'_>) -> Result<String> {
    given(alloc, &mut ListClock::new(fields.numbers(alloc)?))
}

/// Readings of a system's clock, each a number of seconds, a dot and a number of nanoseconds, or `none`.
pub fn readings(alloc: Global, fields: &mut Fields<'_>) -> Result<String> {
    let mut readings = Vec::new(alloc);
    for word in fields.text()?.split_whitespace() {
        readings.push(reading_of(word)?)?;
    }
    given(alloc, &mut ClockOver::over(PlayedClock::new(readings)))
}

/// Two moments: whether the system's clock gives one between them.
pub fn system(rt: &HostRuntime, fields: &mut Fields<'_>) -> Result<String> {
    let (first, last) = (fields.number()?, fields.number()?);
    let now = SystemClock::new(*rt).now();
    let is_between = first < now && now < last;
    Ok(format!(in rt.alloc(); "{is_between}")?)
}

fn reading_of(word: &str) -> Result<Option<Duration>> {
    if word == "none" {
        return Ok(None);
    }
    let Some((seconds, nanos)) = word.split_once('.') else {
        bail!("no reading: {word}");
    };
    let nanos = Duration::from_nanos(number_of(nanos)?);
    Ok(Some(Duration::from_secs(number_of(seconds)?).saturating_add(nanos)))
}

fn given<C: Clock>(alloc: Global, clock: &mut C) -> Result<String> {
    let mut told = String::new(alloc);
    for _ in 0..ASKED {
        let moment = clock.now();
        write!(told, "{moment} ")?;
    }
    Ok(told)
}
