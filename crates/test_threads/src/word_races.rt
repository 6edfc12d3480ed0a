//! Races in which threads share a word: a writer bumps it, and readers load it until they find the
//! last count.
//!
//! A line has how many readers there are, a blank, and how many times the writer bumps. All threads are
//! joined, and so are their seats, so that what is printed is the same whatever the schedule.

ghost use denote.Param.Send.{IsSync};

mod race;

use crate::word_races::race::{RECOVERED, race};
use anyhow::{Context, Result, bail};
use std::alloc::Global;
use std::sync::Wait;
use std::thread::Threads;

/// How many readers there are at most.
const MOST_READERS: u32 = 1_000;

/// Runs the race of a line, and says what came of it.
pub fn answer<R: Threads + Wait + Sync>(rt: &R, alloc: Global, line: &str) -> Result<String>
    requires { IsSync R.row }
{
    let (readers, bumps) = line.split_once(' ').context("no readers and bumps")?;
    let (readers, bumps) = (readers.parse::<u32>()?, bumps.parse::<u32>()?);
    if readers == 0 || readers > MOST_READERS {
        bail!("1 to {MOST_READERS} readers");
    }
    let raced = race(rt, alloc, readers, bumps)?;
    let said = if raced.rose {
        "no count fell, and each reader found"
    } else {
        "a count fell before a reader found"
    };
    let (wanted, last) = (RECOVERED + u64::from(bumps), raced.count);
    Ok(format!(in alloc; "{readers} readers: {said} {wanted}\nclosed at {last}")?)
}
