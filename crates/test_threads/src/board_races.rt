//! Races in which threads share a notice board: a writer shows sheets, and readers look until they find
//! the last one.
//!
//! A line has how many readers there are, a blank, and how many sheets the writer shows. All threads are
//! joined, so that what is printed is the same whatever the schedule.

ghost use denote.Param.Send.{IsSync};

mod race;

use crate::board_races::race::race;
use anyhow::{Context, Result, bail};
use std::alloc::Global;
use std::sync::Wait;
use std::thread::Threads;

/// How many readers there are at most.
const MOST_READERS: u32 = 1_000;

/// Runs the race of a line, and says what came of it.
pub fn answer<R: Threads + Wait + Sync>(rt: &R, alloc: Global, line: &str) -> Result<String>
    requires { IsSync R.row }
{
    let (readers, shows) = line.split_once(' ').context("no readers and sheets")?;
    let (readers, shows) = (readers.parse::<u32>()?, shows.parse::<u32>()?);
    if readers == 0 || readers > MOST_READERS {
        bail!("1 to {MOST_READERS} readers");
    }
    let raced = race(rt, alloc, readers, shows)?;
    let said = if raced.right {
        "no serial fell, each sheet and row was whole, and each reader found"
    } else {
        "a serial fell, or a sheet or row was not whole, before a reader found"
    };
    let last = raced.last;
    Ok(format!(in alloc; "{readers} readers: {said} {shows}\nclosed at {last}")?)
}
