//! A program that times looks at a notice board: readers ask for the serial until they find the last
//! sheet, while a writer shows sheets with a pause behind each.
//!
//! Its arguments are how many readers there are, how many sheets the writer shows, and the pause in
//! microseconds. It prints the readers' nanoseconds and their calls, added up; with no pause it prints
//! how many readers found the last sheet instead, which is always the same.
#![tactic(auto)]

mod looks;

use anyhow::{Result, bail};
use looks::time_looks;
use std::env;
use std::time::Duration;

/// How many readers there are at most.
const MOST_READERS: u32 = 1_000;

fn main(rt: HostRuntime) -> Result<()> {
    let mut words = env::args(&rt)?;
    let _program = words.next();
    let (Some(readers), Some(sheets), Some(pause), None) = (
        words.next(),
        words.next(),
        words.next(),
        words.next(),
    ) else {
        bail!("usage: bench_board READERS SHEETS PAUSE");
    };
    let (Ok(readers), Ok(sheets), Ok(pause)) = (
        readers.parse::<u32>(),
        sheets.parse::<u32>(),
        pause.parse::<u32>(),
    ) else {
        bail!("usage: bench_board READERS SHEETS PAUSE");
    };
    if readers == 0 || readers > MOST_READERS {
        bail!("1 to {MOST_READERS} readers");
    }
    let wait = Duration::from_micros(u64::from(pause));
    let looked = time_looks(&rt, rt.alloc(), readers, sheets, wait)?;
    if pause == 0 {
        println!(rt; "{} readers found {sheets}", looked.found)?;
    } else {
        println!(rt; "{} {}", looked.nanoseconds, looked.calls)?;
    }
    Ok(())
}
