//! Times of the operations, printed as nanoseconds of the best of several turns.

use anyhow::{Result, bail};
use res_sets::{Family, MOST_RANGES, Range, Ranges};
use std::alloc::{AllocError, Global};
use std::io;
use std::time::{Duration, Instant};

const RANGES: u32 = 100_000;

const TURNS: u32 = 20;

/// Every twentieth number and the nine behind it, from an offset on.
fn ladder(alloc: Global, offset: u32) -> Result<Option<Ranges>, AllocError> {
    let mut ranges = Vec::with_capacity(alloc, RANGES as usize)?;
    for i in 0..RANGES {
        let first = u128::from(i) * 20 + u128::from(offset);
        ranges.push(Range {
            first,
            last: first + 9,
        })?;
    }
    if ranges.len() > MOST_RANGES {
        return Err(AllocError);
    }
    Ok(Ranges::from_sorted(Family::V4, ranges))
}

/// Prints the times of meet, join and minus.
pub fn time_merges(rt: &HostRuntime) -> Result<()> {
    let alloc = rt.alloc();
    let (Some(a), Some(b)) = (ladder(alloc, 0)?, ladder(alloc, 5)?) else {
        bail!("the ranges aren't canonical");
    };
    if a.family() != b.family() {
        bail!("two families");
    }
    let mut best = [Duration::MAX; 3];
    let mut sizes = [0usize; 3];
    for _ in 0..TURNS {
        let start = Instant::now(rt)?;
        sizes[0] = a.meet(alloc, &b)?.as_slice().len();
        best[0] = best[0].min(start.elapsed(rt)?);
        let start = Instant::now(rt)?;
        sizes[1] = a.join(alloc, &b)?.as_slice().len();
        best[1] = best[1].min(start.elapsed(rt)?);
        let start = Instant::now(rt)?;
        sizes[2] = a.minus(alloc, &b)?.as_slice().len();
        best[2] = best[2].min(start.elapsed(rt)?);
    }
    for (name, best, size) in [
        ("meet", best[0], sizes[0]),
        ("join", best[1], sizes[1]),
        ("minus", best[2], sizes[2]),
    ] {
        let nanoseconds = best.as_nanos();
        println!(rt; "{name} {nanoseconds} {size}")?;
    }
    Ok(())
}

/// Prints how long the text on standard input takes to be read, and how many ranges it comes to.
pub fn time_reading(rt: &HostRuntime) -> Result<()> {
    let alloc = rt.alloc();
    let text = io::read_to_string(alloc, rt.reader())?;
    let mut best = Duration::MAX;
    let mut size = 0;
    for _ in 0..5u32 {
        let start = Instant::now(rt)?;
        let Ok(set) = Ranges::read_text(alloc, Family::V4, text.trim_end()) else {
            bail!("the text isn't read");
        };
        best = best.min(start.elapsed(rt)?);
        size = set.as_slice().len();
    }
    let nanoseconds = best.as_nanos();
    println!(rt; "reading {nanoseconds} {size}")?;
    Ok(())
}
