//! The operations, each carried out in several turns.

use crate::published::objects::{BASE, put_new, put_over, set_of, withdraw};
use anyhow::Result;
use pub_set::{Change, ObjectSet, changes};
use std::alloc::{AllocError, Global};
use std::time::{Duration, Instant};

/// Carries the operations out on sets of so many objects, and prints sizes or times.
pub fn run(rt: &HostRuntime, count: u32, turns: u32, timed: bool) -> Result<()> {
    let alloc = rt.alloc();
    let mut set = set_of(alloc, count, u32::MAX)?;
    let other = set_of(alloc, count, count)?;
    let (time, size) = time_copy(rt, &set, turns)?;
    tell(rt, "copy", time, size, timed)?;
    let (time, size) = time_changes(rt, &set, &other, turns)?;
    tell(rt, "changes", time, size, timed)?;
    for (name, number) in [
        ("front", 1),
        ("middle", count | 1),
        ("end", count.saturating_mul(2) | 1),
    ] {
        let (time, size) = time_query(rt, &mut set, put_new, withdraw, number, turns)?;
        tell(rt, name, time, size, timed)?;
    }
    let (time, size) = time_query(rt, &mut set, put_first, put_second, count, turns)?;
    tell(rt, "replaced", time, size, timed)?;
    let (time, size) = time_many(rt, &mut set, count)?;
    tell(rt, "many", time, size, timed)
}

fn tell(rt: &HostRuntime, name: &str, time: Duration, size: usize, timed: bool) -> Result<()> {
    if timed {
        let nanoseconds = time.as_nanos();
        println!(rt; "{name} {nanoseconds} {size}")?;
    } else {
        println!(rt; "{name} {size}")?;
    }
    Ok(())
}

fn put_first(alloc: Global, number: u32) -> Result<Change, AllocError> {
    put_over(alloc, number, 1)
}

fn put_second(alloc: Global, number: u32) -> Result<Change, AllocError> {
    put_over(alloc, number, 0)
}

fn time_copy(rt: &HostRuntime, set: &ObjectSet, turns: u32) -> Result<(Duration, usize)> {
    let mut best = Duration::MAX;
    let mut size = 0;
    for _ in 0..turns {
        let start = Instant::now(rt)?;
        let copy = set.copy(rt.alloc())?;
        best = best.min(start.elapsed(rt)?);
        size = copy.len();
    }
    Ok((best, size))
}

fn time_changes(
    rt: &HostRuntime,
    old: &ObjectSet,
    new: &ObjectSet,
    turns: u32,
) -> Result<(Duration, usize)> {
    let mut best = Duration::MAX;
    let mut size = 0;
    for _ in 0..turns {
        let start = Instant::now(rt)?;
        let found = changes(rt.alloc(), old, new)?;
        best = best.min(start.elapsed(rt)?);
        size = found.len();
    }
    Ok((best, size))
}

// Two queries of one change each, of which the second undoes the first. The longer one counts.
fn time_query<
    F: Fn(Global, u32) -> Result<Change, AllocError>,
    G: Fn(Global, u32) -> Result<Change, AllocError>,
>(
    rt: &HostRuntime,
    set: &mut ObjectSet,
    there: F,
    back: G,
    number: u32,
    turns: u32,
) -> Result<(Duration, usize)>
    requires there { F.IsAlwaysCallable there }
    requires back { G.IsAlwaysCallable back }
{
    let alloc = rt.alloc();
    let mut best = [Duration::MAX; 2];
    let mut sizes = 0;
    for _ in 0..turns {
        let query = vec![in alloc; there(alloc, number)?]?;
        let start = Instant::now(rt)?;
        set.query(alloc, BASE, query)?;
        best[0] = best[0].min(start.elapsed(rt)?);
        sizes = set.len();
        let query = vec![in alloc; back(alloc, number)?]?;
        let start = Instant::now(rt)?;
        set.query(alloc, BASE, query)?;
        best[1] = best[1].min(start.elapsed(rt)?);
    }
    Ok((best[0].max(best[1]), sizes))
}

// One query that puts an object behind each that is there.
fn time_many(rt: &HostRuntime, set: &mut ObjectSet, count: u32) -> Result<(Duration, usize)> {
    let alloc = rt.alloc();
    let mut query = Vec::new(alloc);
    for i in 0..count {
        query.push(put_new(alloc, i.saturating_mul(2) | 1)?)?;
    }
    let start = Instant::now(rt)?;
    set.query(alloc, BASE, query)?;
    let time = start.elapsed(rt)?;
    Ok((time, set.len()))
}
