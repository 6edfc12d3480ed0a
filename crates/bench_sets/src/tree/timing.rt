//! Times of the calls, printed as nanoseconds of the best of several turns.

use crate::tree::given::{configs, exchange, take, with_origins};
use anyhow::{Result, bail};
use authority_book::Config;
use entitle::{Tree, certified, owed};
use std::time::{Duration, Instant};

/// Prints how many addresses come down to four of the names, and how many origins are owed.
pub fn small(rt: &HostRuntime, origins: u32) -> Result<()> {
    let configs = configs(rt.alloc(), origins)?;
    let tree = certified(rt.alloc(), configs.as_slice())?;
    for desk in [0usize, 1, 8, 63] {
        println!(rt; "desk {desk}: {} ranges", ranges_at(&tree, desk))?;
    }
    let owed = owed(rt.alloc(), configs.as_slice(), &tree)?;
    println!(rt; "owed {}", owed.len())?;
    Ok(())
}

/// Times both calls over the tree, for three numbers of origins.
pub fn tree(rt: &HostRuntime, turns: u32) -> Result<()> {
    for origins in [256u32, 512, 1024] {
        let configs = configs(rt.alloc(), origins)?;
        time_calls(rt, &configs, origins, turns)?;
    }
    Ok(())
}

fn time_calls(rt: &HostRuntime, configs: &[Config], origins: u32, turns: u32) -> Result<()> {
    let mut best = [Duration::MAX; 2];
    let mut found = [0usize; 2];
    for _ in 0..turns {
        let start = Instant::now(rt)?;
        let tree = certified(rt.alloc(), configs)?;
        best[0] = best[0].min(start.elapsed(rt)?);
        let start = Instant::now(rt)?;
        let owed = owed(rt.alloc(), configs, &tree)?;
        best[1] = best[1].min(start.elapsed(rt)?);
        found = [ranges_of(&tree), owed.len()];
    }
    println!(rt; "certified {origins} {} {}", best[0].as_nanos(), found[0])?;
    println!(rt; "owed {origins} {} {}", best[1].as_nanos(), found[1])?;
    Ok(())
}

fn ranges_at(tree: &Tree, desk: usize) -> usize {
    match tree.sets.get(desk) {
        Some(set) => set.v4.as_slice().len(),
        None => 0,
    }
}

fn ranges_of(tree: &Tree) -> usize {
    let mut count = 0usize;
    for set in &tree.sets {
        count = count.saturating_add(set.v4.as_slice().len());
    }
    count
}

/// Times updates of one origin each way, at ten and at 1,024 configured ones.
pub fn updates(rt: &HostRuntime, turns: u32, count: u32) -> Result<()> {
    for origins in [10u32, 1023, 1024] {
        let mut best = Duration::MAX;
        for _ in 0..turns {
            let mut config = with_origins(rt.alloc(), 1, origins)?;
            let start = Instant::now(rt)?;
            exchange_all(rt, &mut config, origins, count)?;
            best = best.min(start.elapsed(rt)?);
            if config.origins().len() as u64 != u64::from(origins) {
                bail!("another number of origins");
            }
        }
        println!(rt; "updates {origins} {} {count}", best.as_nanos())?;
    }
    Ok(())
}

// Each update removes the origin that came first, and adds the next one.
fn exchange_all(rt: &HostRuntime, config: &mut Config, origins: u32, count: u32) -> Result<()> {
    for number in 0..count {
        let added = number.saturating_add(origins) % 40_000;
        let command = exchange(rt.alloc(), 1, number % 40_000, added)?;
        take(rt.alloc(), config, command)?;
    }
    Ok(())
}
