//! What is written and read.

ghost use Rattle.std.specs.Prelude.{◌≡◌, IfOk, IfSome};
ghost use Rattle.res_sets.specs.declared.numbers.Family.TheVariants.{V4, V6};

use anyhow::{Result, bail};
use der::Reader;
use res_ext::{read_ip, write_ip};
use res_sets::{Family, MOST_RANGES, Range, Ranges};
use std::alloc::{AllocError, Global};
use std::time::{Duration, Instant};

const NUMBERS: u64 = 1_000_000;

const BLOCKS: u32 = 10_000;

const TURNS: u32 = 20;

/// The first numbers, one element each.
fn write_numbers(alloc: Global) -> Result<Vec<u8>, AllocError> {
    let mut out = Vec::new(alloc);
    for n in 0..NUMBERS {
        der::unsigned(alloc, &mut out, n)?;
    }
    Ok(out)
}

/// The sum of the numbers, from its low 64 bits.
fn read_numbers(bytes: &[u8]) -> Option<u64> {
    let mut reader = Reader::new(bytes);
    let mut sum = 0u64;
    while !reader.is_empty() {
        let Ok(n) = reader.unsigned() else {
            return None;
        };
        sum = sum.wrapping_add(n);
    }
    Some(sum)
}

/// Every second /24 from the front, and of each second one of these all but the last address.
fn addresses(alloc: Global) -> Result<Option<Ranges>, AllocError>
    ensures { IfOk result (λ set. IfSome set (λ ranges. ranges.family ≡ V4)) }
{
    let mut ranges = Vec::with_capacity(alloc, BLOCKS as usize)?;
    for i in 0..BLOCKS {
        let first = u128::from(i) * 512;
        let last = first + 255 - u128::from(i % 2);
        ranges.push(Range { first, last })?;
    }
    if ranges.len() > MOST_RANGES {
        return Err(AllocError);
    }
    Ok(Ranges::from_sorted(Family::V4, ranges))
}

/// Prints the sizes.
pub fn print_sizes(rt: &HostRuntime) -> Result<()> {
    let alloc = rt.alloc();
    let numbers = write_numbers(alloc)?;
    let Some(sum) = read_numbers(&numbers) else {
        bail!("the numbers aren't read");
    };
    let Some(v4) = addresses(alloc)? else {
        bail!("the ranges aren't canonical");
    };
    let extension = write_ip(alloc, &v4, &Ranges::empty(alloc, Family::V6))?;
    let read = read_ip(alloc, &extension)?;
    let (size, length, count) = (numbers.len(), extension.len(), read.v4.as_slice().len());
    println!(rt; "numbers {size} {sum}")?;
    println!(rt; "blocks {length} {count}")?;
    Ok(())
}

/// How long each took, and its size.
type Times = [(Duration, u64); 4];

/// One turn: numbers written and read, and the extension written and read.
fn turn(rt: &HostRuntime, v4: &Ranges, none: &Ranges) -> Result<Times>
    requires v4_family { v4.now.family ≡ V4 }
    requires v6_family { none.now.family ≡ V6 }
{
    let alloc = rt.alloc();
    let start = Instant::now(rt)?;
    let numbers = write_numbers(alloc)?;
    let written = start.elapsed(rt)?;
    let start = Instant::now(rt)?;
    let sum = read_numbers(&numbers).unwrap_or(0);
    let read = start.elapsed(rt)?;
    let start = Instant::now(rt)?;
    let extension = write_ip(alloc, v4, none)?;
    let spelled = start.elapsed(rt)?;
    let start = Instant::now(rt)?;
    let found = read_ip(alloc, &extension)?;
    let taken = start.elapsed(rt)?;
    Ok([
        (written, numbers.len() as u64),
        (read, sum),
        (spelled, extension.len() as u64),
        (taken, found.v4.as_slice().len() as u64),
    ])
}

/// Prints the times.
pub fn print_times(rt: &HostRuntime) -> Result<()> {
    let alloc = rt.alloc();
    let Some(v4) = addresses(alloc)? else {
        bail!("the ranges aren't canonical");
    };
    let none = Ranges::empty(alloc, Family::V6);
    let mut best = turn(rt, &v4, &none)?;
    for _ in 1..TURNS {
        let next = turn(rt, &v4, &none)?;
        for (least, (taken, size)) in best.iter_mut().zip(next) {
            *least = (least.0.min(taken), size);
        }
    }
    let names = [
        "write-numbers",
        "read-numbers",
        "write-blocks",
        "read-blocks",
    ];
    for (name, (taken, size)) in names.into_iter().zip(best) {
        let nanoseconds = taken.as_nanos();
        println!(rt; "{name} {nanoseconds} {size}")?;
    }
    Ok(())
}
