//! Times of the operations, printed as nanoseconds of the best of several turns.

use anyhow::{Result, bail};
use pub_set::{Content, Object, ObjectSet, Uri};
use rrdp_text::{read_snapshot, snapshot_text};
use std::alloc::Global;
use std::time::{Duration, Instant};
use uuid::Uuid;

const OBJECTS: u32 = 65_536;

const BYTES: u32 = 2_000;

const TURNS: u32 = 5;

/// The bytes of the object of a number: each place has another byte.
fn content(alloc: Global, number: u32) -> Result<Content> {
    let mut bytes = Vec::with_capacity(alloc, BYTES as usize)?;
    for place in 0..BYTES {
        bytes.push((place.wrapping_mul(7) ^ number.wrapping_mul(31)).to_le_bytes()[0])?;
    }
    Ok(Content::new(alloc, bytes)?)
}

/// The set of so many objects.
fn set_of(alloc: Global, objects: u32) -> Result<ObjectSet> {
    let mut set = ObjectSet::new(alloc);
    for number in 0..objects {
        let object = Object {
            uri: Uri::new(format!(in alloc; "rsync://rpki.example/repo/{number:08}.roa")?),
            bytes: content(alloc, number)?,
        };
        if !set.is_behind(object.uri.as_str()) {
            bail!("out of order");
        }
        set.push(object)?;
    }
    Ok(set)
}

/// Makes the set alone.
pub fn make(rt: &HostRuntime) -> Result<()> {
    let objects = set_of(rt.alloc(), OBJECTS)?.len();
    println!(rt; "set 0 {objects}")?;
    Ok(())
}

/// Prints the time of writing the snapshot, and its length.
pub fn time_writing(rt: &HostRuntime) -> Result<()> {
    let set = set_of(rt.alloc(), OBJECTS)?;
    let session = Uuid::nil();
    let mut best = Duration::MAX;
    let mut size = 0usize;
    for _ in 0..TURNS {
        let start = Instant::now(rt)?;
        size = snapshot_text(rt.alloc(), &session, 1, &set)?.len();
        best = best.min(start.elapsed(rt)?);
    }
    let nanoseconds = best.as_nanos();
    println!(rt; "write {nanoseconds} {size}")?;
    Ok(())
}

/// Prints the time of reading the snapshot, and how many objects it has.
pub fn time_reading(rt: &HostRuntime) -> Result<()> {
    let text = snapshot_text(rt.alloc(), &Uuid::nil(), 1, &set_of(rt.alloc(), OBJECTS)?)?;
    let mut best = Duration::MAX;
    let mut size = 0usize;
    for _ in 0..TURNS {
        let start = Instant::now(rt)?;
        size = read_snapshot(rt.alloc(), text.as_bytes())?.set.len();
        best = best.min(start.elapsed(rt)?);
    }
    let nanoseconds = best.as_nanos();
    println!(rt; "read {nanoseconds} {size}")?;
    Ok(())
}

/// Prints the length of a small snapshot, and how many objects are read back.
pub fn small(rt: &HostRuntime) -> Result<()> {
    let text = snapshot_text(rt.alloc(), &Uuid::nil(), 1, &set_of(rt.alloc(), 3)?)?;
    let length = text.len();
    let objects = read_snapshot(rt.alloc(), text.as_bytes())?.set.len();
    println!(rt; "{length} {objects}")?;
    Ok(())
}
