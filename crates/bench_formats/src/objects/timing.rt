//! Many objects made, read and hashed.

use crate::objects::given::{Given, given_of};
use crate::objects::objects::{RoaParts, found, made};
use anyhow::Result;
use sha2::{Digest, Sha256};
use std::time::{Duration, Instant};

/// Makes and reads so many objects, and prints how many were made and came back.
pub fn small(rt: &HostRuntime, count: u32) -> Result<()> {
    let given = all_given(rt, count)?;
    let objects = make_all(rt, &given)?;
    let mut same = 0u32;
    for (given, bytes) in given.iter().zip(objects.iter()) {
        if is_same(given, &found(rt.alloc(), bytes)?) {
            same = same.saturating_add(1);
        }
    }
    println!(rt; "made {}", objects.len())?;
    println!(rt; "same {same}")?;
    Ok(())
}

/// Whether key, AS and prefixes came back.
fn is_same(given: &Given, found: &RoaParts) -> bool {
    found.certificate.cert.key.bytes == given.cert.key.bytes
        && found.body.asn == given.body.asn
        && found.body.entries == given.body.entries
}

/// Times making, reading and hashing so many objects, in turns.
pub fn times(rt: &HostRuntime, count: u32, turns: u32) -> Result<()> {
    let given = all_given(rt, count)?;
    let mut best = [Duration::MAX; 3];
    let mut size = 0usize;
    for _ in 0..turns {
        let start = Instant::now(rt)?;
        let objects = make_all(rt, &given)?;
        best[0] = best[0].min(start.elapsed(rt)?);
        let start = Instant::now(rt)?;
        read_all(rt, &objects)?;
        best[1] = best[1].min(start.elapsed(rt)?);
        let start = Instant::now(rt)?;
        hash_all(&objects);
        best[2] = best[2].min(start.elapsed(rt)?);
        size = size_of_all(&objects);
    }
    println!(rt; "bytes {size}")?;
    println!(rt; "write {}", best[0].as_nanos())?;
    println!(rt; "read {}", best[1].as_nanos())?;
    println!(rt; "hash {}", best[2].as_nanos())?;
    Ok(())
}

/// What each object says.
fn all_given(rt: &HostRuntime, count: u32) -> Result<Vec<Given>> {
    let mut given = Vec::new(rt.alloc());
    for number in 0..count {
        given.push(given_of(rt.alloc(), number)?)?;
    }
    Ok(given)
}

/// All objects' bytes.
fn make_all(rt: &HostRuntime, given: &[Given]) -> Result<Vec<Vec<u8>>> {
    let mut objects = Vec::new(rt.alloc());
    for given in given {
        objects.push(made(rt.alloc(), given)?)?;
    }
    Ok(objects)
}

/// Reads all objects, each with its certificate and its body.
fn read_all(rt: &HostRuntime, objects: &[Vec<u8>]) -> Result<()> {
    for bytes in objects {
        let _found = found(rt.alloc(), bytes)?;
    }
    Ok(())
}

/// Hashes all objects. The hashes are put together, so that none is left out.
fn hash_all(objects: &[Vec<u8>]) -> [u8; 32] {
    let mut all = Sha256::new();
    for bytes in objects {
        all.update(Sha256::digest(bytes));
    }
    all.finalize()
}

/// How many bytes the objects have.
fn size_of_all(objects: &[Vec<u8>]) -> usize {
    let mut size = 0usize;
    for bytes in objects {
        size = size.saturating_add(bytes.len());
    }
    size
}
