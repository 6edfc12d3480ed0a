//! Audits, and their times.

use crate::given::{FROM, Shape, made, site_of};
use crate::hashing::{hash_checks, hash_set, hash_signed};
use crate::maker::Made;
use anyhow::{Result, bail};
use key_ids::Site;
use pub_set::ObjectSet;
use rp_audit::{AuditRefused, audit};
use rp_rules::Audited;
use signer_api::Rehearsal;
use signer_ring::Ring;
use std::alloc::Global;
use std::time::{Duration, Instant};

/// Audits a set of that shape once, and prints what it comes to.
pub fn once(rt: &HostRuntime, shape: Shape) -> Result<()> {
    let site = site_of(rt.alloc())?;
    let made = made(rt.alloc(), &site, shape)?;
    let audited = audit_of(rt.alloc(), &site, &made)?;
    println!(rt; "objects {}", audited.objects())?;
    println!(rt; "origins {}", audited.origins().len())?;
    println!(rt; "points {}", audited.points().len())?;
    Ok(())
}

fn audit_of(alloc: Global, site: &Site, made: &Made) -> Result<Audited> {
    let mut signers = Vec::new(alloc);
    signers.push(Rehearsal::new([0; 32]))?;
    let mut ring = Ring::new(signers);
    match audit(alloc, &made.set, &made.anchor, site, FROM, &mut ring) {
        Ok(audited) => Ok(audited),
        Err(AuditRefused::Refused { uri, .. }) => bail!("refused: {uri}"),
        Err(_) => bail!("not audited"),
    }
}

/// Times an audit and the hashes, in turns, and prints the nanoseconds of the best of each.
pub fn times(rt: &HostRuntime, shape: Shape, turns: u32) -> Result<()> {
    let site = site_of(rt.alloc())?;
    let made = made(rt.alloc(), &site, shape)?;
    let mut best = [Duration::MAX; 4];
    for _ in 0..turns {
        let start = Instant::now(rt)?;
        let audited = audit_of(rt.alloc(), &site, &made)?;
        best[0] = best[0].min(start.elapsed(rt)?);
        if audited.origins().len() as u64 != u64::from(shape.roas) {
            bail!("another number of origins");
        }
        let start = Instant::now(rt)?;
        hash_set(&made.set);
        best[1] = best[1].min(start.elapsed(rt)?);
        let start = Instant::now(rt)?;
        hash_signed(&made);
        best[2] = best[2].min(start.elapsed(rt)?);
        let start = Instant::now(rt)?;
        hash_checks(&made);
        best[3] = best[3].min(start.elapsed(rt)?);
    }
    println!(rt; "bytes {}", size_of(&made.set))?;
    println!(rt; "audit {}", best[0].as_nanos())?;
    println!(rt; "set {}", best[1].as_nanos())?;
    println!(rt; "signed {}", best[2].as_nanos())?;
    println!(rt; "checks {}", best[3].as_nanos())?;
    Ok(())
}

/// How many bytes the objects have.
fn size_of(set: &ObjectSet) -> usize {
    let mut size = 0usize;
    for object in set.as_slice() {
        size = size.saturating_add(object.bytes.as_slice().len());
    }
    size
}
