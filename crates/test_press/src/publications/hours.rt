//! A command and a publication each hour.

use crate::publications::audits::audited;
use crate::publications::desks::Desks;
use crate::publications::numbered::{adding, removing};
use crate::publications::superseded::Kept;
use crate::publications::trials::Trial;
use anyhow::{Result, bail};
use authority_book::Command;
use key_ids::Site;
use signer_api::Signer;
use std::alloc::Global;
use std::thread::Threads;

const HOUR: u64 = 3_600;

// The first hour adds one origin; then another one comes and goes.
fn command(alloc: Global, hour: u64) -> Result<Command> {
    match hour {
        0 => adding(alloc, 0, 1),
        odd if odd % 2 == 1 => adding(alloc, 1, 2),
        _ => removing(alloc, 1, 2),
    }
}

/// What so many editions of the trust anchor come to, from a clock on: each set is to be sound at its moment and to
/// yield what is owed, and its CRL is to list just what the sets before have, and this one hasn't.
pub fn run<S: Signer + Send, R: Threads + Sync>(
    rt: &R,
    alloc: Global,
    trial: &mut Trial<S>,
    desks: &mut Desks,
    site: &Site,
    hours: u64,
    clock: u64,
) -> Result<String> {
    let mut kept = Kept::new(alloc);
    let (mut all, mut last) = (0u64, 0u64);
    for hour in 0..hours {
        desks.take(alloc, 0, command(alloc, hour)?)?;
        let now = clock.saturating_add(hour.saturating_mul(HOUR));
        last = publish(rt, alloc, trial, desks, site, &mut kept, now)?;
        all = all.saturating_add(last);
    }
    let editions = trial.published_state().parts().serial;
    Ok(format!(in alloc; "{editions} editions, {all} entries in CRLs, {last} in the last one")?)
}

// Publishes once, and tells how many entries the CRL has.
fn publish<S: Signer + Send, R: Threads + Sync>(
    rt: &R,
    alloc: Global,
    trial: &mut Trial<S>,
    desks: &Desks,
    site: &Site,
    kept: &mut Kept,
    now: u64,
) -> Result<u64> {
    if trial.publish(rt, alloc, now, desks)?.is_err() {
        bail!("no edition at {now}");
    }
    let at = trial.published_state();
    let _sound = audited(alloc, at, site)?;
    kept.look(alloc, &at.parts().set, now)
}
