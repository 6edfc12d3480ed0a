//! What an edition takes of the processor's time.

ghost use Rattle.editions.specs.Gathering.{AreGathered, AreAccepted};

use crate::publications::desks::Desks;
use crate::publications::gathering::gathered;
use crate::publications::trials::Trial;
use anyhow::Result;
use editions::{Gathered, PublishedState, configs_with};
use entitle::{certified, owed};
use issue_plan::{plan, stand_by_name};
use key_ids::Site;
use signer_api::Signer;
use std::alloc::Global;
use std::thread::Threads;
use std::time::{CpuClock, Duration};

/// The time for what an edition is planned from, and for its plan.
#[derive(Clone, Copy)]
struct Spent {
    set_up: Duration,
    plan: Duration,
}

// Plans the edition over what stands, and lets go of the plan.
fn planned<R: CpuClock>(
    rt: &R,
    alloc: Global,
    site: &Site,
    at: &PublishedState,
    moment: u64,
    gathered: Vec<Gathered>,
) -> Result<Spent>
    requires gathered { AreGathered at.now.cut gathered.items }
    requires accepted { AreAccepted at.now.configs gathered.items }
{
    let parts = at.parts();
    let (rows, issued) = (parts.rows.as_slice(), &parts.issued);
    // A press knows this from edition to edition.
    let by_name = stand_by_name(alloc, site, issued.rows.as_slice())?;
    let start = rt.process_cpu_time()?;
    let configs = configs_with(alloc, parts.configs.as_slice(), gathered)?;
    let tree = certified(alloc, &configs)?;
    let owed = owed(alloc, &configs, &tree)?;
    let ready = rt.process_cpu_time()?;
    let _work = plan(
        alloc, rows, &configs, &tree, &owed, issued, site, moment, by_name,
    )?;
    let planned = rt.process_cpu_time()?;
    Ok(Spent {
        set_up: ready.saturating_sub(start),
        plan: planned.saturating_sub(ready),
    })
}

/// Publishes, and tells the nanoseconds of the processor's time: for what the edition is planned from and for its plan,
/// each by itself, and for all until the edition could be written, which has both of them once more, and the making, the
/// changes, what will stand, the delta and the record.
pub fn told<S: Signer + Send, R: Threads + Sync + CpuClock>(
    rt: &R,
    alloc: Global,
    trial: &mut Trial<S>,
    desks: &Desks,
    site: &Site,
    clock: u64,
) -> Result<String> {
    let at = trial.published_state();
    let gathered = gathered(alloc, at, desks)?;
    let Spent { set_up, plan } = planned(rt, alloc, site, at, clock, gathered)?;
    let edition = trial.timed(rt, alloc, clock, desks)?;
    let (set_up, plan, edition) = (set_up.as_nanos(), plan.as_nanos(), edition.as_nanos());
    Ok(format!(in alloc; "set-up {set_up}, plan {plan}, edition {edition}")?)
}
