//! What an export removes (RFC 8182 section 3.3.2).

ghost use Rattle.std.specs.Prelude.{◌≡◌, [], ◌∷◌, ◌++◌, IfOk, OnOk, filter, map};
ghost use Rattle.outlet_api.specs.Calls.{removal};
ghost use Rattle.outlet_api.specs.Exports.{removal_of};
ghost use Rattle.rrdp_state.specs.Paths.{path_of};
ghost use Rattle.rrdp_state.specs.Named.FileName.{DeltaOf};
ghost use Rattle.rrdp_state.specs.Kept.{is_in_run, is_left, left_runs};

use crate::paths::{delta_path, snapshot_path};
use std::alloc::{AllocError, Global};
use uuid::Uuid;

/// How many deltas the newest notification names, the one before it, and the one before that.
#[derive(Clone, Copy, Debug)]
pub(crate) struct Counts {
    pub named: usize,
    pub previous: usize,
    pub before: usize,
}

/// Whether a serial is among so many from the newest one downwards.
fn is_in_run(newest: u64, count: usize, serial: u64) -> bool
    ensures { result ≡ is_in_run newest count serial }
{
    serial <= newest && newest - serial < count as u64
}

#[tactic(auto, using(crate::proofs::Removals::delta_left))]
/// Whether the delta of that serial is named by neither of the two newest notifications.
fn is_left(serial: u64, counts: Counts, delta: u64) -> bool
    ensures { result ≡ is_left serial counts.named counts.previous (DeltaOf delta) }
{
    !is_in_run(serial.saturating_sub(1), counts.previous, delta)
        && !is_in_run(serial, counts.named, delta)
}

/// Puts the path of the delta of that serial behind the others, if it is left.
fn push_if_left(
    alloc: Global,
    paths: &mut Vec<String>,
    session: &Uuid,
    serial: u64,
    counts: Counts,
    delta: u64,
) -> Result<(), AllocError>
    ensures { OnOk result (map removal_of paths.new.items ≡ map removal_of paths.old.items
        ++ map (λ file. removal (path_of session.now file))
        (filter (is_left serial counts.named counts.previous) (DeltaOf delta ∷ []))) }
{
    if is_left(serial, counts, delta) {
        paths.push(delta_path(alloc, session, delta)?)?;
    }
    Ok(())
}

/// The paths of the files that the notification before the previous one named, and that neither of the
/// two later ones names.
pub(crate) fn removes(
    alloc: Global,
    session: &Uuid,
    serial: u64,
    counts: Counts,
) -> Result<Vec<String>, AllocError>
    ensures { IfOk result (λ paths. map removal_of paths.items
        ≡ map (λ file. removal (path_of session.now file))
        (left_runs serial counts.named counts.previous counts.before)) }
{
    let mut paths = Vec::new(alloc);
    if serial < 3 {
        return Ok(paths);
    }
    let oldest = serial - 2;
    paths.push(snapshot_path(alloc, session, oldest)?)?;
    for k in 0..counts.before {
        let delta = oldest.saturating_sub(k as u64);
        push_if_left(alloc, &mut paths, session, serial, counts, delta)?;
    }
    Ok(paths)
}
