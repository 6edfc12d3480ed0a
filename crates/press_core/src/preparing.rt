//! The next edition.

ghost use Rattle.std.specs.Prelude.{◌≡◌, ◌<◌, All, true, IfOk, IfErr, length};
ghost use Rattle.signer_ring.specs.Ring.{Keeps};
ghost use Rattle.entitle.specs.Certified.{names_of};
ghost use Rattle.editions.specs.Gathering.{configs_with, AreGathered, AreAccepted};
ghost use Rattle.editions.specs.Clear.{IsClear};
ghost use Rattle.issue_plan.specs.ByName.{StandByName};
ghost use Rattle.press_core.specs.PrepareInput.{started};
ghost use Rattle.press_core.specs.Planned.{IsPrepared};
ghost use Rattle.press_core.specs.Faults.{IsPressFault};
ghost use Rattle.press_core.specs.Signers.{HoldKeys};
ghost use Rattle.press_core.specs.Staged.{HasStages};

use crate::fault::{MetAt, PressFault};
use crate::making::make_edition;
use crate::next_edition::NextEdition;
use crate::setup::{moment_of, plan_of, set_up};
use editions::{CurrentState, Gathered, PublishedState};
use key_ids::Site;
use signer_api::Signer;
use signer_ring::Ring;
use std::alloc::Global;
use std::thread::Threads;

/// Prepares the next edition over what stands, by those signers. `at` and `current` are the same, and `current` gives up
/// what stood before. `now` is in seconds since 1970, and `by_name` tells whether it is known that ROAs stand at places
/// of names.
pub fn prepare_over<S: Signer + Send, R: Threads + Sync>(
    rt: &R,
    alloc: Global,
    site: &Site,
    at: &PublishedState,
    current: &mut CurrentState,
    ring: &mut Ring<S>,
    now: u64,
    gathered: Vec<Gathered>,
    by_name: bool,
) -> Result<NextEdition, PressFault>
    requires current { current.old ≡ at.now }
    requires clear { IsClear site.now at.now.rows at.now.issued }
    requires stand { by_name ≡ true → StandByName site.now at.now.issued }
    requires staged { HasStages at.now }
    requires gathered { AreGathered at.now.cut gathered.items }
    requires accepted { AreAccepted at.now.configs gathered.items }
    requires live_signers { All (λ row. row.signer < length ring.old) at.now.rows }
    requires name_signers { All (λ name. name.signer < length ring.old)
        (names_of (configs_with at.now.configs gathered.items)) }
    ensures prepared { IfOk result (IsPrepared (started site.now at.now ring.old now gathered.items) ring.new) }
    ensures refused { IfErr result (IsPressFault (started site.now at.now ring.old now gathered.items) ring.new) }
    ensures signers { Keeps ring.old ring.new }
    ensures keys { HoldKeys ring.old ring.new }
    ensures current { current.new ≡ current.old }
{
    let parts = at.parts();
    let moment = moment_of(at, now)?;
    let setup = set_up(alloc, at, moment, gathered)?;
    let work = plan_of(alloc, site, at, &setup, by_name)?;
    if !at.is_called_for(setup.cut.as_slice(), &work) {
        return Err(PressFault::Nothing {
            serial: parts.serial,
            met: MetAt::new(24, now),
        });
    }
    make_edition(rt, alloc, site, at, current, setup, &work, ring, now)
}
