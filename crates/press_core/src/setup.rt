//! What an edition is made from.

ghost use Rattle.std.specs.Prelude.{◌≡◌, ◌<◌, ℕ, List, true, IfOk, IfErr};
ghost use Rattle.signer_api.specs.State.{SignerState};
ghost use Rattle.key_ids.specs.Uris.{Bases};
ghost use Rattle.entitle.specs.Certified.{settings_of, AreCertified};
ghost use Rattle.entitle.specs.Owed.{AreOwed};
ghost use Rattle.issue_plan.specs.ByName.{StandByName};
ghost use Rattle.issue_plan.specs.Work.{IsPlan};
ghost use Rattle.editions.specs.declared.gathered.Gathered.{Gathered};
ghost use Rattle.editions.specs.Moments.{moment_behind};
ghost use Rattle.editions.specs.Gathering.{AreGathered, AreAccepted};
ghost use Rattle.press_core.specs.PrepareInput.{started};
ghost use Rattle.press_core.specs.Planned.{IsInRange};
ghost use Rattle.press_core.specs.Faults.{IsPressFault};
ghost use Rattle.press_core.specs.inner.Ready.{basis_over, IsSetUp};

use crate::fault::{MetAt, PressFault};
use authority_book::Config;
use editions::{
    Gathered, PublishedState, configs_with, cut_with, first_at_end, gathered_commands_are_taken_in,
    next_moment,
};
use entitle::{Owed, Tree, certified, owed};
use issue_plan::plan;
use key_ids::Site;
use key_roll::Work;
use std::alloc::{AllocError, Global};

/// What an edition is made from: its moment, its cut, the configurations there, what these are certified for, and the
/// origins that they are owed. The moment is in seconds since 1970; the cut has one number for each desk, how many of
/// its commands are taken in.
#[derive(Drop)]
pub struct EditionInput {
    /// In seconds since 1970.
    pub moment: u64,
    pub cut: Vec<u64>,
    pub configs: Vec<Config>,
    pub tree: Tree,
    pub owed: Vec<Owed>,
}

/// The moment of the next edition, if that can be dated and counted. Both are in seconds since
/// 1970. `ClockRange` is asked before `SerialEnd`.
pub fn moment_of(at: &PublishedState, now: u64) -> Result<u64, PressFault>
    ensures moment { IfOk result (λ moment. moment ≡ moment_behind now at.now.moment) }
    ensures in_range { IfOk result (λ _. IsInRange at.now now) }
    ensures refused { IfErr result (λ fault. (site : Bases) (ring : List SignerState) (gathered : List Gathered)
        → IsPressFault (started site at.now ring now gathered) ring fault) }
{
    let parts = at.parts();
    let Some(moment) = next_moment(now, parts.moment) else {
        return Err(PressFault::ClockRange {
            now,
            met: MetAt::new(25, now),
        });
    };
    if let Some(value) = first_at_end(parts.serial, parts.rows.as_slice()) {
        return Err(PressFault::SerialEnd {
            value,
            met: MetAt::new(26, now),
        });
    }
    Ok(moment)
}

/// Takes in the commands that were gathered. `moment` is in seconds since 1970.
pub fn set_up(
    alloc: Global,
    at: &PublishedState,
    moment: u64,
    gathered: Vec<Gathered>,
) -> Result<EditionInput, AllocError>
    requires gathered { AreGathered at.now.cut gathered.items }
    requires accepted { AreAccepted at.now.configs gathered.items }
    ensures certified { IfOk result (λ setup. AreCertified (settings_of setup.configs.items) setup.tree.sets.items) }
    ensures owes { IfOk result (λ setup. AreOwed (settings_of setup.configs.items) setup.owed.items) }
    ensures set_up { IfOk result (λ setup. (site : Bases) (ring : List SignerState) (clock : ℕ)
        → moment ≡ moment_behind clock at.now.moment
        → IsSetUp (started site at.now ring clock gathered.items) setup) }
{
    gathered_commands_are_taken_in();
    let parts = at.parts();
    let cut = cut_with(alloc, parts.cut.as_slice(), &gathered)?;
    let configs = configs_with(alloc, parts.configs.as_slice(), gathered)?;
    let tree = certified(alloc, &configs)?;
    let owed = owed(alloc, &configs, &tree)?;
    Ok(EditionInput {
        moment,
        cut,
        configs,
        tree,
        owed,
    })
}

/// The plan of the edition. `by_name` tells whether it is known that ROAs stand at places of names.
pub fn plan_of(
    alloc: Global,
    site: &Site,
    at: &PublishedState,
    setup: &EditionInput,
    by_name: bool,
) -> Result<Work, AllocError>
    requires owes { AreOwed (settings_of setup.now.configs.items) setup.now.owed.items }
    requires stand { by_name ≡ true → StandByName site.now at.now.issued }
    ensures { IfOk result (IsPlan (basis_over at.now setup.now) at.now.issued site.now) }
{
    let parts = at.parts();
    plan(
        alloc,
        parts.rows.as_slice(),
        &setup.configs,
        &setup.tree,
        &setup.owed,
        &parts.issued,
        site,
        setup.moment,
        by_name,
    )
}
