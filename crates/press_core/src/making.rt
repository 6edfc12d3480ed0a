//! What a planned edition comes to.

ghost use Rattle.std.specs.Prelude.{◌≡◌, ◌<◌, ◌^◌, ◌↔◌, List, All, IfOk, IfErr, IsTrue, length};
ghost use Rattle.signer_ring.specs.Ring.{Keeps};
ghost use Rattle.der.specs.Part.{IsInput};
ghost use Rattle.pub_set.specs.declared.steps.Change.{Change};
ghost use Rattle.editions.specs.PlannedAndMade.{CanBeRead};
ghost use Rattle.editions.specs.declared.gathered.Gathered.{Gathered};
ghost use Rattle.press_core.specs.PrepareInput.{started};
ghost use Rattle.press_core.specs.Planned.{IsPrepared};
ghost use Rattle.press_core.specs.Faults.{IsPressFault};
ghost use Rattle.press_core.specs.Signers.{HoldKeys};
ghost use Rattle.press_core.specs.inner.Ready.{IsReady, IsSomehowReady, CanStand, IsNextOf};

use crate::fault::PressFault;
use crate::laws::made_keys_are_staged;
use crate::next_edition::NextEdition;
use crate::setup::EditionInput;
use authority_book::accepted_origins_ascend;
use editions::{
    CurrentState, PublishedState, StateParts, ended_keys, made_keys_are_live,
    made_keys_have_signers, other_uris_are_clear, planned_work_can_be_made, roas_stay_by_name,
    wanted_objects_are_apart,
};
use entitle::names_of;
use issue_make::{Made, make};
use issue_values::can_be_named;
use items::Items;
use key_ids::Site;
use key_roll::{Issued, IssuedRow, Work};
use pub_set::Change;
use signer_api::Signer;
use signer_ring::Ring;
use std::alloc::{AllocError, Global};
use std::thread::Threads;

// The length that no object that can be read reaches.
const TOO_LONG: u64 = 1 << 32;

// Whether bytes can be read as an object.
fn is_input(bytes: &[u8]) -> bool
    ensures { IsTrue result ↔ IsInput bytes.now }
{
    (bytes.len() as u64) < TOO_LONG
}

// Whether what the change puts can be read. A withdrawal puts nothing.
fn can_be_read(change: &Change) -> bool
    ensures { IsTrue result ↔ CanBeRead change.now }
{
    match change {
        Change::Put { bytes, .. } => is_input(bytes.as_slice()),
        Change::Withdraw { .. } => true,
    }
}

// Whether all that is put can be read.
fn can_all_be_read(changes: &[Change]) -> bool
    ensures { IsTrue result ↔ All CanBeRead changes.now }
{
    for change in changes {
        if !can_be_read(change) {
            return false;
        }
    }
    true
}

// What the type says: rows can be counted.
fn are_few(rows: &[IssuedRow])
    ensures { length rows.now < 2 ^ 62 }
{}

// What will stand. `at` and `current` are the same.
fn next_of(
    alloc: Global,
    at: &PublishedState,
    current: &mut CurrentState,
    setup: EditionInput,
    made: Made,
) -> Result<NextEdition, AllocError>
    requires current { current.old ≡ at.now }
    requires stand { CanStand at.now setup made }
    ensures next { IfOk result (IsNextOf at.now setup made) }
    ensures current { current.new ≡ current.old }
{
    let parts = at.parts();
    let Made {
        changes,
        rows,
        issued,
        ..
    } = made;
    let (changed, told) = (changes.as_slice(), issued.as_slice());
    let standing = current.standing_after(alloc, changed, told)?;
    let ended = ended_keys(alloc, parts.rows.as_slice(), rows.as_slice())?;
    // What the types say of the set and of the published state.
    let _ascending = standing.set.as_slice();
    let state = PublishedState::new(StateParts {
        serial: parts.serial + 1,
        moment: setup.moment,
        cut: Items::new(setup.cut),
        rows,
        issued: Issued {
            rows: standing.table,
        },
        set: standing.set,
        configs: Items::new(setup.configs),
        tree: setup.tree,
        owed: Items::new(setup.owed),
    });
    let _kept = state.parts();
    let next = current.followed_by(alloc, state, changed, issued)?;
    Ok(NextEdition::new(next, changes, ended))
}

/// Makes the edition that was planned, over what stands: `at` and `current` are the same. `now` is the clock that a
/// refusal names, in seconds since 1970.
pub fn make_edition<S: Signer + Send, R: Threads + Sync>(
    rt: &R,
    alloc: Global,
    site: &Site,
    at: &PublishedState,
    current: &mut CurrentState,
    setup: EditionInput,
    work: &Work,
    ring: &mut Ring<S>,
    now: u64,
) -> Result<NextEdition, PressFault>
    requires current { current.old ≡ at.now }
    requires ready { IsSomehowReady site.now at.now ring.old setup work.now }
    ensures prepared { IfOk result (λ prepared. (gathered : List Gathered)
        → IsReady (started site.now at.now ring.old now gathered) setup work.now
        → IsPrepared (started site.now at.now ring.old now gathered) ring.new prepared) }
    ensures refused { IfErr result (λ fault. (gathered : List Gathered)
        → IsReady (started site.now at.now ring.old now gathered) setup work.now
        → IsPressFault (started site.now at.now ring.old now gathered) ring.new fault) }
    ensures keys { HoldKeys ring.old ring.new }
    ensures kept { Keeps ring.old ring.new }
    ensures current { current.new ≡ current.old }
{
    let parts = at.parts();
    let names = names_of(&setup.configs);
    // What the layers below say of the plan.
    accepted_origins_ascend();
    can_be_named(site);
    planned_work_can_be_made();
    made_keys_are_live();
    made_keys_have_signers();
    other_uris_are_clear();
    roas_stay_by_name();
    wanted_objects_are_apart();
    made_keys_are_staged();
    let made = match make(
        rt,
        alloc,
        work,
        parts.rows.as_slice(),
        names,
        &parts.issued,
        site,
        ring,
    ) {
        Ok(made) => made,
        Err(fault) => return Err(PressFault::of(fault, now)),
    };
    if !can_all_be_read(made.changes.as_slice()) {
        return Err(PressFault::Memory);
    }
    are_few(made.issued.as_slice());
    Ok(next_of(alloc, at, current, setup, made)?)
}
