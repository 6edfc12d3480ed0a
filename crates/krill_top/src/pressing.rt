//! A publication: what the desks have accepted is gathered, and the press makes an edition of it.

ghost use Rattle.std.specs.Prelude.{◌≡◌, ◌≤◌, ◌<◌, ℕ, List, Some, All, length, get_or, slice_get, IfSome, IsSome, IfOk, IfErr};
ghost use Rattle.entitle.specs.Certified.{names_of};
ghost use Rattle.desk_core.specs.View.{View};
ghost use Rattle.editions.specs.declared.gathered.Gathered.{Gathered};
ghost use Rattle.editions.specs.Gathering.{configs_with, AreGathered, AreAccepted};
ghost use Rattle.krill_top.specs.DeskStates.{most_desks};
ghost use Rattle.krill_top.specs.inner.Gathered.{AreSince};
ghost use Rattle.krill_top.specs.inner.Pressing.{IsReady, IsUnprepared, IsPressed, IsNotPressed};

use crate::desks::Desks;
use crate::publish_fault::PublishFault;
use disk_api::Disk;
use editions::PublishedNumbers;
use histories::what_a_press_holds;
use notice_board::Sheet;
use press_core::{PrepareFault, StoredPrepared, StoredPress, edition_records_go_on};
use signer_api::Signer;
use std::alloc::Global;
use std::thread::Threads;

/// An edition that was published, and what readers are shown of it.
#[derive(Drop)]
pub(crate) struct Pressed {
    pub(crate) published: PublishedNumbers,
    pub(crate) sheet: Sheet,
}

// An edition that was prepared, and what readers will be shown of it.
#[derive(Drop)]
struct Ready {
    prepared: StoredPrepared,
    sheet: Sheet,
}

// Prepares the next edition, of all that the desks have accepted, at that clock.
fn prepare_all<D: Disk, G: Signer + Send, R: Threads + Sync>(
    rt: &R,
    alloc: Global,
    desks: &Desks<D>,
    press: &mut StoredPress<D, G>,
    now: u64,
) -> Result<Ready, PrepareFault<D>>
    requires cut { length press.old.press.at.cut ≡ most_desks }
    requires within { (number : ℕ) (desk : View D) → slice_get desks.now number ≡ Some desk
        → get_or press.old.press.at.cut number 0 ≤ length desk.records }
    requires gathered { (groups : List Gathered) → AreSince 0 desks.now press.old.press.at.cut groups → AreGathered press.old.press.at.cut groups }
    requires accepted { (groups : List Gathered) → AreSince 0 desks.now press.old.press.at.cut groups → AreAccepted press.old.press.at.configs groups }
    requires live_signers { All (λ row. row.signer < length press.old.press.ring) press.old.press.at.rows }
    requires name_signers { (groups : List Gathered) → AreSince 0 desks.now press.old.press.at.cut groups
        → All (λ name. name.signer < length press.old.press.ring) (names_of (configs_with press.old.press.at.configs groups)) }
    ensures ready { IfOk result (λ ready. IsReady now desks.now press.old press.new ready.prepared ready.sheet) }
    ensures refused { IfErr result (IsUnprepared now desks.now press.old press.new) }
    ensures told { IfSome press.old.journal.records (λ _. IsSome (D.content press.old.journal.disk)) }
    ensures known { IfSome (D.content press.old.journal.disk) (λ _. IsSome press.old.journal.records) }
{
    edition_records_go_on();
    what_a_press_holds();
    let gathered = desks.since_cut(alloc, press.press().cut())?;
    let prepared = press.prepare(rt, alloc, now, gathered)?;
    let sheet = prepared.sheet(alloc)?;
    Ok(Ready { prepared, sheet })
}

/// Publishes all that the desks have accepted, at that clock. All memory is taken before the edition's
/// record is written.
pub(crate) fn press_all<D: Disk, G: Signer + Send, R: Threads + Sync>(
    rt: &R,
    alloc: Global,
    desks: &Desks<D>,
    press: &mut StoredPress<D, G>,
    now: u64,
) -> Result<Pressed, PublishFault<D>>
    requires cut { length press.old.press.at.cut ≡ most_desks }
    requires within { (number : ℕ) (desk : View D) → slice_get desks.now number ≡ Some desk
        → get_or press.old.press.at.cut number 0 ≤ length desk.records }
    requires gathered { (groups : List Gathered) → AreSince 0 desks.now press.old.press.at.cut groups → AreGathered press.old.press.at.cut groups }
    requires accepted { (groups : List Gathered) → AreSince 0 desks.now press.old.press.at.cut groups → AreAccepted press.old.press.at.configs groups }
    requires live_signers { All (λ row. row.signer < length press.old.press.ring) press.old.press.at.rows }
    requires name_signers { (groups : List Gathered) → AreSince 0 desks.now press.old.press.at.cut groups
        → All (λ name. name.signer < length press.old.press.ring) (names_of (configs_with press.old.press.at.configs groups)) }
    ensures pressed { IfOk result (λ pressed. IsPressed D.Disk now desks.now press.old press.new pressed.published pressed.sheet) }
    ensures refused { IfErr result (λ fault. IsNotPressed D.Disk now desks.now press.old press.new fault) }
{
    let Ready { prepared, sheet } = prepare_all(rt, alloc, desks, press, now)?;
    let published = press.commit(prepared)?;
    press.retire_keys();
    Ok(Pressed { published, sheet })
}
