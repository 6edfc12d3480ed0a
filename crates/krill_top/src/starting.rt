//! The instance over opened desks, press and signers, and what is handed back of it.

ghost use Rattle.std.specs.Prelude.{◌≡◌, ◌⊎◌, ◌≤◌, [], ℕ, List, length, map, vec_len, vec_capacity, IfOk, IfErr};
ghost use Rattle.gate_journal.specs.View.{IsSafe};
ghost use Rattle.editions.specs.Sheets.{sheet_of};
ghost use Rattle.key_ids.specs.Uris.{Bases};
ghost use Rattle.krill_top.specs.DeskStates.{DeskStates, most_desks};
ghost use Rattle.krill_top.specs.InstanceState.{InstanceState};
ghost use Rattle.krill_top.specs.DesksInStates.{AreIn};
ghost use Rattle.krill_top.specs.Statuses.{first_export_fault};
ghost use Rattle.krill_top.specs.Run.{IsDeskRefused, IsClosedAgain};
ghost use Rattle.krill_top.specs.inner.Instances.{IsPressIn, stored_in};
ghost use Rattle.krill_top.specs.inner.Opened.{AreOpened, AreClosed};
ghost use Rattle.krill_top.specs.inner.Started.{AreEndsOf, IsReadyFor, IsStarted};

use crate::desks::Desks;
use crate::ends::Ends;
use crate::faults::OpenFault;
use crate::instance::{Instance, InstanceRefused};
use crate::opening::{Opened, OpeningRefused, close_desks, open_desks};
use crate::press_opening::{OpenedPress, UnopenedPress, open_press};
use crate::summary::Summary;
use disk_api::Disk;
use key_ids::Site;
use outlet_api::{ExportFault, Outlet};
use signer_api::Signer;
use signer_ring::Ring;
use std::alloc::Global;
use uuid::Uuid;

/// What `WrongCount` says is wrong in number.
pub(crate) const SIGNERS_WRONG: u32 = 1;

/// An instance, what was found of its last edition, and the emptied list of the desks' disks, in which there
/// is room for them.
#[derive(Drop)]
pub(crate) struct Started<D: Disk, G: Signer, O: Outlet> {
    pub(crate) instance: Instance<D, G, O>,
    pub(crate) summary: Summary,
    pub(crate) disks: Vec<D>,
}

/// Devices over which no instance was opened, and why.
#[derive(Drop)]
pub(crate) struct NotStarted<D: Disk, G: Signer, O: Outlet> {
    pub(crate) ends: Ends<D, G, O>,
    pub(crate) fault: OpenFault,
}

/// The opened desks, the emptied list of their disks, and the outlet.
#[derive(Drop)]
struct Beside<D: Disk, O: Outlet> {
    desks: Desks<D>,
    disks: Vec<D>,
    outlet: O,
}

/// Opens the desks, the press behind them, and the instance over them; and exports the last edition, if there
/// is one. A new store has that session and these bases.
pub(crate) fn start<D: Disk, G: Signer, O: Outlet>(
    alloc: Global,
    session: Uuid,
    site: &Site,
    ends: Ends<D, G, O>,
) -> Result<Started<D, G, O>, NotStarted<D, G, O>>
    requires disks { length ends.desks.items ≡ most_desks }
    requires signers { length ends.signers.items ≤ 8 }
    ensures started { IfOk result (IsStarted D.Disk G.state O.Outlet site.now session ends) }
    ensures refused { IfErr result (λ refused. IsDeskRefused D.Disk G.state refused.fault ends refused.ends
        ⊎ IsClosedAgain D.Disk G.state O.Outlet site.now session refused.fault ends refused.ends) }
{
    let Ends {
        desks,
        press,
        signers,
        outlet,
    } = ends;
    match open_desks(alloc, desks) {
        Ok(Opened { desks, disks }) => {
            let desks = Desks::new(desks);
            let beside = Beside {
                desks,
                disks,
                outlet,
            };
            open_behind(alloc, session, site, beside, press, Ring::new(signers))
        }
        Err(
            OpeningRefused {
                disks: desks,
                fault,
            },
        ) => {
            let ends = Ends {
                desks,
                press,
                signers,
                outlet,
            };
            Err(NotStarted { ends, fault })
        }
    }
}

// Opens the press behind the opened desks, where the tree has the signers that its names use.
fn open_behind<D: Disk, G: Signer, O: Outlet>(
    alloc: Global,
    session: Uuid,
    site: &Site,
    beside: Beside<D, O>,
    press: D,
    ring: Ring<G>,
) -> Result<Started<D, G, O>, NotStarted<D, G, O>>
    requires all { length beside.desks ≡ most_desks }
    requires found { (found : DeskStates) × AreIn beside.desks found }
    requires empty { beside.disks.items ≡ [] }
    requires room { most_desks ≤ vec_capacity beside.disks }
    ensures started { IfOk result (λ started. (ends : Ends D G O)
        → AreEndsOf D.Disk G.state ends beside.desks ring beside.outlet → ends.press ≡ press
        → IsStarted D.Disk G.state O.Outlet site.now session ends started) }
    ensures refused { IfErr result (λ refused. (ends : Ends D G O)
        → AreEndsOf D.Disk G.state ends beside.desks ring beside.outlet → ends.press ≡ press
        → IsClosedAgain D.Disk G.state O.Outlet site.now session refused.fault ends refused.ends) }
{
    let (needed, found) = (beside.desks.signers_needed(), u64::from(ring.len()));
    if found < needed {
        let fault = OpenFault::WrongCount {
            what: SIGNERS_WRONG,
            needed,
            found,
        };
        return Err(give_up(beside, press, ring, fault));
    }
    let signers = ring.len();
    match open_press(alloc, site, session, &beside.desks, press, ring) {
        Ok(opened) => open_instance(alloc, beside, opened, signers),
        Err(UnopenedPress { disk, ring, fault }) => Err(give_up(beside, disk, ring, fault)),
    }
}

// Opens the instance over desks and press, and exports the last edition.
fn open_instance<D: Disk, G: Signer, O: Outlet>(
    alloc: Global,
    beside: Beside<D, O>,
    opened: OpenedPress<D, G>,
    signers: u32,
) -> Result<Started<D, G, O>, NotStarted<D, G, O>>
    requires stands { (state : InstanceState) × IsPressIn O.Outlet beside.desks opened.press signers beside.outlet state }
    requires empty { beside.disks.items ≡ [] }
    requires room { most_desks ≤ vec_capacity beside.disks }
    ensures started { IfOk result (λ started. (site : Bases) (session : List ℕ) (ends : Ends D G O)
        → IsReadyFor D.Disk G.state O.Outlet site session ends beside.desks beside.outlet opened.press opened.summary signers
        → IsStarted D.Disk G.state O.Outlet site session ends started) }
    ensures refused { IfErr result (λ refused. (site : Bases) (session : List ℕ) (ends : Ends D G O)
        → IsReadyFor D.Disk G.state O.Outlet site session ends beside.desks beside.outlet opened.press opened.summary signers
        → IsClosedAgain D.Disk G.state O.Outlet site session refused.fault ends refused.ends) }
{
    let OpenedPress { press, summary } = opened;
    let Beside {
        desks,
        disks,
        outlet,
    } = beside;
    match Instance::open(alloc, desks, press, signers, outlet) {
        Ok(instance) => export_first(
            alloc,
            Started {
                instance,
                summary,
                disks,
            },
        ),
        Err(
            InstanceRefused {
                desks,
                press,
                outlet,
            },
        ) => {
            let beside = Beside {
                desks,
                disks,
                outlet,
            };
            let (press, ring) = press.close();
            Err(give_up(beside, press, ring, OpenFault::Memory))
        }
    }
}

// Exports the last edition, if there is one.
fn export_first<D: Disk, G: Signer, O: Outlet>(
    alloc: Global,
    started: Started<D, G, O>,
) -> Result<Started<D, G, O>, NotStarted<D, G, O>>
    requires sheet { started.instance.sheet ≡ sheet_of started.instance.press.at }
    requires empty { started.disks.items ≡ [] }
    requires room { most_desks ≤ vec_capacity started.disks }
    ensures started { IfOk result (λ after. (site : Bases) (session : List ℕ) (ends : Ends D G O)
        → IsReadyFor D.Disk G.state O.Outlet site session ends started.instance.desks started.instance.outlet
        (stored_in started.instance) started.summary started.instance.signers
        → IsStarted D.Disk G.state O.Outlet site session ends after) }
    ensures refused { IfErr result (λ refused. (site : Bases) (session : List ℕ) (ends : Ends D G O)
        → IsReadyFor D.Disk G.state O.Outlet site session ends started.instance.desks started.instance.outlet
        (stored_in started.instance) started.summary started.instance.signers
        → IsClosedAgain D.Disk G.state O.Outlet site session refused.fault ends refused.ends) }
{
    let mut started = started;
    match started.instance.repeat_export(alloc) {
        Ok(_) => Ok(started),
        Err(fault) => Err(NotStarted {
            ends: stop(started),
            fault: export_fault(&fault),
        }),
    }
}

// Why an opening ends whose last edition couldn't be exported.
fn export_fault<O: Outlet>(fault: &ExportFault<O>) -> OpenFault
    ensures { result ≡ first_export_fault fault.now }
{
    match fault {
        ExportFault::OutletFault { .. } => OpenFault::OutletFault,
        ExportFault::Memory => OpenFault::Memory,
    }
}

// Closes the desks again, and hands back the devices.
fn give_up<D: Disk, G: Signer, O: Outlet>(
    beside: Beside<D, O>,
    press: D,
    ring: Ring<G>,
    fault: OpenFault,
) -> NotStarted<D, G, O>
    requires empty { beside.disks.items ≡ [] }
    requires room { most_desks ≤ vec_capacity beside.disks }
    ensures desks { AreClosed D.Disk beside.desks result.ends.desks.items }
    ensures press { result.ends.press ≡ press }
    ensures signers { map G.state result.ends.signers.items ≡ ring }
    ensures outlet { result.ends.outlet ≡ beside.outlet }
    ensures fault { result.fault ≡ fault }
{
    NotStarted {
        ends: ends_of(beside, press, ring),
        fault,
    }
}

fn ends_of<D: Disk, G: Signer, O: Outlet>(
    beside: Beside<D, O>,
    press: D,
    ring: Ring<G>,
) -> Ends<D, G, O>
    requires empty { beside.disks.items ≡ [] }
    requires room { most_desks ≤ vec_capacity beside.disks }
    ensures desks { AreClosed D.Disk beside.desks result.desks.items }
    ensures press { result.press ≡ press }
    ensures signers { map G.state result.signers.items ≡ ring }
    ensures outlet { result.outlet ≡ beside.outlet }
{
    let Beside {
        desks,
        disks,
        outlet,
    } = beside;
    let desks = desks.into_inner();
    Ends {
        desks: close_desks(Opened { desks, disks }),
        press,
        signers: ring.take_back(),
        outlet,
    }
}

/// Closes the instance, and hands back its devices.
pub(crate) fn stop<D: Disk, G: Signer, O: Outlet>(started: Started<D, G, O>) -> Ends<D, G, O>
    requires empty { started.disks.items ≡ [] }
    requires room { most_desks ≤ vec_capacity started.disks }
    ensures desks { AreClosed D.Disk started.instance.desks result.desks.items }
    ensures press { result.press ≡ started.instance.journal.disk }
    ensures safe { IsSafe D.Disk started.instance.journal }
    ensures signers { map G.state result.signers.items ≡ started.instance.press.ring }
    ensures outlet { result.outlet ≡ started.instance.outlet }
{
    let Started {
        instance,
        disks,
        ..
    } = started;
    let (desks, press, ring, outlet) = instance.close();
    ends_of(
        Beside {
            desks,
            disks,
            outlet,
        },
        press,
        ring,
    )
}
