//! The press, opened over its disk behind the desks: what its journal has is audited and compared with what
//! the desks hold.

ghost use Rattle.std.specs.Prelude.{◌≡◌, ◌<◌, ◌≤◌, None, All, length, IfOk, IfErr, IfSome, OnOk};
ghost use Rattle.press_core.specs.Loading.{IsInOrder};
ghost use Rattle.press_core.specs.Resuming.{IsAudited};
ghost use Rattle.krill_top.specs.DeskStates.{DeskStates, most_desks};
ghost use Rattle.krill_top.specs.inner.Gathered.{AreFirstsOf};
ghost use Rattle.krill_top.specs.DesksInStates.{AreIn};
ghost use Rattle.krill_top.specs.PressDisk.{Given, AreAsked, load_fault_of, IsStopCause};
ghost use Rattle.krill_top.specs.inner.PressOpened.{AreGiven, IsGiven, IsOpenedPress, IsUnopened, IsBehindLoaded, IsWithin, IsPastOf, audit_fault_of, resume_fault_of};

use crate::desks::{DESKS, Desks};
use crate::faults::OpenFault;
use crate::starting::SIGNERS_WRONG;
use crate::summary::Summary;
use disk_api::Disk;
use editions::Gathered;
use key_ids::Site;
use press_core::{LoadFault, LoadRefused, Loaded, ResumeFault, ResumeRefused, StoredPress, load};
use rp_audit::{AuditRefused, audit, rings_vouch_by_their_signers};
use rp_rules::Audited;
use signer_api::Signer;
use signer_ring::Ring;
use std::alloc::{AllocError, Global};
use uuid::Uuid;

/// The press's number among the disks: it comes behind the desks.
pub(crate) const PRESS_DEVICE: u32 = DESKS as u32;

/// The opened press, and what was found of its last edition.
#[derive(Drop)]
pub(crate) struct OpenedPress<D: Disk, G: Signer> {
    pub(crate) press: StoredPress<D, G>,
    pub(crate) summary: Summary,
}

/// The press's disk and the signers, handed back, and why there is no press.
#[derive(Drop)]
pub(crate) struct UnopenedPress<D: Disk, G: Signer> {
    pub(crate) disk: D,
    pub(crate) ring: Ring<G>,
    pub(crate) fault: OpenFault,
}

/// Opens the press over its disk. A new store gets that session and these bases. Refused in this order: the
/// journal's faults, `SiteDiffers`, `CutPast`, `WrongCount` of signers, the audit's refusals, and those of
/// going on behind it.
pub(crate) fn open_press<D: Disk, G: Signer>(
    alloc: Global,
    site: &Site,
    session: Uuid,
    desks: &Desks<D>,
    disk: D,
    ring: Ring<G>,
) -> Result<OpenedPress<D, G>, UnopenedPress<D, G>>
    requires all { length desks.now ≡ most_desks }
    requires found { (found : DeskStates) × AreIn desks.now found }
    ensures opened { IfOk result (λ opened. (given : Given) → IsGiven site.now session desks.now ring given
        → IsOpenedPress D.Disk given disk opened.press opened.summary) }
    ensures refused { IfErr result (λ e. (given : Given) → IsGiven site.now session desks.now ring given
        → IsUnopened D.Disk given e.fault disk e.disk e.ring) }
    ensures asked { IfErr result (λ e. AreAsked e.fault ring e.ring) }
{
    let mut ring = ring;
    let loaded = match load(alloc, disk, site, session) {
        Ok(loaded) => loaded,
        Err(LoadRefused { disk, fault }) => {
            let fault = load_fault(fault);
            return Err(UnopenedPress { disk, ring, fault });
        }
    };
    match audit_loaded(alloc, site, desks, &loaded, &mut ring) {
        Ok(audited) => go_on(alloc, desks, loaded, audited, ring),
        Err(fault) => {
            let disk = loaded.close();
            Err(UnopenedPress { disk, ring, fault })
        }
    }
}

// What a journal that isn't loaded is called.
fn load_fault(fault: LoadFault) -> OpenFault
    ensures { result ≡ load_fault_of fault }
{
    let device = PRESS_DEVICE;
    match fault {
        LoadFault::Damaged { at } => OpenFault::Damaged { device, at },
        LoadFault::BadRecord { at } => OpenFault::BadRecord { device, at },
        LoadFault::SiteDiffers { kept, given } => OpenFault::SiteDiffers { kept, given },
        LoadFault::DiskFault => OpenFault::DiskFault { device },
        LoadFault::Memory => OpenFault::Memory,
    }
}

// Audits the last set, if there is one, where the desks hold all that it takes in and its keys have their
// signers.
fn audit_loaded<D: Disk, G: Signer>(
    alloc: Global,
    site: &Site,
    desks: &Desks<D>,
    loaded: &Loaded<D>,
    ring: &mut Ring<G>,
) -> Result<Option<Audited>, OpenFault>
    requires all { length desks.now ≡ most_desks }
    requires site { loaded.now.site ≡ site.now }
    requires order { IsInOrder loaded.now }
    ensures audited { IfOk result (IsAudited loaded.now ring.old) }
    ensures within { OnOk result (IsWithin desks.now loaded.now.cut) }
    ensures signers { OnOk result (All (λ row. row.signer < length ring.old) loaded.now.rows) }
    ensures same { OnOk result (ring.new ≡ ring.old) }
    ensures refused { IfErr result (λ fault. (given : Given) → AreGiven desks.now ring.old given
        → IsStopCause given loaded.now ring.new given.outlet fault) }
    ensures asked { IfErr result (λ fault. AreAsked fault ring.old ring.new) }
{
    rings_vouch_by_their_signers();
    if let Some(fault) = cut_past(desks, loaded.cut()) {
        return Err(fault);
    }
    let (needed, found) = (loaded.signers(), u64::from(ring.len()));
    if found < needed {
        return Err(OpenFault::WrongCount {
            what: SIGNERS_WRONG,
            needed,
            found,
        });
    }
    let Some(anchor) = loaded.anchor() else {
        return Ok(None);
    };
    match audit(alloc, loaded.set(), anchor, site, loaded.moment(), ring) {
        Ok(audited) => Ok(Some(audited)),
        Err(refused) => Err(audit_fault(refused)),
    }
}

// The first desk of whose commands the cut takes in more than it has.
fn cut_past<D: Disk>(desks: &Desks<D>, cut: &[u64]) -> Option<OpenFault>
    requires all { length desks.now ≡ most_desks }
    requires cut { length cut.now ≤ most_desks }
    ensures none { result ≡ None → IsWithin desks.now cut.now }
    ensures past { IfSome result (IsPastOf desks.now cut.now) }
{
    for desk in 0..cut.len() {
        let held = desks.held(desk);
        if held < cut[desk] {
            return Some(OpenFault::CutPast {
                desk: desk as u32,
                cut: cut[desk],
                held,
            });
        }
    }
    None
}

// What is told of a set that isn't sound, or of a signer.
fn audit_fault(refused: AuditRefused) -> OpenFault
    ensures { result ≡ audit_fault_of refused }
{
    match refused {
        AuditRefused::Refused { uri, rule } => OpenFault::Refused { uri, rule },
        AuditRefused::Unreached { uri } => OpenFault::Unreached { uri },
        AuditRefused::SignerFault { signer } => OpenFault::SignerFault { signer },
        AuditRefused::Memory => OpenFault::Memory,
    }
}

// Goes on behind what was loaded, with the commands that it takes in.
fn go_on<D: Disk, G: Signer>(
    alloc: Global,
    desks: &Desks<D>,
    loaded: Loaded<D>,
    audited: Option<Audited>,
    ring: Ring<G>,
) -> Result<OpenedPress<D, G>, UnopenedPress<D, G>>
    requires all { length desks.now ≡ most_desks }
    requires found { (found : DeskStates) × AreIn desks.now found }
    requires order { IsInOrder loaded }
    requires signers { All (λ row. row.signer < length ring) loaded.rows }
    requires audited { IsAudited loaded ring audited }
    requires within { IsWithin desks.now loaded.cut }
    ensures opened { IfOk result (λ opened. (found : DeskStates) → AreIn desks.now found
        → IsBehindLoaded D.Disk loaded found audited ring opened.press opened.summary) }
    ensures refused { IfErr result (λ e. (given : Given) → AreGiven desks.now ring given
        → IsStopCause given loaded ring given.outlet e.fault) }
    ensures asked { IfErr result (λ e. AreAsked e.fault ring ring) }
    ensures disk { IfErr result (λ e. e.disk ≡ loaded.journal.disk) }
    ensures ring { IfErr result (λ e. e.ring ≡ ring) }
{
    let summary = Summary::of(&loaded, audited.as_ref());
    let Ok(firsts) = firsts_of(alloc, desks, loaded.cut()) else {
        let (disk, fault) = (loaded.close(), OpenFault::Memory);
        return Err(UnopenedPress { disk, ring, fault });
    };
    match StoredPress::resume(alloc, loaded, audited, firsts, ring) {
        Ok(press) => {
            // What stands is consistent.
            let _parts = press.press().published_state().parts();
            Ok(OpenedPress { press, summary })
        }
        Err(ResumeRefused { disk, ring, fault }) => {
            let fault = resume_fault(fault);
            Err(UnopenedPress { disk, ring, fault })
        }
    }
}

// The commands of each desk that the cut takes in.
fn firsts_of<D: Disk>(
    alloc: Global,
    desks: &Desks<D>,
    cut: &[u64],
) -> Result<Vec<Gathered>, AllocError>
    requires all { length desks.now ≡ most_desks }
    requires cut { length cut.now ≤ most_desks }
    requires within { IsWithin desks.now cut.now }
    ensures { IfOk result (λ firsts. AreFirstsOf 0 desks.now cut.now firsts.items) }
{
    let mut firsts = Vec::with_capacity(alloc, cut.len())?;
    for desk in 0..cut.len() {
        firsts.push(desks.first(alloc, desk, cut[desk])?)?;
    }
    Ok(firsts)
}

// What is told of a set that doesn't agree.
fn resume_fault(fault: ResumeFault) -> OpenFault
    ensures { result ≡ resume_fault_of fault }
{
    match fault {
        ResumeFault::OriginsDiffer { uri } => OpenFault::OriginsDiffer { uri },
        ResumeFault::RowMismatch {
            key,
            field,
            kept,
            found,
        } => OpenFault::RowMismatch {
            key,
            field,
            kept,
            found,
        },
        ResumeFault::Memory => OpenFault::Memory,
    }
}
