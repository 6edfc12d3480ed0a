//! The press of a store, over a disk in memory.

ghost use Rattle.std.specs.Prelude.{◌≡◌, ◌<◌, ◌≤◌, ℕ, [], List, All, IfOk, IsSome, OnOk, length};
ghost use Rattle.authority_book.specs.declared.commands.Command.{Command};
ghost use Rattle.disk_api.specs.Memory.{memory_bytes};
ghost use Rattle.editions.specs.Edition.{Edition};
ghost use Rattle.editions.specs.declared.gathered.Gathered.{Gathered};
ghost use Rattle.press_core.specs.Loading.{IsInOrder, IsLoadOf};
ghost use Rattle.press_core.specs.Resuming.{IsAudited, GoesOn};
ghost use Rattle.histories.specs.Devices.{Device};
ghost use Rattle.test_histories.specs.Gathered.{IsFirstOf, AreFirstsOf};
ghost use Rattle.test_histories.specs.Standing.{AreDesks};
ghost use Rattle.test_histories.specs.Opened.{IsPressOpened};
ghost use Rattle.test_histories.specs.Reopening.{IsPressAgain};

use crate::desks::{DESKS, calls_for, disk_over};
use crate::done::Limit;
use anyhow::{Result, bail};
use desk_core::Desk;
use disk_api::MemoryDisk;
use editions::Gathered;
use items::Items;
use key_ids::Site;
use press_core::{LoadRefused, Loaded, ResumeRefused, StoredPress, load};
use rp_audit::{audit, rings_vouch_by_their_signers};
use rp_rules::Audited;
use signer_api::Rehearsal;
use signer_ring::Ring;
use std::alloc::Global;
use uuid::Uuid;

/// How many signers there are.
pub const SIGNERS: u32 = 2;

/// The press's number among the disks: it comes behind the desks.
const PRESS: u32 = DESKS as u32;

/// The session of the press's files.
const SESSION: u128 = 1;

/// The press over a disk that has nothing, with signers for rehearsals.
pub fn new_press(
    alloc: Global,
    site: &Site,
    desks: &[Desk<MemoryDisk>],
) -> Result<StoredPress<MemoryDisk, Rehearsal>>
    requires all { length desks.now ≡ 64 }
    requires stand { (devices : List (Device Command)) × AreDesks 0 desks.now devices }
    ensures opened { IfOk result (λ press. (editions : List Edition) × IsPressOpened desks.now [] editions press) }
    ensures site { IfOk result (λ press. press.press.site ≡ site.now) }
{
    let mut signers = Vec::new(alloc);
    signers.push(Rehearsal::new([0; 32]))?;
    signers.push(Rehearsal::new([1; 32]))?;
    let ring = Ring::new(signers);
    if ring.len() != SIGNERS {
        bail!("not as many signers");
    }
    let bytes = Vec::new(alloc);
    open_press(alloc, site, desks, disk_over(alloc, bytes, None), ring)
}

/// Closes the press, and opens it again over what a crash leaves of its disk: the image of that pick.
pub fn press_again(
    alloc: Global,
    site: &Site,
    desks: &[Desk<MemoryDisk>],
    press: StoredPress<MemoryDisk, Rehearsal>,
    pick: u64,
    limit: &Option<Limit>,
) -> Result<StoredPress<MemoryDisk, Rehearsal>>
    requires all { length desks.now ≡ 64 }
    requires stand { (devices : List (Device Command)) × AreDesks 0 desks.now devices }
    requires signers { length press.press.ring ≡ 2 }
    ensures again { IfOk result (IsPressAgain desks.now press) }
    ensures site { IfOk result (λ new. new.press.site ≡ site.now) }
{
    let (disk, ring) = press.close();
    let image = disk.image(alloc, pick)?;
    let calls = calls_for(PRESS, limit);
    open_press(alloc, site, desks, disk_over(alloc, image, calls), ring)
}

// The press over its disk, behind the desks: what its journal has is audited and compared with what these hold.
fn open_press(
    alloc: Global,
    site: &Site,
    desks: &[Desk<MemoryDisk>],
    disk: MemoryDisk,
    ring: Ring<Rehearsal>,
) -> Result<StoredPress<MemoryDisk, Rehearsal>>
    requires all { length desks.now ≡ 64 }
    requires stand { (devices : List (Device Command)) × AreDesks 0 desks.now devices }
    requires signers { length ring ≡ 2 }
    ensures opened { IfOk result (λ press.
        (editions : List Edition) × IsPressOpened desks.now (memory_bytes disk) editions press) }
    ensures site { IfOk result (λ press. press.press.site ≡ site.now) }
{
    let mut ring = ring;
    let loaded = load_from(alloc, site, disk)?;
    let audited = audit_loaded(alloc, site, &loaded, &mut ring)?;
    go_on(alloc, desks, loaded, audited, ring)
}

// What the journal on the disk has.
fn load_from(alloc: Global, site: &Site, disk: MemoryDisk) -> Result<Loaded<MemoryDisk>>
    ensures found { IfOk result (λ loaded. (session : List ℕ)
        × ((editions : List Edition) × IsLoadOf site.now session (memory_bytes disk) editions loaded)) }
    ensures order { IfOk result IsInOrder }
    ensures known { IfOk result (λ loaded. IsSome loaded.journal.records) }
    ensures site { IfOk result (λ loaded. loaded.site ≡ site.now) }
{
    match load(alloc, disk, site, Uuid::from_u128(SESSION)) {
        Ok(loaded) => Ok(loaded),
        Err(LoadRefused { .. }) => bail!("the press's journal can't be loaded"),
    }
}

// Audits the last set, if there is one.
fn audit_loaded(
    alloc: Global,
    site: &Site,
    loaded: &Loaded<MemoryDisk>,
    ring: &mut Ring<Rehearsal>,
) -> Result<Option<Audited>>
    requires site { loaded.now.site ≡ site.now }
    requires order { IsInOrder loaded.now }
    ensures audited { IfOk result (IsAudited loaded.now ring.old) }
    ensures signers { OnOk result (All (λ row. row.signer < 2) loaded.now.rows) }
    ensures same { OnOk result (ring.new ≡ ring.old) }
{
    rings_vouch_by_their_signers();
    if loaded.signers() > u64::from(SIGNERS) {
        bail!("a key without a signer");
    }
    let Some(anchor) = loaded.anchor() else {
        return Ok(None);
    };
    match audit(alloc, loaded.set(), anchor, site, loaded.moment(), ring) {
        Ok(audited) => Ok(Some(audited)),
        Err(_) => bail!("the last set isn't sound"),
    }
}

// Goes on behind what was loaded, with the commands that it takes in.
fn go_on(
    alloc: Global,
    desks: &[Desk<MemoryDisk>],
    loaded: Loaded<MemoryDisk>,
    audited: Option<Audited>,
    ring: Ring<Rehearsal>,
) -> Result<StoredPress<MemoryDisk, Rehearsal>>
    requires all { length desks.now ≡ 64 }
    requires stand { (devices : List (Device Command)) × AreDesks 0 desks.now devices }
    requires order { IsInOrder loaded }
    requires audited { IsAudited loaded ring audited }
    ensures { IfOk result (λ press. (firsts : List Gathered)
        × AreFirstsOf 0 desks.now loaded.cut firsts × GoesOn loaded firsts ring press) }
{
    let firsts = firsts_of(alloc, desks, loaded.cut())?;
    match StoredPress::resume(alloc, loaded, audited, firsts, ring) {
        Ok(press) => Ok(press),
        Err(ResumeRefused { .. }) => bail!("the press doesn't go on"),
    }
}

// The commands of each desk that the cut takes in.
fn firsts_of(alloc: Global, desks: &[Desk<MemoryDisk>], cut: &[u64]) -> Result<Vec<Gathered>>
    requires all { length desks.now ≡ 64 }
    requires cut { length cut.now ≤ 64 }
    ensures { IfOk result (λ firsts. AreFirstsOf 0 desks.now cut.now firsts.items) }
{
    let mut firsts = Vec::new(alloc);
    for desk in 0..cut.len() {
        let first = first_of(alloc, &desks[desk], desk as u32, cut[desk])?;
        firsts.push(first)?;
    }
    Ok(firsts)
}

// The first so many commands of a desk, where it has as many.
fn first_of(alloc: Global, desk: &Desk<MemoryDisk>, number: u32, count: u64) -> Result<Gathered>
    ensures { IfOk result (IsFirstOf number desk.now count) }
{
    if desk.len() < count {
        bail!("the cut takes in more commands than there are");
    }
    let mut commands = desk.since(alloc, 0)?;
    commands.truncate(count as usize);
    Ok(Gathered {
        desk: number,
        from: 0,
        commands: Items::new(commands),
    })
}
