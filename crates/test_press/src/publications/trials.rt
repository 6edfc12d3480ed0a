//! A press that is tried, over a disk in memory.

ghost use Rattle.std.specs.Prelude.{◌≡◌, ◌<◌, [], All, IsTrue, IfOk, length};
ghost use Rattle.entitle.specs.Certified.{names_of};
ghost use Rattle.editions.specs.Gathering.{configs_with, AreGathered, AreAccepted};
ghost use Rattle.press_core.specs.Resuming.{AreFirsts};

use crate::publications::desks::Desks;
use crate::publications::gathering::{gathered, names_have_signers};
use crate::publications::shown::changes_text;
use anyhow::{Result, bail};
use disk_api::MemoryDisk;
use editions::{Gathered, PublishedNumbers, PublishedState};
use key_ids::Site;
use key_roll::KeyRow;
use outlet_api::{ExportFault, MemoryOutlet};
use press_core::{
    CommitFault, LoadRefused, Loaded, PrepareFault, ResumeRefused, StoredPress, load,
};
use pub_set::Change;
use signer_api::Signer;
use signer_ring::Ring;
use std::alloc::Global;
use std::marker::Model;
use std::thread::Threads;
use std::time::{CpuClock, Duration};
use uuid::Uuid;

/// The session of the press's files, 00000000-0000-4000-8000-000000000000.
const SESSION: u128 = 0x4000_8000_0000_0000_0000;

/// An edition: what it is known by, how much it puts and withdraws, and its changes as a text.
#[derive(Drop)]
pub struct Edition {
    pub published: PublishedNumbers,
    pub puts: usize,
    pub withdrawals: usize,
    pub changes: String,
}

/// What a publication comes to.
pub type Told = std::result::Result<Edition, PrepareFault<MemoryDisk>>;

/// A press, and how many signers it has.
#[derive(Drop)]
pub struct Trial<S: Signer> {
    press: StoredPress<MemoryDisk, S>,
    signers: u32,
}

impl<S: Signer> Model for Trial<S> {
    ghost use Rattle.std.specs.Prelude.{◌≡◌, length};
    ghost use Rattle.press_core.specs.Press.{PressValue};

    ghost Value = { PressValue };

    ghost view = { λ trial. trial.press.press };

    ghost invariant = { λ trial. length trial.press.press.ring ≡ trial.signers };
}

impl<S: Signer + Send> Trial<S> {
    /// A press that published nothing, over an empty disk.
    pub fn new(alloc: Global, site: &Site, ring: Ring<S>) -> Result<Trial<S>> {
        let signers = ring.len();
        let loaded = load_empty(alloc, site)?;
        match StoredPress::resume(alloc, loaded, None, Vec::new(alloc), ring) {
            Ok(press) => Ok(Trial { press, signers }),
            Err(ResumeRefused { .. }) => bail!("no memory for a press"),
        }
    }

    /// What stands.
    pub fn published_state(&self) -> &PublishedState {
        self.press.press().published_state()
    }

    /// Exports the last edition, and says whether it came to its end.
    pub fn export(&mut self, alloc: Global, outlet: &mut MemoryOutlet) -> Result<bool> {
        if self.press.press().serial() == 0 {
            bail!("nothing to export");
        }
        match self.press.export_to(alloc, outlet) {
            Ok(()) => Ok(true),
            Err(ExportFault::OutletFault { .. }) => Ok(false),
            Err(ExportFault::Memory) => bail!("no memory for an export"),
        }
    }

    // What the desks accepted since, for which there are the signers.
    fn gather(&self, alloc: Global, desks: &Desks) -> Result<Vec<Gathered>>
        ensures gathered { IfOk result (λ gathered. AreGathered self.now.at.cut gathered.items) }
        ensures accepted { IfOk result (λ gathered. AreAccepted self.now.at.configs gathered.items) }
        ensures live { IfOk result (λ _. All (λ row. row.signer < length self.now.ring) self.now.at.rows) }
        ensures named { IfOk result (λ gathered. All (λ name. name.signer < length self.now.ring)
            (names_of (configs_with self.now.at.configs gathered.items))) }
    {
        let at = self.press.press().published_state();
        let gathered = gathered(alloc, at, desks)?;
        if !rows_have_signers(at.parts().rows.as_slice(), self.signers) {
            bail!("a live key without a signer");
        }
        if !names_have_signers(alloc, at, &gathered, self.signers)? {
            bail!("a name without a signer");
        }
        Ok(gathered)
    }

    /// Publishes at that clock what the desks accepted.
    pub fn publish<R: Threads + Sync>(
        &mut self,
        rt: &R,
        alloc: Global,
        now: u64,
        desks: &Desks,
    ) -> Result<Told> {
        let gathered = self.gather(alloc, desks)?;
        let prepared = match self.press.prepare(rt, alloc, now, gathered) {
            Ok(prepared) => prepared,
            Err(fault) => return Ok(Err(fault)),
        };
        let changes = changes_text(alloc, prepared.changes())?;
        let (puts, withdrawals) = counts(prepared.changes());
        let published = match self.press.commit(prepared) {
            Ok(published) => published,
            Err(CommitFault::DiskFault { .. }) => bail!("a disk in memory failed"),
        };
        self.press.retire_keys();
        Ok(Ok(Edition {
            published,
            puts,
            withdrawals,
            changes,
        }))
    }

    /// Publishes the same way, and tells how much of the processor's time went by until the edition was prepared.
    pub fn timed<R: Threads + Sync + CpuClock>(
        &mut self,
        rt: &R,
        alloc: Global,
        now: u64,
        desks: &Desks,
    ) -> Result<Duration> {
        let gathered = self.gather(alloc, desks)?;
        let start = rt.process_cpu_time()?;
        let Ok(prepared) = self.press.prepare(rt, alloc, now, gathered) else {
            bail!("no edition at {now}");
        };
        let spent = rt.process_cpu_time()?.saturating_sub(start);
        if self.press.commit(prepared).is_err() {
            bail!("a disk in memory failed");
        }
        self.press.retire_keys();
        Ok(spent)
    }
}

// What an empty disk has: no edition.
fn load_empty(alloc: Global, site: &Site) -> Result<Loaded<MemoryDisk>>
    ensures serial { IfOk result (λ loaded. loaded.serial ≡ 0) }
    ensures firsts { IfOk result (λ loaded. AreFirsts loaded.cut []) }
{
    let disk = MemoryDisk::new(alloc, Vec::new(alloc), Vec::new(alloc));
    let loaded = match load(alloc, disk, site, Uuid::from_u128(SESSION)) {
        Ok(loaded) => loaded,
        Err(LoadRefused { .. }) => bail!("an empty disk isn't loaded"),
    };
    if loaded.serial() != 0 {
        bail!("an empty disk has an edition");
    }
    Ok(loaded)
}

// Whether the live keys use only so many signers.
fn rows_have_signers(rows: &[KeyRow], signers: u32) -> bool
    ensures { IsTrue result → All (λ row. row.signer < signers) rows.now }
{
    rows.iter().all(|row| row.signer < signers)
}

// How many changes put, and how many withdraw.
fn counts(changes: &[Change]) -> (usize, usize) {
    let puts = changes
        .iter()
        .filter(|change| matches!(change, Change::Put { .. }))
        .count();
    (puts, changes.len().saturating_sub(puts))
}
