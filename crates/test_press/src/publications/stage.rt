//! A press, the desks, and the last edition's changes.

use crate::publications::audits::audited;
use crate::publications::desks::Desks;
use crate::publications::exports::shown;
use crate::publications::numbered::{adding, removing};
use crate::publications::shown::{edition_text, fault_text};
use crate::publications::superseded::Kept;
use crate::publications::trials::{Edition, Trial};
use crate::publications::{hours, times};
use anyhow::{Result, bail};
use key_ids::Site;
use outlet_api::MemoryOutlet;
use signer_api::Signer;
use signer_ring::Ring;
use std::alloc::Global;
use std::thread::Threads;
use std::time::CpuClock;
use test_support::digest_text;

/// A press, the desks, the repository, the last edition's changes as a text, an outlet, and the certificates of the
/// editions whose CRLs were looked at.
#[derive(Drop)]
pub struct Stage<S: Signer> {
    trial: Trial<S>,
    desks: Desks,
    site: Site,
    changes: String,
    outlet: MemoryOutlet,
    kept: Kept,
}

fn site(alloc: Global) -> Result<Site> {
    Ok(Site::read(
        alloc,
        "rsync://rpki.example/repo/",
        "https://rpki.example/rrdp/",
    )?)
}

impl<S: Signer + Send> Stage<S> {
    /// A press of these signers that published nothing, and desks without commands.
    pub fn new(alloc: Global, signers: Vec<S>) -> Result<Stage<S>> {
        if signers.len() > 8 {
            bail!("too many signers");
        }
        let site = site(alloc)?;
        Ok(Stage {
            trial: Trial::new(alloc, &site, Ring::new(signers))?,
            desks: Desks::new(alloc)?,
            site,
            changes: String::new(alloc),
            outlet: MemoryOutlet::new(alloc, Vec::new(alloc)),
            kept: Kept::new(alloc),
        })
    }

    /// Takes in the command of a line.
    pub fn take_line(&mut self, alloc: Global, line: &str) -> Result<()> {
        self.desks.take_line(alloc, line)
    }

    /// Adds so many numbered origins.
    pub fn add(&mut self, alloc: Global, count: u64) -> Result<String> {
        self.desks.take(alloc, 0, adding(alloc, 0, count)?)?;
        Ok(String::new(alloc))
    }

    /// Removes them.
    pub fn remove(&mut self, alloc: Global, count: u64) -> Result<String> {
        self.desks.take(alloc, 0, removing(alloc, 0, count)?)?;
        Ok(String::new(alloc))
    }

    /// Publishes, and tells of the edition, or why there is none.
    pub fn count<R: Threads + Sync>(
        &mut self,
        rt: &R,
        alloc: Global,
        clock: u64,
    ) -> Result<String> {
        match self.trial.publish(rt, alloc, clock, &self.desks)? {
            Ok(edition) => self.edition(alloc, edition),
            Err(fault) => fault_text(alloc, &fault),
        }
    }

    /// The same with the digest of the set.
    pub fn publish<R: Threads + Sync>(
        &mut self,
        rt: &R,
        alloc: Global,
        clock: u64,
    ) -> Result<String> {
        let before = self.serial();
        let mut text = self.count(rt, alloc, clock)?;
        if self.serial() != before {
            let digest = digest_text(alloc, &self.trial.published_state().parts().set)?;
            write!(text, ", {digest}")?;
        }
        Ok(text)
    }

    /// Publishes as `publish` does, and tells how many entries the edition's new CRLs have, too, which are looked at.
    pub fn listed<R: Threads + Sync>(
        &mut self,
        rt: &R,
        alloc: Global,
        clock: u64,
    ) -> Result<String> {
        let before = self.serial();
        let mut text = self.publish(rt, alloc, clock)?;
        if self.serial() != before {
            let parts = self.trial.published_state().parts();
            let entries = self.kept.look(alloc, &parts.set, parts.moment)?;
            write!(text, ", {entries} entries")?;
        }
        Ok(text)
    }

    fn serial(&self) -> u64 {
        self.trial.published_state().parts().serial
    }

    // Has the set of an edition audited, and tells of the edition.
    fn edition(&mut self, alloc: Global, edition: Edition) -> Result<String> {
        let _sound = audited(alloc, self.trial.published_state(), &self.site)?;
        let text = edition_text(alloc, &edition)?;
        self.changes = edition.changes;
        Ok(text)
    }

    /// The changes of the last edition.
    pub fn changes(&self, alloc: Global) -> Result<String> {
        Ok(String::from_str(alloc, self.changes.as_str())?)
    }

    /// An outlet without a file, of which the call of that number fails.
    pub fn set_outlet(&mut self, alloc: Global, fails: u64) -> Result<String> {
        let mut numbers = Vec::new(alloc);
        numbers.push(fails)?;
        self.outlet = MemoryOutlet::new(alloc, numbers);
        Ok(String::new(alloc))
    }

    /// Exports the last edition, and tells what the outlet shows then.
    pub fn export(&mut self, alloc: Global) -> Result<String> {
        let ended = self.trial.export(alloc, &mut self.outlet)?;
        let told = if ended { "exported" } else { "failed" };
        let parts = self.trial.published_state().parts();
        let shown = shown(alloc, &self.outlet, self.site.rrdp(), parts)?;
        Ok(format!(in alloc; "{told}: {shown}")?)
    }

    /// So many editions of the trust anchor, one each hour.
    pub fn hours<R: Threads + Sync>(
        &mut self,
        rt: &R,
        alloc: Global,
        count: u64,
        clock: u64,
    ) -> Result<String> {
        let (trial, desks) = (&mut self.trial, &mut self.desks);
        hours::run(rt, alloc, trial, desks, &self.site, count, clock)
    }

    /// Publishes, and tells how much of the processor's time that took.
    pub fn times<R: Threads + Sync + CpuClock>(
        &mut self,
        rt: &R,
        alloc: Global,
        clock: u64,
    ) -> Result<String> {
        times::told(rt, alloc, &mut self.trial, &self.desks, &self.site, clock)
    }
}
