//! What a case asks.

use anyhow::{Context, Result, bail};
use key_ids::Site;
use pub_set::ObjectSet;
use rp_audit::{AuditRefused, audit};
use rp_rules::Audited;
use signer_api::{PublicKey, Rehearsal, Signer};
use signer_ring::Ring;
use std::alloc::Global;

/// The name of a case, how an audit is asked for, and what is done before.
#[derive(Drop)]
pub struct Asked {
    pub name: String,
    anchor: PublicKey,
    site: Site,
    moment: u64,
    pub done: String,
}

/// What an audit comes to.
pub type Told = std::result::Result<Audited, AuditRefused>;

impl Asked {
    /// Reads the fields between tabs.
    pub fn read(alloc: Global, line: &str) -> Result<Asked> {
        let mut fields = Vec::new(alloc);
        for field in line.split('\t') {
            fields.push(field)?;
        }
        let [name, key, moment, rsync, rrdp, done] = fields.as_slice() else {
            bail!("another number of fields");
        };
        let key = hex::decode(alloc, key)?;
        Ok(Asked {
            name: String::from_str(alloc, name)?,
            anchor: PublicKey::read(&key).context("not a key")?,
            site: Site::read(alloc, rsync, rrdp)?,
            moment: moment.parse::<u64>()?,
            done: String::from_str(alloc, done)?,
        })
    }

    /// What an audit comes to that asks these signers.
    pub fn audit<S: Signer>(
        &self,
        alloc: Global,
        set: &ObjectSet,
        signers: Vec<S>,
    ) -> Result<Told> {
        if signers.len() > 2 {
            bail!("too many signers");
        }
        let mut ring = Ring::new(signers);
        Ok(audit(alloc, set, &self.anchor, &self.site, self.moment, &mut ring))
    }

    /// What an audit comes to that asks one signer for rehearsals.
    pub fn rehearse(&self, alloc: Global, set: &ObjectSet) -> Result<Told> {
        let mut signers = Vec::new(alloc);
        signers.push(Rehearsal::new([0; 32]))?;
        self.audit(alloc, set, signers)
    }
}
