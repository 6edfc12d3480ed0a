//! The certificates that stand and that stood, as they are read of the sets, and what CRLs are to list of them.

use anyhow::{Context, Result, bail};
use cert_obj::Cert;
use crl_obj::{Crl, CrlEntry};
use key_ids::KeyId;
use pub_set::{Object, ObjectSet};
use std::alloc::Global;
use std::collections::BTreeSet;

/// A certificate that stands, with its issuer and serial as a text.
#[derive(Drop)]
struct Held {
    name: String,
    issuer: KeyId,
    serial: u64,
    not_after: u64,
}

/// A certificate that doesn't stand any more, and since when.
#[derive(Clone, Copy)]
struct Ended {
    issuer: KeyId,
    serial: u64,
    not_after: u64,
    since: u64,
}

/// When a key's last CRL was made.
#[derive(Clone, Copy)]
struct Made {
    issuer: KeyId,
    this_update: u64,
}

/// The certificates of a tree, and the times of its CRLs.
#[derive(Drop)]
pub struct Kept {
    held: Vec<Held>,
    ended: Vec<Ended>,
    made: Vec<Made>,
}

impl Kept {
    /// Before the first set.
    pub fn new(alloc: Global) -> Kept {
        Kept {
            held: Vec::new(alloc),
            ended: Vec::new(alloc),
            made: Vec::new(alloc),
        }
    }

    /// Looks at the next set, and tells how many entries its new CRLs have, which are to be those of what doesn't stand
    /// any more and hadn't ended by the key's last CRL.
    pub fn look(&mut self, alloc: Global, set: &ObjectSet, moment: u64) -> Result<u64> {
        let held = held_in(alloc, set)?;
        self.end(alloc, &held, moment)?;
        self.held = held;
        let mut made = Vec::new(alloc);
        let mut entries = 0u64;
        for object in set.as_slice() {
            if object.uri.as_str().ends_with(".crl") {
                let read = crl_obj::read(alloc, object.bytes.as_slice())?;
                entries = entries.saturating_add(self.compare(&read.crl, moment)?);
                made.push(Made {
                    issuer: read.crl.issuer,
                    this_update: read.crl.this_update,
                })?;
            }
        }
        self.made = made;
        Ok(entries)
    }

    // What stood and doesn't any more.
    fn end(&mut self, alloc: Global, held: &[Held], moment: u64) -> Result<()> {
        let mut names = BTreeSet::new(alloc);
        for each in held {
            names.insert(each.name.clone()?)?;
        }
        for old in &self.held {
            if !names.contains(old.name.as_str()) {
                self.ended.push(Ended {
                    issuer: old.issuer,
                    serial: old.serial,
                    not_after: old.not_after,
                    since: moment,
                })?;
            }
        }
        self.ended.sort_by_key(|each| each.serial)?;
        Ok(())
    }

    // When the key's last CRL was made, and 0 where it had none.
    fn last_of(&self, key: KeyId) -> u64 {
        match self.made.iter().find(|each| each.issuer == key) {
            Some(each) => each.this_update,
            None => 0,
        }
    }

    // How many entries a CRL has that was made at the moment. What it leaves out is dropped, and so are none of another's.
    fn compare(&mut self, crl: &Crl, moment: u64) -> Result<u64> {
        let (key, last) = (crl.issuer, self.last_of(crl.issuer));
        if crl.this_update != moment {
            return Ok(0);
        }
        self.ended
            .retain(|each| each.issuer != key || each.not_after >= last);
        let mut left = crl.entries.iter();
        for ended in self.ended.iter().filter(|each| each.issuer == key) {
            let entry = left.next().context("an entry is missing")?;
            same(entry, ended)?;
        }
        if left.next().is_some() {
            bail!("an entry too many");
        }
        Ok(crl.entries.len() as u64)
    }
}

fn same(entry: &CrlEntry, ended: &Ended) -> Result<()> {
    if entry.serial != ended.serial || entry.revoked_at != ended.since {
        bail!("the entry {} isn't {}", entry.serial, ended.serial);
    }
    Ok(())
}

// The certificates of a set, but for the trust anchor's own.
fn held_in(alloc: Global, set: &ObjectSet) -> Result<Vec<Held>> {
    let mut held = Vec::new(alloc);
    for object in set.as_slice() {
        let uri = object.uri.as_str();
        if !uri.ends_with(".crl") && !uri.ends_with("/ta.cer") {
            held.push(held_at(alloc, object)?)?;
        }
    }
    Ok(held)
}

fn held_at(alloc: Global, object: &Object) -> Result<Held> {
    let cert = cert_in(alloc, object)?;
    let issuer = hex::encode(alloc, cert.issuer.bytes)?;
    Ok(Held {
        name: format!(in alloc; "{issuer} {}", cert.serial)?,
        issuer: cert.issuer,
        serial: cert.serial,
        not_after: cert.not_after,
    })
}

// The certificate that the object is, or that it has inside.
fn cert_in(alloc: Global, object: &Object) -> Result<Cert> {
    let bytes = object.bytes.as_slice();
    if object.uri.as_str().ends_with(".cer") {
        return Ok(cert_obj::read(alloc, bytes)?.cert);
    }
    let signed = cms_obj::read(alloc, bytes)?;
    Ok(cert_obj::read(alloc, signed.certificate)?.cert)
}
