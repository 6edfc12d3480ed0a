//! A set of objects, its editions and their files.

use anyhow::{Context, Result, bail};
use key_ids::Site;
use outlet_api::OutFiles;
use pub_set::{Change, Content, ObjectSet, Uri, changes};
use rrdp_state::{Resuming, Rrdp, TELLING_EDITIONS};
use rrdp_text::{delta_len, snapshot_len};
use sha2::{Digest, Sha256};
use std::alloc::Global;
use uuid::Uuid;

#[derive(Drop)]
pub struct Editions {
    session: Uuid,
    set: ObjectSet,
    past: Vec<Past>,
    rrdp: Rrdp,
}

/// An edition that was published: its changes, and the set after it.
#[derive(Drop)]
struct Past {
    changes: Vec<Change>,
    set: ObjectSet,
}

impl Editions {
    pub fn new(alloc: Global, session: Uuid, site: &Site) -> Result<Editions> {
        Ok(Editions {
            session,
            set: ObjectSet::new(alloc),
            past: Vec::new(alloc),
            rrdp: Rrdp::new(alloc, session, site)?,
        })
    }

    /// Publishes an edition with these changes. The lengths of its snapshot and its delta.
    pub fn publish(&mut self, alloc: Global, parts: &str) -> Result<(u128, Option<u128>)> {
        let old = self.set.copy(alloc)?;
        let query = read_changes(alloc, &self.set, parts)?;
        self.set.query(alloc, "", query)?;
        let changes = changes(alloc, &old, &self.set)?;
        let Some(serial) = self.rrdp.serial().checked_add(1) else {
            bail!("no serial is left");
        };
        let next = self.rrdp.next(alloc, serial, &self.set, &changes)?;
        let snapshot = snapshot_len(&self.session, serial, &self.set);
        let delta = delta_len(&self.session, serial, &changes);
        if let Some(text) = &next.delta {
            if text.len() as u128 != delta {
                bail!("{delta} bytes, and {} of them", text.len());
            }
        }
        self.rrdp.advance(next, &self.set);
        let set = self.set.copy(alloc)?;
        self.past.push(Past { changes, set })?;
        Ok((snapshot, if serial == 1 { None } else { Some(delta) }))
    }

    /// What an export puts and removes.
    pub fn files(&self, alloc: Global, all: bool) -> Result<OutFiles> {
        Ok(self.rrdp.files(alloc, &self.set, all)?)
    }

    /// Takes the session up again, by the newest editions as far as they are needed. How many these are.
    pub fn resume(&mut self, alloc: Global, site: &Site) -> Result<usize> {
        let told = self.past.len().min(TELLING_EDITIONS as usize);
        let older = self.past.len() - told;
        let mut resuming = Resuming::behind(alloc, self.session, site, older as u64)?;
        for edition in self.past.iter().skip(older) {
            if resuming.serial() > u64::from(u32::MAX) {
                bail!("too many editions");
            }
            let next = resuming.next(alloc, &edition.set, &edition.changes)?;
            resuming.advance(next, &edition.set);
        }
        self.rrdp = resuming.open();
        Ok(told)
    }
}

fn read_changes(alloc: Global, set: &ObjectSet, parts: &str) -> Result<Vec<Change>> {
    let mut changes = Vec::new(alloc);
    for part in parts.split(' ') {
        if !part.is_empty() {
            changes.push(read_change(alloc, set, part)?)?;
        }
    }
    Ok(changes)
}

fn read_change(alloc: Global, set: &ObjectSet, part: &str) -> Result<Change> {
    if let Some(uri) = part.strip_prefix('-') {
        let hash = hash_at(set, uri).context("nothing to take out")?;
        let uri = Uri::new(String::from_str(alloc, uri)?);
        return Ok(Change::Withdraw { uri, hash });
    }
    let (uri, bytes) = part.split_once('=').context("an object without bytes")?;
    Ok(Change::Put {
        replaces: hash_at(set, uri),
        uri: Uri::new(String::from_str(alloc, uri)?),
        bytes: Content::new(alloc, hex::decode(alloc, bytes)?)?,
    })
}

fn hash_at(set: &ObjectSet, uri: &str) -> Option<[u8; 32]> {
    let bytes = set.get(uri)?;
    Some(Sha256::digest(bytes))
}
