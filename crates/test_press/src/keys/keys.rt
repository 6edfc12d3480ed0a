//! Keys that are made, rows that stay, and entries of CRLs.

ghost use Rattle.std.specs.Prelude.{◌≡◌, ◌<◌, length, All, IfOk, OnOk};

use crate::keys::fields::parts;
use crate::keys::lists::{ids, key_rows, revoked as revoked_rows, roles};
use anyhow::{Result, bail};
use issue_drafts::first_of_each;
use issue_keys::{MakeFault, kept_rows, make_keys};
use items::Items;
use key_roll::{NewKey, Role, Work};
use sha2::{Digest as Hasher, Sha256};
use signer_api::{Digest, Rehearsal, Signer};
use signer_ring::Ring;
use std::alloc::Global;
use test_support::fixed_of;

/// A signer that made so many keys before.
fn signer_of(alloc: Global, start: &str, before: &str) -> Result<Rehearsal> {
    let mut signer = Rehearsal::new(fixed_of(alloc, start)?);
    for _ in 0..before.parse::<u64>()? {
        let _once = signer.sign_once(alloc, &Digest { bytes: [0; 32] })?;
    }
    Ok(signer)
}

/// A new key of the first signer for a desk.
fn new_key(desk: u32) -> NewKey
    ensures { result.signer < 1 }
{
    NewKey {
        desk,
        signer: 0,
        role: Role::Current,
        since: 0,
        done: 0,
    }
}

/// A new key for each desk, all of the first signer.
fn new_keys(alloc: Global, desks: &str) -> Result<Vec<NewKey>>
    ensures { IfOk result (λ news. All (λ new. new.signer < 1) news.items) }
{
    let mut news = Vec::new(alloc);
    for desk in parts(alloc, desks, '|')? {
        let new = new_key(desk.parse::<u32>()?);
        news.push(new)?;
    }
    Ok(news)
}

/// Whether the ring has one signer.
fn has_one(ring: &Ring<Rehearsal>) -> Result<()>
    ensures { OnOk result (length ring.now ≡ 1) }
{
    if ring.len() != 1 {
        bail!("no signer");
    }
    Ok(())
}

/// The SHA-256 of each key that is made, or why it stopped.
pub fn made(alloc: Global, start: &str, before: &str, desks: &str, rows: &str) -> Result<String> {
    let news = new_keys(alloc, desks)?;
    let rows = key_rows(alloc, rows)?;
    let mut signers = Vec::new(alloc);
    signers.push(signer_of(alloc, start, before)?)?;
    let mut ring = Ring::new(signers);
    has_one(&ring)?;
    let mut text = String::new(alloc);
    match make_keys(alloc, news.as_slice(), &rows, &mut ring) {
        Ok(fresh) => {
            for row in fresh {
                text.push_str(hex::encode(alloc, Sha256::digest(&row.key.bytes))?.as_str())?;
                text.push_str(" ")?;
            }
        }
        Err(MakeFault::Memory) => bail!("out of memory"),
        Err(fault) => text.push_str(format!(in alloc; "{fault}")?.as_str())?,
    }
    Ok(text)
}

fn role_text(role: Role) -> &'static str {
    match role {
        Role::New => "New",
        Role::Current => "Current",
        Role::Old => "Old",
    }
}

/// The rows that stay: the SHA-256 of each key, its role, and the authority's rollovers.
pub fn kept(alloc: Global, given: &str, dropped: &str, rows: &str) -> Result<String> {
    let work = Work {
        moment: 0,
        new_keys: Items::new(Vec::new(alloc)),
        roles: Items::new(roles(alloc, given)?),
        certs: Items::new(Vec::new(alloc)),
        roas: Items::new(Vec::new(alloc)),
        points: Items::new(Vec::new(alloc)),
        withdrawn: Items::new(Vec::new(alloc)),
        dropped: Items::new(ids(alloc, dropped)?),
    };
    let mut text = String::new(alloc);
    for row in kept_rows(alloc, &work, &key_rows(alloc, rows)?)? {
        let key = hex::encode(alloc, Sha256::digest(&row.key.bytes))?;
        let (role, since, done) = (role_text(row.role), row.since, row.done);
        text.push_str(format!(in alloc; "{key} {role} {since} {done};")?.as_str())?;
    }
    Ok(text)
}

/// Of each serial the first entry, by rising serial.
pub fn revoked(alloc: Global, entries: &str) -> Result<String> {
    let mut text = String::new(alloc);
    for row in first_of_each(revoked_rows(alloc, entries)?)? {
        let (serial, not_after, at) = (row.serial, row.not_after, row.revoked_at);
        text.push_str(format!(in alloc; "{serial},{not_after},{at}/")?.as_str())?;
    }
    Ok(text)
}
