//! Audits of what stands.

use anyhow::{Context, Result, bail};
use authority_book::NameRow;
use editions::PublishedState;
use entitle::Owed;
use key_ids::Site;
use rp_audit::{AuditRefused, audit};
use rp_rules::{Audited, YieldedOrigin};
use signer_api::{PublicKey, Rehearsal};
use signer_ring::Ring;
use std::alloc::Global;

// The trust anchor's key.
fn anchor_key(at: &PublishedState) -> Result<PublicKey> {
    let rows = at.parts().rows.as_slice();
    let row = rows.iter().find(|row| row.desk == 0).context("no anchor")?;
    Ok(row.key)
}

/// What an audit of the set yields, which is to be sound at its moment, and to yield what is owed.
pub fn audited(alloc: Global, at: &PublishedState, site: &Site) -> Result<Audited> {
    let mut signers = Vec::new(alloc);
    signers.push(Rehearsal::new([0; 32]))?;
    let mut ring = Ring::new(signers);
    let parts = at.parts();
    let key = anchor_key(at)?;
    match audit(alloc, &parts.set, &key, site, parts.moment, &mut ring) {
        Ok(audited) => {
            compare(alloc, at, site, &audited)?;
            Ok(audited)
        }
        Err(AuditRefused::Refused { uri, rule }) => bail!("{uri} breaks rule {}", rule.code()),
        Err(AuditRefused::Unreached { uri }) => bail!("{uri} isn't reached"),
        Err(_) => bail!("no audit"),
    }
}

// Whether all objects are counted, and the origins that it yields are those owed.
fn compare(alloc: Global, at: &PublishedState, site: &Site, audited: &Audited) -> Result<()> {
    let parts = at.parts();
    if audited.objects() != parts.set.len() as u64 {
        bail!("another number of objects");
    }
    let anchor = parts.configs.as_slice().first().context("no anchor")?;
    let owed = owed_texts(alloc, site, anchor.names(), parts.owed.as_slice())?;
    if yielded_texts(alloc, audited.origins())? != owed {
        bail!("other origins than those owed");
    }
    Ok(())
}

// The folder and the origin of each, sorted.
fn owed_texts(alloc: Global, site: &Site, names: &[NameRow], owed: &[Owed]) -> Result<Vec<String>> {
    let mut texts = Vec::new(alloc);
    for each in owed {
        let row = names.get(each.desk as usize).context("no such name")?;
        let folder = site.folder(alloc, row.name.as_str())?;
        let origin = each.origin.text(alloc)?;
        texts.push(format!(in alloc; "{folder} {origin}")?)?;
    }
    texts.sort()?;
    Ok(texts)
}

// The same of what is yielded.
fn yielded_texts(alloc: Global, yielded: &[YieldedOrigin]) -> Result<Vec<String>> {
    let mut texts = Vec::new(alloc);
    for each in yielded {
        let origin = each.origin.text(alloc)?;
        texts.push(format!(in alloc; "{} {origin}", each.folder)?)?;
    }
    texts.sort()?;
    Ok(texts)
}
