//! What an edition wants to stand: certificates, ROAs and publication points (RFC 6487, RFC 9582,
//! RFC 9286).

ghost use Rattle.std.specs.Prelude.{◌≡◌, IfOk};
ghost use Rattle.entitle.specs.Certified.{settings_of, names_of};
ghost use Rattle.issue_plan.specs.Wanted as spec;
ghost use Rattle.issue_plan.specs.Wanted.{wanted_certificates, wanted_points};

use crate::keys::NextKey;
use crate::live::LiveKey;
use crate::lookups::{parent_at, set_at};
use crate::requests::certified_for;
use authority_book::Config;
use entitle::Tree;
use key_roll::{CertWork, KeyName, PointWork, Role, is_role};
use std::alloc::{AllocError, Global};

/// The current key of a desk.
pub fn current_of(keys: &[NextKey], desk: usize) -> Option<KeyName>
    ensures { result ≡ spec.current_of keys.now desk }
{
    let key = keys.iter().find(|key| key.desk as usize == desk
        && is_role(key.role, Role::Current))?;
    Some(key.name)
}

// The desk of the parent of the desk's authority.
fn parents_desk(configs: &[Config], desk: u32) -> Option<usize>
    ensures { result ≡ spec.parents_desk (settings_of configs.now) desk }
{
    let parent = parent_at(configs, desk)?;
    configs.first()?.place_of(&parent)
}

// The key that issues the certificate of a key.
fn issuer_of(configs: &[Config], keys: &[NextKey], key: &NextKey) -> Option<KeyName>
    ensures { result ≡ spec.issuer_of (settings_of configs.now) keys.now key.now }
{
    if key.desk == 0 {
        return Some(key.name);
    }
    current_of(keys, parents_desk(configs, key.desk)?)
}

fn certificate_of(
    alloc: Global,
    live: &[LiveKey],
    configs: &[Config],
    tree: &Tree,
    keys: &[NextKey],
    key: &NextKey,
) -> Result<Option<CertWork>, AllocError>
    ensures { IfOk result (λ certificate. certificate
        ≡ spec.certificate_of (settings_of configs.now) tree.now.sets.items keys.now key.now) }
{
    let Some(issuer) = issuer_of(configs, keys, key) else {
        return Ok(None);
    };
    let Some(set) = set_at(tree, key.desk) else {
        return Ok(None);
    };
    let held = certified_for(alloc, live, set, key)?;
    Ok(Some(CertWork {
        subject: key.name,
        issuer,
        held,
    }))
}

/// A certificate for each key (RFC 6487 section 4). `live` has the keys that are live before the
/// edition.
pub fn certificates(
    alloc: Global,
    live: &[LiveKey],
    configs: &[Config],
    tree: &Tree,
    keys: &[NextKey],
) -> Result<Vec<CertWork>, AllocError>
    ensures { IfOk result (λ certificates. certificates.items
        ≡ wanted_certificates (settings_of configs.now) tree.now.sets.items keys.now) }
{
    let mut certificates = Vec::new(alloc);
    for key in keys {
        if let Some(certificate) = certificate_of(alloc, live, configs, tree, keys, key)? {
            certificates.push(certificate)?;
        }
    }
    Ok(certificates)
}

fn point_of(key: &NextKey) -> PointWork
    ensures { result ≡ spec.point_of key.now }
{
    PointWork { key: key.name }
}

/// A point for each key (a CRL and a manifest, RFC 9286 section 5.1).
pub fn points(alloc: Global, keys: &[NextKey]) -> Result<Vec<PointWork>, AllocError>
    ensures { IfOk result (λ points. points.items ≡ wanted_points keys.now) }
{
    keys.iter().map(|key| point_of(key)).collect(alloc)
}
