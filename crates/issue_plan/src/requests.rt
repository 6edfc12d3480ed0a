//! What authorities ask of their parents for their keys (RFC 6492 sections 3.3 to 3.5).

ghost use Rattle.std.specs.Prelude.{◌≡◌, ◌==◌, map, filter, IfOk};

use crate::keys::NextKey;
use crate::live::LiveKey;
use key_ids::KeyId;
use key_roll::KeyName;
use provision::{Class, Reply, Request};
use res_sets::Resources;
use std::alloc::{AllocError, Global};

// The one class that a parent has.
const CLASS: &str = "0";

// The keys of the desk that have a certificate: its live ones.
fn certified_keys(alloc: Global, live: &[LiveKey], desk: u32) -> Result<Vec<KeyId>, AllocError>
    ensures { IfOk result (λ keys. keys.items
        ≡ map (λ key. key.id) (filter (λ key. key.desk == desk) live.now)) }
{
    live.iter()
        .filter(|key| key.desk == desk)
        .map(|key| key.id)
        .collect(alloc)
}

// What the parent of the desk's authority has for it.
fn class_of(
    alloc: Global,
    live: &[LiveKey],
    set: &Resources,
    desk: u32,
) -> Result<Class, AllocError>
    ensures { IfOk result (λ class. class.resources ≡ set.now) }
{
    Ok(Class {
        resources: set.copy(alloc)?,
        keys: certified_keys(alloc, live, desk)?,
    })
}

/// What a certificate of the key is to hold, as the parent tells the authority that asks for it. One
/// that has no key yet asks which classes there are (RFC 6492 sections 3.3 and 3.4).
pub fn certified_for(
    alloc: Global,
    live: &[LiveKey],
    set: &Resources,
    key: &NextKey,
) -> Result<Resources, AllocError>
    ensures { IfOk result (λ held. held ≡ set.now) }
{
    let class = class_of(alloc, live, set, key.desk)?;
    let request = match &key.name {
        KeyName::Live { id } => Request::Issue {
            class: String::from_str(alloc, CLASS)?,
            key: *id,
        },
        KeyName::Fresh { .. } => Request::List,
    };
    match provision::answer(alloc, &class, &request)? {
        Reply::Class { resources } | Reply::Issued { resources, .. } => Ok(resources),
        // An authority without resources has no key.
        Reply::NoClass | Reply::Revoked { .. } | Reply::Error { .. } => set.copy(alloc),
    }
}

/// The live key that ends, as the parent tells the authority that asks it to revoke the key's
/// certificate (RFC 6492 section 3.5). `set` is what the authority is certified for.
pub fn revoked(
    alloc: Global,
    live: &[LiveKey],
    set: &Resources,
    key: &LiveKey,
) -> Result<KeyId, AllocError>
    ensures { IfOk result (λ id. id ≡ key.now.id) }
{
    let id = key.id;
    let class = class_of(alloc, live, set, key.desk)?;
    let request = Request::Revoke {
        class: String::from_str(alloc, CLASS)?,
        key: id,
    };
    match provision::answer(alloc, &class, &request)? {
        Reply::Revoked { key } => Ok(key),
        // Each live key has a certificate.
        Reply::NoClass | Reply::Class { .. } | Reply::Issued { .. } | Reply::Error { .. } => Ok(id),
    }
}
