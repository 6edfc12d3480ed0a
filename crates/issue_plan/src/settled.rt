//! The live keys whose certificates stand where they are wanted.

ghost use Rattle.std.specs.Prelude.{◌≡◌, map, find, filter, option_map, IfOk};
ghost use Rattle.issue_plan.specs.Keys as keys_spec;
ghost use Rattle.issue_plan.specs.inner.Anew as spec;

use crate::anew::{Standing, certificate_place};
use crate::firsts::stands_first;
use crate::keys::is_live;
use crate::live::LiveKey;
use key_ids::KeyId;
use key_roll::{CertWork, KeyName};
use pub_set::Uri;
use std::alloc::{AllocError, Global};

// The first of these certificates that is the key's.
fn certificate_for<'a>(certs: &'a [CertWork], id: &KeyId) -> Option<&'a CertWork>
    ensures { option_map (λ cert. cert.now) result
        ≡ find (λ cert. keys_spec.is_live id.now cert.subject) certs.now }
{
    certs.iter().find(|cert| is_live(id, &cert.subject))
}

// Where the key's certificate is wanted.
fn home_of(
    alloc: Global,
    standing: &Standing<'_>,
    certs: &[CertWork],
    key: &LiveKey,
) -> Result<Option<Uri>, AllocError>
    ensures { IfOk result (λ home. home ≡ spec.home_of standing.now certs.now key.now) }
{
    match certificate_for(certs, &key.id) {
        Some(cert) => certificate_place(alloc, standing, standing.live, cert),
        None => Ok(None),
    }
}

// Whether the key is the trust anchor's, or its first certificate stands where it is wanted.
fn is_settled(
    alloc: Global,
    standing: &Standing<'_>,
    certs: &[CertWork],
    key: &LiveKey,
) -> Result<bool, AllocError>
    ensures { IfOk result (λ settled. settled ≡ spec.is_settled standing.now certs.now key.now) }
{
    if key.desk == 0 {
        return Ok(true);
    }
    match home_of(alloc, standing, certs, key)? {
        Some(home) => Ok(stands_first(standing.beside, &KeyName::Live { id: key.id }, &home)),
        None => Ok(false),
    }
}

/// The live keys that are settled, as the certificates are wanted.
pub fn settled_keys(
    alloc: Global,
    standing: &Standing<'_>,
    certs: &[CertWork],
) -> Result<Vec<LiveKey>, AllocError>
    ensures { IfOk result (λ settled. settled.items
        ≡ filter (spec.is_settled standing.now certs.now) standing.now.live.now) }
{
    let mut settled = Vec::new(alloc);
    for key in standing.live {
        if is_settled(alloc, standing, certs, key)? {
            settled.push(*key)?;
        }
    }
    Ok(settled)
}
