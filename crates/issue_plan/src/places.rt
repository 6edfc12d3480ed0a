//! Where wanted objects stand whose keys are live (RFC 6481 section 2).

ghost use Rattle.std.specs.Prelude.{◌≡◌, IfOk};
ghost use Rattle.issue_plan.specs.Fits as spec;
ghost use Rattle.issue_plan.specs.Uris.{roa_file};

use crate::keys::is_same_id;
use crate::lookups;
use authority_book::NameRow;
use key_ids::{KeyId, Site};
use origins::Origin;
use pub_set::Uri;
use std::alloc::{AllocError, Global};

// The name of the desk's authority. Each desk of a key has one.
fn name_at(names: &[NameRow], desk: u32) -> &str
    ensures { result.now ≡ spec.name_at names.now desk }
{
    match lookups::name_at(names, desk) {
        Some(row) => row.name.as_str(),
        None => "",
    }
}

/// The place of a certificate: the trust anchor's own, or one in the folder of its issuer's
/// authority, which has the desk.
pub fn certificate_place(
    alloc: Global,
    site: &Site,
    names: &[NameRow],
    desk: u32,
    issuer: &KeyId,
    subject: &KeyId,
) -> Result<Uri, AllocError>
    ensures { IfOk result (λ place. place ≡ spec.certificate_place_by site.now names.now desk issuer.now subject.now) }
{
    if is_same_id(issuer, subject) {
        return Ok(Uri::new(site.anchor_uri(alloc)?));
    }
    let uri = site.cert_uri(alloc, name_at(names, desk), subject)?;
    Ok(Uri::new(uri))
}

/// The place of an origin's ROA, in the folder of the desk's authority.
pub fn roa_place(
    alloc: Global,
    site: &Site,
    names: &[NameRow],
    desk: u32,
    origin: &Origin,
) -> Result<Uri, AllocError>
    ensures { IfOk result (λ place. place ≡ spec.roa_place_by site.now names.now desk origin.now) }
{
    let file = origin.file_name(alloc)?;
    let uri = site.file_uri(alloc, name_at(names, desk), file.as_str())?;
    Ok(Uri::new(uri))
}

/// The place of a key's CRL, in the folder of the desk's authority.
pub fn crl_place(
    alloc: Global,
    site: &Site,
    names: &[NameRow],
    desk: u32,
    key: &KeyId,
) -> Result<Uri, AllocError>
    ensures { IfOk result (λ place. place ≡ spec.crl_place_by site.now names.now desk key.now) }
{
    let uri = site.crl_uri(alloc, name_at(names, desk), key)?;
    Ok(Uri::new(uri))
}

/// The place of a key's manifest, in the folder of the desk's authority.
pub fn manifest_place(
    alloc: Global,
    site: &Site,
    names: &[NameRow],
    desk: u32,
    key: &KeyId,
) -> Result<Uri, AllocError>
    ensures { IfOk result (λ place. place ≡ spec.manifest_place_by site.now names.now desk key.now) }
{
    let uri = site.manifest_uri(alloc, name_at(names, desk), key)?;
    Ok(Uri::new(uri))
}
