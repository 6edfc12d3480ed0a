//! What of the wanted objects has to be made, since nothing that stands fits it.

ghost use Rattle.std.specs.Prelude.{◌≡◌, ◌++◌, ◌&&◌, map, filter, not, is_none, IfOk, OnOk};
ghost use Rattle.std.specs.List.{filter_map};
ghost use Rattle.pub_set.specs.Objects.{Rise};
ghost use Rattle.issue_plan.specs.Fits.{stands_first, is_in_place, has_one_point};
ghost use Rattle.issue_plan.specs.Serves.{serves_certificate};
ghost use Rattle.issue_plan.specs.inner.Anew as spec;

use crate::changed::has_changed;
use crate::firsts::stands_first;
use crate::keys::is_same_id;
use crate::live::{LiveKey, live_at};
use crate::places;
use crate::positions::{position_of, row_at};
use crate::serving::{is_point, serves_certificate, serves_point, serves_roa};
use authority_book::NameRow;
use key_ids::{KeyId, Site};
use key_roll::{CertWork, IssuedRow, KeyName, PointWork, RoaWork};
use pub_set::Uri;
use std::alloc::{AllocError, Global};

/// What stands before an edition, and the edition's moment.
#[derive(Clone, Copy)]
pub struct Standing<'a> {
    /// The live keys.
    pub live: &'a [LiveKey],
    /// The names of the authorities, by their desks.
    pub names: &'a [NameRow],
    /// The objects, by rising URI.
    pub issued: &'a [IssuedRow],
    /// Those of them that are no ROAs.
    pub beside: &'a [&'a IssuedRow],
    pub site: &'a Site,
    /// In seconds since 1970.
    pub moment: u64,
}

// ---- certificates

/// The place of a certificate whose keys are live, its issuer among these.
pub fn certificate_place(
    alloc: Global,
    standing: &Standing<'_>,
    issuers: &[LiveKey],
    cert: &CertWork,
) -> Result<Option<Uri>, AllocError>
    ensures { IfOk result (λ place. place ≡ spec.certificate_place standing.now issuers.now cert.now) }
{
    let Some(issuer) = live_at(issuers, &cert.issuer) else {
        return Ok(None);
    };
    let Some(subject) = live_at(standing.live, &cert.subject) else {
        return Ok(None);
    };
    let place = places::certificate_place(
        alloc,
        standing.site,
        standing.names,
        issuer.desk,
        &issuer.id,
        &subject.id,
    )?;
    Ok(Some(place))
}

// Whether the object serves for the certificate, and is the first one of its key.
fn stays_as_certificate(standing: &Standing<'_>, cert: &CertWork, row: &IssuedRow) -> bool
    ensures { result ≡ (serves_certificate standing.now.moment cert.now row.now
        && stands_first (spec.beside_of standing.now) cert.now.subject row.now.uri) }
{
    serves_certificate(standing.moment, cert, row)
        && stands_first(standing.beside, &cert.subject, &row.uri)
}

// The position of what fits the certificate.
fn kept_certificate(
    alloc: Global,
    standing: &Standing<'_>,
    settled: &[LiveKey],
    cert: &CertWork,
) -> Result<Option<usize>, AllocError>
    requires { Rise (λ row. row.uri) standing.now.issued.now }
    ensures { IfOk result (λ kept. kept ≡ spec.kept_certificate standing.now settled.now cert.now) }
{
    let Some(place) = certificate_place(alloc, standing, settled, cert)? else {
        return Ok(None);
    };
    let Some(position) = position_of(standing.issued, &place) else {
        return Ok(None);
    };
    match standing.issued.get(position) {
        Some(row) if stays_as_certificate(standing, cert, row) => Ok(Some(position)),
        _ => Ok(None),
    }
}

/// The certificates that nothing fits. The positions of what fits the others go behind `kept`.
/// `settled` has the keys that are settled.
pub fn certificates_anew(
    alloc: Global,
    standing: &Standing<'_>,
    settled: &[LiveKey],
    certs: Vec<CertWork>,
    kept: &mut Vec<usize>,
) -> Result<Vec<CertWork>, AllocError>
    requires { Rise (λ row. row.uri) standing.now.issued.now }
    ensures anew { IfOk result (λ anew. anew.items
        ≡ filter (λ cert. is_none (spec.kept_certificate standing.now settled.now cert)) certs.items) }
    ensures kept { OnOk result (kept.new.items
        ≡ kept.old.items ++ filter_map (spec.kept_certificate standing.now settled.now) certs.items) }
{
    let mut anew = Vec::new(alloc);
    for cert in certs {
        match kept_certificate(alloc, standing, settled, &cert)? {
            Some(position) => kept.push(position)?,
            None => anew.push(cert)?,
        }
    }
    Ok(anew)
}

// ---- ROAs

fn roa_place(
    alloc: Global,
    standing: &Standing<'_>,
    settled: &[LiveKey],
    roa: &RoaWork,
) -> Result<Option<Uri>, AllocError>
    ensures { IfOk result (λ place. place ≡ spec.roa_place standing.now settled.now roa.now) }
{
    let Some(issuer) = live_at(settled, &roa.issuer) else {
        return Ok(None);
    };
    let place = places::roa_place(
        alloc,
        standing.site,
        standing.names,
        issuer.desk,
        &roa.origin,
    )?;
    Ok(Some(place))
}

/// The position of what fits the ROA.
pub fn kept_roa(
    alloc: Global,
    standing: &Standing<'_>,
    settled: &[LiveKey],
    roa: &RoaWork,
) -> Result<Option<usize>, AllocError>
    requires { Rise (λ row. row.uri) standing.now.issued.now }
    ensures { IfOk result (λ kept. kept ≡ spec.kept_roa standing.now settled.now roa.now) }
{
    let Some(place) = roa_place(alloc, standing, settled, roa)? else {
        return Ok(None);
    };
    let Some(position) = position_of(standing.issued, &place) else {
        return Ok(None);
    };
    match standing.issued.get(position) {
        Some(row) if serves_roa(standing.moment, roa, row) => Ok(Some(position)),
        _ => Ok(None),
    }
}

// ---- points

// Whether a CRL or a manifest of the key stands at the place, and isn't due.
fn point_stands(standing: &Standing<'_>, key: &KeyName, place: &Uri) -> bool
    requires { Rise (λ row. row.uri) standing.now.issued.now }
    ensures { result ≡ spec.point_stands standing.now key.now place.now }
{
    match row_at(standing.issued, place) {
        Some(row) => serves_point(standing.moment, key, row),
        None => false,
    }
}

// Whether the row is no CRL or manifest of the key, or is at one of the places.
fn is_in_place(key: &KeyId, crl: &Uri, manifest: &Uri, row: &IssuedRow) -> bool
    ensures { result ≡ is_in_place key.now crl.now manifest.now row.now }
{
    !is_same_id(&row.issuer, key)
        || !is_point(&row.what)
        || row.uri.as_str() == crl.as_str()
        || row.uri.as_str() == manifest.as_str()
}

// Whether the key has no CRL or manifest elsewhere among these rows.
fn has_one_point(rows: &[&IssuedRow], key: &KeyId, crl: &Uri, manifest: &Uri) -> bool
    ensures { result ≡ has_one_point (map (λ row. row.now) rows.now) key.now crl.now manifest.now }
{
    for row in rows {
        if !is_in_place(key, crl, manifest, row) {
            return false;
        }
    }
    true
}

// Whether the key's CRL and manifest stand where they are wanted, and nowhere else.
fn files_stand(alloc: Global, standing: &Standing<'_>, key: &LiveKey) -> Result<bool, AllocError>
    requires { Rise (λ row. row.uri) standing.now.issued.now }
    ensures { IfOk result (λ stands. stands ≡ spec.files_stand standing.now key.now) }
{
    let name = KeyName::Live { id: key.id };
    let crl = places::crl_place(alloc, standing.site, standing.names, key.desk, &key.id)?;
    let manifest = places::manifest_place(alloc, standing.site, standing.names, key.desk, &key.id)?;
    Ok(
        has_one_point(standing.beside, &key.id, &crl, &manifest)
            && point_stands(standing, &name, &crl)
            && point_stands(standing, &name, &manifest),
    )
}

// Whether the key's CRL and manifest stay. `changed` has the keys whose other files change.
fn point_stays(
    alloc: Global,
    standing: &Standing<'_>,
    settled: &[LiveKey],
    changed: &[KeyId],
    point: &PointWork,
) -> Result<bool, AllocError>
    requires { Rise (λ row. row.uri) standing.now.issued.now }
    ensures { IfOk result (λ stays. stays ≡ spec.point_stays standing.now settled.now changed.now point.now) }
{
    let Some(key) = live_at(settled, &point.key) else {
        return Ok(false);
    };
    if key.desk == 0 || has_changed(changed, &key.id) {
        return Ok(false);
    }
    files_stand(alloc, standing, key)
}

/// The points that have to be made. `settled` has the keys that are settled, `changed` those whose
/// other files change.
pub fn points_anew(
    alloc: Global,
    standing: &Standing<'_>,
    settled: &[LiveKey],
    changed: &[KeyId],
    points: &[PointWork],
) -> Result<Vec<PointWork>, AllocError>
    requires { Rise (λ row. row.uri) standing.now.issued.now }
    ensures { IfOk result (λ anew. anew.items
        ≡ filter (λ point. not (spec.point_stays standing.now settled.now changed.now point)) points.now) }
{
    let mut anew = Vec::new(alloc);
    for point in points {
        if !point_stays(alloc, standing, settled, changed, point)? {
            anew.push(*point)?;
        }
    }
    Ok(anew)
}
