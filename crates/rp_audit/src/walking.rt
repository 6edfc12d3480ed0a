//! The walk (RFC 6487 section 7.2, RFC 9286 section 6).

ghost use Rattle.std.specs.Prelude.{◌≡◌, ◌<◌, ◌+◌, ◌-◌, ◌++◌, ◌∷◌, ℕ, [], List, not, true, false, length, max, option_copied, IfOk, IfErr, OnOk};
ghost use Rattle.std.specs.List.{find};
ghost use Rattle.pub_set.specs.Changes.{Contents};
ghost use Rattle.payloads.specs.ManifestFormats.{name_of, file_view};
ghost use Rattle.rp_rules.specs.Authorities.{listed_uri};
ghost use Rattle.rp_rules.specs.Certificates.{is_among};
ghost use Rattle.rp_rules.specs.Points.{is_certificate_file, other_files};
ghost use Rattle.rp_rules.specs.Walk.{Visit, Published, Route, visited, visit_file, visit_files, visit_below, walk};
ghost use Rattle.rp_rules.specs.Yield.{own_serial};
ghost use Rattle.rp_rules.specs.Views.{point_values};
ghost use Rattle.rp_rules.specs.Sound.{IsAuditOf};
ghost use Rattle.rp_audit.specs.Audit.{asking, IsTold, Asks};
ghost use Rattle.rp_audit.specs.inner.Told.{Answers};
ghost use Rattle.rp_audit.specs.inner.Views.{context_of, held_in, authority_value, point_value, roa_value};
ghost use Rattle.rp_audit.specs.inner.Noted.{Sees, Notes, WalkContinues, VisitsFile, VisitsFiles, IsWalk, open_point, closed, visit_authority, visit_roa};

use crate::authorities::{accept_anchor, accept_authority};
use crate::authority::Authority;
use crate::bytes::owned;
use crate::files::{is_certificate_file, is_crl_file};
use crate::noted::Noted;
use crate::points::accept_point;
use crate::refusal::{AuditRefused, refusal};
use crate::roas::{accept_roa, note_origins};
use crate::scene::Scene;
use crate::signed::{Listing, ReadRoa};
use crate::uris::{crl_uri_of, listed_uri};
use crate::visited_uris::VisitedUris;
use cert_obj::CertKind;
use crl_obj::CrlEntry;
use key_ids::Site;
use payloads::ListedFile;
use pub_set::{Object, ObjectSet};
use rp_rules::{Audited, AuditedPoint, Rule};
use signer_api::{PublicKey, Signer};
use signer_ring::Ring;
use std::alloc::{AllocError, Global};

fn copied(alloc: Global, entries: &[CrlEntry]) -> Result<Vec<CrlEntry>, AllocError>
    ensures { IfOk result (λ copies. copies.items ≡ entries.now) }
{
    let mut copies = Vec::with_capacity(alloc, entries.len())?;
    for entry in entries {
        copies.push(*entry)?;
    }
    Ok(copies)
}

/// The serial of a certificate that its own key signs, or 0.
fn own_serial(authority: &Authority) -> u64
    ensures { result ≡ own_serial (authority_value authority.now).cert }
{
    match authority.cert.kind {
        CertKind::Anchor => authority.cert.serial,
        CertKind::Authority => 0,
        CertKind::EndEntity => 0,
    }
}

/// The greater of that and the serial of the manifest's certificate.
fn first_serial(authority: &Authority, listing: &Listing<'_>) -> u64
    ensures { result ≡ max (own_serial (authority_value authority.now).cert)
        listing.now.manifest.certificate.cert.serial }
{
    own_serial(authority).max(listing.manifest.certificate.cert.serial)
}

/// Notes a point. The greatest serial isn't known yet.
fn note_point(
    alloc: Global,
    noted: &mut Noted,
    authority: &Authority,
    listing: &Listing<'_>,
) -> Result<(), AllocError>
    ensures uris { OnOk result ((visits : List Visit) → Sees (visited visits) noted.old.visited_uris
        → Sees (visited (visits ++ Published (point_value authority.now listing.now) ∷ [])) noted.new.visited_uris) }
    ensures origins { OnOk result (noted.new.origins.items ≡ noted.old.origins.items) }
    ensures points { OnOk result (point_values noted.new.points.items
        ≡ point_values noted.old.points.items ++ open_point (point_value authority.now listing.now) ∷ []) }
{
    noted
        .visited_uris
        .add(owned(alloc, authority.cert.uris.manifest.as_str())?)?;
    noted.visited_uris.add(crl_uri_of(alloc, authority)?)?;
    noted.points.push(AuditedPoint {
        key: authority.cert.key,
        number: listing.crl.number,
        this_update: listing.crl.this_update,
        manifest_update: listing.manifest.body.this_update,
        greatest_serial: 0,
        crl: copied(alloc, &listing.crl.entries)?,
    })?;
    Ok(())
}

/// Notes the greatest serial of the point at a place, if there is one.
fn close_point(noted: &mut Noted, place: usize, serial: u64)
    ensures visited_uris { noted.new.visited_uris ≡ noted.old.visited_uris }
    ensures origins { noted.new.origins ≡ noted.old.origins }
    ensures points { point_values noted.new.points.items ≡ closed place serial (point_values noted.old.points.items) }
{
    if place < noted.points.len() {
        noted.points[place].greatest_serial = serial;
    }
}

/// Notes a ROA at its URI.
fn note_roa(
    alloc: Global,
    noted: &mut Noted,
    authority: &Authority,
    file: &ListedFile,
    roa: &ReadRoa<'_>,
) -> Result<(), AllocError>
    ensures { OnOk result ((held : Contents) (visits : List Visit) → Notes held visits
        (Route (authority_value authority.now) (listed_uri (authority_value authority.now) (name_of file.now))
        (roa_value roa.now) ∷ []) noted.old noted.new) }
{
    noted
        .visited_uris
        .add(listed_uri(alloc, authority, file.name.as_str())?)?;
    note_origins(alloc, &mut noted.origins, authority, roa)
}

/// A listed ROA. Its certificate's serial.
fn visit_roa<S: Signer>(
    alloc: Global,
    scene: &Scene<'_>,
    ring: &mut Ring<S>,
    noted: &mut Noted,
    authority: &Authority,
    listing: &Listing<'_>,
    file: &ListedFile,
) -> Result<u64, AuditRefused>
    requires { is_certificate_file (file_view file.now) ≡ false }
    ensures { (visits : List Visit) → Sees (visited visits) noted.old.visited_uris → Answers
        (λ serial m. VisitsFile (held_in scene.now) (point_value authority.now listing.now) (file_view file.now) visits
        noted.old noted.new serial m)
        (λ signers. visit_roa (context_of scene.now signers) (held_in scene.now)
        (point_value authority.now listing.now) (file_view file.now) visits)
        result ring.old ring.new }
{
    let entries = listing.crl.entries.as_slice();
    let roa = accept_roa(
        alloc,
        scene,
        ring,
        &noted.visited_uris,
        authority,
        entries,
        file,
    )?;
    note_roa(alloc, noted, authority, file, &roa)?;
    Ok(roa.certificate.cert.serial)
}

/// A listed certificate and what is below it, with so many levels left. Its serial.
#[cycle(walk)]
fn visit_authority<S: Signer>(
    alloc: Global,
    scene: &Scene<'_>,
    ring: &mut Ring<S>,
    noted: &mut Noted,
    authority: &Authority,
    listing: &Listing<'_>,
    file: &ListedFile,
    levels: u32,
) -> Result<u64, AuditRefused>
    requires { is_certificate_file (file_view file.now) ≡ true }
    ensures { (visits : List Visit) → Sees (visited visits) noted.old.visited_uris → Answers
        (λ serial m. VisitsFile (held_in scene.now) (point_value authority.now listing.now) (file_view file.now) visits
        noted.old noted.new serial m)
        (λ signers. visit_authority (context_of scene.now signers) (held_in scene.now)
        (visit_below levels (context_of scene.now signers) (held_in scene.now))
        (point_value authority.now listing.now) (file_view file.now) visits)
        result ring.old ring.new }
{
    let entries = listing.crl.entries.as_slice();
    let child = accept_authority(
        alloc,
        scene,
        ring,
        &noted.visited_uris,
        authority,
        entries,
        file,
    )?;
    noted.visited_uris.add(owned(alloc, child.uri.as_str())?)?;
    visit_below(alloc, scene, ring, noted, &child, levels)?;
    Ok(child.cert.serial)
}

/// A listed file and what is below it, with so many levels left. The serial of its certificate.
#[cycle(walk)]
fn visit_file<S: Signer>(
    alloc: Global,
    scene: &Scene<'_>,
    ring: &mut Ring<S>,
    noted: &mut Noted,
    authority: &Authority,
    listing: &Listing<'_>,
    file: &ListedFile,
    levels: u32,
) -> Result<u64, AuditRefused>
    ensures { (visits : List Visit) → Sees (visited visits) noted.old.visited_uris → Answers
        (λ serial m. VisitsFile (held_in scene.now) (point_value authority.now listing.now) (file_view file.now) visits
        noted.old noted.new serial m)
        (λ signers. visit_file (context_of scene.now signers) (held_in scene.now)
        (visit_below levels (context_of scene.now signers) (held_in scene.now))
        (point_value authority.now listing.now) (file_view file.now) visits)
        result ring.old ring.new }
{
    if is_certificate_file(file) {
        return visit_authority(alloc, scene, ring, noted, authority, listing, file, levels);
    }
    visit_roa(alloc, scene, ring, noted, authority, listing, file)
}

/// The files of a point, with so many levels left. The greatest serial under its key.
#[cycle(walk)]
fn visit_files<S: Signer>(
    alloc: Global,
    scene: &Scene<'_>,
    ring: &mut Ring<S>,
    noted: &mut Noted,
    authority: &Authority,
    listing: &Listing<'_>,
    levels: u32,
) -> Result<u64, AuditRefused>
    ensures { (visits : List Visit) → Sees (visited visits) noted.old.visited_uris → Answers
        (λ serial m. VisitsFiles (held_in scene.now) (point_value authority.now listing.now) visits noted.old noted.new
        serial m)
        (λ signers. visit_files (context_of scene.now signers) (held_in scene.now)
        (visit_below levels (context_of scene.now signers) (held_in scene.now))
        (point_value authority.now listing.now) (other_files (point_value authority.now listing.now)) visits)
        result ring.old ring.new }
{
    let mut greatest = first_serial(authority, listing);
    for file in &listing.manifest.body.files {
        if is_crl_file(file) {
            continue;
        }
        let serial = visit_file(alloc, scene, ring, noted, authority, listing, file, levels)?;
        greatest = greatest.max(serial);
    }
    Ok(greatest)
}

/// An authority's point and what it lists, with so many levels left.
#[cycle(walk)]
fn visit_below<S: Signer>(
    alloc: Global,
    scene: &Scene<'_>,
    ring: &mut Ring<S>,
    noted: &mut Noted,
    authority: &Authority,
    levels: u32,
) -> Result<(), AuditRefused>
    ensures { (visits : List Visit) → Sees (visited visits) noted.old.visited_uris → Answers
        (λ _ m. WalkContinues (held_in scene.now) visits noted.old noted.new m)
        (λ signers. visit_below levels (context_of scene.now signers) (held_in scene.now)
        (authority_value authority.now) visits)
        result ring.old ring.new }
{
    if levels == 0 {
        return Err(refusal(alloc, authority.uri.as_str(), Rule::Depth));
    }
    let listing = accept_point(alloc, scene, ring, &noted.visited_uris, authority)?;
    let place = noted.points.len();
    note_point(alloc, noted, authority, &listing)?;
    let serial = visit_files(alloc, scene, ring, noted, authority, &listing, levels - 1)?;
    close_point(noted, place, serial);
    Ok(())
}

/// The whole walk.
fn walk<S: Signer>(
    alloc: Global,
    scene: &Scene<'_>,
    ring: &mut Ring<S>,
) -> Result<Noted, AuditRefused>
    ensures { Answers (λ noted m. IsWalk (held_in scene.now) noted m)
        (λ signers. walk (context_of scene.now signers) (held_in scene.now)) result ring.old ring.new }
{
    let anchor = accept_anchor(alloc, scene, ring)?;
    let mut noted = Noted::new(alloc);
    noted.visited_uris.add(owned(alloc, anchor.uri.as_str())?)?;
    visit_below(alloc, scene, ring, &mut noted, &anchor, 65)?;
    Ok(noted)
}

/// The first object that wasn't visited.
fn first_unseen<'a>(objects: &'a [Object], visited_uris: &VisitedUris) -> Option<&'a Object>
    ensures { (uris : List (List ℕ)) → Sees uris visited_uris.now
        → option_copied result ≡ find (λ o. not (is_among uris o.uri)) objects.now }
{
    for object in objects {
        if !visited_uris.has(object.uri.as_str()) {
            return Some(object);
        }
    }
    None
}

/// What a sound set yields, or why it isn't sound.
///
/// The objects are looked at by the rules of `rp_rules`. Each signature is put to the signers of the ring.
/// `moment` is in seconds since 1970.
pub fn audit<S: Signer>(
    alloc: Global,
    set: &ObjectSet,
    anchor: &PublicKey,
    site: &Site,
    moment: u64,
    ring: &mut Ring<S>,
) -> Result<Audited, AuditRefused>
    // Ok is of a sound set, with its yield and points. A signer that doesn't tell is taken to vouch for each
    // signature: then nothing is said of signatures, and all other rules hold.
    ensures sound { IfOk result (λ audited.
        IsAuditOf (asking ring.old anchor.now.bytes site.now moment) set.now audited) }
    // A refusal is the walk's, one of a signature where all signers tell. So where they do, a set that is sound is
    // never refused.
    ensures refused { IfErr result
        (IsTold ring.old (asking ring.old anchor.now.bytes site.now moment) set.now) }
    // The signers stay as they were. One is named only where its count rose in this call.
    ensures asked { Asks result ring.old ring.new }
{
    let scene = Scene {
        set,
        site,
        anchor,
        moment,
    };
    let noted = walk(alloc, &scene, ring)?;
    let objects = set.as_slice();
    if let Some(object) = first_unseen(objects, &noted.visited_uris) {
        let uri = owned(alloc, object.uri.as_str())?;
        return Err(AuditRefused::Unreached { uri });
    }
    let Noted {
        origins,
        points,
        ..
    } = noted;
    Ok(Audited::of_sound(origins, points, objects.len() as u64))
}
