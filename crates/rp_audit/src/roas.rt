//! Accepted ROAs (RFC 9582 section 5).

ghost use Rattle.std.specs.Prelude.{◌≡◌, ◌++◌, ℕ, [], List, true, IfOk, OnOk};
ghost use Rattle.crl_obj.specs.Values.{are_rising};
ghost use Rattle.payloads.specs.ManifestFormats.{file_view};
ghost use Rattle.payloads.specs.RoaFormats.{entry_view};
ghost use Rattle.rp_rules.specs.Objects.{roa_in};
ghost use Rattle.rp_rules.specs.Certificates.{listed_bytes};
ghost use Rattle.rp_rules.specs.Points.{Point, is_identified, is_placed, roa_resources, roa_tests, accepted_roa};
ghost use Rattle.rp_rules.specs.Yield.{yield_of, yielded_of};
ghost use Rattle.rp_rules.specs.Views.{yielded_value, yielded_values};
ghost use Rattle.rp_audit.specs.inner.Told.{Tells, Answers, Gives, read_as, answered};
ghost use Rattle.rp_audit.specs.inner.Views.{context_of, held_in, authority_value, roa_value};
ghost use Rattle.rp_audit.specs.inner.Noted.{Sees};

use crate::authorities::{is_revoked, is_valid_at, names_issuer};
use crate::authority::Authority;
use crate::bytes::{are_same, is_same, owned};
use crate::holdings::{have_prefixes, is_held_under};
use crate::objects::roa_in;
use crate::refusal::{AuditRefused, found, keep_all};
use crate::scene::{Scene, listed_bytes};
use crate::signed::ReadRoa;
use crate::signing::are_vouched;
use crate::uris::{has_issuer_uris, listed_uri};
use crate::visited_uris::VisitedUris;
use cert_obj::Held;
use crl_obj::CrlEntry;
use key_ids::KeyId;
use origins::Origin;
use payloads::{ListedFile, RoaEntry};
use rp_rules::{Rule, YieldedOrigin};
use signer_api::Signer;
use signer_ring::Ring;
use std::alloc::{AllocError, Global};

/// The ROA that a manifest lists.
fn read_roa<'a>(
    alloc: Global,
    scene: &Scene<'a>,
    uri: &str,
    file: &ListedFile,
) -> Result<ReadRoa<'a>, AuditRefused>
    ensures { Tells roa_value
        (read_as (listed_bytes (held_in scene.now) uri.now (file_view file.now)) uri.now roa_in) result }
{
    let bytes = listed_bytes(alloc, scene, uri, file)?;
    let read = roa_in(alloc, bytes)?;
    found(alloc, uri, Rule::Shape, read)
}

/// The certificate names the issuer, and the object the certificate's key.
fn is_identified(issuer: &Authority, r: &ReadRoa<'_>) -> bool
    ensures { result ≡ is_identified (authority_value issuer.now) (roa_value r.now) }
{
    let id = KeyId::of(&r.certificate.cert.key.bytes);
    names_issuer(issuer, &r.certificate.cert) && are_same(&r.object.signer.bytes, &id.bytes)
}

fn is_placed(
    alloc: Global,
    issuer: &Authority,
    uri: &str,
    r: &ReadRoa<'_>,
) -> Result<bool, AllocError>
    ensures { IfOk result (λ yes. yes ≡ is_placed (authority_value issuer.now) uri.now (roa_value r.now)) }
{
    let issued = has_issuer_uris(alloc, issuer, &r.certificate.cert)?;
    Ok(issued && is_same(r.certificate.cert.uris.object.as_str(), uri))
}

/// The certificate has resources of its own, which are inside the issuer's and have the prefixes.
fn has_resources(issuer: &Authority, r: &ReadRoa<'_>) -> bool
    ensures { result ≡ roa_resources (authority_value issuer.now) (roa_value r.now) }
{
    let held = &r.certificate.cert.held;
    match held {
        Held::Inherit => false,
        Held::Set { resources } => {
            is_held_under(&issuer.held, held) && have_prefixes(resources, &r.body.entries)
        }
    }
}

fn roa_tests(
    alloc: Global,
    scene: &Scene<'_>,
    visited_uris: &VisitedUris,
    issuer: &Authority,
    revoked: &[CrlEntry],
    uri: &str,
    r: &ReadRoa<'_>,
    signed: bool,
) -> Result<[(Rule, bool); 7], AllocError>
    requires { are_rising revoked.now ≡ true }
    ensures { (p : Point) (visited : List (List ℕ)) → p.authority ≡ authority_value issuer.now
        → p.crl.entries ≡ revoked.now → Sees visited visited_uris.now → IfOk result (λ tests. tests
        ≡ answered signed (roa_tests (context_of scene.now []) p visited uri.now (roa_value r.now))) }
{
    let cert = &r.certificate.cert;
    let placed = is_placed(alloc, issuer, uri, r)?;
    Ok([
        (Rule::Signature, signed),
        (Rule::Identity, is_identified(issuer, r)),
        (Rule::Time, is_valid_at(scene.moment, cert)),
        (Rule::Resources, has_resources(issuer, r)),
        (Rule::Revoked, !is_revoked(revoked, cert.serial)),
        (Rule::Place, placed),
        (Rule::Depth, !visited_uris.has(uri)),
    ])
}

/// A ROA that a point lists and that is accepted (RFC 9582 section 5, RFC 6488 section 3).
pub fn accept_roa<'a, S: Signer>(
    alloc: Global,
    scene: &Scene<'a>,
    ring: &mut Ring<S>,
    visited_uris: &VisitedUris,
    issuer: &Authority,
    revoked: &[CrlEntry],
    file: &ListedFile,
) -> Result<ReadRoa<'a>, AuditRefused>
    requires { are_rising revoked.now ≡ true }
    ensures { (p : Point) (visited : List (List ℕ)) → p.authority ≡ authority_value issuer.now
        → p.crl.entries ≡ revoked.now → Sees visited visited_uris.now → Answers (Gives roa_value)
        (λ signers. accepted_roa (context_of scene.now signers) (held_in scene.now) p visited (file_view file.now))
        result ring.old ring.new }
{
    let place = listed_uri(alloc, issuer, file.name.as_str())?;
    let uri = place.as_str();
    let roa = read_roa(alloc, scene, uri, file)?;
    let key = &issuer.cert.key;
    let signed = are_vouched(alloc, ring, key, &roa.certificate, &roa.object)?;
    let tests = roa_tests(
        alloc,
        scene,
        visited_uris,
        issuer,
        revoked,
        uri,
        &roa,
        signed,
    )?;
    keep_all(alloc, uri, &tests)?;
    Ok(roa)
}

/// Notes what a ROA yields (RFC 9582 section 4).
pub fn note_origins(
    alloc: Global,
    origins: &mut Vec<YieldedOrigin>,
    issuer: &Authority,
    roa: &ReadRoa<'_>,
) -> Result<(), AllocError>
    ensures { OnOk result (yielded_values origins.new.items
        ≡ yielded_values origins.old.items ++ yield_of (authority_value issuer.now) (roa_value roa.now)) }
{
    for entry in &roa.body.entries {
        origins.push(yielded(alloc, issuer, roa.body.asn, entry)?)?;
    }
    Ok(())
}

fn yielded(
    alloc: Global,
    issuer: &Authority,
    asn: u32,
    entry: &RoaEntry,
) -> Result<YieldedOrigin, AllocError>
    ensures { IfOk result (λ y. yielded_value y
        ≡ yielded_of (authority_value issuer.now).cert.uris.folder asn (entry_view entry.now)) }
{
    let folder = owned(alloc, issuer.cert.uris.folder.as_str())?;
    match Origin::new(entry.prefix, entry.max, asn) {
        Some(origin) => Ok(YieldedOrigin { folder, origin }),
        None => unreachable!(),
    }
}
