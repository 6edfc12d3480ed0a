//! Accepted certificates of authorities (RFC 6487 section 7).

ghost use Rattle.std.specs.Prelude.{◌≡◌, ℕ, [], List, true, IfOk, is_some};
ghost use Rattle.signer_api.specs.State.{SignerState};
ghost use Rattle.cert_obj.specs.Values.{cert_value, read_value};
ghost use Rattle.crl_obj.specs.Values.{are_rising};
ghost use Rattle.payloads.specs.ManifestFormats.{file_view};
ghost use Rattle.key_ids.specs.Uris.{anchor_uri};
ghost use Rattle.rp_rules.specs.declared.rules.Rule.TheVariants as rule;
ghost use Rattle.rp_rules.specs.Checks.{found};
ghost use Rattle.rp_rules.specs.Objects.{such, certificate_in, is_anchors, is_authoritys};
ghost use Rattle.rp_rules.specs.Authorities.{listed_uri};
ghost use Rattle.rp_rules.specs.Certificates.{is_valid_at, names_issuer, is_revoked, listed_bytes, anchor_tests, anchor_of, accepted_anchor, authority_tests, authority_of, accepted_authority};
ghost use Rattle.rp_audit.specs.inner.Told.{Tells, Answers, Gives, read_as, answered};
ghost use Rattle.rp_audit.specs.inner.Views.{context_of, held_in, authority_value};
ghost use Rattle.rp_audit.specs.inner.Noted.{Sees};

use crate::authority::Authority;
use crate::bytes::{are_same, owned};
use crate::certificates::{anchors_in, authoritys_in};
use crate::holdings::{held_under, is_held_under};
use crate::refusal::{AuditRefused, found, keep_all};
use crate::scene::{Scene, bytes_at, lies_in, listed_bytes};
use crate::signing::is_vouched;
use crate::uris::{has_anchor_uris, has_authority_uris, listed_uri};
use crate::visited_uris::VisitedUris;
use cert_obj::{Cert, Held, ReadCert};
use crl_obj::CrlEntry;
use key_ids::KeyId;
use payloads::ListedFile;
use res_sets::Resources;
use rp_rules::Rule;
use signer_api::Signer;
use signer_ring::Ring;
use std::alloc::{AllocError, Global};

pub fn names_issuer(issuer: &Authority, cert: &Cert) -> bool
    ensures { result ≡ names_issuer (authority_value issuer.now) (cert_value cert.now) }
{
    are_same(&cert.issuer.bytes, &issuer.id.bytes)
}

/// Whether the moment, in seconds since 1970, lies in the validity (RFC 5280 section 4.1.2.5).
pub fn is_valid_at(moment: u64, cert: &Cert) -> bool
    ensures { result ≡ is_valid_at moment (cert_value cert.now) }
{
    lies_in(moment, cert.not_before, cert.not_after)
}

/// A look-up among serials that rise.
pub fn is_revoked(entries: &[CrlEntry], serial: u64) -> bool
    requires { are_rising entries.now ≡ true }
    ensures { result ≡ is_revoked entries.now serial }
{
    entries
        .binary_search_by_key(&serial, |entry| entry.serial)
        .is_ok()
}

fn has_own_resources(cert: &Cert) -> bool
    ensures { result ≡ is_some (cert_value cert.now).held }
{
    match cert.held {
        Held::Inherit => false,
        Held::Set { .. } => true,
    }
}

/// The anchor's certificate.
fn read_anchors(alloc: Global, scene: &Scene<'_>, uri: &str) -> Result<ReadCert, AuditRefused>
    ensures { Tells read_value (read_as (found uri.now rule.Missing (held_in scene.now uri.now)) uri.now
        (λ b. such is_anchors (certificate_in b))) result }
{
    let bytes = bytes_at(alloc, scene, uri)?;
    let read = anchors_in(alloc, bytes)?;
    found(alloc, uri, Rule::Shape, read)
}

fn anchor_tests(
    alloc: Global,
    scene: &Scene<'_>,
    read: &ReadCert,
    signed: bool,
) -> Result<[(Rule, bool); 5], AllocError>
    ensures { IfOk result (λ tests. tests
        ≡ answered signed (anchor_tests (context_of scene.now []) (read_value read.now))) }
{
    let cert = &read.cert;
    let id = KeyId::of(&cert.key.bytes);
    let own = are_same(&cert.issuer.bytes, &id.bytes);
    let handed = are_same(&cert.key.bytes, &scene.anchor.bytes);
    let placed = has_anchor_uris(alloc, scene.site, cert)?;
    Ok([
        (Rule::Signature, signed),
        (Rule::Identity, own && handed),
        (Rule::Time, is_valid_at(scene.moment, cert)),
        (Rule::Resources, has_own_resources(cert)),
        (Rule::Place, placed),
    ])
}

fn anchor_of(alloc: Global, uri: &str, read: ReadCert) -> Result<Authority, AllocError>
    ensures { IfOk result (λ a. authority_value a ≡ anchor_of uri.now (read_value read)) }
{
    let none = Resources::empty(alloc);
    let held = held_under(&none, &read.cert.held).copy(alloc)?;
    let id = KeyId::of(&read.cert.key.bytes);
    let uri = owned(alloc, uri)?;
    Ok(Authority {
        uri,
        cert: read.cert,
        id,
        held,
    })
}

/// The anchor, whose certificate is accepted (RFC 8630 section 3).
pub fn accept_anchor<S: Signer>(
    alloc: Global,
    scene: &Scene<'_>,
    ring: &mut Ring<S>,
) -> Result<Authority, AuditRefused>
    ensures { Answers (Gives authority_value)
        (λ signers. accepted_anchor (context_of scene.now signers) (held_in scene.now)) result ring.old ring.new }
{
    let place = scene.site.anchor_uri(alloc)?;
    let uri = place.as_str();
    let read = read_anchors(alloc, scene, uri)?;
    let signed = is_vouched(alloc, ring, scene.anchor, &read.digest, &read.signature)?;
    let tests = anchor_tests(alloc, scene, &read, signed)?;
    keep_all(alloc, uri, &tests)?;
    let anchor = anchor_of(alloc, uri, read)?;
    Ok(anchor)
}

/// The certificate that a manifest lists.
fn read_authoritys(
    alloc: Global,
    scene: &Scene<'_>,
    uri: &str,
    file: &ListedFile,
) -> Result<ReadCert, AuditRefused>
    ensures { Tells read_value (read_as (listed_bytes (held_in scene.now) uri.now (file_view file.now)) uri.now
        (λ b. such is_authoritys (certificate_in b))) result }
{
    let bytes = listed_bytes(alloc, scene, uri, file)?;
    let read = authoritys_in(alloc, bytes)?;
    found(alloc, uri, Rule::Shape, read)
}

fn authority_tests(
    alloc: Global,
    scene: &Scene<'_>,
    visited_uris: &VisitedUris,
    issuer: &Authority,
    revoked: &[CrlEntry],
    uri: &str,
    read: &ReadCert,
    signed: bool,
) -> Result<[(Rule, bool); 7], AllocError>
    requires { are_rising revoked.now ≡ true }
    ensures { (visited : List (List ℕ)) → Sees visited visited_uris.now → IfOk result (λ tests. tests
        ≡ answered signed (authority_tests (context_of scene.now []) (authority_value issuer.now) revoked.now visited
        uri.now (read_value read.now))) }
{
    let cert = &read.cert;
    let placed = has_authority_uris(alloc, scene.site, issuer, uri, cert)?;
    Ok([
        (Rule::Signature, signed),
        (Rule::Identity, names_issuer(issuer, cert)),
        (Rule::Time, is_valid_at(scene.moment, cert)),
        (Rule::Resources, is_held_under(&issuer.held, &cert.held)),
        (Rule::Revoked, !is_revoked(revoked, cert.serial)),
        (Rule::Place, placed),
        (Rule::Depth, !visited_uris.has(uri)),
    ])
}

fn authority_of(
    alloc: Global,
    issuer: &Authority,
    uri: &str,
    read: ReadCert,
) -> Result<Authority, AllocError>
    ensures { IfOk result (λ a. authority_value a
        ≡ authority_of (authority_value issuer.now) uri.now (read_value read)) }
{
    let held = held_under(&issuer.held, &read.cert.held).copy(alloc)?;
    let id = KeyId::of(&read.cert.key.bytes);
    let uri = owned(alloc, uri)?;
    Ok(Authority {
        uri,
        cert: read.cert,
        id,
        held,
    })
}

/// An authority whose certificate an issuer lists and that is accepted (RFC 6487 section 7.2).
pub fn accept_authority<S: Signer>(
    alloc: Global,
    scene: &Scene<'_>,
    ring: &mut Ring<S>,
    visited_uris: &VisitedUris,
    issuer: &Authority,
    revoked: &[CrlEntry],
    file: &ListedFile,
) -> Result<Authority, AuditRefused>
    requires { are_rising revoked.now ≡ true }
    ensures { (visited : List (List ℕ)) → Sees visited visited_uris.now → Answers (Gives authority_value)
        (λ signers. accepted_authority (context_of scene.now signers) (held_in scene.now)
        (authority_value issuer.now) revoked.now visited (file_view file.now)) result ring.old ring.new }
{
    let place = listed_uri(alloc, issuer, file.name.as_str())?;
    let uri = place.as_str();
    let read = read_authoritys(alloc, scene, uri, file)?;
    let key = &issuer.cert.key;
    let signed = is_vouched(alloc, ring, key, &read.digest, &read.signature)?;
    let tests = authority_tests(
        alloc,
        scene,
        visited_uris,
        issuer,
        revoked,
        uri,
        &read,
        signed,
    )?;
    keep_all(alloc, uri, &tests)?;
    let child = authority_of(alloc, issuer, uri, read)?;
    Ok(child)
}
