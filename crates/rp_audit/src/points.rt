//! Accepted publication points (RFC 9286 section 6).

ghost use Rattle.std.specs.Prelude.{◌≡◌, ◌++◌, ◌∷◌, ℕ, [], List, true, IfOk, is_none};
ghost use Rattle.cert_obj.specs.Values.{cert_value};
ghost use Rattle.crl_obj.specs.Values.{crl_value, read_value as read_crl_value, are_rising};
ghost use Rattle.payloads.specs.ManifestFormats.{file_view};
ghost use Rattle.rp_rules.specs.declared.rules.Rule.TheVariants as rule;
ghost use Rattle.rp_rules.specs.Checks.{found};
ghost use Rattle.rp_rules.specs.Objects.{manifest_in, crl_in};
ghost use Rattle.rp_rules.specs.Authorities.{manifest_place};
ghost use Rattle.rp_rules.specs.Certificates.{listed_bytes};
ghost use Rattle.rp_rules.specs.Points.{is_current, is_identified, is_placed, manifest_tests, accepted_manifest, crl_tests, accepted_crl, point_tests, accepted_point};
ghost use Rattle.rp_audit.specs.inner.Told.{Tells, Answers, Gives, read_as, answered};
ghost use Rattle.rp_audit.specs.inner.Views.{context_of, held_in, authority_value, manifest_value, point_value};
ghost use Rattle.rp_audit.specs.inner.Noted.{Sees};

use crate::authorities::{is_revoked, is_valid_at, names_issuer};
use crate::authority::Authority;
use crate::bytes::{are_same, is_same};
use crate::certificates::crl_in;
use crate::files::{first_crl, is_list};
use crate::objects::manifest_in;
use crate::refusal::{AuditRefused, found, keep_all};
use crate::scene::{Scene, bytes_at, lies_in, listed_bytes};
use crate::signed::{Listing, ReadManifest};
use crate::signing::{are_vouched, is_vouched};
use crate::uris::{crl_uri_of, has_issuer_uris, listed_uri};
use crate::visited_uris::VisitedUris;
use cert_obj::{Cert, Held};
use crl_obj::{Crl, ReadCrl};
use key_ids::KeyId;
use payloads::ListedFile;
use rp_rules::Rule;
use signer_api::Signer;
use signer_ring::Ring;
use std::alloc::{AllocError, Global};

/// The manifest of an authority.
fn read_manifest<'a>(
    alloc: Global,
    scene: &Scene<'a>,
    uri: &str,
) -> Result<ReadManifest<'a>, AuditRefused>
    ensures { Tells manifest_value
        (read_as (found uri.now rule.Missing (held_in scene.now uri.now)) uri.now manifest_in) result }
{
    let bytes = bytes_at(alloc, scene, uri)?;
    let read = manifest_in(alloc, bytes)?;
    found(alloc, uri, Rule::Shape, read)
}

fn inherits(cert: &Cert) -> bool
    ensures { result ≡ is_none (cert_value cert.now).held }
{
    match cert.held {
        Held::Inherit => true,
        Held::Set { .. } => false,
    }
}

fn is_current(moment: u64, m: &ReadManifest<'_>) -> bool
    ensures { result ≡ is_current moment (manifest_value m.now) }
{
    is_valid_at(moment, &m.certificate.cert)
        && lies_in(moment, m.body.this_update, m.body.next_update)
}

/// The certificate names the issuer, and the object the certificate's key.
fn is_identified(issuer: &Authority, m: &ReadManifest<'_>) -> bool
    ensures { result ≡ is_identified (authority_value issuer.now) (manifest_value m.now) }
{
    let id = KeyId::of(&m.certificate.cert.key.bytes);
    names_issuer(issuer, &m.certificate.cert) && are_same(&m.object.signer.bytes, &id.bytes)
}

fn is_placed(
    alloc: Global,
    issuer: &Authority,
    uri: &str,
    m: &ReadManifest<'_>,
) -> Result<bool, AllocError>
    ensures { IfOk result (λ yes. yes ≡ is_placed (authority_value issuer.now) uri.now (manifest_value m.now)) }
{
    let issued = has_issuer_uris(alloc, issuer, &m.certificate.cert)?;
    Ok(issued && is_same(m.certificate.cert.uris.object.as_str(), uri))
}

fn manifest_tests(
    alloc: Global,
    scene: &Scene<'_>,
    visited_uris: &VisitedUris,
    authority: &Authority,
    m: &ReadManifest<'_>,
    signed: bool,
) -> Result<[(Rule, bool); 7], AllocError>
    ensures { (visited : List (List ℕ)) → Sees visited visited_uris.now → IfOk result (λ tests. tests
        ≡ answered signed (manifest_tests (context_of scene.now []) (authority_value authority.now) visited
        (manifest_value m.now))) }
{
    let uri = authority.cert.uris.manifest.as_str();
    let placed = is_placed(alloc, authority, uri, m)?;
    let listed = is_list(alloc, authority, &m.body)?;
    Ok([
        (Rule::Signature, signed),
        (Rule::Identity, is_identified(authority, m)),
        (Rule::Time, is_current(scene.moment, m)),
        (Rule::Resources, inherits(&m.certificate.cert)),
        (Rule::Place, placed),
        (Rule::List, listed),
        (Rule::Depth, !visited_uris.has(uri)),
    ])
}

/// The manifest of an authority, which is accepted.
fn accept_manifest<'a, S: Signer>(
    alloc: Global,
    scene: &Scene<'a>,
    ring: &mut Ring<S>,
    visited_uris: &VisitedUris,
    authority: &Authority,
) -> Result<ReadManifest<'a>, AuditRefused>
    ensures { (visited : List (List ℕ)) → Sees visited visited_uris.now → Answers (Gives manifest_value)
        (λ signers. accepted_manifest (context_of scene.now signers) (held_in scene.now)
        (authority_value authority.now) visited) result ring.old ring.new }
{
    let uri = authority.cert.uris.manifest.as_str();
    let m = read_manifest(alloc, scene, uri)?;
    let key = &authority.cert.key;
    let signed = are_vouched(alloc, ring, key, &m.certificate, &m.object)?;
    let tests = manifest_tests(alloc, scene, visited_uris, authority, &m, signed)?;
    keep_all(alloc, uri, &tests)?;
    Ok(m)
}

/// The CRL that a manifest lists.
fn read_crl(
    alloc: Global,
    scene: &Scene<'_>,
    uri: &str,
    file: &ListedFile,
) -> Result<ReadCrl, AuditRefused>
    ensures told { Tells read_crl_value
        (read_as (listed_bytes (held_in scene.now) uri.now (file_view file.now)) uri.now crl_in) result }
    ensures rises { IfOk result (λ read. are_rising read.crl.entries.items ≡ true) }
{
    let bytes = listed_bytes(alloc, scene, uri, file)?;
    let read = crl_in(alloc, bytes)?;
    found(alloc, uri, Rule::Shape, read)
}

fn crl_tests(
    alloc: Global,
    scene: &Scene<'_>,
    visited_uris: &VisitedUris,
    authority: &Authority,
    uri: &str,
    read: &ReadCrl,
    signed: bool,
) -> Result<[(Rule, bool); 5], AllocError>
    // Its manifest is visited too.
    ensures { (visited : List (List ℕ)) → Sees visited visited_uris.now → IfOk result (λ tests. tests
        ≡ answered signed (crl_tests (context_of scene.now []) (authority_value authority.now)
        (visited ++ manifest_place (authority_value authority.now) ∷ []) uri.now (read_crl_value read.now))) }
{
    let crl = &read.crl;
    let own = crl_uri_of(alloc, authority)?;
    let again = visited_uris.has(uri) || is_same(authority.cert.uris.manifest.as_str(), uri);
    Ok([
        (Rule::Signature, signed),
        (
            Rule::Identity,
            are_same(&crl.issuer.bytes, &authority.id.bytes),
        ),
        (
            Rule::Time,
            lies_in(scene.moment, crl.this_update, crl.next_update),
        ),
        (Rule::Place, is_same(uri, own.as_str())),
        (Rule::Depth, !again),
    ])
}

/// The CRL of an authority, which is accepted.
fn accept_crl<S: Signer>(
    alloc: Global,
    scene: &Scene<'_>,
    ring: &mut Ring<S>,
    visited_uris: &VisitedUris,
    authority: &Authority,
    file: &ListedFile,
) -> Result<Crl, AuditRefused>
    ensures told { (visited : List (List ℕ)) → Sees visited visited_uris.now → Answers (Gives crl_value)
        (λ signers. accepted_crl (context_of scene.now signers) (held_in scene.now) (authority_value authority.now)
        (visited ++ manifest_place (authority_value authority.now) ∷ []) (file_view file.now))
        result ring.old ring.new }
    ensures rises { IfOk result (λ crl. are_rising crl.entries.items ≡ true) }
{
    let place = listed_uri(alloc, authority, file.name.as_str())?;
    let uri = place.as_str();
    let read = read_crl(alloc, scene, uri, file)?;
    let key = &authority.cert.key;
    let signed = is_vouched(alloc, ring, key, &read.digest, &read.signature)?;
    let tests = crl_tests(alloc, scene, visited_uris, authority, uri, &read, signed)?;
    keep_all(alloc, uri, &tests)?;
    Ok(read.crl)
}

/// Once the CRL is accepted: the manifest's certificate isn't on it, and both have one number.
fn point_tests(m: &ReadManifest<'_>, crl: &Crl) -> [(Rule, bool); 2]
    requires { are_rising crl.now.entries.items ≡ true }
    ensures { result ≡ point_tests (manifest_value m.now) (crl_value crl.now) }
{
    [
        (
            Rule::Revoked,
            !is_revoked(&crl.entries, m.certificate.cert.serial),
        ),
        (Rule::List, crl.number == m.body.number),
    ]
}

/// The point of an authority, which is accepted (RFC 9286 section 6, RFC 6488 section 3).
pub fn accept_point<'a, S: Signer>(
    alloc: Global,
    scene: &Scene<'a>,
    ring: &mut Ring<S>,
    visited_uris: &VisitedUris,
    authority: &Authority,
) -> Result<Listing<'a>, AuditRefused>
    ensures { (visited : List (List ℕ)) → Sees visited visited_uris.now → Answers (Gives (point_value authority.now))
        (λ signers. accepted_point (context_of scene.now signers) (held_in scene.now)
        (authority_value authority.now) visited) result ring.old ring.new }
{
    let uri = authority.cert.uris.manifest.as_str();
    let manifest = accept_manifest(alloc, scene, ring, visited_uris, authority)?;
    let file = found(alloc, uri, Rule::List, first_crl(&manifest.body.files))?;
    let crl = accept_crl(alloc, scene, ring, visited_uris, authority, file)?;
    keep_all(alloc, uri, &point_tests(&manifest, &crl))?;
    Ok(Listing { manifest, crl })
}
