//! The signing of manifests (RFC 9286 section 4, RFC 6488 section 2).

ghost use Rattle.std.specs.Prelude.{◌≡◌, ◌<◌, ℕ, List, true, false, map, length, All, IfOk, IfErr};
ghost use Rattle.signer_api.specs.State.{SignerState};
ghost use Rattle.signer_ring.specs.Ring.{Keeps};
ghost use Rattle.cert_obj.specs.Values.{IsCert, cert_value};
ghost use Rattle.payloads.specs.declared.values.ListedFile.{ListedFile};
ghost use Rattle.payloads.specs.ManifestFormats.{IsManifest, file_view};
ghost use Rattle.issue_values.specs.Bodies.{AreListed, manifest_value_of};
ghost use Rattle.issue_drafts.specs.IssueInput.{input_of};
ghost use Rattle.issue_drafts.specs.Drafts.{serial_behind};
ghost use Rattle.issue_drafts.specs.Views.{manifest_of, IsPositioned};
ghost use Rattle.issue_sign.specs.Objects.{number_of, manifest_certificate};
ghost use Rattle.issue_sign.specs.SignInput.{SignInputValue, IsSignInput, AreManifests, CanSign, CanIssue};
ghost use Rattle.issue_sign.specs.Made.{answers_of, signed, of_manifests, AreMade, IsStop};
ghost use Rattle.issue_sign.specs.inner.Steps.{manifest_text, is_content, is_begun, IsTextOf, IsLastOf, AreContents, Pairs, Triples};

use crate::object::Object;
use crate::objects::objects;
use crate::phases::sign_steps;
use crate::sign_input::SignInput;
use crate::steps::{Half, Pending, Step};
use cert_obj::Cert;
use cms_obj::{HashedContent, ObjectKind};
use issue_drafts::ManifestDraft;
use issue_keys::MakeFault;
use issue_values::{manifest_body, manifest_certificate};
use items::Items;
use payloads::ListedFile;
use signer_api::{PublicKey, Signer};
use signer_ring::{Ring, vouched_stays};
use std::alloc::{AllocError, Global};
use std::thread::Threads;

/// The content of a manifest that lists these files.
fn content(
    alloc: Global,
    sign_input: &SignInput<'_>,
    manifest: &ManifestDraft<'_>,
    files: Items<ListedFile>,
) -> Result<HashedContent, AllocError>
    requires sign { CanSign sign_input.now }
    requires issuer { CanIssue sign_input.now manifest.now.issuer }
    requires files { AreListed (map file_view files) }
    ensures bytes { IfOk result (λ content. content.bytes.items ≡ manifest_text (input_of sign_input.now.input.now)
        manifest.now.issuer.row.now (map file_view files)) }
    ensures spelled { IfOk result (λ content. IsManifest (manifest_value_of sign_input.now.input.now.work.now.moment
        (number_of manifest.now.issuer.row.now) (map file_view files))) }
{
    let number = manifest.issuer.row.number + 1;
    let body = manifest_body(sign_input.input.work.moment, number, files.into_vec());
    let content = body.write(alloc)?;
    Ok(HashedContent::of(content))
}

/// What is signed first, in the manifests' order: their contents.
fn contents<'a>(
    alloc: Global,
    sign_input: &SignInput<'_>,
    manifests: &[ManifestDraft<'a>],
    files: Vec<Items<ListedFile>>,
) -> Result<Vec<Step<'a>>, AllocError>
    requires sign { CanSign sign_input.now }
    requires manifests { All (λ d. CanIssue sign_input.now d.issuer) manifests.now }
    requires each { length files.items ≡ length manifests.now }
    requires files { All (λ list. AreListed (map file_view list)) files.items }
    ensures each { IfOk result (λ steps. length steps.items ≡ length manifests.now) }
    ensures issuers { IfOk result (λ steps. Pairs (λ d st. st.issuer.now ≡ d.issuer.row.now) manifests.now steps.items) }
    ensures kinds { IfOk result (λ steps. All (λ st. is_content st.pending ≡ true) steps.items) }
    ensures texts { IfOk result (λ steps. Triples (λ d list st. IsTextOf (input_of sign_input.now.input.now)
        d.issuer.row.now (map file_view list) st.pending) manifests.now files.items steps.items) }
{
    let mut steps = Vec::with_capacity(alloc, manifests.len())?;
    for list in files {
        let position = steps.len();
        let manifest = &manifests[position];
        let content = content(alloc, sign_input, manifest, list)?;
        let pending = Pending::Content {
            kind: ObjectKind::Manifest,
            content,
        };
        let issuer = manifest.issuer.row;
        steps.push(Step { issuer, pending })?;
    }
    Ok(steps)
}

/// Has the contents of the manifests signed, each signer its own in their order, all at the same time.
fn sign_contents<S: Signer + Send, R: Threads + Sync>(
    rt: &R,
    alloc: Global,
    sign_input: &SignInput<'_>,
    manifests: &[ManifestDraft<'_>],
    files: Vec<Items<ListedFile>>,
    ring: &mut Ring<S>,
) -> Result<Vec<Half>, MakeFault>
    requires sign { CanSign sign_input.now }
    requires manifests { All (λ d. CanIssue sign_input.now d.issuer) manifests.now }
    requires signers { All (λ d. d.issuer.row.now.signer < length ring.old) manifests.now }
    requires each { length files.items ≡ length manifests.now }
    requires files { All (λ list. AreListed (map file_view list)) files.items }
    ensures each { IfOk result (λ halves. length halves.items ≡ length manifests.now) }
    ensures begun { IfOk result (λ halves. All (λ h. is_begun h ≡ true) halves.items) }
    ensures contents { IfOk result (λ halves. (b : SignInputValue) (next : List ℕ)
        → AreManifests b manifests.now next files.items
        → AreContents (input_of sign_input.now.input.now) b manifests.now halves.items ring.old ring.new) }
    ensures stopped { IfErr result (λ fault. (b : SignInputValue) (next : List ℕ)
        → AreManifests b manifests.now next files.items
        → IsStop (of_manifests (input_of sign_input.now.input.now) b) (map manifest_of manifests.now)
        ring.old ring.new fault) }
    ensures kept { Keeps ring.old ring.new }
{
    let steps = contents(alloc, sign_input, manifests, files)?;
    let moment = sign_input.input.work.moment;
    let halves = sign_steps(rt, alloc, moment, steps, ring)?;
    Ok(halves)
}

/// The certificate of the key that signed the content of a manifest.
fn certificate(
    alloc: Global,
    sign_input: &SignInput<'_>,
    manifest: &ManifestDraft<'_>,
    key: &PublicKey,
    serial: u64,
) -> Result<Cert, AllocError>
    requires sign { CanSign sign_input.now }
    requires issuer { CanIssue sign_input.now manifest.now.issuer }
    ensures spelled { IfOk result (λ cert. IsCert (cert_value cert)) }
    ensures value { IfOk result (λ cert. (b : SignInputValue) → IsSignInput sign_input.now b → IsPositioned b.rows manifest.now.issuer
        → serial ≡ serial_behind b.all manifest.now.issuer.row.now
        → cert_value cert ≡ manifest_certificate (input_of sign_input.now.input.now) b.keys b.all
        (manifest_of manifest.now) key.now.bytes) }
{
    manifest_certificate(
        alloc,
        sign_input.input.site,
        sign_input.input.work.moment,
        &sign_input.publishers[manifest.issuer.position],
        key,
        serial,
    )
}

/// What is signed for a manifest behind its content: the certificate of the key that signed that.
fn last(
    alloc: Global,
    sign_input: &SignInput<'_>,
    manifest: &ManifestDraft<'_>,
    serial: u64,
    half: Half,
) -> Result<Pending, AllocError>
    requires sign { CanSign sign_input.now }
    requires issuer { CanIssue sign_input.now manifest.now.issuer }
    requires begun { is_begun half ≡ true }
    ensures made { IfOk result (λ p. is_content p ≡ false) }
    ensures last { IfOk result (λ p. (b : SignInputValue) → IsSignInput sign_input.now b → IsPositioned b.rows manifest.now.issuer
        → serial ≡ serial_behind b.all manifest.now.issuer.row.now
        → IsLastOf (input_of sign_input.now.input.now) b (manifest_of manifest.now) half p) }
{
    let Half::Begun { content } = half else {
        unreachable!()
    };
    let key = &content.once.get().key;
    let cert = certificate(alloc, sign_input, manifest, key, serial)?;
    let tbs = cert.tbs(alloc)?;
    let kind = ObjectKind::Manifest;
    Ok(Pending::Entity { kind, content, tbs })
}

/// What is signed behind the contents, in the manifests' order. Each certificate takes the next serial of its key.
fn lasts<'a>(
    alloc: Global,
    sign_input: &SignInput<'_>,
    manifests: &[ManifestDraft<'a>],
    next: &[u64],
    halves: Vec<Half>,
) -> Result<Vec<Step<'a>>, AllocError>
    requires sign { CanSign sign_input.now }
    requires manifests { All (λ d. CanIssue sign_input.now d.issuer) manifests.now }
    requires next { length next.now ≡ length sign_input.now.publishers.now }
    requires each { length halves.items ≡ length manifests.now }
    requires begun { All (λ h. is_begun h ≡ true) halves.items }
    ensures each { IfOk result (λ steps. length steps.items ≡ length manifests.now) }
    ensures issuers { IfOk result (λ steps. Pairs (λ d st. st.issuer.now ≡ d.issuer.row.now) manifests.now steps.items) }
    ensures made { IfOk result (λ steps. All (λ st. is_content st.pending ≡ false) steps.items) }
    ensures lasts { IfOk result (λ steps. (b : SignInputValue) (lists : List (List ListedFile))
        → IsSignInput sign_input.now b → AreManifests b manifests.now next.now lists
        → Triples (λ d h st. IsLastOf (input_of sign_input.now.input.now) b (manifest_of d) h st.pending)
        manifests.now halves.items steps.items) }
{
    let mut steps = Vec::with_capacity(alloc, halves.len())?;
    for half in halves {
        let position = steps.len();
        let manifest = &manifests[position];
        let serial = next[manifest.issuer.position];
        let pending = last(alloc, sign_input, manifest, serial, half)?;
        let issuer = manifest.issuer.row;
        steps.push(Step { issuer, pending })?;
    }
    Ok(steps)
}

/// Has the certificates of the manifests signed, each signer its own in their order, all at the same time. Each takes
/// the next serial of its key.
fn finish_all<S: Signer + Send, R: Threads + Sync>(
    rt: &R,
    alloc: Global,
    sign_input: &SignInput<'_>,
    manifests: &[ManifestDraft<'_>],
    next: &[u64],
    halves: Vec<Half>,
    ring: &mut Ring<S>,
) -> Result<Vec<Object>, MakeFault>
    requires sign { CanSign sign_input.now }
    requires manifests { All (λ d. CanIssue sign_input.now d.issuer) manifests.now }
    requires signers { All (λ d. d.issuer.row.now.signer < length ring.old) manifests.now }
    requires next { length next.now ≡ length sign_input.now.publishers.now }
    requires each { length halves.items ≡ length manifests.now }
    requires begun { All (λ h. is_begun h ≡ true) halves.items }
    ensures made { IfOk result (λ objects. (b : SignInputValue) (lists : List (List ListedFile)) (old : List SignerState)
        → IsSignInput sign_input.now b → AreManifests b manifests.now next.now lists
        → AreContents (input_of sign_input.now.input.now) b manifests.now halves.items old ring.old
        → AreMade (input_of sign_input.now.input.now) b (of_manifests (input_of sign_input.now.input.now) b)
        (map manifest_of manifests.now) old ring.new objects.items
        (signed (map manifest_of manifests.now) (map answers_of objects.items))) }
    ensures stopped { IfErr result (λ fault. (b : SignInputValue) (lists : List (List ListedFile)) (old : List SignerState)
        → IsSignInput sign_input.now b → AreManifests b manifests.now next.now lists
        → AreContents (input_of sign_input.now.input.now) b manifests.now halves.items old ring.old
        → IsStop (of_manifests (input_of sign_input.now.input.now) b) (map manifest_of manifests.now)
        old ring.new fault) }
    ensures kept { Keeps ring.old ring.new }
{
    vouched_stays();
    let steps = lasts(alloc, sign_input, manifests, next, halves)?;
    let moment = sign_input.input.work.moment;
    let halves = sign_steps(rt, alloc, moment, steps, ring)?;
    let objects = objects(alloc, halves)?;
    Ok(objects)
}

/// Signs manifests, which list these files. Their certificates take the next serials of their keys.
///
/// Their contents are signed, and then their certificates: by each signer its own, in the manifests' order, and by all
/// of them at the same time. The keys that sign contents come from the signers of the issuing keys. `next` has the
/// next serial for each key of the edition, and `files` a list for each manifest.
pub fn sign_manifests<S: Signer + Send, R: Threads + Sync>(
    rt: &R,
    alloc: Global,
    sign_input: &SignInput<'_>,
    manifests: &[ManifestDraft<'_>],
    next: &[u64],
    files: Vec<Items<ListedFile>>,
    ring: &mut Ring<S>,
) -> Result<Vec<Object>, MakeFault>
    requires sign { CanSign sign_input.now }
    requires manifests { All (λ d. CanIssue sign_input.now d.issuer) manifests.now }
    requires signers { All (λ d. d.issuer.row.now.signer < length ring.old) manifests.now }
    requires next { length next.now ≡ length sign_input.now.publishers.now }
    requires each { length files.items ≡ length manifests.now }
    requires files { All (λ list. AreListed (map file_view list)) files.items }

    // Of whichever basis these are: the manifests are its own, and the signers made the calls for them, each its own
    // in their order.
    ensures made { IfOk result (λ objects. (b : SignInputValue)
        → IsSignInput sign_input.now b → AreManifests b manifests.now next.now files.items
        → AreMade (input_of sign_input.now.input.now) b (of_manifests (input_of sign_input.now.input.now) b)
        (map manifest_of manifests.now) ring.old ring.new objects.items
        (signed (map manifest_of manifests.now) (map answers_of objects.items))) }

    // A signer failed, or memory ran out, behind the first of each signer's own calls; and behind none of the second
    // ones unless all first ones were made.
    ensures stopped { IfErr result (λ fault. (b : SignInputValue)
        → IsSignInput sign_input.now b → AreManifests b manifests.now next.now files.items
        → IsStop (of_manifests (input_of sign_input.now.input.now) b) (map manifest_of manifests.now)
        ring.old ring.new fault) }

    // What the signers vouched for they vouch for on every answer.
    ensures kept { Keeps ring.old ring.new }
{
    let halves = sign_contents(rt, alloc, sign_input, manifests, files, ring)?;
    finish_all(rt, alloc, sign_input, manifests, next, halves, ring)
}
