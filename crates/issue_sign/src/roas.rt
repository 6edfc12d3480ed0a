//! The second signatures: those of the certificates of ROAs (RFC 9582 section 3, RFC 6488 section
//! 2).

ghost use Rattle.std.specs.Prelude.{◌≡◌, ◌<◌, true, false, List, map, length, All, IfOk, IfErr};
ghost use Rattle.signer_api.specs.State.{SignerState};
ghost use Rattle.signer_ring.specs.Ring.{Keeps};
ghost use Rattle.cert_obj.specs.Values.{IsCert, cert_value, is_uri};
ghost use Rattle.issue_drafts.specs.IssueInput.{input_of};
ghost use Rattle.issue_drafts.specs.Drafts.Kind.{Roa};
ghost use Rattle.issue_drafts.specs.Views.{draft_of, kind_of};
ghost use Rattle.issue_sign.specs.Objects.{roa_certificate};
ghost use Rattle.issue_sign.specs.SignInput.{SignInputValue, IsSignInput, AreDrafts, CanSign, CanIssue, CanBeMade};
ghost use Rattle.issue_sign.specs.Made.{answers_of, signed, of_drafts, AreMade, IsStop};
ghost use Rattle.issue_sign.specs.inner.Steps.{is_route, is_content, is_begun, IsHalf, IsSecondOf, IsDraft, Pairs, Triples, AreHalves};

use crate::object::Object;
use crate::objects::objects;
use crate::phases::sign_steps;
use crate::sign_input::SignInput;
use crate::steps::{Half, Pending, Step};
use cert_obj::Cert;
use cms_obj::ObjectKind;
use issue_drafts::{Draft, DraftKind};
use issue_keys::MakeFault;
use issue_values::roa_certificate;
use origins::Origin;
use signer_api::{PublicKey, Signer};
use signer_ring::{Ring, vouched_stays};
use std::alloc::{AllocError, Global};
use std::thread::Threads;

/// The certificate of the key that signed the content of a ROA.
fn certificate(
    alloc: Global,
    sign_input: &SignInput<'_>,
    draft: &Draft<'_>,
    origin: &Origin,
    key: &PublicKey,
    serial: u64,
) -> Result<Cert, AllocError>
    requires sign { CanSign sign_input.now }
    requires issuer { CanIssue sign_input.now draft.now.issuer }
    requires uri { is_uri draft.now.uri ≡ true }
    ensures spelled { IfOk result (λ cert. IsCert (cert_value cert)) }
    ensures value { IfOk result (λ cert. (b : SignInputValue) → IsSignInput sign_input.now b → IsDraft b draft.now serial
        → kind_of draft.now.kind ≡ Roa origin.now
        → cert_value cert ≡ roa_certificate (input_of sign_input.now.input.now) b.keys b.all
        (draft_of draft.now) origin.now key.now.bytes) }
{
    roa_certificate(
        alloc,
        sign_input.input.site,
        sign_input.input.work.moment,
        &sign_input.publishers[draft.issuer.position],
        key,
        &origin.prefix,
        draft.uri.as_str(),
        serial,
    )
}

/// What is signed for a draft behind its first signature.
fn second(
    alloc: Global,
    sign_input: &SignInput<'_>,
    draft: &Draft<'_>,
    serial: u64,
    half: Half,
) -> Result<Pending, AllocError>
    requires sign { CanSign sign_input.now }
    requires draft { CanBeMade sign_input.now draft.now }
    requires kind { is_begun half ≡ is_route draft.now.kind }
    ensures made { IfOk result (λ p. is_content p ≡ false) }
    ensures second { IfOk result (λ p. (b : SignInputValue) → IsSignInput sign_input.now b → IsDraft b draft.now serial
        → IsSecondOf (input_of sign_input.now.input.now) b (draft_of draft.now) (kind_of draft.now.kind) half p) }
{
    match half {
        Half::Made { object } => Ok(Pending::Whole { object }),
        Half::Begun { content } => {
            let DraftKind::Route { origin } = draft.kind else {
                unreachable!()
            };
            let key = &content.once.get().key;
            let cert = certificate(alloc, sign_input, draft, &origin, key, serial)?;
            let tbs = cert.tbs(alloc)?;
            let kind = ObjectKind::Roa;
            Ok(Pending::Entity { kind, content, tbs })
        }
    }
}

/// What is signed behind the first signatures, in the drafts' order.
fn seconds<'a>(
    alloc: Global,
    sign_input: &SignInput<'_>,
    drafts: &[Draft<'a>],
    serials: &[u64],
    halves: Vec<Half>,
) -> Result<Vec<Step<'a>>, AllocError>
    requires sign { CanSign sign_input.now }
    requires drafts { All (CanBeMade sign_input.now) drafts.now }
    requires serials { length serials.now ≡ length drafts.now }
    requires each { length halves.items ≡ length drafts.now }
    requires kinds { Pairs (λ d h. is_begun h ≡ is_route d.kind) drafts.now halves.items }
    ensures each { IfOk result (λ steps. length steps.items ≡ length drafts.now) }
    ensures issuers { IfOk result (λ steps. Pairs (λ d st. st.issuer.now ≡ d.issuer.row.now) drafts.now steps.items) }
    ensures made { IfOk result (λ steps. All (λ st. is_content st.pending ≡ false) steps.items) }
    ensures seconds { IfOk result (λ steps. (b : SignInputValue)
        → IsSignInput sign_input.now b → AreDrafts b drafts.now serials.now
        → Triples (λ d h st. IsSecondOf (input_of sign_input.now.input.now) b (draft_of d) (kind_of d.kind) h st.pending)
        drafts.now halves.items steps.items) }
{
    let mut steps = Vec::with_capacity(alloc, halves.len())?;
    for half in halves {
        let position = steps.len();
        let draft = &drafts[position];
        let pending = second(alloc, sign_input, draft, serials[position], half)?;
        let issuer = draft.issuer.row;
        steps.push(Step { issuer, pending })?;
    }
    Ok(steps)
}

/// Has the certificates of the ROAs signed, each signer its own in the drafts' order, all at the same time. All
/// objects but the manifests are then made.
pub fn finish_all<S: Signer + Send, R: Threads + Sync>(
    rt: &R,
    alloc: Global,
    sign_input: &SignInput<'_>,
    drafts: &[Draft<'_>],
    serials: &[u64],
    halves: Vec<Half>,
    ring: &mut Ring<S>,
) -> Result<Vec<Object>, MakeFault>
    requires sign { CanSign sign_input.now }
    requires drafts { All (CanBeMade sign_input.now) drafts.now }
    requires signers { All (λ d. d.issuer.row.now.signer < length ring.old) drafts.now }
    requires serials { length serials.now ≡ length drafts.now }
    requires each { length halves.items ≡ length drafts.now }
    requires kinds { Pairs (λ d h. is_begun h ≡ is_route d.kind) drafts.now halves.items }
    ensures made { IfOk result (λ objects. (b : SignInputValue) (old : List SignerState)
        → IsSignInput sign_input.now b → AreDrafts b drafts.now serials.now
        → AreHalves (input_of sign_input.now.input.now) b drafts.now halves.items old ring.old
        → AreMade (input_of sign_input.now.input.now) b (of_drafts (input_of sign_input.now.input.now) b)
        (map draft_of drafts.now) old ring.new objects.items
        (signed (map draft_of drafts.now) (map answers_of objects.items))) }
    ensures stopped { IfErr result (λ fault. (b : SignInputValue) (old : List SignerState)
        → IsSignInput sign_input.now b → AreDrafts b drafts.now serials.now
        → AreHalves (input_of sign_input.now.input.now) b drafts.now halves.items old ring.old
        → IsStop (of_drafts (input_of sign_input.now.input.now) b) (map draft_of drafts.now) old ring.new fault) }
    ensures kept { Keeps ring.old ring.new }
{
    vouched_stays();
    let steps = seconds(alloc, sign_input, drafts, serials, halves)?;
    let moment = sign_input.input.work.moment;
    let halves = sign_steps(rt, alloc, moment, steps, ring)?;
    let objects = objects(alloc, halves)?;
    Ok(objects)
}
