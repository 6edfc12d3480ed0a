//! The first signatures: those of certificates, of CRLs and of the contents of ROAs (RFC 5280
//! sections 4.1.1.3 and 5.1.1.3, RFC 6488 section 2.1.6).

ghost use Rattle.std.specs.Prelude.{◌≡◌, ◌<◌, map, length, All, IfOk, IfErr};
ghost use Rattle.signer_ring.specs.Ring.{Keeps};
ghost use Rattle.issue_drafts.specs.IssueInput.{input_of};
ghost use Rattle.issue_drafts.specs.Views.{draft_of, kind_of};
ghost use Rattle.issue_sign.specs.SignInput.{SignInputValue, IsSignInput, AreDrafts, CanSign, CanBeMade};
ghost use Rattle.issue_sign.specs.Made.{of_drafts, IsStop};
ghost use Rattle.issue_sign.specs.inner.Steps.{is_route, is_content, is_begun, IsFirstOf, IsStepOf, IsDraft, Pairs, AreHalves};

use crate::phases::sign_steps;
use crate::sign_input::SignInput;
use crate::steps::{Half, Pending, Step};
use crate::values;
use cms_obj::ObjectKind;
use issue_drafts::{Draft, DraftKind};
use issue_keys::MakeFault;
use signer_api::Signer;
use signer_ring::Ring;
use std::alloc::{AllocError, Global};
use std::thread::Threads;

/// What is signed first for a draft.
fn first(
    alloc: Global,
    sign_input: &SignInput<'_>,
    draft: &Draft<'_>,
    serial: u64,
) -> Result<Pending, AllocError>
    requires sign { CanSign sign_input.now }
    requires draft { CanBeMade sign_input.now draft.now }
    ensures kind { IfOk result (λ p. is_content p ≡ is_route draft.now.kind) }
    ensures first { IfOk result (λ p. (b : SignInputValue) → IsSignInput sign_input.now b → IsDraft b draft.now serial
        → IsFirstOf (input_of sign_input.now.input.now) b (draft_of draft.now) (kind_of draft.now.kind) p) }
{
    let issuer = &draft.issuer;
    match draft.kind {
        DraftKind::Authority { subject, held } => {
            let cert = values::certificate(alloc, sign_input, issuer, &subject, held, serial)?;
            let tbs = cert.tbs(alloc)?;
            Ok(Pending::Certificate { tbs })
        }
        DraftKind::Crl => {
            let crl = values::crl(alloc, sign_input, issuer)?;
            let tbs = crl.tbs(alloc)?;
            Ok(Pending::Revocations { tbs })
        }
        DraftKind::Route { origin } => {
            let content = values::roa_content(alloc, &origin)?;
            let kind = ObjectKind::Roa;
            Ok(Pending::Content { kind, content })
        }
    }
}

/// What is signed first, in the drafts' order.
fn firsts<'a>(
    alloc: Global,
    sign_input: &SignInput<'_>,
    drafts: &[Draft<'a>],
    serials: &[u64],
) -> Result<Vec<Step<'a>>, AllocError>
    requires sign { CanSign sign_input.now }
    requires drafts { All (CanBeMade sign_input.now) drafts.now }
    requires serials { length serials.now ≡ length drafts.now }
    ensures each { IfOk result (λ steps. length steps.items ≡ length drafts.now) }
    ensures steps { IfOk result (λ steps. Pairs IsStepOf drafts.now steps.items) }
    ensures firsts { IfOk result (λ steps. (b : SignInputValue)
        → IsSignInput sign_input.now b → AreDrafts b drafts.now serials.now
        → Pairs (λ d st. IsFirstOf (input_of sign_input.now.input.now) b (draft_of d) (kind_of d.kind) st.pending)
        drafts.now steps.items) }
{
    let mut steps = Vec::with_capacity(alloc, drafts.len())?;
    for draft in drafts {
        let position = steps.len();
        let pending = first(alloc, sign_input, draft, serials[position])?;
        let issuer = draft.issuer.row;
        steps.push(Step { issuer, pending })?;
    }
    Ok(steps)
}

/// Has certificates, CRLs and the contents of ROAs signed, each signer its own in the drafts' order, all at the same
/// time. `serials` has one for each draft; a CRL has 0.
pub fn sign_firsts<S: Signer + Send, R: Threads + Sync>(
    rt: &R,
    alloc: Global,
    sign_input: &SignInput<'_>,
    drafts: &[Draft<'_>],
    serials: &[u64],
    ring: &mut Ring<S>,
) -> Result<Vec<Half>, MakeFault>
    requires sign { CanSign sign_input.now }
    requires drafts { All (CanBeMade sign_input.now) drafts.now }
    requires signers { All (λ d. d.issuer.row.now.signer < length ring.old) drafts.now }
    requires serials { length serials.now ≡ length drafts.now }
    ensures each { IfOk result (λ halves. length halves.items ≡ length drafts.now) }
    ensures kinds { IfOk result (λ halves. Pairs (λ d h. is_begun h ≡ is_route d.kind) drafts.now halves.items) }
    ensures halves { IfOk result (λ halves. (b : SignInputValue)
        → IsSignInput sign_input.now b → AreDrafts b drafts.now serials.now
        → AreHalves (input_of sign_input.now.input.now) b drafts.now halves.items ring.old ring.new) }
    ensures stopped { IfErr result (λ fault. (b : SignInputValue)
        → IsSignInput sign_input.now b → AreDrafts b drafts.now serials.now
        → IsStop (of_drafts (input_of sign_input.now.input.now) b) (map draft_of drafts.now)
        ring.old ring.new fault) }
    ensures kept { Keeps ring.old ring.new }
{
    let steps = firsts(alloc, sign_input, drafts, serials)?;
    let moment = sign_input.input.work.moment;
    let halves = sign_steps(rt, alloc, moment, steps, ring)?;
    Ok(halves)
}
