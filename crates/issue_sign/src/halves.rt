//! What comes of the signatures (RFC 5280 sections 4.1.1 and 5.1.1, RFC 6488 section 2).

ghost use Rattle.std.specs.Prelude.{◌≡◌, cond, drop, length, map, IfOk};
ghost use Rattle.std.specs.List.{filter_map};
ghost use Rattle.moments.specs.Civil.{IsMoment};
ghost use Rattle.signer_ring.specs.Jobs.{AreAnswers};
ghost use Rattle.issue_sign.specs.inner.Steps.{half_answers, answers_with, told, job_of, HasSignature, HasOnce, IsSignatureIn, IsOnceIn, IsAnswered, IsOutcome, Pairs};

use crate::boxed::Boxed;
use crate::object::{Object, SignedContent};
use crate::signed_bytes::{certificate, revocations};
use crate::signed_objects::object;
use crate::steps::{Half, Pending, Step};
use signer_api::{OneUse, Signature};
use signer_ring::Signed;
use std::alloc::{AllocError, Global};

/// The first answer, which is a signature.
fn signature(left: &[Signed]) -> Signature
    requires { HasSignature left.now }
    ensures { IsSignatureIn left.now result }
{
    let Signed::Signature { signature } = left[0] else {
        unreachable!()
    };
    signature
}

/// The first answer, which is a key that signed once.
fn once(alloc: Global, left: &[Signed]) -> Result<Boxed<OneUse>, AllocError>
    requires { HasOnce left.now }
    ensures { IfOk result (IsOnceIn left.now) }
{
    let Signed::Once { once } = left[0] else {
        unreachable!()
    };
    Boxed::new(alloc, once)
}

/// The answers behind the first one, if a signer was asked for it.
fn behind(left: &[Signed], asked: bool) -> &[Signed]
    ensures { result.now ≡ cond asked (drop 1 left.now) left.now }
{
    if asked && !left.is_empty() {
        &left[1..]
    } else {
        left
    }
}

/// What comes of a step, whose answer is the first of those that are left.
fn half(alloc: Global, moment: u64, pending: Pending, left: &[Signed]) -> Result<Half, AllocError>
    requires moment { IsMoment moment }
    requires answer { IsAnswered pending left.now }
    ensures outcome { IfOk result (IsOutcome moment pending) }
    ensures answers { IfOk result (λ half. half_answers half ≡ answers_with pending left.now) }
{
    match pending {
        Pending::Whole { object } => Ok(Half::Made { object }),
        Pending::Certificate { tbs } => {
            let signed = certificate(alloc, &tbs, signature(left))?;
            let object = Object::new(alloc, signed, None)?;
            Ok(Half::Made { object })
        }
        Pending::Revocations { tbs } => {
            let signed = revocations(alloc, &tbs, signature(left))?;
            let object = Object::new(alloc, signed, None)?;
            Ok(Half::Made { object })
        }
        Pending::Content { content, .. } => {
            let once = once(alloc, left)?;
            let content = SignedContent { content, once };
            Ok(Half::Begun { content })
        }
        Pending::Entity { kind, content, tbs } => {
            let SignedContent { content, once } = content;
            let signed = object(
                alloc,
                kind,
                &content,
                once.get(),
                moment,
                &tbs,
                signature(left),
            )?;
            let object = Object::new(alloc, signed, Some(once))?;
            Ok(Half::Made { object })
        }
    }
}

/// What comes of the steps, each with its own answer.
pub fn halves(
    alloc: Global,
    moment: u64,
    steps: Vec<Step<'_>>,
    answers: &[Signed],
) -> Result<Vec<Half>, AllocError>
    requires moment { IsMoment moment }
    requires answers { AreAnswers (filter_map (job_of moment) steps.items) answers.now }
    ensures each { IfOk result (λ halves. length halves.items ≡ length steps.entry.items) }
    ensures outcomes { IfOk result (λ halves. Pairs (λ st h. IsOutcome moment st.pending h) steps.entry.items halves.items) }
    ensures answers { IfOk result (λ halves. map half_answers halves.items ≡ told steps.entry.items answers.now) }
{
    let mut halves = Vec::with_capacity(alloc, steps.len())?;
    let mut left = answers;
    for step in steps {
        let asked = step.pending.is_asked();
        let half = half(alloc, moment, step.pending, left)?;
        halves.push(half)?;
        left = behind(left, asked);
    }
    Ok(halves)
}
