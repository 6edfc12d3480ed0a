//! The objects of an edition, signed.

ghost use Rattle.std.specs.Prelude.{◌≡◌, List, map, length, IfOk, IfErr};
ghost use Rattle.signer_ring.specs.Ring.{Keeps};
ghost use Rattle.key_roll.specs.declared.rows.KeyRow.{KeyRow};
ghost use Rattle.issue_drafts.specs.WorkKeys.{Keys};
ghost use Rattle.issue_drafts.specs.IssueInput.{input_of};
ghost use Rattle.issue_sign.specs.Objects.{Entries};
ghost use Rattle.issue_make.specs.ObjectPlan.{IsObjectPlan};
ghost use Rattle.issue_make.specs.inner.Signing.{CanBeSigned, AreSigned, IsSigningStop};

use crate::plans::ObjectPlan;
use issue_drafts::{IssueParts, files};
use issue_keys::MakeFault;
use issue_sign::{Object, SignInput, sign_drafts, sign_manifests};
use signer_api::Signer;
use signer_ring::Ring;
use std::alloc::{AllocError, Global};
use std::thread::Threads;

/// The objects of an edition.
#[derive(Debug, Drop)]
pub struct Objects {
    /// One for each draft.
    pub drafted: Vec<Object>,
    /// The manifests.
    pub listed: Vec<Object>,
}

/// The hashes of objects.
fn hashes_of(alloc: Global, objects: &[Object]) -> Result<Vec<[u8; 32]>, AllocError>
    ensures { IfOk result (λ hashes. hashes.items ≡ map (λ o. o.hash) objects.now) }
{
    let mut hashes = Vec::with_capacity(alloc, objects.len())?;
    for object in objects {
        hashes.push(object.hash)?;
    }
    Ok(hashes)
}

/// Signs the objects of a plan: the manifests, which list the others, behind them.
pub fn sign_objects<S: Signer + Send, R: Threads + Sync>(
    rt: &R,
    alloc: Global,
    input: &IssueParts<'_>,
    plan: &ObjectPlan<'_>,
    ring: &mut Ring<S>,
) -> Result<Objects, MakeFault>
    requires { CanBeSigned (input_of input.now) plan.now (length ring.old) }

    // Of whichever keys it is the plan: the objects are theirs, and the signers made the calls for them.
    ensures made { IfOk result (λ objects. (keys : Keys) (rows : List KeyRow) (entries : Entries)
        → IsObjectPlan (input_of input.now) keys rows plan.now → plan.now.revoked.items ≡ map entries rows
        → AreSigned (input_of input.now) keys rows entries plan.now ring.old ring.new objects) }

    // A signer failed, or memory ran out, behind the first of each signer's own calls, phase by phase.
    ensures stopped { IfErr result (λ fault. (keys : Keys) (rows : List KeyRow) (entries : Entries)
        → IsObjectPlan (input_of input.now) keys rows plan.now → plan.now.revoked.items ≡ map entries rows
        → IsSigningStop (input_of input.now) keys entries plan.now ring.old ring.new fault) }

    // What the signers vouched for they vouch for on every answer.
    ensures kept { Keeps ring.old ring.new }
{
    let sign_input = SignInput {
        input,
        publishers: &plan.publishers,
        revoked: &plan.revoked,
    };
    let (given, next) = (&plan.serials.given, &plan.serials.next);
    let drafted = sign_drafts(rt, alloc, &sign_input, &plan.drafts, given, ring)?;
    let hashes = hashes_of(alloc, &drafted)?;
    let (drafts, manifests) = (&plan.drafts, &plan.manifests);
    let files = files(alloc, input, drafts, &hashes, manifests, &plan.touched)?;
    let listed = sign_manifests(rt, alloc, &sign_input, manifests, next, files, ring)?;
    Ok(Objects { drafted, listed })
}
