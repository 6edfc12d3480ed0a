//! The signing of all objects but the manifests (RFC 6487, RFC 5280 section 5, RFC 9582).

ghost use Rattle.std.specs.Prelude.{◌≡◌, ◌<◌, map, length, All, IfOk, IfErr};
ghost use Rattle.signer_ring.specs.Ring.{Keeps};
ghost use Rattle.issue_drafts.specs.IssueInput.{input_of};
ghost use Rattle.issue_drafts.specs.Views.{draft_of};
ghost use Rattle.issue_sign.specs.SignInput.{SignInputValue, IsSignInput, AreDrafts, CanSign, CanBeMade};
ghost use Rattle.issue_sign.specs.Made.{answers_of, signed, of_drafts, AreMade, IsStop};

use crate::firsts::sign_firsts;
use crate::object::Object;
use crate::roas::finish_all;
use crate::sign_input::SignInput;
use issue_drafts::Draft;
use issue_keys::MakeFault;
use signer_api::Signer;
use signer_ring::Ring;
use std::alloc::Global;
use std::thread::Threads;

/// Signs certificates, CRLs and ROAs, which take these serials.
///
/// Certificates, CRLs and the contents of ROAs are signed, and then the certificates of the ROAs: by each signer its
/// own, in the drafts' order, and by all of them at the same time. The keys that sign contents come from the signers
/// of the issuing keys. `serials` has one for each draft; a CRL has 0.
pub fn sign_drafts<S: Signer + Send, R: Threads + Sync>(
    rt: &R,
    alloc: Global,
    sign_input: &SignInput<'_>,
    drafts: &[Draft<'_>],
    serials: &[u64],
    ring: &mut Ring<S>,
) -> Result<Vec<Object>, MakeFault>
    requires sign { CanSign sign_input.now }
    requires drafts { All (CanBeMade sign_input.now) drafts.now }
    requires signers { All (λ d. d.issuer.row.now.signer < length ring.old) drafts.now }
    requires serials { length serials.now ≡ length drafts.now }

    // Of whichever basis these are: the objects are its own, and the signers made the calls for them, each its own in
    // their order.
    ensures made { IfOk result (λ objects. (b : SignInputValue)
        → IsSignInput sign_input.now b → AreDrafts b drafts.now serials.now
        → AreMade (input_of sign_input.now.input.now) b (of_drafts (input_of sign_input.now.input.now) b)
        (map draft_of drafts.now) ring.old ring.new objects.items
        (signed (map draft_of drafts.now) (map answers_of objects.items))) }

    // A signer failed, or memory ran out, behind the first of each signer's own calls; and behind none of the second
    // ones unless all first ones were made.
    ensures stopped { IfErr result (λ fault. (b : SignInputValue)
        → IsSignInput sign_input.now b → AreDrafts b drafts.now serials.now
        → IsStop (of_drafts (input_of sign_input.now.input.now) b) (map draft_of drafts.now)
        ring.old ring.new fault) }

    // What the signers vouched for they vouch for on every answer.
    ensures kept { Keeps ring.old ring.new }
{
    let halves = sign_firsts(rt, alloc, sign_input, drafts, serials, ring)?;
    finish_all(rt, alloc, sign_input, drafts, serials, halves, ring)
}
