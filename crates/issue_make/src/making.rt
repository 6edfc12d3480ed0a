//! The making of an edition's objects (RFC 6487 section 4, RFC 5280 section 5, RFC 6488 section 2).

ghost use Rattle.std.specs.Prelude.{List, drop, length, IfOk, IfErr};
ghost use Rattle.signer_ring.specs.Ring.{Keeps};
ghost use Rattle.key_roll.specs.declared.rows.KeyRow.{KeyRow};
ghost use Rattle.issue_drafts.specs.WorkKeys.{keys_at};
ghost use Rattle.issue_drafts.specs.IssueInput.{input_of};
ghost use Rattle.issue_make.specs.CanMake.{input_with, CanMake};
ghost use Rattle.issue_make.specs.inner.Ready.{AreReady, AreSomehowReady};
ghost use Rattle.issue_make.specs.inner.Signing.{IsObjectsStop};
ghost use Rattle.issue_make.specs.inner.Finished.{IsFinished};
ghost use Rattle.issue_make.specs.Made.{IsMade, IsStop};

use crate::edition_keys::{EditionKeys, edition_keys};
use crate::made::Made;
use crate::objects::sign_objects;
use crate::outcomes::outcome;
use crate::plans::plan_objects;
use authority_book::NameRow;
use issue_drafts::{IssueParts, KeyFinder};
use issue_keys::MakeFault;
use issue_values::can_be_named;
use key_ids::Site;
use key_roll::{Issued, KeyRow, Work};
use signer_api::Signer;
use signer_ring::{Ring, vouched_stays};
use std::alloc::Global;
use std::thread::Threads;

/// Makes the objects of the work over the edition's keys.
fn make_objects<S: Signer + Send, R: Threads + Sync>(
    rt: &R,
    alloc: Global,
    input: &IssueParts<'_>,
    keys: &EditionKeys,
    ring: &mut Ring<S>,
) -> Result<Made, MakeFault>
    requires { AreSomehowReady (input_of input.now) keys.now.rows.items
        keys.now.first_fresh (length ring.old) }
    ensures made { IfOk result (λ made. (live : List KeyRow)
        → AreReady (input_of input.now) live keys.now.rows.items
        keys.now.first_fresh (length ring.old)
        → IsFinished (input_of input.now) live keys.now.rows.items
        (keys_at keys.now.rows.items keys.now.first_fresh) ring.old ring.new made) }
    ensures stopped { IfErr result (λ fault. (live : List KeyRow)
        → AreReady (input_of input.now) live keys.now.rows.items
        keys.now.first_fresh (length ring.old)
        → IsObjectsStop (input_of input.now) live
        (drop keys.now.first_fresh keys.now.rows.items) ring.old ring.new fault) }
    ensures kept { Keeps ring.old ring.new }
{
    vouched_stays();
    let rows = keys.rows.as_slice();
    let finder = KeyFinder::new(alloc, rows, keys.first_fresh)?;
    let plan = plan_objects(alloc, input, rows, &finder)?;
    let objects = sign_objects(rt, alloc, input, &plan, ring)?;
    let made = outcome(alloc, input, rows, plan, objects)?;
    Ok(made)
}

/// Makes the objects of an edition's work.
///
/// Keys are made first, by their desks. Then are signed, by each signer its own by rising URI, and by all of them at
/// the same time: certificates, CRLs and the contents of ROAs; the certificates of ROAs; the contents of manifests;
/// their certificates.
pub fn make<S: Signer + Send, R: Threads + Sync>(
    rt: &R,
    alloc: Global,
    work: &Work,
    rows: &[KeyRow],
    names: &[NameRow],
    issued: &Issued,
    site: &Site,
    ring: &mut Ring<S>,
) -> Result<Made, MakeFault>
    // The work can be made by these signers, whichever keys they make.
    requires { CanMake (input_with work.now names.now issued.now site.now) rows.now (length ring.old) }

    // The objects, the changes and the rows are those of the work, and the signers made the calls for
    // them, each its own in their order, and no others.
    ensures made { IfOk result
        (IsMade (input_with work.now names.now issued.now site.now) rows.now ring.old ring.new) }

    // A signer failed, or a key clashed, exactly as it says; or memory ran out.
    ensures stopped { IfErr result
        (IsStop (input_with work.now names.now issued.now site.now) rows.now ring.old ring.new) }

    // What the signers vouched for they vouch for on every answer.
    ensures kept { Keeps ring.old ring.new }
{
    let issued = issued.rows.as_slice();
    let input = IssueParts {
        work,
        names,
        issued,
        site,
    };
    let keys = edition_keys(alloc, work, rows, ring)?;
    can_be_named(site);
    make_objects(rt, alloc, &input, &keys, ring)
}
