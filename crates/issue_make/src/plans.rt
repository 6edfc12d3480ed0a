//! The objects of an edition before they are signed.

ghost use Rattle.std.specs.Prelude.{IfOk};
ghost use Rattle.issue_drafts.specs.WorkKeys.{keys_at};
ghost use Rattle.issue_drafts.specs.IssueInput.{input_of};
ghost use Rattle.issue_make.specs.ObjectPlan.{CanPlanObjects, IsObjectPlan};

use issue_drafts::{
    Draft, DraftInput, IssueParts, KeyFinder, ManifestDraft, Serials, Touched, drafts, entries,
    give_serials, manifest_drafts, points, publishers,
};
use issue_values::Publisher;
use items::Items;
use key_roll::{KeyRow, RevokedRow};
use std::alloc::{AllocError, Global};

/// The objects of an edition before they are signed, and what its keys come to.
#[derive(Drop)]
pub struct ObjectPlan<'a> {
    /// Where the keys publish.
    pub publishers: Vec<Publisher>,
    /// By rising URI.
    pub drafts: Vec<Draft<'a>>,
    /// By rising URI.
    pub manifests: Vec<ManifestDraft<'a>>,
    /// What the edition puts or withdraws.
    pub touched: Touched,
    /// Which keys get a new CRL and manifest.
    pub points: Vec<bool>,
    /// The entries of their CRLs.
    pub revoked: Vec<Items<RevokedRow>>,
    pub serials: Serials,
}

/// Plans the objects of the work over the rows of the edition's keys.
pub fn plan_objects<'a>(
    alloc: Global,
    input: &'a IssueParts<'a>,
    rows: &'a [KeyRow],
    finder: &'a KeyFinder,
) -> Result<ObjectPlan<'a>, AllocError>
    requires { CanPlanObjects (input_of input.now) (keys_at rows.now finder.now.first_fresh) rows.now finder.now }
    ensures { IfOk result (IsObjectPlan (input_of input.now) (keys_at rows.now finder.now.first_fresh) rows.now) }
{
    let publishers = publishers(alloc, input, rows, finder)?;
    let at = DraftInput {
        input,
        rows,
        finder,
    };
    let drafts = drafts(alloc, &at)?;
    let manifests = manifest_drafts(alloc, &at)?;
    let touched = Touched::new(alloc, input, &drafts, &manifests)?;
    let points = points(alloc, rows, &manifests)?;
    let revoked = entries(alloc, input, rows, finder, &points, &touched)?;
    let serials = give_serials(alloc, rows, &drafts)?;
    Ok(ObjectPlan {
        publishers,
        drafts,
        manifests,
        touched,
        points,
        revoked,
        serials,
    })
}
