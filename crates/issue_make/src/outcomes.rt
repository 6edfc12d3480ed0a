//! What the objects of an edition come to.

ghost use Rattle.std.specs.Prelude.{◌≢◌, ◌++◌, AllPairs, IfOk};
ghost use Rattle.issue_values.specs.Certificates.{IsEditionMoment};
ghost use Rattle.pub_set.specs.Objects.{Rise};
ghost use Rattle.issue_drafts.specs.IssueInput.{input_of};
ghost use Rattle.issue_make.specs.Trace.{IssuingTrace};
ghost use Rattle.issue_make.specs.inner.Outcomes.{uris_in, AreWhole, CanComeOut, IsOfPlan, IsOfKeys, IsPublication, IsOutcome};

use crate::counting::signatures;
use crate::key_rows::rows_after;
use crate::made::Made;
use crate::objects::Objects;
use crate::plans::ObjectPlan;
use crate::publishing::{ChangesWithRows, Numbered, publish};
use issue_drafts::IssueParts;
use key_roll::KeyRow;
use std::alloc::{AllocError, Global};

/// What the objects of a plan publish.
fn publish_plan(
    alloc: Global,
    input: &IssueParts<'_>,
    plan: &ObjectPlan<'_>,
    objects: Objects,
) -> Result<ChangesWithRows, AllocError>
    requires moment { IsEditionMoment input.now.work.now.moment }
    requires standing { Rise (λ row. row.uri) input.now.issued.now }
    requires once { AllPairs (λ a b. a ≢ b) (uris_in plan.now ++ input.now.work.now.withdrawn) }
    requires whole { AreWhole plan.now objects }
    ensures { IfOk result (λ published. (trace : IssuingTrace)
        → IsOfPlan (input_of input.now) plan.now objects trace
        → IsPublication (input_of input.now) trace published) }
{
    let numbered = Numbered {
        drafts: &plan.drafts,
        given: &plan.serials.given,
        manifests: &plan.manifests,
        next: &plan.serials.next,
    };
    let published = publish(alloc, input, &numbered, objects.drafted, objects.listed)?;
    Ok(published)
}

/// What the objects of a plan come to.
pub fn outcome(
    alloc: Global,
    input: &IssueParts<'_>,
    rows: &[KeyRow],
    plan: ObjectPlan<'_>,
    objects: Objects,
) -> Result<Made, AllocError>
    requires { CanComeOut (input_of input.now) rows.now plan objects }
    ensures { IfOk result (λ made. (trace : IssuingTrace)
        → IsOfPlan (input_of input.now) plan.entry objects trace
        → IsOfKeys (input_of input.now) rows.now plan.entry trace
        → IsOutcome (input_of input.now) rows.now trace made) }
{
    let published = publish_plan(alloc, input, &plan, objects)?;
    let signatures = signatures(&plan.drafts, &plan.manifests);
    let ObjectPlan {
        publishers: _,
        drafts: _,
        manifests: _,
        touched: _,
        points,
        revoked,
        serials,
    } = plan;
    let moment = input.work.moment;
    let rows = rows_after(alloc, moment, rows, &points, &serials.next, revoked)?;
    Ok(Made {
        changes: published.changes,
        rows,
        issued: published.issued,
        signatures,
    })
}
