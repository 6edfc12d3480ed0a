//! Works that are planned over what stands, and what stands after they are made.

ghost use Rattle.std.specs.Prelude.{◌≡◌, ◌≢◌, ◌<◌, ℕ, List, All, AllPairs, Any};
ghost use Rattle.key_ids.specs.Uris.{Bases};
ghost use Rattle.key_roll.specs.declared.issued.IssuedRow.{IssuedRow};
ghost use Rattle.key_roll.specs.declared.work.Work.{Work};
ghost use Rattle.signer_api.specs.State.{SignerState};
ghost use Rattle.entitle.specs.declared.trees.Owed.{Owed};
ghost use Rattle.entitle.specs.Owed.{AreOwed};
ghost use Rattle.key_roll.specs.declared.rows.KeyRow.{KeyRow};
ghost use Rattle.editions.specs.Keys.{AreNext};
ghost use Rattle.issue_drafts.specs.WorkKeys.{Keys};
ghost use Rattle.issue_make.specs.declared.made.Made.{Made};
ghost use Rattle.editions.specs.Wanted.{all_objects};
ghost use Rattle.editions.specs.inner.PlanAndTable.{AreOfPlan};
ghost use Rattle.issue_plan.specs.Keys.{Basis, next_keys};
ghost use Rattle.issue_plan.specs.Wanted.{PlanInput};
ghost use Rattle.issue_plan.specs.Uris.{wanted_uris};
ghost use Rattle.issue_plan.specs.ByName.{StandByName};
ghost use Rattle.issue_plan.specs.Work.{IsPlan};
ghost use Rattle.issue_make.specs.CanMake.{CanMake};
ghost use Rattle.issue_make.specs.Made.{IsMade};
ghost use Rattle.editions.specs.PublishedState.{PublishedStateValue, IsConsistentState, AreLive};
ghost use Rattle.editions.specs.Standing.{IsTableAfter};
ghost use Rattle.editions.specs.inner.PlannedWork.{AreApart, AreNamed};
ghost use Rattle.editions.specs.Clear.{IsClear};
ghost use Rattle.editions.specs.inner.Following.{CanFollow, setting_over};

use crate::object_laws::the_plans_keys_are_next;
use authority_book::membership_is_by_equality;
use issue_values::{
    files_are_told_apart, keys_are_told_apart, kinds_are_told_apart, origins_are_told_apart,
};

/// At each place that is wanted and known an object is wanted: the making of a planned work puts it, or it stands and fits.
pub fn wanted_uris_have_objects()
    ensures { (plan_input : PlanInput) (work : Work) (keys : Keys) (plan : AreOfPlan plan_input work keys)
        → AreNamed plan_input.basis → AreOwed plan_input.basis.configs plan_input.owed → AreApart plan_input.basis.rows
        → All (λ uri. Any (λ d. d.uri ≡ uri) (all_objects plan_input plan.keys))
        (wanted_uris plan_input.site plan_input.basis.configs (next_keys plan_input.basis) plan_input.owed) }
{}

/// No two objects that are wanted over what stands have one place.
pub fn wanted_objects_are_apart()
    ensures { (at : PublishedStateValue) (site : Bases) (signers : ℕ) (basis : Basis) (owed : List Owed) (keys : List KeyRow)
        → IsConsistentState at → CanFollow at site signers basis → AreOwed basis.configs owed
        → AreNext basis.rows (next_keys basis) keys
        → AllPairs (λ a b. a.uri ≢ b.uri)
        (all_objects (record { basis = basis; owed = owed; issued = at.issued; site = site }) keys) }
{
    files_are_told_apart();
    keys_are_told_apart();
    kinds_are_told_apart();
    origins_are_told_apart();
    membership_is_by_equality();
}

/// The work that is planned over what stands can be made.
pub fn planned_work_can_be_made()
    ensures { (at : PublishedStateValue) (site : Bases) (signers : ℕ) (basis : Basis) (work : Work)
        → IsConsistentState at → CanFollow at site signers basis → IsPlan basis at.issued site work
        → CanMake (setting_over basis at.issued site work) at.rows signers }
{
    the_plans_keys_are_next();
    files_are_told_apart();
    keys_are_told_apart();
    kinds_are_told_apart();
    origins_are_told_apart();
    membership_is_by_equality();
}

/// The keys that the making of a planned work leaves are live at its moment: no two have one identifier, and none has a
/// CRL or an entry that is later.
pub fn made_keys_are_live()
    ensures { (at : PublishedStateValue) (site : Bases) (signers : ℕ) (basis : Basis) (work : Work)
        (old new : List SignerState) (made : Made)
        → IsConsistentState at → CanFollow at site signers basis → IsPlan basis at.issued site work
        → IsMade (setting_over basis at.issued site work) at.rows old new made
        → AreLive basis.moment made.rows }
{
    the_plans_keys_are_next();
}

/// The keys that the making of a planned work leaves are of signers that are there.
pub fn made_keys_have_signers()
    ensures { (at : PublishedStateValue) (site : Bases) (signers : ℕ) (basis : Basis) (work : Work)
        (old new : List SignerState) (made : Made)
        → IsConsistentState at → CanFollow at site signers basis → IsPlan basis at.issued site work
        → IsMade (setting_over basis at.issued site work) at.rows old new made
        → All (λ row. row.signer < signers) made.rows }
{}

/// After the making of a planned work nothing stands at the places of keys that aren't live.
pub fn other_uris_are_clear()
    ensures { (at : PublishedStateValue) (site : Bases) (signers : ℕ) (basis : Basis) (work : Work)
        (old new : List SignerState) (made : Made) (table : List IssuedRow)
        → IsConsistentState at → CanFollow at site signers basis → IsPlan basis at.issued site work
        → IsMade (setting_over basis at.issued site work) at.rows old new made
        → IsTableAfter at.issued made.changes made.issued table
        → IsClear site made.rows table }
{
    the_plans_keys_are_next();
    files_are_told_apart();
    keys_are_told_apart();
    kinds_are_told_apart();
    origins_are_told_apart();
    membership_is_by_equality();
}

/// After the making of a planned work each ROA stands at the place of its origin in the folder of a name, if each did
/// before.
pub fn roas_stay_by_name()
    ensures { (at : PublishedStateValue) (site : Bases) (signers : ℕ) (basis : Basis) (work : Work)
        (old new : List SignerState) (made : Made) (table : List IssuedRow)
        → IsConsistentState at → CanFollow at site signers basis → IsPlan basis at.issued site work
        → IsMade (setting_over basis at.issued site work) at.rows old new made
        → IsTableAfter at.issued made.changes made.issued table
        → StandByName site at.issued → StandByName site table }
{
    the_plans_keys_are_next();
    files_are_told_apart();
    keys_are_told_apart();
    kinds_are_told_apart();
    origins_are_told_apart();
    membership_is_by_equality();
}
