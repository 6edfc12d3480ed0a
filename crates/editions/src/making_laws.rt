//! An edition that is planned and made follows those before it.

ghost use Rattle.std.specs.Prelude.{ℕ, List, ◌++◌, ◌∷◌, []};
ghost use Rattle.signer_api.specs.State.{SignerState};
ghost use Rattle.key_roll.specs.declared.issued.IssuedRow.{IssuedRow};
ghost use Rattle.editions.specs.Standing.{IsTableAfter};
ghost use Rattle.editions.specs.Edition.{Edition, set_after};
ghost use Rattle.editions.specs.Table.{IsTable};
ghost use Rattle.editions.specs.Step.{Premises, IsStep, AreSteps};
ghost use Rattle.editions.specs.PlannedAndMade.{IsPlannedAndMade};

use crate::object_laws::{
    all_that_is_made_is_new, issued_entries_are_told, issued_rows_are_counted,
    puts_and_withdrawals_are_needed, rows_note_what_is_superseded, the_plans_keys_are_next,
    what_is_made_did_not_stand, what_is_put_stands,
};
use crate::plan_laws::wanted_uris_have_objects;
use crate::step_laws::editions_follow_one_another;

/// An edition that was planned over what stands, and made by signers whose signatures are vouched, follows the
/// others.
pub fn what_is_planned_and_made_follows()
    ensures { (premises : Premises) (clock : ℕ) (editions : List Edition) (edition : Edition)
        (old new : List SignerState) → AreSteps premises editions
        → IsPlannedAndMade premises clock editions edition old new
        → IsStep premises clock editions edition }
{
    editions_follow_one_another();
    the_plans_keys_are_next();
    wanted_uris_have_objects();
    what_is_put_stands();
    all_that_is_made_is_new();
    what_is_made_did_not_stand();
    puts_and_withdrawals_are_needed();
    issued_entries_are_told();
    issued_rows_are_counted();
    rows_note_what_is_superseded();
}

/// The rows of what such an edition puts, with those that go on, are the table of what stands after it.
pub fn the_table_goes_on()
    ensures { (premises : Premises) (clock : ℕ) (editions : List Edition) (edition : Edition)
        (old new : List SignerState)
        (planned : IsPlannedAndMade premises clock editions edition old new)
        (issued : List IssuedRow) → AreSteps premises editions
        → IsTableAfter planned.issued edition.changes planned.made.made.issued issued
        → IsTable (set_after (editions ++ edition ∷ [])) issued }
{
    editions_follow_one_another();
    the_plans_keys_are_next();
    wanted_uris_have_objects();
    what_is_put_stands();
    all_that_is_made_is_new();
    what_is_made_did_not_stand();
    puts_and_withdrawals_are_needed();
    issued_entries_are_told();
    issued_rows_are_counted();
    rows_note_what_is_superseded();
}
