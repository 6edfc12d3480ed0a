//! Laws of the definitions.

ghost use Rattle.std.specs.Prelude.{◌≡◌, ℕ, ◌+◌, ◌<◌, ◌++◌, ◌∷◌, [], List, length, take, slice_get, Some};
ghost use Rattle.key_roll.specs.declared.rows.RevokedRow.{RevokedRow};
ghost use Rattle.pub_set.specs.declared.objects.Object.{Object};
ghost use Rattle.pub_set.specs.declared.steps.Change.{Change};
ghost use Rattle.pub_set.specs.Objects.{content_at, IsAscending};
ghost use Rattle.pub_set.specs.Changes.{Contents, after_all};
ghost use Rattle.editions.specs.Edition.{Edition, AreChanges, set_after, state_after, state_from};
ghost use Rattle.editions.specs.Superseded.{AreSuperseded};
ghost use Rattle.editions.specs.Step.{Premises, IsMore, IsStep, AreSteps};

use pub_set::changes_leave_a_set;

/// The changes from one set to another, carried out, make the other of the one.
pub fn changes_make_what_stands()
    ensures { (old new : Contents) (changes : List Change) → AreChanges old new changes
        → (uri : List ℕ) → after_all old changes uri ≡ new uri }
{}

/// Editions carried out in order, over what the ones before them leave, leave what all of them do.
pub fn editions_follow_one_another()
    ensures { (before later : List Edition)
        → state_after (before ++ later) ≡ state_from (state_after before) later }
{}

/// Serials count editions, and moments rise.
pub fn steps_count_up()
    ensures serials { (premises : Premises) (editions : List Edition) → AreSteps premises editions
        → (state_after editions).serial ≡ length editions }
    ensures moments { (premises : Premises) (editions : List Edition) (position : ℕ) (edition : Edition)
        → AreSteps premises editions → slice_get editions position ≡ Some edition
        → (state_after (take position editions)).moment < edition.moment }
{}

/// Editions each follow those before them where all but the last do, and the last follows the others.
pub fn steps_come_one_by_one()
    ensures another { (premises : Premises) (clock : ℕ) (editions : List Edition) (edition : Edition)
        → AreSteps premises editions → IsStep premises clock editions edition
        → AreSteps premises (editions ++ edition ∷ []) }
    ensures others { (premises : Premises) (editions : List Edition) (edition : Edition)
        → AreSteps premises (editions ++ edition ∷ []) → AreSteps premises editions }
    ensures last { (premises : Premises) (editions : List Edition) (edition : Edition)
        → AreSteps premises (editions ++ edition ∷ [])
        → (clock : ℕ) × IsStep premises clock editions edition }
{}

/// An edition that follows others does so over more commands too, and with more that is vouched; so do
/// editions that each follow those before them.
pub fn steps_stay_steps()
    ensures one { (less more : Premises) (clock : ℕ) (editions : List Edition) (edition : Edition)
        → IsMore less more → IsStep less clock editions edition
        → IsStep more clock editions edition }
    ensures all { (less more : Premises) (editions : List Edition)
        → IsMore less more → AreSteps less editions → AreSteps more editions }
{}

/// What is superseded in an edition is told by the editions up to it.
pub fn superseded_by_then()
    ensures { (one other : List Edition) (position : ℕ) (id : List ℕ) (entries : List RevokedRow)
        → position < length one → position < length other
        → take (position + 1) one ≡ take (position + 1) other
        → AreSuperseded one position id entries → AreSuperseded other position id entries }
{}

/// Sets with the same objects are one set.
pub fn same_objects_same_set()
    ensures { (one other : Contents) → ((uri : List ℕ) → one uri ≡ other uri) → one ≡ other }
{}

/// What editions leave is a set: its objects, by rising URI.
pub fn editions_leave_a_set()
    ensures { (editions : List Edition) → (objects : List Object) × IsAscending objects
        × ((uri : List ℕ) → content_at objects uri ≡ set_after editions uri) }
{
    changes_leave_a_set();
}
