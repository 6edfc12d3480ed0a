//! Laws of the definitions that the contracts cite.

ghost use Rattle.std.specs.Prelude.{◌≡◌, ℕ, List, None};
ghost use Rattle.pub_set.specs.declared.objects.Object.{Object};
ghost use Rattle.pub_set.specs.declared.steps.Change.{Change};
ghost use Rattle.pub_set.specs.Objects.{content_at, IsAscending};
ghost use Rattle.pub_set.specs.Changes.{IsApplied, IsChanges};
ghost use Rattle.pub_set.specs.Queries.{first_refusal, AreWithin};

/// What stands at each URI determines a set.
pub fn same_contents_same_set()
    ensures { (a b : List Object) → IsAscending a → IsAscending b
        → ((uri : List ℕ) → content_at a uri ≡ content_at b uri) → a ≡ b }
{}

/// The changes between two sets are determined. A query of them over the old set isn't refused where
/// they are within its base, and makes the new set of the old one.
pub fn changes_make_the_new_set()
    ensures determined { (old new : List Object) (xs ys : List Change)
        → IsChanges old new xs → IsChanges old new ys → xs ≡ ys }
    ensures applied { (old new : List Object) (changes : List Change)
        → IsChanges old new changes → IsApplied old changes new }
    ensures sound { (old new : List Object) (changes : List Change) (base : List ℕ)
        → IsChanges old new changes
        → AreWithin base changes → first_refusal base (content_at old) changes ≡ None }
{}

/// What changes leave of a set is a set.
pub fn changes_leave_a_set()
    ensures { (old : List Object) (changes : List Change) → IsAscending old
        → (new : List Object) × IsAscending new × IsApplied old changes new }
{}
