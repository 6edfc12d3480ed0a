// What follows of the definitions, for whoever reads them in the contracts of calls.
ghost use Rattle.std.specs.Prelude.{◌≡◌, ◌↔◌, ◌⊎◌, ℕ, ◌+◌, ◌<◌, ◌≤◌, List, [], ◌∷◌, ◌++◌};
ghost use Rattle.std.specs.Prelude.{Some, length};
ghost use mathlib.Core.Option.{some};
ghost use lib.ListN.{get_elem?};
ghost use Rattle.commit_word.specs.declared.views.View.{View};
ghost use Rattle.commit_word.specs.Entries.{Has, Rises, IsPast, joined};
ghost use Rattle.commit_word.specs.Rule.{KeepsWordRuleBy, IsMade};

/// What is joined has the entries of both and no others, as many as both have, and an entry past all
/// others comes last.
pub fn joined_has_both()
    ensures both { (xs ys : List (ℕ × List ℕ)) (place : ℕ) (entry : List ℕ)
        → Has (joined xs ys) place entry ↔ (Has xs place entry ⊎ Has ys place entry) }
    ensures count { (xs ys : List (ℕ × List ℕ)) → length (joined xs ys) ≡ length xs + length ys }
    ensures last { (xs : List (ℕ × List ℕ)) (place : ℕ) (entry : List ℕ)
        → ((p : ℕ) (e : List ℕ) → Has xs p e → p < place)
        → joined xs ((place, entry) ∷ []) ≡ xs ++ (place, entry) ∷ [] }
{}

/// Where what rises from a place on, below an end, has as many entries as there are places between,
/// it has an entry at each place.
pub fn as_many_as_places_are_all()
    ensures { (mine : List (ℕ × List ℕ)) (from end : ℕ)
        → Rises mine → IsPast from mine → ((p : ℕ) (e : List ℕ) → Has mine p e → p < end)
        → length mine + from ≡ end
        → (place : ℕ) → from ≤ place → place < end → (entry : List ℕ) × Has mine place entry }
{}

/// Under the rule one entry at most is set aside, at the place that comes next, and the owner's view
/// says which; where it says one, one seat made it.
pub fn one_entry_is_set_aside()
    ensures noted { (recovered : List (List ℕ)) (words : List ℕ) (views : List View) (owner : View)
        → KeepsWordRuleBy recovered words views owner
        → (by : ℕ) (v : View) (place : ℕ) (entry : List ℕ)
        → get_elem? views by ≡ some v → Has v.mine place entry → length owner.seen ≤ place
        → (place ≡ length owner.seen) × (owner.coming ≡ Some entry) }
    ensures made { (recovered : List (List ℕ)) (words : List ℕ) (views : List View) (owner : View)
        → KeepsWordRuleBy recovered words views owner
        → (entry : List ℕ) → owner.coming ≡ Some entry
        → (by : ℕ) × (v : View) × (get_elem? views by ≡ some v) × Has v.mine (length owner.seen) entry }
{}

/// Under the rule each place from the recovered count on that the word counts stands in what some
/// seat made.
pub fn each_place_was_made()
    ensures { (recovered : List (List ℕ)) (words : List ℕ) (views : List View) (owner : View)
        → KeepsWordRuleBy recovered words views owner
        → (place : ℕ) → length recovered ≤ place → place < length owner.seen → IsMade views place }
{}
