//! Laws of the records of editions.

ghost use Rattle.std.specs.Prelude.{◌≡◌, ℕ, true, List, map, option_map};
ghost use Rattle.sha2.specs.Sha256.{sha256};
ghost use Rattle.signer_api.specs.State.{SignerState};
ghost use Rattle.authority_book.specs.declared.commands.Command.{Command};
ghost use Rattle.pub_set.specs.Objects.{found_at, content_at};
ghost use Rattle.press_records.specs.Rows.{row_value};
ghost use Rattle.press_records.specs.Stages.{are_staged};
ghost use Rattle.press_records.specs.Edition.{StandingValue, nothing_stands, IsAlike};
ghost use Rattle.press_records.specs.Recordable.{IsTyped, IsRecordable};
ghost use Rattle.press_records.specs.Records.{after_editions};
ghost use Rattle.editions.specs.Edition.{Edition, state_after};
ghost use Rattle.editions.specs.PublishedState.{PublishedStateValue, IsConsistentState};
ghost use Rattle.press_core.specs.PrepareInput.{PrepareInput};
ghost use Rattle.press_core.specs.Next.{NextValue};
ghost use Rattle.press_core.specs.Planned.{IsPrepared};
ghost use Rattle.press_core.specs.Stands.{IsLeftBy};
ghost use Rattle.press_core.specs.Follows.{edition_of};
ghost use Rattle.press_core.specs.Records.{edition_value, standing_at, standing_of};

use editions::the_plans_keys_are_next;

/// What is prepared can be recorded, over what stood and over whatever is alike: where its keys are in stages, and the
/// table of what stood told the hash of what stands at each URI. Numbers that fit and URIs in UTF-8 are what its types
/// say.
pub fn prepared_editions_can_be_recorded()
    ensures { (start : PrepareInput) (ring : List SignerState) (prepared : NextValue) → IsPrepared start ring prepared
        → IsConsistentState start.at → are_staged (map row_value prepared.next.rows) ≡ true
        → ((uri : List ℕ) → found_at (λ row. row.uri) (λ row. row.hash) start.at.issued uri
        ≡ option_map sha256 (content_at start.at.set uri))
        → IsTyped (edition_value (edition_of prepared))
        → (before : StandingValue) → IsAlike before (standing_of start.at)
        → IsRecordable before (edition_value (edition_of prepared)) }
{
    the_plans_keys_are_next();
}

/// What the editions leave that records tell is what these editions leave; and a published state that editions left
/// stands alike.
pub fn recorded_editions_leave_what_editions_leave()
    ensures left { (editions : List Edition)
        → after_editions nothing_stands (map edition_value editions) ≡ standing_at (state_after editions) }
    ensures alike { (lists : List (List Command)) (editions : List Edition) (published_state : PublishedStateValue)
        → IsLeftBy lists editions published_state
        → IsAlike (standing_at (state_after editions)) (standing_of published_state) }
{}
