//! What fits stays: an edition puts just what doesn't fit, and asks no signature beyond what that takes.

ghost use Rattle.std.specs.Prelude.{◌≡◌, ◌+◌, ◌<◌, ◌^◌, ℕ, List, length};
ghost use Rattle.signer_api.specs.State.{SignerState};
ghost use Rattle.key_roll.specs.declared.rows.KeyRow.{KeyRow};
ghost use Rattle.issue_drafts.specs.IssueInput.{IssueInput};
ghost use Rattle.issue_make.specs.declared.made.Made.{Made};
ghost use Rattle.issue_make.specs.CanMake.{CanMake};
ghost use Rattle.issue_make.specs.Made.{IsMade};
ghost use Rattle.editions.specs.Edition.{Edition};
ghost use Rattle.editions.specs.MadeIn.{issuance_of};
ghost use Rattle.editions.specs.Sparing.{PutsWhatDoesNotFit, given_by, signatures_for};
ghost use Rattle.editions.specs.Step.{Premises, IsStep, AreSteps};

/// A law, with nothing to run: of all that an edition wants it puts just what doesn't fit what stands. What fits keeps its
/// bytes.
pub fn just_what_does_not_fit_is_put()
    ensures { (premises : Premises) (clock : ℕ) (editions : List Edition) (edition : Edition)
        → AreSteps premises editions → (step : IsStep premises clock editions edition)
        → PutsWhatDoesNotFit (issuance_of premises clock editions edition step) edition.changes }
{}

/// A law, with nothing to run: the signers' counts rise together by one for each certificate that the work asks, two for
/// each ROA, and three for each point, where they are all together below 2^64. That is what the making tells.
pub fn signatures_are_of_the_work()
    ensures told { (s : IssueInput) (live : List KeyRow) (old new : List SignerState) (made : Made)
        → CanMake s live (length old) → IsMade s live old new made
        → made.signatures ≡ signatures_for s.work }
    ensures counted { (s : IssueInput) (live : List KeyRow) (old new : List SignerState) (made : Made)
        → CanMake s live (length old) → IsMade s live old new made
        → given_by old + signatures_for s.work < 2 ^ 64
        → given_by new ≡ given_by old + signatures_for s.work }
{}
