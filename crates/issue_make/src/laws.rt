//! Laws of what `make` answers.

ghost use Rattle.std.specs.Prelude.{◌≡◌, ℕ, List};
ghost use Rattle.signer_api.specs.State.{SignerState};
ghost use Rattle.key_roll.specs.declared.rows.KeyRow.{KeyRow};
ghost use Rattle.issue_drafts.specs.IssueInput.{IssueInput};
ghost use Rattle.issue_make.specs.declared.made.Made.{Made};
ghost use Rattle.issue_make.specs.Answers.{answers_to, AreAnsweredAlike};
ghost use Rattle.issue_make.specs.CanMake.{CanMake};
ghost use Rattle.issue_make.specs.Made.{IsMade, calls_of};

/// What is made is a function of the work, of the rows of the live keys and of what the signers answered: nothing else
/// has a part in it, as which of them answered first.
pub fn answers_determine_what_is_made()
    // Two makings that got the same answers, in the order of the calls, come to the same.
    ensures by_jobs { (s : IssueInput) (live : List KeyRow) (signers : ℕ)
        (old new before after : List SignerState) (made other : Made)
        → CanMake s live signers
        → (one : IsMade s live old new made) → (two : IsMade s live before after other)
        → answers_to (calls_of s one.trace) ≡ answers_to (calls_of s two.trace)
        → made ≡ other }

    // So do two in which each signer gave the same answers to its own calls, in their order.
    ensures by_signers { (s : IssueInput) (live : List KeyRow) (signers : ℕ)
        (old new before after : List SignerState) (made other : Made)
        → CanMake s live signers
        → (one : IsMade s live old new made) → (two : IsMade s live before after other)
        → AreAnsweredAlike (calls_of s one.trace) (calls_of s two.trace)
        → made ≡ other }
{}
