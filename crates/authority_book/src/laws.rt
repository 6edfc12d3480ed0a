//! Laws of the definitions that the contracts cite.

ghost use Rattle.std.specs.Prelude.{◌≡◌, ◌≤◌, ◌+◌, ◌↔◌, ℕ, IsTrue, List};
ghost use Rattle.std.specs.List.{Contains};
ghost use Rattle.origins.specs.declared.Origin.{Origin};
ghost use Rattle.authority_book.specs.declared.commands.Command.{Command};
ghost use Rattle.authority_book.specs.Origins.{is_same, is_there, IsAscending};
ghost use Rattle.authority_book.specs.Fold.{fold_of, Taken};

/// Origins that the definitions call the same are one and the same, so a list has an origin exactly
/// where it is found there.
pub fn membership_is_by_equality()
    ensures same { (a b : Origin) → IsTrue (is_same a b) ↔ (a ≡ b) }
    ensures there { (origins : List Origin) (origin : Origin) → IsTrue (is_there origins origin) ↔ Contains origins origin }
{}

/// The origins that accepted commands come to ascend.
pub fn accepted_origins_ascend()
    ensures { (desk : ℕ) (commands : List Command) → Taken desk commands
        → IsAscending (fold_of desk commands).origins }
{}

/// Rollovers are begun and activated in turn: as many are activated as begun, or one fewer.
pub fn rollovers_take_turns()
    ensures { (desk : ℕ) (commands : List Command) → Taken desk commands
        → ((fold_of desk commands).activates ≤ (fold_of desk commands).inits)
        × ((fold_of desk commands).inits ≤ (fold_of desk commands).activates + 1) }
{}
