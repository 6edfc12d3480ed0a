//! What the parts of one manager are called. It exists in contracts alone.
use std::marker::Brand;

/// The words of the desks by their numbers, and what was found at opening. A call at `Brand` picks them.
pub trait Names {
    ghost use Rattle.std.specs.Prelude.{ℕ};
    ghost use Rattle.atomic_table.specs.Seated.{TableId};
    ghost use Rattle.manager.specs.Named.{Named};

    ghost words: { ℕ → TableId };

    ghost named: { Named };
}

impl Names for Brand {
    ghost use Rattle.manager.specs.Lists.{no_word};
    ghost use Rattle.manager.specs.Named.{nothing_named};

    ghost words = { λ _. no_word };

    ghost named = { nothing_named };
}
