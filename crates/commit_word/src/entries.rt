// Entries that a call names. They exist in contracts alone.
use std::marker::Brand;

/// A list of entries, each the bytes of a command's record. A call at `Brand` picks it.
pub trait Entries {
    ghost use Rattle.std.specs.Prelude.{ℕ, List};

    ghost list: { List (List ℕ) };
}

impl Entries for Brand {
    ghost use Rattle.std.specs.Prelude.{[]};

    ghost list = { [] };
}
