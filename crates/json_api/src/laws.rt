//! Laws of the definitions that the contracts cite.

ghost use Rattle.std.specs.Prelude.{◌≡◌, ℕ, List, Result};
ghost use Rattle.json_api.specs.Line.{ReadsLine};
ghost use Rattle.json_api.specs.declared.line.Line.{Line};
ghost use Rattle.json_api.specs.declared.line.LineFault.{LineFault};

use origins::{reads_origin_once, same_numbers_same_origin};
use res_sets::reads_texts_once;

/// A law, with nothing to run: a line is read in one way, so two answers to it are the same.
pub fn reads_lines_once()
    ensures { (line : List ℕ) (a b : Result Line LineFault) → ReadsLine line a → ReadsLine line b → a ≡ b }
{
    reads_texts_once();
    reads_origin_once();
    same_numbers_same_origin();
}
