//! Laws of the definitions that the contracts cite.

ghost use Rattle.std.specs.Prelude.{List, All};
ghost use Rattle.std.specs.List.{AllByRecursion};
ghost use Rattle.names.specs.Name.{IsName};
ghost use Rattle.authority_book.specs.declared.commands.Command.{Command};
ghost use Rattle.authority_book.specs.Fold.{fold_of};
ghost use Rattle.cmd_codec.specs.Spelling.{IsRecordable};

/// The names that recordable commands of the trust anchor list are names.
pub fn listed_names_are_names()
    ensures { (commands : List Command) → AllByRecursion IsRecordable commands
        → All (λ row. IsName row.name) (fold_of 0 commands).names }
{}
