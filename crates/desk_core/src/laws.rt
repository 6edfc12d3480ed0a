// Laws of the definitions that the contracts cite.
ghost use Rattle.std.specs.Prelude.{◌≡◌, ℕ, List};
ghost use Rattle.authority_book.specs.declared.commands.Command.{Command};
ghost use Rattle.desk_core.specs.Commands.{Records};

use cmd_codec::spelled_apart;

/// A law, with nothing to run: records are those of one list of commands at most.
pub fn commands_are_determined()
    ensures { (number : ℕ) (records : List (List ℕ)) (one other : List Command) → Records number records one → Records number records other → one ≡ other }
{
    spelled_apart();
}
