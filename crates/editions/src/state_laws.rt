//! Laws of the definitions.

ghost use Rattle.std.specs.Prelude.{◌≡◌, ℕ, List, length};
ghost use Rattle.res_sets.specs.declared.holdings.Resources.{Resources};
ghost use Rattle.authority_book.specs.declared.commands.Command.{Command};
ghost use Rattle.authority_book.specs.Settings.{Settings};
ghost use Rattle.issue_plan.specs.Keys.{next_keys};
ghost use Rattle.editions.specs.Due as due;
ghost use Rattle.editions.specs.Edition.{State, cut_at};
ghost use Rattle.editions.specs.Step.{Premises, IsCut, configs_at, basis_at};
ghost use Rattle.editions.specs.declared.gathered.Gathered.{Gathered};
ghost use Rattle.editions.specs.Calling.{is_called_for};
ghost use Rattle.editions.specs.Gathering.{configs_with, cut_with, AreAccepted, AreNextCommands};
ghost use Rattle.editions.specs.PublishedState.{PublishedStateValue, AreTakenIn};

/// Where the desks' commands go on behind a cut with those that were gathered, the configurations at the cut
/// with these are those at the cut that takes them in, and that is one behind it.
pub fn gathered_commands_go_on()
    ensures configs { (lists : List (List Command)) (cut : List ℕ) (gathered : List Gathered)
        → length cut ≡ length lists → AreNextCommands lists cut gathered
        → configs_with (configs_at lists cut) gathered ≡ configs_at lists (cut_with cut gathered) }
    ensures cut { (lists : List (List Command)) (cut : List ℕ) (gathered : List Gathered)
        → length cut ≡ length lists → AreNextCommands lists cut gathered
        → IsCut lists cut (cut_with cut gathered) }
{}

/// Configurations that come of accepted commands do so with those that were gathered too.
pub fn gathered_commands_are_taken_in()
    ensures { (configs : List Settings) (cut : List ℕ) (gathered : List Gathered)
        → length configs ≡ length cut → AreTakenIn configs cut → AreAccepted configs gathered
        → AreTakenIn (configs_with configs gathered) (cut_with cut gathered) }
{}

/// What calls for an edition over a published state is what calls for it over editions that leave the same.
pub fn called_for_by_what_stands()
    ensures { (premises : Premises) (before : State) (published_state : PublishedStateValue) (cut : List ℕ) (moment : ℕ)
        (sets : List Resources)
        → before.serial ≡ published_state.serial → before.rows ≡ published_state.rows
        → ((desk : ℕ) → cut_at before.cut desk ≡ cut_at published_state.cut desk)
        → is_called_for published_state cut moment (next_keys (basis_at premises before cut moment sets))
        ≡ due.is_called_for premises before cut moment sets published_state.issued }
{}
