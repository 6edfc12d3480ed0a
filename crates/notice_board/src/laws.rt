//! What the rules come to.
ghost use Rattle.std.specs.Prelude.{◌≡◌, ◌⊎◌, ◌≢◌, ℕ, List, [], true, false};
ghost use mathlib.Core.List.{IsPrefix};
ghost use Rattle.logbook.specs.Pages.{Cell, cell};
ghost use Rattle.notice_board.specs.declared.lists.Entry.{Entry};
ghost use Rattle.notice_board.specs.declared.shown.ShownEdition.{ShownEdition};
ghost use Rattle.notice_board.specs.Lists.{last_serial, rises};
ghost use Rattle.notice_board.specs.Rule.{KeepsListRule, EndsAt};

/// Of two that know prefixes of one list the one knows a prefix of what the other does.
pub fn all_see_one_history()
    ensures { (seen other shown : List ShownEdition) → IsPrefix seen shown → IsPrefix other shown
        → IsPrefix seen other ⊎ IsPrefix other seen }
{}

/// Of lists that rise, a prefix which ends with the same serial is the whole list: what is shown for a
/// serial is one edition.
pub fn one_list_has_the_serial()
    ensures { (seen more : List ShownEdition) → IsPrefix seen more → rises more ≡ true
        → seen ≢ [] → last_serial seen ≡ last_serial more → seen ≡ more }
{}

/// Under the rule of the list, as long as the cell that the last known entry names is away, what is
/// known is the whole list: nobody but the one who has that cell's pen has added to it.
pub fn only_the_owner_adds()
    ensures { (cells : List Cell) (known log : List Entry) (key : ℕ) → KeepsListRule cells log
        → IsPrefix known log → EndsAt key known → (cell cells key).1 ≡ false → log ≡ known }
{}
