//! What was made ready can be put behind its locks.
ghost use Rattle.std.specs.Prelude.{List, map};
ghost use Rattle.desk_core.specs.Counted.{CountedView};
ghost use Rattle.notice_board.specs.Seats.{BoardSeat};
ghost use Rattle.press_core.specs.Stored.{StoredValue};
ghost use Rattle.press_core.specs.declared.last_export.LastExport.{LastExport};
ghost use Rattle.manager.specs.Found.{AreFound};
ghost use Rattle.manager.specs.Pressing.{exported_as};
ghost use Rattle.manager.specs.Ready.{desk_in, named_of, IsReady, CanStart};
ghost use Rattle.manager.specs.Resumed.{IsResumed};

use desk_core::commands_are_determined;
use disk_api::Disk;
use outlet_api::Outlet;

/// Whatever was opened and made ready meets what [`start`](crate::start) asks for, by the names that `words_of` and
/// `named_of` give its parts: these are what a call at `Brand` picks. The editions that opening found are then those
/// that were found by these names, whether the last one was exported or not.
pub fn ready_stores_can_start<D: Disk, O: Outlet>()
    ensures start { (opened : List (CountedView D)) (stored : StoredValue D) (board : BoardSeat) (outlet : O)
        → IsReady O.Outlet opened stored board outlet → CanStart D.Disk O.Outlet opened stored board outlet }
    ensures found { (opened : List (CountedView D)) (first : StoredValue D) (last : LastExport) (board : BoardSeat) (outlet : O)
        → (is : IsResumed (map desk_in opened) first)
        → AreFound (named_of D.Disk O.Outlet opened (exported_as last first) board outlet) is.editions }
{
    commands_are_determined();
}
