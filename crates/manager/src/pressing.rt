//! An edition is prepared, committed, and shown.

ghost use Rattle.std.specs.Prelude.{◌≡◌, ◌<◌, ◌++◌, [], ◌∷◌, List, Some, None, All, length, IfOk, IfErr, OnOk, OnErr};
ghost use Rattle.authority_book.specs.declared.commands.Command.{Command};
ghost use Rattle.entitle.specs.Certified.{names_of};
ghost use Rattle.notice_board.specs.Lists.{last_serial};
ghost use Rattle.editions.specs.Gathering.{configs_with, AreGathered, AreAccepted};
ghost use Rattle.editions.specs.Sheets.{sheet_of};
ghost use Rattle.press_core.specs.PrepareInput.{start_of};
ghost use Rattle.press_core.specs.Stored.{CanCommit};
ghost use Rattle.press_core.specs.StoredAnswers.{IsCommitFault, rose_of};
ghost use Rattle.manager.specs.Run.{numbers_of, shown_at};
ghost use Rattle.manager.specs.Pressing.{IsReady, IsUnready, IsCommitted};

use disk_api::Disk;
use editions::{Gathered, PublishedNumbers};
use notice_board::{Board, Numbers};
use press_core::{CommitFault, PrepareFault, StoredPrepared, StoredPress};
use signer_api::Signer;
use std::alloc::Global;
use std::marker::Brand;
use std::sync::Wait;
use std::thread::Threads;

/// Prepares the next edition of what was gathered, and makes its sheet ready on the board. All memory that a
/// publication needs is taken here, before the edition's record is written.
pub(crate) fn make_ready<D: Disk, S: Signer + Send, R: Threads + Sync>(
    rt: &R,
    alloc: Global,
    press: &mut StoredPress<D, S>,
    board: &mut Board,
    now: u64,
    gathered: Vec<Gathered>,
) -> Result<StoredPrepared, PrepareFault<D>>
    requires gathered { AreGathered press.old.press.at.cut gathered.items }
    requires accepted { AreAccepted press.old.press.at.configs gathered.items }
    requires live_signers { All (λ row. row.signer < length press.old.press.ring) press.old.press.at.rows }
    requires name_signers { All (λ name. name.signer < length press.old.press.ring)
        (names_of (configs_with press.old.press.at.configs gathered.items)) }
    requires serial { last_serial board.old.shown ≡ press.old.press.at.serial }
    ensures ready { IfOk result (IsReady (start_of press.old.press now gathered.items) press.old press.new) }
    ensures board { IfOk result (λ prepared. board.new ≡ record board.old { ready = Some (sheet_of prepared.edition.next) }) }
    ensures refused { IfErr result (IsUnready (start_of press.old.press now gathered.items) press.old press.new) }
    ensures same { OnErr result (board.new ≡ board.old) }
{
    let prepared = press.prepare(rt, alloc, now, gathered)?;
    // What its type says of the journal.
    press.press();
    let Ok(sheet) = prepared.sheet(alloc) else {
        return Err(PrepareFault::Memory);
    };
    if board.ready(alloc, sheet).is_err() {
        return Err(PrepareFault::Memory);
    }
    Ok(prepared)
}

/// Commits an edition whose sheet is ready on the board, shows it, and has the keys dropped that it ended. It
/// takes no memory.
pub(crate) fn commit_shown<D: Disk, S: Signer, R: Wait>(
    rt: &R,
    press: &mut StoredPress<D, S>,
    board: &mut Board,
    prepared: StoredPrepared,
) -> Result<PublishedNumbers, CommitFault<D>>
    requires can { CanCommit press.old prepared }
    requires ready { board.old.ready ≡ Some (sheet_of prepared.edition.next) }
    ensures committed { IfOk result (λ told. IsCommitted D.Disk prepared.edition told press.old press.new) }
    ensures shown { OnOk result (board.new ≡ record board.old { shown = board.old.shown ++ shown_at prepared.edition.next ∷ []; ready = None }) }
    ensures refused { IfErr result (λ fault. IsCommitFault D.Disk (rose_of fault) prepared press.old press.new) }
    ensures limit { press.new.journal.limit ≡ press.old.journal.limit }
    ensures same { OnErr result (board.new ≡ board.old) }
{
    // What its type says of the journal.
    press.press();
    let told = match press.commit(prepared) {
        Ok(told) => told,
        Err(fault) => return Err(fault),
    };
    show_last::<Brand, D, S, R>(rt, press, board);
    press.retire_keys();
    Ok(told)
}

// Shows the edition that was committed last, whose sheet is ready.
fn show_last<E: Numbers, D: Disk, S: Signer, R: Wait>(
    rt: &R,
    _press: &StoredPress<D, S>,
    board: &mut Board,
)
    requires numbers { E.numbers ≡ numbers_of _press.now.press.at }
    requires ready { board.old.ready ≡ Some (sheet_of _press.now.press.at) }
    ensures { board.new ≡ record board.old { shown = board.old.shown ++ shown_at _press.now.press.at ∷ []; ready = None } }
{
    board.show::<E, R>(rt);
}
