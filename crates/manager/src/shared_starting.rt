//! What was opened is put behind its locks.
ghost use Rattle.std.specs.Prelude.{◌≡◌, ◌+◌, All, map, length, IfOk, IfErr};
ghost use Rattle.authority_book.specs.Verdict.{most_authorities};
ghost use Rattle.notice_board.specs.Seats.{viewer_seat};
ghost use Rattle.manager.specs.Opening.{IsOpened};
ghost use Rattle.manager.specs.Ready.{desk_in};
ghost use Rattle.manager.specs.Risen.{AreRisenDesks, IsRisenPress};
ghost use Rattle.manager.specs.Starting.{AreOpenedDesks, IsFirstPass, first_seat, first_places};

use crate::{
    LockedDesks, LockedPress, Manager, Names, OpenedDesk, Pass, StartedDesks, UnstartedDesks,
};
use disk_api::Disk;
use notice_board::{Board, Viewer};
use outlet_api::Outlet;
use press_core::StoredPress;
use signer_api::Signer;
use std::alloc::{AllocError, Global};

/// What was opened: the desks by their numbers, the press behind them, the board that shows the edition which was
/// found, and the outlet.
pub struct OpenedStore<D: Disk, S: Signer, O: Outlet> {
    pub desks: Vec<OpenedDesk<D>>,
    pub press: StoredPress<D, S>,
    pub board: Board,
    pub outlet: O,
}

/// What was opened, and for whose locks there was no memory.
pub struct UnstartedStore<D: Disk, S: Signer, O: Outlet> {
    pub opened: OpenedStore<D, S, O>,
    pub fault: AllocError,
}

/// Puts what was opened behind its locks. The first pass has seen the lists that were found, and the edition that
/// the board shows. One of the viewers is its own, and the others are for passes that are split off.
pub fn start<N: Names, D: Disk, S: Signer, O: Outlet>(
    alloc: Global,
    opened: OpenedStore<D, S, O>,
    signers: u32,
    viewers: Vec<Viewer>,
) -> Result<(Manager<N, D, S, O>, Pass<N>), UnstartedStore<D, S, O>>
    requires desks { (length opened.desks.items ≡ most_authorities) × AreOpenedDesks N.words N.named 0 opened.desks.items }
    requires press { IsOpened O.Outlet N.named (record { press = opened.press; seats = map first_seat opened.desks.items; board = opened.board; outlet = opened.outlet }) }
    requires desk_faults { AreRisenDesks D.Disk N.named (map desk_in opened.desks.items) }
    requires press_faults { IsRisenPress D.Disk O.Outlet N.named opened.press.journal opened.outlet }
    requires signers { signers ≡ length N.named.signers }
    requires viewers { (length viewers.items ≡ first_places + 1) × All (λ viewer. viewer ≡ viewer_seat opened.board) viewers.items }
    ensures first { IfOk result (λ started. IsFirstPass N.named started.1) }
    ensures shown { IfOk result (λ started. started.1.shown ≡ opened.board.shown) }
    ensures desks { IfErr result (λ refused. refused.opened.desks.items ≡ opened.desks.items) }
    ensures rest { IfErr result (λ refused. (refused.opened.press ≡ opened.press) × (refused.opened.board ≡ opened.board) × (refused.opened.outlet ≡ opened.outlet)) }
{
    let OpenedStore {
        desks,
        press,
        board,
        outlet,
    } = opened;
    match LockedDesks::start(alloc, desks, signers, viewers) {
        Ok(started) => Ok(started_with(started, press, board, outlet)),
        Err(UnstartedDesks { desks, fault }) => {
            let opened = OpenedStore {
                desks,
                press,
                board,
                outlet,
            };
            Err(UnstartedStore { opened, fault })
        }
    }
}

// The desks behind their locks, and the press behind its own.
fn started_with<N: Names, D: Disk, S: Signer, O: Outlet>(
    started: StartedDesks<N, D>,
    press: StoredPress<D, S>,
    board: Board,
    outlet: O,
) -> (Manager<N, D, S, O>, Pass<N>)
    requires opened { IsOpened O.Outlet N.named (record { press = press; seats = started.followers; board = board; outlet = outlet }) }
    requires faults { IsRisenPress D.Disk O.Outlet N.named press.journal outlet }
    ensures { result.1 ≡ started.pass }
{
    let StartedDesks {
        desks,
        pass,
        followers,
    } = started;
    let press = LockedPress::over(press, followers, board, outlet);
    (Manager::over(desks, press), pass)
}
