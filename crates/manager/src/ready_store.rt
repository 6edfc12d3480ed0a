//! What was opened, with a word beside each desk, and the board that shows the last edition.
ghost use Rattle.std.specs.Prelude.{◌≡◌, ◌+◌, ◌++◌, [], ◌∷◌, All, map, length, reverse, vec_capacity, vec_len, ◌≤◌, IfOk, IfErr};
ghost use Rattle.notice_board.specs.Seats.{viewer_seat};
ghost use Rattle.manager.specs.Ready.{IsReady};
ghost use Rattle.manager.specs.Resumed.{IsResumed};
ghost use Rattle.manager.specs.Run.{numbers_of, shown_at};
ghost use Rattle.manager.specs.Starting.{first_places, AreCounted};

use crate::{MOST_SESSIONS, OpenedDesk, OpenedStore};
use desk_core::{Desk, UncountedDesk};
use disk_api::Disk;
use notice_board::{Board, Numbers, Viewer};
use outlet_api::Outlet;
use press_core::StoredPress;
use signer_api::Signer;
use std::alloc::{AllocError, Global};
use std::marker::Brand;
use std::sync::Wait;

/// What was opened, with the viewers of the first pass and of those that can be split off it; and the emptied list of
/// the desks, in which there is room for them.
pub struct ReadyStore<D: Disk, S: Signer, O: Outlet> {
    pub opened: OpenedStore<D, S, O>,
    pub viewers: Vec<Viewer>,
    pub room: Vec<Desk<D>>,
}

/// Desks, press and outlet as they were, where there was no memory.
#[derive(Drop)]
pub struct UnreadyStore<D: Disk, S: Signer, O: Outlet> {
    pub desks: Vec<Desk<D>>,
    pub press: StoredPress<D, S>,
    pub outlet: O,
    pub fault: AllocError,
}

// The desks with their words, and the emptied list of them.
struct CountedDesks<D: Disk> {
    opened: Vec<OpenedDesk<D>>,
    room: Vec<Desk<D>>,
}

// Desks as they were, where there was no memory.
#[derive(Drop)]
struct UncountedDesks<D: Disk> {
    desks: Vec<Desk<D>>,
    fault: AllocError,
}

/// Gives each desk a word that counts its commands from those on that were found, and makes the board that shows the
/// last edition. A press that goes on behind what was loaded, with the commands of these desks, is then ready to be
/// put behind its lock.
pub fn make_store_ready<D: Disk, S: Signer, O: Outlet, R: Wait>(
    rt: &R,
    alloc: Global,
    desks: Vec<Desk<D>>,
    press: StoredPress<D, S>,
    outlet: O,
) -> Result<ReadyStore<D, S, O>, UnreadyStore<D, S, O>>
    ensures desks { IfOk result (λ ready. AreCounted desks.items ready.opened.desks.items) }
    ensures press { IfOk result (λ ready. (ready.opened.press ≡ press) × (ready.opened.outlet ≡ outlet)) }
    ensures shown { IfOk result (λ ready. ready.opened.board.shown ≡ shown_at press.press.at ∷ []) }
    ensures viewers { IfOk result (λ ready. (length ready.viewers.items ≡ first_places + 1) × All (λ viewer. viewer ≡ viewer_seat ready.opened.board) ready.viewers.items) }
    ensures room { IfOk result (λ ready. (ready.room.items ≡ []) × (length desks.items ≤ vec_capacity ready.room)) }
    ensures ready { IfOk result (λ ready. IsResumed desks.items press
        → IsReady O.Outlet ready.opened.desks.items ready.opened.press ready.opened.board ready.opened.outlet) }
    ensures refused { IfErr result (λ refused. (refused.desks.items ≡ desks.items) × (refused.press ≡ press) × (refused.outlet ≡ outlet)) }
{
    let (board, viewers) = match board_of::<Brand, D, S, R>(rt, alloc, &press) {
        Ok(made) => made,
        Err(fault) => {
            return Err(UnreadyStore {
                desks,
                press,
                outlet,
                fault,
            });
        }
    };
    match count_all(alloc, desks) {
        Ok(CountedDesks { opened, room }) => {
            let opened = OpenedStore {
                desks: opened,
                press,
                board,
                outlet,
            };
            Ok(ReadyStore {
                opened,
                viewers,
                room,
            })
        }
        Err(UncountedDesks { desks, fault }) => {
            board.close(rt);
            Err(UnreadyStore {
                desks,
                press,
                outlet,
                fault,
            })
        }
    }
}

// The board that shows the last edition, and its viewers.
fn board_of<E: Numbers, D: Disk, S: Signer, R: Wait>(
    rt: &R,
    alloc: Global,
    press: &StoredPress<D, S>,
) -> Result<(Board, Vec<Viewer>), AllocError>
    requires { E.numbers ≡ numbers_of press.now.press.at }
    ensures shown { IfOk result (λ made. made.0.shown ≡ shown_at press.now.press.at ∷ []) }
    ensures viewers { IfOk result (λ made. (length made.1.items ≡ first_places + 1) × All (λ viewer. viewer ≡ viewer_seat made.0) made.1.items) }
{
    let sheet = press.press().sheet(alloc)?;
    Board::new::<E, R>(rt, alloc, sheet, MOST_SESSIONS as u32 + 1)
}

// The desks, each with its word, in their order.
fn count_all<D: Disk>(
    alloc: Global,
    desks: Vec<Desk<D>>,
) -> Result<CountedDesks<D>, UncountedDesks<D>>
    ensures counted { IfOk result (λ counted. AreCounted desks.items counted.opened.items) }
    ensures room { IfOk result (λ counted. (counted.room.items ≡ []) × (length desks.items ≤ vec_capacity counted.room)) }
    ensures refused { IfErr result (λ refused. refused.desks.items ≡ desks.items) }
{
    let mut desks = desks;
    let mut opened = match Vec::with_capacity(alloc, desks.len()) {
        Ok(room) => room,
        Err(fault) => return Err(UncountedDesks { desks, fault }),
    };
    for _ in 0..desks.len() {
        let Some(desk) = desks.pop() else {
            unreachable!()
        };
        match OpenedDesk::new(alloc, desk) {
            Ok(counted) => opened.push_reserved(counted),
            Err(UncountedDesk { desk, fault }) => {
                desks.push_reserved(desk);
                give_back(opened, &mut desks);
                return Err(UncountedDesks { desks, fault });
            }
        }
    }
    opened.reverse();
    Ok(CountedDesks {
        opened,
        room: desks,
    })
}

// Puts these desks behind the others, the last first, without their words.
pub(crate) fn give_back<D: Disk>(opened: Vec<OpenedDesk<D>>, desks: &mut Vec<Desk<D>>)
    requires { vec_len desks.old + vec_len opened ≤ vec_capacity desks.old }
    ensures { desks.new.items ≡ desks.old.items ++ map (λ counted. counted.desk) (reverse opened.items) }
{
    let mut opened = opened;
    for _ in 0..opened.len() {
        let Some(counted) = opened.pop() else {
            unreachable!()
        };
        desks.push_reserved(counted.into_desk());
    }
}
