//! One writer, and readers that look on.
ghost use denote.Param.Send.{IsSync};

use crate::sheets::{ROWS, is_whole, sheet_of, stage_of};
use notice_board::{Board, Viewer};
use std::alloc::{AllocError, Global};
use std::marker::Brand;
use std::sync::Wait;
use std::thread::{Threads, join, map_vec};

/// What came of a race.
#[derive(Drop)]
pub struct Raced {
    /// No reader found a serial below one that it had found before, nor a sheet or a row that wasn't
    /// one of those shown.
    pub right: bool,
    /// The serial at the close.
    pub last: u64,
}

/// A writer shows as many sheets as told, while readers look until they find the last one.
pub fn race<R: Threads + Wait + Sync>(
    rt: &R,
    alloc: Global,
    readers: u32,
    shows: u32,
) -> Result<Raced, AllocError>
    requires { IsSync R.row }
{
    let (mut board, viewers) = Board::new::<Brand, R>(rt, alloc, sheet_of(alloc, 0)?, readers)?;
    let writer = &mut board;
    let (written, read) = join(
        rt,
        move || write_all(rt, alloc, writer, shows),
        move || map_vec(rt, viewers, &|viewer| read_until(rt, alloc, viewer, shows)),
    );
    let last = board.close(rt);
    written?;
    let right = read?.iter().all(|right| *right);
    Ok(Raced { right, last })
}

// Shows so many sheets.
fn write_all<R: Wait>(
    rt: &R,
    alloc: Global,
    board: &mut Board,
    shows: u32,
) -> Result<(), AllocError> {
    for _ in 0..shows {
        show_next(rt, alloc, board)?;
    }
    Ok(())
}

// Shows the next sheet. Where the last one has the greatest serial, none comes after it.
fn show_next<R: Wait>(rt: &R, alloc: Global, board: &mut Board) -> Result<(), AllocError> {
    let Some(serial) = board.serial().checked_add(1) else {
        return Ok(());
    };
    board.ready(alloc, sheet_of(alloc, serial)?)?;
    board.show::<Brand, R>(rt);
    Ok(())
}

// Looks until the last sheet is found, and says whether all that was found was right.
fn read_until<R: Wait>(rt: &R, alloc: Global, viewer: Viewer, shows: u32) -> bool {
    let mut viewer = viewer;
    let mut right = true;
    let mut last = 0;
    let mut turn = 0u32;
    for _ in rt.forever() {
        turn = turn.wrapping_add(1);
        right = right && look(alloc, &mut viewer, turn);
        let serial = viewer.last_seen();
        right = right && last <= serial && serial <= u64::from(shows);
        last = serial;
        if serial >= u64::from(shows) {
            break;
        }
    }
    right
}

// Looks once, by each call in turn.
fn look(alloc: Global, viewer: &mut Viewer, turn: u32) -> bool {
    match turn % 4 {
        0 => viewer.row(alloc, turn % ROWS).is_ok_and(|row| {
            row.desk == turn % ROWS && row.stage == stage_of(viewer.last_seen())
        }),
        1 => viewer.sheet(alloc).is_ok_and(|sheet| is_whole(&sheet)),
        _ => viewer.serial() == viewer.last_seen(),
    }
}
