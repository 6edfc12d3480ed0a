//! Looks of many readers.
ghost use Rattle.std.specs.Prelude.{◌≡◌};
ghost use denote.Param.Send.{IsSync};

use items::Items;
use notice_board::{Board, Sheet, Viewer};
use std::alloc::{AllocError, Global};
use std::marker::Brand;
use std::sync::Wait;
use std::thread::{Threads, join, map_vec, sleep};
use std::time::{Clock, Duration, Instant};

/// What all readers did, added up.
#[derive(Drop)]
pub struct Looked {
    pub nanoseconds: u64,
    pub calls: u64,
    /// How many of them found the last sheet.
    pub found: u32,
}

/// The looks of as many readers, while so many sheets are shown.
pub fn time_looks<R: Threads + Wait + Clock + Sync>(
    rt: &R,
    alloc: Global,
    readers: u32,
    sheets: u32,
    wait: Duration,
) -> Result<Looked, AllocError>
    requires { IsSync R.row }
{
    let (mut board, viewers) = Board::new::<Brand, R>(rt, alloc, sheet_of(alloc, 0), readers)?;
    let writer = &mut board;
    let (written, looks) = join(
        rt,
        move || write_all(rt, alloc, writer, sheets, wait),
        move || map_vec(rt, viewers, &|viewer| read_until(rt, viewer, sheets)),
    );
    board.close(rt);
    written?;
    Ok(added_up(looks?.as_slice()))
}

fn added_up(looks: &[Option<(u64, u64)>]) -> Looked {
    let mut all = Looked {
        nanoseconds: 0,
        calls: 0,
        found: 0,
    };
    for look in looks {
        if let Some((nanoseconds, calls)) = *look {
            all.nanoseconds = all.nanoseconds.saturating_add(nanoseconds);
            all.calls = all.calls.saturating_add(calls);
            all.found = all.found.saturating_add(1);
        }
    }
    all
}

// A sheet without rows.
fn sheet_of(alloc: Global, serial: u64) -> Sheet
    ensures { result.serial ≡ serial }
{
    Sheet {
        serial,
        moment: 0,
        rows: Items::new(Vec::new(alloc)),
    }
}

// Shows so many sheets. Where the last one has the greatest serial, none comes after it.
fn write_all<R: Wait + Clock>(
    rt: &R,
    alloc: Global,
    board: &mut Board,
    sheets: u32,
    wait: Duration,
) -> Result<(), AllocError> {
    for _ in 0..sheets {
        let Some(serial) = board.serial().checked_add(1) else {
            return Ok(());
        };
        board.ready(alloc, sheet_of(alloc, serial))?;
        board.show::<Brand, R>(rt);
        sleep(rt, wait);
    }
    Ok(())
}

// The nanoseconds and the calls until the last sheet is found; None where the clock can't be read.
fn read_until<R: Wait + Clock>(rt: &R, viewer: Viewer, sheets: u32) -> Option<(u64, u64)> {
    let mut viewer = viewer;
    let mut calls = 0u64;
    let start = Instant::now(rt).ok()?;
    for _ in rt.forever() {
        calls = calls.wrapping_add(1);
        if viewer.serial() >= u64::from(sheets) {
            break;
        }
    }
    let nanoseconds = u64::try_from(start.elapsed(rt).ok()?.as_nanos()).ok()?;
    Some((nanoseconds, calls))
}
