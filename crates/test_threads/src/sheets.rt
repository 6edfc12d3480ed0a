//! Sheets for races: a reader would notice one that is put together of two.
ghost use Rattle.std.specs.Prelude.{◌≡◌, IfOk};

use items::Items;
use notice_board::{Sheet, SheetRow, ShownStage};
use res_sets::{Family, Ranges, Resources};
use std::alloc::{AllocError, Global};

/// How many rows a sheet has. Each has the sheet's serial in it.
pub const ROWS: u32 = 5;

/// A sheet of which each part tells the serial.
pub fn sheet_of(alloc: Global, serial: u64) -> Result<Sheet, AllocError>
    ensures { IfOk result (λ sheet. sheet.serial ≡ serial) }
{
    let mut rows = Vec::with_capacity(alloc, ROWS as usize)?;
    for desk in 0..ROWS {
        rows.push(row_of(alloc, desk, serial))?;
    }
    Ok(Sheet {
        serial,
        moment: !serial,
        rows: Items::new(rows),
    })
}

// A row of that serial's sheet.
fn row_of(alloc: Global, desk: u32, serial: u64) -> SheetRow {
    SheetRow {
        desk,
        certified: Resources {
            asn: Ranges::empty(alloc, Family::Asn),
            v4: Ranges::empty(alloc, Family::V4),
            v6: Ranges::empty(alloc, Family::V6),
        },
        stage: stage_of(serial),
        published: Items::new(Vec::new(alloc)),
    }
}

/// The stage of each row of that serial's sheet.
pub fn stage_of(serial: u64) -> ShownStage {
    match serial % 4 {
        0 => ShownStage::Absent,
        1 => ShownStage::Steady,
        2 => ShownStage::Staged,
        _ => ShownStage::Retiring,
    }
}

/// Whether each part of the sheet tells its serial.
pub fn is_whole(sheet: &Sheet) -> bool {
    sheet.moment == !sheet.serial
        && sheet.rows.len() == ROWS as usize
        && sheet
            .rows
            .as_slice()
            .iter()
            .all(|row| row.stage == stage_of(sheet.serial))
}
