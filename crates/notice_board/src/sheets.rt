//! What stands on the board: what an edition says of each authority.

ghost use Rattle.std.specs.Prelude.{◌≡◌, IfOk, option_map};
ghost use Rattle.notice_board.specs.Rows.{row_of, IsRowOf, IsUnknown};

use items::Items;
use origins::Origin;
use res_sets::{Family, Ranges, Resources};
use std::alloc::{AllocError, Global};

/// What an edition says of each authority that it publishes for.
#[derive(Debug, Drop)]
pub struct Sheet {
    /// The serial of the edition. It is 0 where there was none yet.
    pub serial: u64,
    /// The moment of the edition, in seconds since 1970.
    pub moment: u64,
    /// A row for each authority, in the order of the desks.
    pub rows: Items<SheetRow>,
}

/// What an edition says of an authority.
#[derive(Debug, Drop)]
pub struct SheetRow {
    /// The authority's desk. Numbered from 0, which is the trust anchor's.
    pub desk: u32,
    /// The resources that the authority is certified for.
    pub certified: Resources,
    pub stage: ShownStage,
    /// The origins that the edition publishes for the authority.
    pub published: Items<Origin>,
}

/// How far an authority's key rollover is (RFC 6489 section 2).
#[derive(Clone, Copy, Debug, PartialEq, Eq)]
pub enum ShownStage {
    /// The authority has no key.
    Absent,
    /// The authority has its current key alone.
    Steady,
    /// A new key waits beside the current one.
    Staged,
    /// The old key stands beside the current one until it ends.
    Retiring,
}

impl SheetRow {
    /// The same row in memory of its own.
    pub fn copy(&self, alloc: Global) -> Result<SheetRow, AllocError>
        ensures { IfOk result (λ copy. copy ≡ self.now) }
    {
        Ok(SheetRow {
            desk: self.desk,
            certified: self.certified.copy(alloc)?,
            stage: self.stage,
            published: Items::new(self.published.as_slice().to_vec(alloc)?),
        })
    }

    // The row of an authority that the edition doesn't know. It takes no memory.
    fn unknown(alloc: Global, desk: u32) -> SheetRow
        ensures { IsUnknown desk result }
    {
        SheetRow {
            desk,
            certified: Resources {
                asn: Ranges::empty(alloc, Family::Asn),
                v4: Ranges::empty(alloc, Family::V4),
                v6: Ranges::empty(alloc, Family::V6),
            },
            stage: ShownStage::Absent,
            published: Items::new(Vec::new(alloc)),
        }
    }
}

impl Sheet {
    /// The same sheet in memory of its own.
    pub fn copy(&self, alloc: Global) -> Result<Sheet, AllocError>
        ensures { IfOk result (λ copy. copy ≡ self.now) }
    {
        Ok(Sheet {
            serial: self.serial,
            moment: self.moment,
            rows: Items::new(copies(alloc, self.rows.as_slice())?),
        })
    }

    /// The row of that desk. Of an authority that the edition doesn't know it is one without a key, which
    /// holds and publishes nothing. Desks are numbered from 0, which is the trust anchor's.
    pub fn row(&self, alloc: Global, desk: u32) -> Result<SheetRow, AllocError>
        ensures { IfOk result (IsRowOf self.now.rows desk) }
    {
        match row_of(self.rows.as_slice(), desk) {
            Some(row) => row.copy(alloc),
            None => Ok(SheetRow::unknown(alloc, desk)),
        }
    }
}

// The first row of that desk.
fn row_of<'a>(rows: &'a [SheetRow], desk: u32) -> Option<&'a SheetRow>
    ensures { option_map (λ row. row.now) result ≡ row_of rows.now desk }
{
    rows.iter().find(|row| row.desk == desk)
}

fn copies(alloc: Global, rows: &[SheetRow]) -> Result<Vec<SheetRow>, AllocError>
    ensures { IfOk result (λ copies. copies.items ≡ rows.now) }
{
    let mut copies = Vec::with_capacity(alloc, rows.len())?;
    for row in rows {
        copies.push(row.copy(alloc)?)?;
    }
    Ok(copies)
}
