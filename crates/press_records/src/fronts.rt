//! What an edition's record has in front of its changes.

ghost use Rattle.std.specs.Prelude.{◌≡◌};
ghost use Rattle.record_forms.specs.Outcome.{Gives};
ghost use Rattle.press_records.specs.Views.{standing_value, fields_value};
ghost use Rattle.press_records.specs.inner.Taking.{front_lists, front_lists_value, edition_fronts, front_value, fields_with};

use crate::edition::{ReadEdition, Standing};
use crate::numbers::Numbers;
use crate::rows::RowsOver;
use items::Items;
use key_roll::KeyRow;
use pub_set::Change;
use record_forms::{ReadFault, behind_byte, counted, number_32, number_64};
use std::alloc::Global;

/// The fields in front of the changes, and how many changes there are.
#[derive(Debug, Drop)]
pub(crate) struct Front {
    pub(crate) serial: u64,
    pub(crate) moment: u64,
    pub(crate) lists: FrontLists,
}

/// The lists among them.
#[derive(Debug, Drop)]
pub(crate) struct FrontLists {
    pub(crate) cut: Items<u64>,
    pub(crate) rows: Items<KeyRow>,
    pub(crate) count: u32,
}

// The cut, the rows and the number of changes.
fn read_front_lists<'a>(
    alloc: Global,
    before: &Standing<'_>,
    bytes: &'a [u8],
) -> Result<(FrontLists, &'a [u8]), ReadFault>
    ensures { Gives (λ x. (front_lists_value x.0, x.1.now)) result
        ((front_lists (standing_value before.now)).read bytes.now) }
{
    let (cut, bytes) = counted(alloc, &Numbers, bytes)?;
    let (rows, bytes) = counted(
        alloc,
        &RowsOver {
            before: before.rows,
        },
        bytes,
    )?;
    let (count, bytes) = number_32(bytes)?;
    let lists = FrontLists {
        cut: Items::new(cut),
        rows: Items::new(rows),
        count,
    };
    Ok((lists, bytes))
}

/// Reads an edition's record up to its changes.
pub(crate) fn edition_front<'a>(
    alloc: Global,
    before: &Standing<'_>,
    bytes: &'a [u8],
) -> Result<(Front, &'a [u8]), ReadFault>
    ensures { Gives (λ x. (front_value x.0, x.1.now)) result
        ((edition_fronts (standing_value before.now)).read bytes.now) }
{
    let bytes = behind_byte(bytes, 1)?;
    let (serial, bytes) = number_64(bytes)?;
    let (moment, bytes) = number_64(bytes)?;
    let (lists, bytes) = read_front_lists(alloc, before, bytes)?;
    let front = Front {
        serial,
        moment,
        lists,
    };
    Ok((front, bytes))
}

/// The edition with these changes behind its other fields.
pub(crate) fn edition_behind(front: Front, changes: Vec<Change>) -> ReadEdition
    ensures { fields_value result ≡ fields_with (front_value front) changes.items }
{
    ReadEdition {
        serial: front.serial,
        moment: front.moment,
        cut: front.lists.cut,
        rows: front.lists.rows,
        changes: Items::new(changes),
    }
}
