//! The record of an edition, read and written.

ghost use Rattle.std.specs.Prelude.{◌≡◌, ◌^◌, ◌-◌, ◌++◌, map, min, length, IfOk, OnOk};
ghost use Rattle.record_forms.specs.Form.{Spells};
ghost use Rattle.record_forms.specs.Forms.{read_whole};
ghost use Rattle.record_forms.specs.Outcome.{Gives, IsUnlessMemory};
ghost use Rattle.press_records.specs.Rows.{row_value};
ghost use Rattle.press_records.specs.Edition.{EditionValue, StandingValue, may_follow, edition_fields, edition_told, editions};
ghost use Rattle.press_records.specs.Recordable.{IsTyped};
ghost use Rattle.press_records.specs.Views.{standing_value, edition_value, fields_value, given_value};
ghost use Rattle.press_records.specs.inner.Raw.{edition_lists, lists_value, spelled_lists};

use crate::changes::{Changes, ChangesOver, uris_rise};
use crate::numbers::Numbers;
use crate::rows::{RawRow, RawRows, RowsOver, raw_rows};
use crate::rules::{are_live, is_cut, is_dated, is_next};
use crate::types::edition_fits;
use items::Items;
use key_roll::KeyRow;
use pub_set::{Change, ObjectSet};
use record_forms::{
    ReadFault, behind_byte, counted, counted_len, number_64, push_64, push_counted,
};
use std::alloc::{AllocError, Global};
use std::marker::Model;

/// What stands after an edition: what the record of the next one is read over.
#[derive(Clone, Copy, Debug)]
pub struct Standing<'a> {
    /// 0 before the first edition.
    pub serial: u64,
    /// In seconds since 1970, and 0 before the first edition.
    pub moment: u64,
    /// How many commands of each desk are taken in.
    pub cut: &'a [u64],
    /// The live keys, by desk and role.
    pub rows: &'a [KeyRow],
    pub set: &'a ObjectSet,
}

/// An edition, as its record tells it.
#[derive(Debug, Drop)]
pub struct ReadEdition {
    pub serial: u64,
    /// In seconds since 1970.
    pub moment: u64,
    /// How many commands of each desk it takes in.
    pub cut: Items<u64>,
    /// Its live keys, by desk and role.
    pub rows: Items<KeyRow>,
    /// By rising URI.
    pub changes: Items<Change>,
}

/// An edition that is to be written.
#[derive(Clone, Copy, Debug)]
pub struct GivenEdition<'a> {
    pub serial: u64,
    /// In seconds since 1970.
    pub moment: u64,
    /// How many commands of each desk it takes in.
    pub cut: &'a [u64],
    /// Its live keys, by desk and role.
    pub rows: &'a [KeyRow],
    /// By rising URI.
    pub changes: &'a [Change],
}

// ---- reading

/// The lists of an edition.
#[derive(Debug, Drop)]
pub struct Lists {
    pub cut: Items<u64>,
    pub rows: Items<KeyRow>,
    pub changes: Items<Change>,
}

// The cut, the rows and the changes.
fn read_lists<'a>(
    alloc: Global,
    before: &Standing<'_>,
    bytes: &'a [u8],
) -> Result<(Lists, &'a [u8]), ReadFault>
    ensures { Gives (λ x. (lists_value x.0, x.1.now)) result
        ((edition_lists (standing_value before.now)).read bytes.now) }
{
    let (cut, bytes) = counted(alloc, &Numbers, bytes)?;
    let (rows, bytes) = counted(
        alloc,
        &RowsOver {
            before: before.rows,
        },
        bytes,
    )?;
    let (changes, bytes) = counted(alloc, &ChangesOver { set: before.set }, bytes)?;
    let lists = Lists {
        cut: Items::new(cut),
        rows: Items::new(rows),
        changes: Items::new(changes),
    };
    Ok((lists, bytes))
}

// The fields of an edition.
fn fields<'a>(
    alloc: Global,
    before: &Standing<'_>,
    bytes: &'a [u8],
) -> Result<(ReadEdition, &'a [u8]), ReadFault>
    ensures { Gives (λ x. (fields_value x.0, x.1.now)) result
        ((edition_fields (standing_value before.now)).read bytes.now) }
{
    let bytes = behind_byte(bytes, 1)?;
    let (serial, bytes) = number_64(bytes)?;
    let (moment, bytes) = number_64(bytes)?;
    let (lists, bytes) = read_lists(alloc, before, bytes)?;
    let edition = ReadEdition {
        serial,
        moment,
        cut: lists.cut,
        rows: lists.rows,
        changes: lists.changes,
    };
    Ok((edition, bytes))
}

// Whether the edition may follow what stands, as far as a record tells.
fn may_follow(
    alloc: Global,
    before: &Standing<'_>,
    edition: &ReadEdition,
) -> Result<bool, AllocError>
    ensures { IfOk result (λ may. may ≡ may_follow (standing_value before.now) (edition_value edition.now)) }
{
    let live = are_live(alloc, edition.moment, edition.rows.as_slice())?;
    Ok(
        is_next(before.serial, edition.serial)
            && is_dated(before.moment, edition.moment)
            && is_cut(before.cut, edition.cut.as_slice())
            && live
            && uris_rise(edition.changes.as_slice()),
    )
}

/// The edition, if it may follow. That asks nothing of the set.
pub(crate) fn told(
    alloc: Global,
    before: &Standing<'_>,
    edition: ReadEdition,
) -> Result<ReadEdition, ReadFault>
    ensures { Gives edition_value result
        (edition_told (standing_value before.now) (fields_value edition)) }
{
    if may_follow(alloc, before, &edition)? {
        Ok(edition)
    } else {
        Err(ReadFault::Bad)
    }
}

// The edition that all of the bytes tell.
#[tactic(auto, unfolding(crate::specs::Edition::editions))]
fn edition_of(alloc: Global, before: &Standing<'_>, bytes: &[u8]) -> Result<ReadEdition, ReadFault>
    ensures { Gives edition_value result
        (read_whole (editions (standing_value before.now)) bytes.now) }
{
    if bytes.len() >= 1 << 32 {
        return Err(ReadFault::Bad);
    }
    let (edition, left) = fields(alloc, before, bytes)?;
    let edition = told(alloc, before, edition)?;
    if !left.is_empty() {
        return Err(ReadFault::Bad);
    }
    Ok(edition)
}

/// The edition whose record this is, over what stood before it.
///
/// It answers `Bad` exactly where the bytes are no edition's record over that, and `Memory` where memory runs
/// out.
pub fn read_edition(
    alloc: Global,
    before: &Standing<'_>,
    bytes: &[u8],
) -> Result<ReadEdition, ReadFault>
    // What is read is spelled so, each byte of it, and what is spelled so is read.
    ensures found { IfOk result (λ found.
        Spells (editions (standing_value before.now)) (edition_value found) bytes.now) }
    ensures only { (wanted : EditionValue) → Spells (editions (standing_value before.now)) wanted bytes.now
        → IsUnlessMemory edition_value result wanted }
{
    edition_of(alloc, before, bytes)
}

// ---- writing

/// The record of an edition, before it is written. A contract sees its bytes.
#[derive(Debug, Drop)]
pub struct EditionRecord<'a> {
    given: GivenEdition<'a>,
    rows: Vec<RawRow>,
}

impl<'a> Model for EditionRecord<'a> {
    ghost use Rattle.std.specs.Prelude.{ℕ, List};
    ghost use Rattle.press_records.specs.inner.Raw.{written};

    ghost Value = { List ℕ };

    ghost view = { λ r. written r.given.serial r.given.moment r.given.cut.now r.rows.items r.given.changes.now };
}

impl<'a> EditionRecord<'a> {
    /// The record of the edition, over the live keys of the one before it.
    pub fn new(
        alloc: Global,
        before: &[KeyRow],
        given: GivenEdition<'a>,
    ) -> Result<EditionRecord<'a>, AllocError>
        ensures spelled { IfOk result (λ made. (standing : StandingValue) → standing.rows ≡ map row_value before.now
            → made ≡ (editions standing).spelling (given_value given.entry)) }
        // What the edition's types say of it.
        ensures typed { IfOk result (λ _. IsTyped (given_value given.entry)) }
    {
        edition_fits(&given);
        let rows = raw_rows(alloc, before, given.rows)?;
        Ok(EditionRecord { given, rows })
    }

    /// How many bytes it has, if a number of 64 bits can tell.
    #[tactic(auto, using(crate::proofs::Sizes::written_size))]
    pub fn len(&self) -> u64
        ensures { result ≡ min (length self.now) (2 ^ 64 - 1) }
    {
        let cut = counted_len(&Numbers, self.given.cut);
        let rows = counted_len(&RawRows, &self.rows);
        let changes = counted_len(&Changes, self.given.changes);
        cut.saturating_add(rows)
            .saturating_add(changes)
            .saturating_add(17)
    }

    /// Appends it.
    pub fn write(&self, out: &mut Vec<u8>) -> Result<(), AllocError>
        ensures { OnOk result (out.new.items ≡ out.old.items ++ self.now) }
    {
        out.push(1)?;
        push_64(out, self.given.serial)?;
        push_64(out, self.given.moment)?;
        push_lists(out, self.given.cut, &self.rows, self.given.changes)
    }
}

// Appends the cut, the rows and the changes.
fn push_lists(
    out: &mut Vec<u8>,
    cut: &[u64],
    rows: &[RawRow],
    changes: &[Change],
) -> Result<(), AllocError>
    ensures { OnOk result (out.new.items ≡ out.old.items ++ spelled_lists cut.now rows.now changes.now) }
{
    push_counted(out, &Numbers, cut)?;
    push_counted(out, &RawRows, rows)?;
    push_counted(out, &Changes, changes)
}
