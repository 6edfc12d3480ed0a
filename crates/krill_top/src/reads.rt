//! The texts of reads, from an authority's configuration and what the last edition says of it.

ghost use Rattle.std.specs.Prelude.{◌≡◌, IfOk, IfSome, option_copied};
ghost use Rattle.json_api.specs.Texts.{resources_text};
ghost use Rattle.krill_top.specs.Reads as spec;
ghost use Rattle.krill_top.specs.Reads.{certified_in, stage_in, HasCanonicalSets, IsShownText, IsState, AreRoaLines, IsRoasText};

use authority_book::Config;
use entitle::is_certified;
use json_api::{RoaLine, RoaWord, Shown, StageWord, roas_text, show_text};
use names::Name;
use notice_board::{Sheet, SheetRow, ShownStage};
use origins::Origin;
use res_sets::Resources;
use std::alloc::{AllocError, Global};

// A law, with nothing to answer: each set is the canonical list of its ranges.
fn sets_are_canonical(held: &Resources)
    ensures { HasCanonicalSets held.now }
{
    held.asn.as_slice();
    held.v4.as_slice();
    held.v6.as_slice();
}

// What the sheet says of the authority of that desk, if it knows it.
fn row_at(sheet: &Sheet, desk: usize) -> Option<&SheetRow>
    ensures known { option_copied result ≡ spec.row_at sheet.now desk }
    ensures canonical { IfSome (spec.row_at sheet.now desk) (λ row. HasCanonicalSets row.certified) }
{
    let row = sheet.rows.as_slice().get(desk)?;
    sets_are_canonical(&row.certified);
    Some(row)
}

fn stage_word(stage: ShownStage) -> StageWord
    ensures { result ≡ spec.stage_word stage }
{
    match stage {
        ShownStage::Absent => StageWord::None,
        ShownStage::Steady => StageWord::Steady,
        ShownStage::Staged => StageWord::Staged,
        ShownStage::Retiring => StageWord::Retiring,
    }
}

// What the edition certifies to the authority.
fn certified_by(alloc: Global, row: Option<&SheetRow>) -> Result<Resources, AllocError>
    ensures { IfOk result (λ held. resources_text held ≡ resources_text (certified_in (option_copied row.entry))) }
{
    match row {
        Some(row) => row.certified.copy(alloc),
        None => Ok(Resources::empty(alloc)),
    }
}

fn stage_by(row: Option<&SheetRow>) -> StageWord
    ensures { result ≡ stage_in (option_copied row.entry) }
{
    match row {
        Some(row) => stage_word(row.stage),
        None => StageWord::None,
    }
}

/// The text of an authority's state.
pub(crate) fn shown(
    alloc: Global,
    name: &Name,
    config: &Config,
    sheet: &Sheet,
    desk: usize,
) -> Result<Vec<u8>, AllocError>
    ensures { IfOk result (λ text. IsShownText name.now config.now.settings sheet.now desk text.items) }
{
    let row = row_at(sheet, desk);
    let shown = Shown {
        authority: *name,
        certified: certified_by(alloc, row)?,
        parent: config.parent(),
        serial: sheet.serial,
        stage: stage_by(row),
    };
    show_text(alloc, &shown, config.children())
}

// Where the origin stands, by what the edition says of its authority.
fn state_by(row: Option<&SheetRow>, origin: &Origin) -> RoaWord
    ensures { IsState (option_copied row.entry) origin.now result }
{
    match row {
        Some(row) if row.published.as_slice().contains(origin) => RoaWord::Published,
        Some(row) if is_certified(&row.certified, &origin.prefix) => RoaWord::Pending,
        _ => RoaWord::Held,
    }
}

fn roa_lines(
    alloc: Global,
    origins: &[Origin],
    row: Option<&SheetRow>,
) -> Result<Vec<RoaLine>, AllocError>
    ensures { IfOk result (λ lines. AreRoaLines (option_copied row.entry) origins.now lines.items) }
{
    let mut lines = Vec::with_capacity(alloc, origins.len())?;
    for origin in origins {
        lines.push(RoaLine {
            origin: *origin,
            state: state_by(row, origin),
        })?;
    }
    Ok(lines)
}

/// The text of an authority's origins.
pub(crate) fn roas_shown(
    alloc: Global,
    name: &Name,
    config: &Config,
    sheet: &Sheet,
    desk: usize,
) -> Result<Vec<u8>, AllocError>
    ensures { IfOk result (λ text. IsRoasText name.now config.now.settings sheet.now desk text.items) }
{
    let lines = roa_lines(alloc, config.origins(), row_at(sheet, desk))?;
    roas_text(alloc, name, lines.as_slice(), sheet.serial)
}
