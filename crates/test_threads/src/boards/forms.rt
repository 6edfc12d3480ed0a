//! Sheets as text: the serial, the moment, and the rows, with `|` before each. A row has its desk, its
//! stage, the texts of its certified sets and its origins with `+` between them, all with `;` between.
use anyhow::{Context, Result, bail};
use items::Items;
use notice_board::{Sheet, SheetRow, ShownStage};
use origins::{Origin, read_origin};
use std::alloc::Global;
use test_support::resources_of;

/// Reads a sheet.
pub fn read_sheet(alloc: Global, text: &str) -> Result<Sheet> {
    let mut parts = text.split('|');
    let (serial, moment) = parts
        .next()
        .and_then(|head| head.split_once(' '))
        .context("no moment")?;
    let (Ok(serial), Ok(moment)) = (serial.parse::<u64>(), moment.parse::<u64>()) else {
        bail!("no serial and moment");
    };
    let mut rows = Vec::new(alloc);
    for row in parts {
        rows.push(read_row(alloc, row)?)?;
    }
    Ok(Sheet {
        serial,
        moment,
        rows: Items::new(rows),
    })
}

fn read_row(alloc: Global, text: &str) -> Result<SheetRow> {
    let mut fields = text.split(';');
    let (Some(desk), Some(stage), Some(asn), Some(v4), Some(v6), Some(published), None) = (
        fields.next(),
        fields.next(),
        fields.next(),
        fields.next(),
        fields.next(),
        fields.next(),
        fields.next(),
    ) else {
        bail!("a row has six fields");
    };
    let Ok(desk) = desk.parse::<u32>() else {
        bail!("no desk");
    };
    let certified = resources_of(alloc, asn, v4, v6)?;
    Ok(SheetRow {
        desk,
        certified,
        stage: read_stage(stage)?,
        published: read_origins(alloc, published)?,
    })
}

fn read_stage(text: &str) -> Result<ShownStage> {
    match text {
        "absent" => Ok(ShownStage::Absent),
        "steady" => Ok(ShownStage::Steady),
        "staged" => Ok(ShownStage::Staged),
        "retiring" => Ok(ShownStage::Retiring),
        _ => bail!("no such stage"),
    }
}

fn read_origins(alloc: Global, text: &str) -> Result<Items<Origin>> {
    let mut origins = Vec::new(alloc);
    for origin in text.split('+') {
        if !origin.is_empty() {
            origins.push(read_origin(origin)?)?;
        }
    }
    Ok(Items::new(origins))
}

/// The text of a sheet.
pub fn sheet_text(alloc: Global, sheet: &Sheet) -> Result<String> {
    let mut text = format!(in alloc; "{} {}", sheet.serial, sheet.moment)?;
    for row in sheet.rows.as_slice() {
        text.push('|')?;
        text.push_str(row_text(alloc, row)?.as_str())?;
    }
    Ok(text)
}

/// The text of a row.
pub fn row_text(alloc: Global, row: &SheetRow) -> Result<String> {
    let stage = match row.stage {
        ShownStage::Absent => "absent",
        ShownStage::Steady => "steady",
        ShownStage::Staged => "staged",
        ShownStage::Retiring => "retiring",
    };
    let (asn, v4, v6) = (
        row.certified.asn.text(alloc)?,
        row.certified.v4.text(alloc)?,
        row.certified.v6.text(alloc)?,
    );
    let mut text = format!(in alloc; "{};{stage};{asn};{v4};{v6};", row.desk)?;
    for (place, origin) in row.published.as_slice().iter().enumerate() {
        if place > 0 {
            text.push('+')?;
        }
        text.push_str(origin.text(alloc)?.as_str())?;
    }
    Ok(text)
}
