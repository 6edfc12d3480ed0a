//! Replies that tell of authorities.

use crate::api::replies::{name_of, text_of};
use anyhow::{Context, Result, bail};
use authority_book::{Child, Command};
use json_api::{
    Line, ListLine, RoaLine, RoaWord, Shown, StageWord, history_text, list_text, read_line,
    roas_text, show_text,
};
use origins::read_origin;
use res_sets::Resources;
use std::alloc::Global;
use test_support::{first_field, resources_of};

pub fn answer(alloc: Global, call: &str, arguments: &str) -> Result<String> {
    match call {
        "list" => listed(alloc, arguments),
        "show" => shown(alloc, arguments),
        "roas" => roas(alloc, arguments),
        "history" => history(alloc, arguments),
        _ => bail!("an unknown call"),
    }
}

// Names with `;` between them, `-` behind a deleted one and `+` behind another.
fn listed(alloc: Global, arguments: &str) -> Result<String> {
    let mut lines = Vec::new(alloc);
    for entry in arguments.split(';') {
        if entry.is_empty() {
            continue;
        }
        let (name, deleted) = marked(entry)?;
        let name = name_of(name)?;
        lines.push(ListLine { name, deleted })?;
    }
    text_of(list_text(alloc, &lines)?)
}

// What stands before the mark, and whether the mark is `-`.
fn marked(entry: &str) -> Result<(&str, bool)> {
    match entry.strip_suffix('-') {
        Some(name) => Ok((name, true)),
        None => Ok((entry.strip_suffix('+').context("no mark")?, false)),
    }
}

// A name, its sets, its children, its parent, the serial and the stage.
fn shown(alloc: Global, arguments: &str) -> Result<String> {
    let (authority, rest) = first_field(arguments)?;
    let (certified, rest) = first_field(rest)?;
    let (children, rest) = first_field(rest)?;
    let (parent, rest) = first_field(rest)?;
    let (serial, stage) = first_field(rest)?;
    let children = children_of(alloc, children)?;
    let parent = match parent {
        "" => None,
        name => Some(name_of(name)?),
    };
    let shown = Shown {
        authority: name_of(authority)?,
        certified: parted_resources(alloc, certified)?,
        parent,
        serial: serial.parse::<u64>()?,
        stage: stage_of(stage)?,
    };
    text_of(show_text(alloc, &shown, &children)?)
}

fn stage_of(word: &str) -> Result<StageWord> {
    match word {
        "none" => Ok(StageWord::None),
        "steady" => Ok(StageWord::Steady),
        "staged" => Ok(StageWord::Staged),
        "retiring" => Ok(StageWord::Retiring),
        _ => bail!("no stage"),
    }
}

// Children with `;` between them, each a marked name, a space and its sets.
fn children_of(alloc: Global, text: &str) -> Result<Vec<Child>> {
    let mut children = Vec::new(alloc);
    for entry in text.split(';') {
        if entry.is_empty() {
            continue;
        }
        let (name, sets) = entry.split_once(' ').context("no sets")?;
        let (name, suspended) = marked(name)?;
        let name = name_of(name)?;
        let grant = parted_resources(alloc, sets)?;
        children.push(Child {
            name,
            grant,
            suspended,
        })?;
    }
    Ok(children)
}

// Three sets with a bar between them.
fn parted_resources(alloc: Global, text: &str) -> Result<Resources> {
    let (asn, rest) = text.split_once('|').context("no sets of addresses")?;
    let (v4, v6) = rest.split_once('|').context("no set of IPv6")?;
    resources_of(alloc, asn, v4, v6)
}

// A name, the serial, and origins with `;` between them, each with its state behind it.
fn roas(alloc: Global, arguments: &str) -> Result<String> {
    let (authority, rest) = first_field(arguments)?;
    let (serial, entries) = first_field(rest)?;
    let mut lines = Vec::new(alloc);
    for entry in entries.split(';') {
        if !entry.is_empty() {
            lines.push(roa_of(entry)?)?;
        }
    }
    let authority = name_of(authority)?;
    text_of(roas_text(alloc, &authority, &lines, serial.parse::<u64>()?)?)
}

fn roa_of(entry: &str) -> Result<RoaLine> {
    let (origin, state) = entry.rsplit_once(' ').context("no state")?;
    let state = match state {
        "published" => RoaWord::Published,
        "held" => RoaWord::Held,
        "pending" => RoaWord::Pending,
        _ => bail!("no state"),
    };
    let origin = read_origin(origin).context("no origin")?;
    Ok(RoaLine { origin, state })
}

// A name, and its commands with tabs between them.
fn history(alloc: Global, arguments: &str) -> Result<String> {
    let mut commands = Vec::new(alloc);
    let mut fields = arguments.split('\t');
    let authority = name_of(fields.next().context("no name")?)?;
    for field in fields {
        commands.push(command_of(alloc, field)?)?;
    }
    text_of(history_text(alloc, &authority, &commands)?)
}

// The command of a line, or of a record in hex behind the word `record`.
fn command_of(alloc: Global, field: &str) -> Result<Command> {
    if let Some(record) = field.strip_prefix("record ") {
        return Ok(cmd_codec::read(alloc, &hex::decode(alloc, record)?)?);
    }
    match read_line(alloc, field.as_bytes()) {
        Ok(Line::Command { command, .. }) => Ok(command),
        _ => bail!("no command"),
    }
}
