//! Commands from texts.

use anyhow::{Context, Result, bail};
use authority_book::{Command, OriginList};
use names::Name;
use origins::{Origin, read_origin};
use res_sets::Resources;
use std::alloc::Global;
use test_support::{resources_of, split_field};

/// The command whose kind stands before the first `;`, and its fields behind it.
pub fn command_of(alloc: Global, text: &str) -> Result<Command> {
    let (kind, fields) = text.split_once(';').unwrap_or((text, ""));
    Ok(match kind {
        "Delete" => Command::Delete,
        "InitRoll" => Command::InitRoll,
        "ActivateRoll" => Command::ActivateRoll,
        "AddParent" => Command::AddParent {
            parent: name_of(fields)?,
        },
        "RemoveChild" => Command::RemoveChild {
            child: name_of(fields)?,
        },
        "SuspendChild" => Command::SuspendChild {
            child: name_of(fields)?,
        },
        "UnsuspendChild" => Command::UnsuspendChild {
            child: name_of(fields)?,
        },
        _ => return command_of_two(alloc, kind, fields),
    })
}

// A command of more than one field.
fn command_of_two(alloc: Global, kind: &str, fields: &str) -> Result<Command> {
    let (first, second) = split_field(fields, ';')?;
    Ok(match kind {
        "Add" => Command::Add {
            name: name_of(first)?,
            signer: second.parse::<u32>()?,
        },
        "AddChild" => Command::AddChild {
            child: name_of(first)?,
            grant: grant_of(alloc, second)?,
        },
        "UpdateChild" => Command::UpdateChild {
            child: name_of(first)?,
            grant: grant_of(alloc, second)?,
        },
        "UpdateRoas" => Command::UpdateRoas {
            added: list_of(alloc, first)?,
            removed: list_of(alloc, second)?,
        },
        _ => bail!("no such command"),
    })
}

fn name_of(text: &str) -> Result<Name> {
    Name::read(text).context("no name")
}

// The three sets, with `;` between them.
fn grant_of(alloc: Global, text: &str) -> Result<Resources> {
    let (asn, addresses) = split_field(text, ';')?;
    let (v4, v6) = split_field(addresses, ';')?;
    resources_of(alloc, asn, v4, v6)
}

fn list_of(alloc: Global, text: &str) -> Result<OriginList> {
    Ok(OriginList::new(alloc, origins_of(alloc, text)?)?)
}

// The origins that stand with `,` between them.
fn origins_of(alloc: Global, text: &str) -> Result<Vec<Origin>> {
    let mut origins = Vec::new(alloc);
    for origin in text.split(',') {
        if !origin.is_empty() {
            origins.push(read_origin(origin).context("no origin")?)?;
        }
    }
    Ok(origins)
}
