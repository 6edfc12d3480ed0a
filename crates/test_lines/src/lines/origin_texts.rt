//! Lists of origins and commands from texts and as texts.

use anyhow::{Context, Result, bail};
use authority_book::{Command, OriginList};
use origins::{Origin, read_origin};
use std::alloc::Global;
use test_support::first_field;

/// The origins that stand with `;` between them.
pub fn origins_of(alloc: Global, text: &str) -> Result<Vec<Origin>> {
    let mut origins = Vec::new(alloc);
    for origin in text.split(';') {
        if !origin.is_empty() {
            origins.push(read_origin(origin).context("no origin")?)?;
        }
    }
    Ok(origins)
}

/// The list of those origins.
pub fn list_of(alloc: Global, text: &str) -> Result<OriginList> {
    Ok(OriginList::new(alloc, origins_of(alloc, text)?)?)
}

/// The command that adds the origins before a tab and removes those behind it.
pub fn command_of(alloc: Global, text: &str) -> Result<Command> {
    let (added, removed) = first_field(text)?;
    Ok(Command::UpdateRoas {
        added: list_of(alloc, added)?,
        removed: list_of(alloc, removed)?,
    })
}

/// The origins with a sign before each.
pub fn push_origins(
    alloc: Global,
    text: &mut String,
    sign: &str,
    origins: &[Origin],
) -> Result<()> {
    for origin in origins {
        text.push_str(sign)?;
        text.push_str(&origin.text(alloc)?)?;
    }
    Ok(())
}

/// A `+` before each origin that the command adds, a `-` before each that it removes.
pub fn push_command(alloc: Global, text: &mut String, command: &Command) -> Result<()> {
    match command {
        Command::UpdateRoas { added, removed } => {
            push_origins(alloc, text, " +", added.as_slice())?;
            push_origins(alloc, text, " -", removed.as_slice())
        }
        _ => bail!("a command that changes no origins"),
    }
}
