//! Commands before the verdict, and configurations as texts.

use crate::trees::commands::command_of;
use anyhow::Result;
use authority_book::{Child, Command, Config, NameRow, Refusal, verdict, verdict_unasked};
use res_sets::Resources;
use std::alloc::Global;
use test_support::split_field;

/// The verdicts on the commands, of which those that are accepted are taken, and the configuration
/// of the desk at the end, printed of a copy. Where the number of signers is left out, it isn't asked.
pub fn taken(alloc: Global, arguments: &str) -> Result<String> {
    let (desk, rest) = split_field(arguments, '\t')?;
    let (signers, commands) = split_field(rest, '\t')?;
    let mut config = Config::new(alloc, desk.parse::<u32>()?)?;
    let mut text = String::new(alloc);
    for command in commands.split('|') {
        let command = command_of(alloc, command)?;
        push_verdict(&mut text, alloc, &mut config, command, signers)?;
    }
    push_config(&mut text, alloc, &config.copy(alloc)?)?;
    Ok(text)
}

// Appends the verdict, and applies a command that is accepted.
fn push_verdict(
    text: &mut String,
    alloc: Global,
    config: &mut Config,
    command: Command,
    signers: &str,
) -> Result<()> {
    let verdict = match signers {
        "" => verdict_unasked(config, &command),
        _ => verdict(config, &command, signers.parse::<u32>()?),
    };
    match verdict {
        Ok(()) => {
            config.reserve(alloc, &command)?;
            config.apply(command.copy(alloc)?);
            text.push_str("ok\t")?;
        }
        Err(refusal) => push_refusal(text, alloc, &refusal)?,
    }
    Ok(())
}

fn push_refusal(text: &mut String, alloc: Global, refusal: &Refusal) -> Result<()> {
    write!(text, "{} {}", refusal.code(), refusal.name())?;
    match refusal {
        Refusal::OriginThere { origin }
        | Refusal::OriginTwice { origin }
        | Refusal::NoSuchOrigin { origin } => write!(text, " {}", origin.text(alloc)?)?,
        Refusal::TooManyOrigins { after } => write!(text, " {after}")?,
        _ => {}
    }
    text.push_str("\t")?;
    Ok(())
}

fn push_config(text: &mut String, alloc: Global, config: &Config) -> Result<()> {
    write!(text, "desk {}", config.desk())?;
    for row in config.names() {
        push_name(text, config, row)?;
    }
    if config.is_deleted() {
        text.push_str(" deleted")?;
    }
    if let Some(parent) = config.parent() {
        write!(text, " parent {}", parent.as_str())?;
    }
    for child in config.children() {
        push_child(text, alloc, config, child)?;
    }
    for origin in config.origins() {
        write!(text, " +{}", origin.text(alloc)?)?;
    }
    write!(
        text,
        " {} {} {}",
        config.inits(),
        config.activates(),
        config.count()
    )?;
    Ok(())
}

// A name, its signer, and the place where it is found.
fn push_name(text: &mut String, config: &Config, row: &NameRow) -> Result<()> {
    write!(text, " {} {}", row.name.as_str(), row.signer)?;
    if let Some(place) = config.place_of(&row.name) {
        write!(text, " {place}")?;
    }
    Ok(())
}

// A child, as it is found by its name.
fn push_child(text: &mut String, alloc: Global, config: &Config, child: &Child) -> Result<()> {
    if let Some(found) = config.child(&child.name) {
        write!(text, " child {}", found.name.as_str())?;
        if found.suspended {
            text.push_str(" suspended")?;
        }
        push_resources(text, alloc, &found.grant)?;
    }
    Ok(())
}

/// Appends the three sets in brackets.
pub fn push_resources(text: &mut String, alloc: Global, resources: &Resources) -> Result<()> {
    for set in [&resources.asn, &resources.v4, &resources.v6] {
        write!(text, " ({})", set.text(alloc)?)?;
    }
    Ok(())
}
