//! Lists of origins, and commands before the verdict.

use crate::lines::origin_texts::{command_of, list_of, origins_of, push_origins};
use anyhow::{Context, Result};
use authority_book::{Command, Config, verdict};
use json_api::verdict_into;
use std::alloc::Global;
use test_support::first_field;

/// How long the list is, whether it is empty, its first repetition, which of the others it has, and
/// the origins of its copy.
pub fn listed(alloc: Global, arguments: &str) -> Result<String> {
    let (list, asked) = first_field(arguments)?;
    let list = list_of(alloc, list)?;
    let (len, is_empty) = (list.len(), list.is_empty());
    let mut text = format!(in alloc; "{len}\t{is_empty}\t")?;
    if let Some(origin) = list.first_repeated() {
        text.push_str(&origin.text(alloc)?)?;
    }
    text.push_str("\t")?;
    for origin in origins_of(alloc, asked)? {
        text.push_str(if list.contains(&origin) { "1" } else { "0" })?;
    }
    text.push_str("\t")?;
    push_origins(alloc, &mut text, " ", &list.copy(alloc)?.into_vec())?;
    Ok(text)
}

/// The verdicts on the commands, of which those that are accepted are taken, and the configuration of
/// the desk at the end. The commands stand with `|` between them.
pub fn taken(alloc: Global, arguments: &str) -> Result<String> {
    let (desk, rest) = first_field(arguments)?;
    let (signers, commands) = first_field(rest)?;
    let signers = signers.parse::<u32>()?;
    let mut config = Config::new(alloc, desk.parse::<u32>()?)?;
    let mut text = String::new(alloc);
    for command in commands.split('|') {
        let command = command_of(alloc, command)?;
        push_verdict(alloc, &mut text, &mut config, &command, signers)?;
        text.push_str("\t")?;
    }
    let (desk, count) = (config.desk(), config.count());
    write!(text, "{desk}\t{count}\t")?;
    push_origins(alloc, &mut text, " ", config.origins())?;
    Ok(text)
}

// Appends the verdict, and applies a command that is accepted.
fn push_verdict(
    alloc: Global,
    text: &mut String,
    config: &mut Config,
    command: &Command,
    signers: u32,
) -> Result<()> {
    match verdict(config, command, signers) {
        Ok(()) => {
            config.reserve(alloc, command)?;
            config.apply(command.copy(alloc)?);
            text.push_str("ok")?;
        }
        Err(refusal) => {
            let mut reply = Vec::new(alloc);
            verdict_into(alloc, &mut reply, &refusal)?;
            let reply = str::from_utf8(&reply)
                .ok()
                .context("a reply that is no text")?;
            text.push_str(reply)?;
        }
    }
    Ok(())
}
