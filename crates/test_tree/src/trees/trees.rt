//! What the authorities of a tree are certified for, and the origins that they owe.

use crate::trees::books::push_resources;
use crate::trees::commands::command_of;
use anyhow::Result;
use authority_book::{Config, NameRow, verdict_unasked};
use entitle::{Owed, Tree, certified, owed};
use std::alloc::Global;

/// The sets of the names and the owed origins, where the desks have taken these commands, desk by
/// desk with a tab between them.
pub fn entitled(alloc: Global, arguments: &str) -> Result<String> {
    let configs = configs_of(alloc, arguments)?;
    let tree = certified(alloc, configs.as_slice())?;
    let owed = owed(alloc, configs.as_slice(), &tree)?;
    let mut text = String::new(alloc);
    if let Some(anchor) = configs.first() {
        push_tree(&mut text, alloc, anchor.names(), &tree)?;
    }
    push_owed(&mut text, alloc, owed.as_slice())?;
    Ok(text)
}

fn configs_of(alloc: Global, desks: &str) -> Result<Vec<Config>> {
    let mut configs = Vec::new(alloc);
    for commands in desks.split('\t') {
        let desk = u32::try_from(configs.len())?;
        configs.push(config_of(alloc, desk, commands)?)?;
    }
    Ok(configs)
}

fn config_of(alloc: Global, desk: u32, commands: &str) -> Result<Config> {
    let mut config = Config::new(alloc, desk)?;
    for command in commands.split('|') {
        if !command.is_empty() {
            let command = command_of(alloc, command)?;
            if verdict_unasked(&config, &command).is_ok() {
                config.reserve(alloc, &command)?;
                config.apply(command);
            }
        }
    }
    Ok(config)
}

fn push_tree(text: &mut String, alloc: Global, names: &[NameRow], tree: &Tree) -> Result<()> {
    for (row, set) in names.iter().zip(tree.sets.iter()) {
        write!(text, "{}", row.name.as_str())?;
        push_resources(text, alloc, set)?;
        text.push_str("\t")?;
    }
    Ok(())
}

fn push_owed(text: &mut String, alloc: Global, owed: &[Owed]) -> Result<()> {
    for owed in owed {
        write!(text, "+{} {}\t", owed.desk, owed.origin.text(alloc)?)?;
    }
    Ok(())
}
