//! Configurations that lines of commands come to.

use anyhow::{Context, Result, bail};
use authority_book::{Config, verdict_unasked};
use json_api::{Line, read_line};
use std::alloc::Global;

/// What the authorities' commands come to, in the order of the desks. Each command is to be accepted.
pub fn configs_of(alloc: Global, lines: &str) -> Result<Vec<Config>> {
    let mut configs = Vec::new(alloc);
    configs.push(Config::new(alloc, 0)?)?;
    for line in lines.split('\t') {
        if !line.is_empty() {
            take(alloc, &mut configs, line)?;
        }
    }
    Ok(configs)
}

// Gives the command of a line to its authority, and makes desks for new names.
fn take(alloc: Global, configs: &mut Vec<Config>, line: &str) -> Result<()> {
    let Line::Command { name, command } = read_line(alloc, line.as_bytes())? else {
        bail!("no command");
    };
    let anchor = configs.first().context("no anchor")?;
    let desk = anchor.place_of(&name).context("no such authority")?;
    let config = configs.get_mut(desk).context("no such desk")?;
    if verdict_unasked(config, &command).is_err() {
        bail!("a command is refused");
    }
    config.reserve(alloc, &command)?;
    config.apply(command);
    let names = configs.first().context("no anchor")?.names().len();
    if names > configs.len() {
        let desk = u32::try_from(configs.len())?;
        configs.push(Config::new(alloc, desk)?)?;
    }
    Ok(())
}
