//! The desks of the authorities, with the commands that they accepted.

use anyhow::{Context, Result, bail};
use authority_book::{Command, Config, verdict_unasked};
use json_api::{Line, read_line};
use std::alloc::Global;

// How many desks there are.
const DESKS: u32 = authority_book::MOST_AUTHORITIES as u32;

/// What an authority accepted, and what that comes to.
#[derive(Drop)]
struct Desk {
    config: Config,
    commands: Vec<Command>,
}

impl Desk {
    // Takes in a command, which is to be accepted.
    fn take(&mut self, alloc: Global, command: Command) -> Result<()> {
        if verdict_unasked(&self.config, &command).is_err() {
            bail!("a command is refused");
        }
        let kept = command.copy(alloc)?;
        self.config.reserve(alloc, &command)?;
        self.config.apply(command);
        self.commands.push(kept)?;
        Ok(())
    }
}

/// All desks, in the order of their numbers.
#[derive(Drop)]
pub struct Desks {
    desks: Vec<Desk>,
}

impl Desks {
    /// The desks before their first commands.
    pub fn new(alloc: Global) -> Result<Desks> {
        let mut desks = Vec::new(alloc);
        for number in 0..DESKS {
            desks.push(Desk {
                config: Config::new(alloc, number)?,
                commands: Vec::new(alloc),
            })?;
        }
        Ok(Desks { desks })
    }

    /// Gives a command to the desk of that number.
    pub fn take(&mut self, alloc: Global, desk: usize, command: Command) -> Result<()> {
        let desk = self.desks.get_mut(desk).context("no such desk")?;
        desk.take(alloc, command)
    }

    /// Gives the command of a line to its authority.
    pub fn take_line(&mut self, alloc: Global, line: &str) -> Result<()> {
        let Line::Command { name, command } = read_line(alloc, line.as_bytes())? else {
            bail!("no command");
        };
        let anchor = self.desks.first().context("no anchor")?;
        let desk = anchor.config.place_of(&name).context("no such authority")?;
        self.take(alloc, desk, command)
    }

    /// The commands of a desk behind its first so many.
    pub fn since(&self, desk: usize, count: u64) -> &[Command] {
        match self.desks.get(desk) {
            Some(desk) => behind(desk.commands.as_slice(), count),
            None => &[],
        }
    }
}

// What stands behind the first so many.
fn behind(commands: &[Command], count: u64) -> &[Command] {
    let count = count as usize;
    if count < commands.len() {
        &commands[count..]
    } else {
        &[]
    }
}
