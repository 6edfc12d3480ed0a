//! The lines of a case, and how its answer is told.

use crate::done::{Done, Limit, Step};
use crate::store::play;
use anyhow::{Result, bail};
use authority_book::Command;
use json_api::{Line, read_line};
use key_ids::Site;
use std::alloc::Global;
use std::thread::Threads;
use test_support::number_of;

/// What comes of the steps of a case over a new store.
pub fn answer<R: Threads + Sync>(rt: &R, alloc: Global, steps: &str) -> Result<String> {
    let mut read = Vec::new(alloc);
    for step in steps.split('\t') {
        read.push(step_of(alloc, step)?)?;
    }
    let site = Site::read(
        alloc,
        "rsync://rpki.example/repo/",
        "https://rpki.example/rrdp/",
    )?;
    let done = play(rt, alloc, &site, read.as_slice())?;
    let mut text = String::new(alloc);
    for one in done.as_slice() {
        tell(&mut text, one)?;
    }
    Ok(text)
}

// A step is a line with a command, `publish CLOCK`, `stop PICK` or `stop PICK DEVICE CALLS`.
fn step_of(alloc: Global, step: &str) -> Result<Step> {
    if step.starts_with("{") {
        return command_of(alloc, step);
    }
    let words: Vec<&str> = step.split(' ').collect(alloc)?;
    match words.as_slice() {
        ["publish", clock] => Ok(Step::Publish {
            clock: number_of(clock)?,
        }),
        ["stop", pick] => Ok(Step::Stop {
            pick: number_of(pick)?,
            limit: None,
        }),
        ["stop", pick, device, calls] => Ok(Step::Stop {
            pick: number_of(pick)?,
            limit: Some(Limit {
                device: number_of(device)?,
                calls: number_of(calls)?,
            }),
        }),
        _ => bail!("no such step: {step}"),
    }
}

fn command_of(alloc: Global, line: &str) -> Result<Step> {
    match read_line(alloc, line.as_bytes())? {
        Line::Command { name, command } => Ok(Step::Command {
            authority: name,
            command,
        }),
        _ => bail!("no command"),
    }
}

// What was done, behind a tab.
fn tell(text: &mut String, one: &Done) -> Result<()> {
    match one {
        Done::Accepted { .. } => write!(text, "\taccepted")?,
        Done::Failed { .. } => write!(text, "\tfailed")?,
        Done::Published { published } => write!(
            text,
            "\tserial {} at {}: {} objects, {} origins",
            published.serial, published.moment, published.objects, published.origins
        )?,
        Done::FailedPublishing => write!(text, "\tedition failed")?,
        Done::Refused { code } => write!(text, "\trefused {code}")?,
        Done::Stopped => write!(text, "\tstopped")?,
        Done::Found { lists, serial } => {
            let commands = commands_in(lists.as_slice());
            write!(text, "\tfound {commands}, serial {serial}")?;
        }
    }
    Ok(())
}

// How many commands the desks have.
fn commands_in(lists: &[Vec<Command>]) -> u64 {
    let mut sum: u64 = 0;
    for list in lists {
        sum = sum.saturating_add(list.len() as u64);
    }
    sum
}
