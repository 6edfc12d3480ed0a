//! The outlets, and what stands in them.

use crate::outlets::steps::take;
use anyhow::{Context, Result};
use host_calls::{CallFault, Play, Script};
use outlet_api::{FolderOutlet, MemoryOutlet, PlayedFolder};
use std::alloc::Global;
use std::fs;
use std::io::ErrorKind;
use test_support::{numbers_of, step_parts};

/// Steps over an outlet in memory, of which the calls with these numbers fail.
pub fn in_memory(alloc: Global, fails: &str, steps: &str) -> Result<String> {
    let mut outlet = MemoryOutlet::new(alloc, numbers_of(alloc, fails, ' ')?);
    let mut told = String::new(alloc);
    for step in steps.split('\t') {
        match step_parts(step) {
            ("file", path) => tell_file(alloc, &mut told, outlet.file(path))?,
            _ => take(alloc, &mut outlet, &mut told, step).context(format_args!("{step}"))?,
        }
    }
    Ok(told)
}

/// Steps over a folder in memory, whose calls go as these plays say.
pub fn played(alloc: Global, plays: &str, steps: &str) -> Result<String> {
    let mut outlet = FolderOutlet::over(PlayedFolder::new(alloc, script(alloc, plays)?));
    let mut told = String::new(alloc);
    for step in steps.split('\t') {
        match step_parts(step) {
            ("file", path) => tell_file(alloc, &mut told, outlet.calls().file(path))?,
            _ => take(alloc, &mut outlet, &mut told, step).context(format_args!("{step}"))?,
        }
    }
    Ok(told)
}

/// Steps over a folder of the working directory. `again` makes another outlet over it, and `make` a
/// folder within it.
pub fn in_folder(rt: &HostRuntime, folder: &str, steps: &str) -> Result<String> {
    let alloc = rt.alloc();
    let mut outlet = open(rt, folder)?;
    let mut told = String::new(alloc);
    for step in steps.split('\t') {
        match step_parts(step) {
            ("file", path) => tell_place(rt, &mut told, folder, path)?,
            ("there", path) => tell_there(rt, &mut told, folder, path)?,
            ("again", _) => outlet = open(rt, folder)?,
            ("make", path) => fs::create_dir_all(rt, place(alloc, folder, path)?.as_str())?,
            ("clear", _) => fs::remove_dir_all(rt, folder)?,
            _ => take(alloc, &mut outlet, &mut told, step).context(format_args!("{step}"))?,
        }
    }
    Ok(told)
}

fn open(rt: &HostRuntime, folder: &str) -> Result<FolderOutlet> {
    Ok(FolderOutlet::new(*rt, String::from_str(rt.alloc(), folder)?))
}

fn place(alloc: Global, folder: &str, path: &str) -> Result<String> {
    Ok(format!(in alloc; "{folder}/{path}")?)
}

fn tell_file(alloc: Global, told: &mut String, bytes: Option<&[u8]>) -> Result<()> {
    match bytes {
        Some(bytes) => {
            let digits = hex::encode(alloc, bytes)?;
            write!(told, "\t={digits}")?;
        }
        None => told.push_str("\tnone")?,
    }
    Ok(())
}

fn tell_place(rt: &HostRuntime, told: &mut String, folder: &str, path: &str) -> Result<()> {
    match fs::read(rt, place(rt.alloc(), folder, path)?.as_str()) {
        Ok(bytes) => tell_file(rt.alloc(), told, Some(bytes.as_slice())),
        Err(error) if error.kind() == ErrorKind::NotFound => tell_file(rt.alloc(), told, None),
        Err(error) => Err(error.into()),
    }
}

fn tell_there(rt: &HostRuntime, told: &mut String, folder: &str, path: &str) -> Result<()> {
    let word = if fs::exists(rt, place(rt.alloc(), folder, path)?.as_str())? {
        "\tyes"
    } else {
        "\tno"
    };
    told.push_str(word)?;
    Ok(())
}

/// Plays with blanks between them: `whole`, `interrupted`, `memory`, `failed`, or a number of bytes.
fn script(alloc: Global, text: &str) -> Result<Script> {
    let mut plays = Vec::new(alloc);
    for word in text.split_whitespace() {
        plays.push(play_of(word)?)?;
    }
    Ok(Script::new(plays))
}

fn play_of(word: &str) -> Result<Play> {
    Ok(match word {
        "whole" => Play::Whole,
        "interrupted" => Play::Fault(CallFault::Interrupted),
        "memory" => Play::Fault(CallFault::Memory),
        "failed" => Play::Fault(CallFault::Failed),
        most => Play::Short(most.parse::<u64>().context("no play")? as usize),
    })
}
