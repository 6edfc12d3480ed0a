//! The steps of a disk in memory.

use crate::journals::setup::Setup;
use anyhow::{Context, Result, bail};
use disk_api::{Disk, DiskStop, MemoryDisk};
use std::alloc::Global;
use test_support::{numbers_of, step_parts};

/// Takes the steps over one disk, and tells their answers.
pub fn run(alloc: Global, steps: &str) -> Result<String> {
    let mut setup = Setup::new(alloc);
    let mut told = String::new(alloc);
    let mut steps = steps.split('\t');
    for step in steps.by_ref() {
        let (word, text) = step_parts(step);
        if word == "over" {
            break;
        }
        if !setup.take(alloc, word, text)? {
            bail!("an unknown step");
        }
    }
    let mut disk = setup.disk(alloc);
    for step in steps {
        take(alloc, &mut disk, &mut told, step).context(format_args!("{step}"))?;
    }
    Ok(told)
}

fn take(alloc: Global, disk: &mut MemoryDisk, told: &mut String, step: &str) -> Result<()> {
    let (word, text) = step_parts(step);
    match word {
        "write" => write_at(alloc, disk, told, text),
        "sync" => tell(told, disk.sync(alloc)),
        "cut" => tell(told, disk.cut(alloc, text.parse::<u64>()?)),
        "len" => tell_len(told, disk.len(alloc)),
        "read" => read(alloc, disk, told, text),
        "image" => {
            let image = disk.image(alloc, text.parse::<u64>()?)?;
            tell_bytes(alloc, told, image.as_slice())
        }
        "bytes" => tell_bytes(alloc, told, disk.bytes()),
        "stop" => {
            disk.stop_after(text.parse::<u64>()?);
            Ok(())
        }
        "faults" => {
            let faults = disk.faults();
            write!(told, "\t{faults}")?;
            Ok(())
        }
        _ => bail!("an unknown step"),
    }
}

fn write_at(alloc: Global, disk: &mut MemoryDisk, told: &mut String, text: &str) -> Result<()> {
    let (at, bytes) = text.split_once(' ').context("a write of nothing")?;
    let at = at.parse::<u64>()?;
    let bytes = hex::decode(alloc, bytes)?;
    if at > disk.bytes().len() as u64 {
        bail!("a write past the end");
    }
    tell(told, disk.write_at(alloc, at, bytes.as_slice()))
}

// A buffer of so many bytes from an offset on, as a read leaves it.
fn read(alloc: Global, disk: &mut MemoryDisk, told: &mut String, text: &str) -> Result<()> {
    let counts = numbers_of(alloc, text, ' ')?;
    let [at, len] = counts.as_slice() else {
        bail!("not two numbers");
    };
    let mut into = Vec::new(alloc);
    into.resize(usize::try_from(*len)?, 0u8)?;
    match disk.read(alloc, *at, into.as_mut_slice()) {
        Ok(n) => {
            write!(told, "\t{n}")?;
            tell_bytes(alloc, told, into.as_slice())
        }
        Err(stop) => tell(told, Err(stop)),
    }
}

fn tell(told: &mut String, answer: Result<(), DiskStop>) -> Result<()> {
    match answer {
        Ok(()) => told.push_str("\tok")?,
        Err(DiskStop::Fault) => told.push_str("\tfault")?,
        Err(DiskStop::Memory) => bail!("out of memory"),
    }
    Ok(())
}

fn tell_len(told: &mut String, answer: Result<u64, DiskStop>) -> Result<()> {
    match answer {
        Ok(len) => {
            write!(told, "\t{len}")?;
            Ok(())
        }
        Err(stop) => tell(told, Err(stop)),
    }
}

/// Tells bytes in hex.
pub fn tell_bytes(alloc: Global, told: &mut String, bytes: &[u8]) -> Result<()> {
    let text = hex::encode(alloc, bytes)?;
    write!(told, "\t{text}")?;
    Ok(())
}
