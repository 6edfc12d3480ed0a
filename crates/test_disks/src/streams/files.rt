//! Disks over files, whose calls are words of a case: `len`, `read AT LEN`, `write AT HEX`, `cut LEN`,
//! `sync`, `faults`, with semicolons behind them. A write asks for the length first.

use crate::streams::fields::Fields;
use anyhow::{Result, bail};
use disk_api::{Disk, DiskStop, FileDisk, MemoryDisk, PlayedFile};
use std::alloc::Global;
use std::fs;
use test_support::number_of;

/// A file's bytes, how its calls go, and the calls of the disk: what each answers.
pub fn played(alloc: Global, fields: &mut Fields<'_>) -> Result<String> {
    let disk = MemoryDisk::new(alloc, fields.bytes(alloc)?, Vec::new(alloc));
    let file = PlayedFile::new(alloc, disk, fields.script(alloc)?);
    answers(alloc, &mut FileDisk::over(file), fields.text()?)
}

/// A file of the working directory, and the calls of the disk over it.
pub fn file(rt: &HostRuntime, fields: &mut Fields<'_>) -> Result<String> {
    let path = fields.text()?;
    over_file(rt, path, fields.text()?)
}

fn over_file(rt: &HostRuntime, path: &str, calls: &str) -> Result<String> {
    let mut disk = FileDisk::open(rt, rt.alloc(), path)?;
    answers(rt.alloc(), &mut disk, calls)
}

/// A new file of the working directory that has so many zeros, and the calls of the disk over it.
pub fn large(rt: &HostRuntime, fields: &mut Fields<'_>) -> Result<String> {
    let path = fields.text()?;
    let len = number_of(fields.text()?)?;
    fs::File::create(rt, path)?.set_len(len)?;
    let told = over_file(rt, path, fields.text()?);
    fs::remove_file(rt, path)?;
    told
}

fn answers<D: Disk>(alloc: Global, disk: &mut D, calls: &str) -> Result<String> {
    let mut told = String::new(alloc);
    let mut rest = calls;
    for _ in 0..calls.len() {
        let Some((call, others)) = rest.split_once(';') else {
            break;
        };
        answer_into(alloc, disk, call, &mut told)?;
        told.push_str(";")?;
        rest = others;
    }
    Ok(told)
}

fn answer_into<D: Disk>(alloc: Global, disk: &mut D, call: &str, told: &mut String) -> Result<()> {
    let mut words = call.split_whitespace();
    match (words.next(), words.next(), words.next()) {
        (Some("len"), None, _) => match disk.len(alloc) {
            Ok(len) => write!(told, "{len}")?,
            Err(stop) => write!(told, "{stop:?}")?,
        },
        (Some("read"), Some(at), Some(len)) => read_into(alloc, disk, at, len, told)?,
        (Some("write"), Some(at), Some(bytes)) => {
            write_into(alloc, disk, number_of(at)?, bytes, told)?;
        }
        (Some("cut"), Some(len), None) => done_into(disk.cut(alloc, number_of(len)?), told)?,
        (Some("sync"), None, _) => done_into(disk.sync(alloc), told)?,
        (Some("faults"), None, _) => write!(told, "{}", disk.faults())?,
        _ => bail!("no call of a disk: {call}"),
    }
    Ok(())
}

fn read_into<D: Disk>(
    alloc: Global,
    disk: &mut D,
    at: &str,
    len: &str,
    told: &mut String,
) -> Result<()> {
    let mut into = vec![in alloc; 0xee; number_of(len)? as usize]?;
    match disk.read(alloc, number_of(at)?, &mut into) {
        Ok(n) => {
            let buffer = hex::encode(alloc, into.as_slice())?;
            write!(told, "{n} {buffer}")?;
        }
        Err(stop) => write!(told, "{stop:?}")?,
    }
    Ok(())
}

fn write_into<D: Disk>(
    alloc: Global,
    disk: &mut D,
    at: u64,
    bytes: &str,
    told: &mut String,
) -> Result<()> {
    let bytes = hex::decode(alloc, bytes)?;
    match disk.len(alloc) {
        Ok(len) if at <= len => done_into(disk.write_at(alloc, at, &bytes), told),
        Ok(len) => bail!("a write at {at} behind the end {len}"),
        Err(stop) => done_into(Err(stop), told),
    }
}

fn done_into(answer: Result<(), DiskStop>, told: &mut String) -> Result<()> {
    match answer {
        Ok(()) => told.push_str("ok")?,
        Err(stop) => write!(told, "{stop:?}")?,
    }
    Ok(())
}
