//! The steps of a journal.

use crate::journals::disks::tell_bytes;
use crate::journals::setup::Setup;
use anyhow::{Context, Result, bail};
use disk_api::{Disk, FileDisk, MemoryDisk};
use gate_journal::{AppendFault, Entry, Journal, JournalFault, OpenRefused};
use std::alloc::Global;
use std::fs;
use test_support::step_parts;

/// Takes the steps over one disk in memory, and tells their answers. Behind the journal's the images
/// of the disk are opened.
pub fn run(alloc: Global, steps: &str) -> Result<String> {
    let mut setup = Setup::new(alloc);
    let mut told = String::new(alloc);
    let mut steps = steps.split('\t');
    let mut limit = 1 << 24;
    for step in steps.by_ref() {
        let (word, text) = step_parts(step);
        match word {
            "open" => break,
            "limit" => limit = text.parse::<u64>()?,
            _ if setup.take(alloc, word, text)? => {}
            _ => bail!("an unknown step"),
        }
    }
    let opened = Journal::open(alloc, setup.disk(alloc), limit);
    let Some(mut journal) = tell_opened(&mut told, opened)? else {
        return Ok(told);
    };
    for step in steps.by_ref() {
        if step == "close" {
            break;
        }
        take(alloc, &mut journal, &mut told, step).context(format_args!("{step}"))?;
    }
    let disk = journal.close();
    for step in steps {
        take_closed(alloc, &disk, &mut told, step, limit).context(format_args!("{step}"))?;
    }
    Ok(told)
}

/// The same over a file of that name in the working directory, which is new, and which `cut` cuts short
/// meanwhile. Behind the journal's the file's length is told, and it is opened again.
pub fn run_on_file(rt: &HostRuntime, steps: &str) -> Result<String> {
    let alloc = rt.alloc();
    let (path, steps) = steps.split_once('\t').context("no file")?;
    let _missing = fs::remove_file(rt, path);
    let mut told = String::new(alloc);
    let opened = Journal::open(alloc, FileDisk::open(rt, alloc, path)?, 1 << 24);
    let Some(mut journal) = tell_opened(&mut told, opened)? else {
        return Ok(told);
    };
    for step in steps.split('\t') {
        match step_parts(step) {
            ("cut", len) => FileDisk::open(rt, alloc, path)?.cut(alloc, len.parse::<u64>()?)?,
            _ => take(alloc, &mut journal, &mut told, step).context(format_args!("{step}"))?,
        }
    }
    let mut disk = journal.close();
    let len = disk.len(alloc)?;
    write!(told, "\t{len} bytes")?;
    let _journal = tell_opened(&mut told, Journal::open(alloc, disk, 1 << 24))?;
    fs::remove_file(rt, path)?;
    Ok(told)
}

fn tell_opened<D: Disk>(
    told: &mut String,
    opened: Result<Journal<D>, OpenRefused<D>>,
) -> Result<Option<Journal<D>>> {
    match opened {
        Ok(journal) => {
            let (count, held) = (journal.count(), journal.held());
            write!(told, "\t{count} in {held}")?;
            Ok(Some(journal))
        }
        Err(refused) => {
            tell_fault(told, refused.fault)?;
            Ok(None)
        }
    }
}

fn tell_fault(told: &mut String, fault: JournalFault) -> Result<()> {
    match fault {
        JournalFault::DiskFault => told.push_str("\tfault")?,
        JournalFault::Damaged { at } => write!(told, "\tdamaged {at}")?,
        JournalFault::Memory => told.push_str("\tmemory")?,
    }
    Ok(())
}

fn take<D: Disk>(
    alloc: Global,
    journal: &mut Journal<D>,
    told: &mut String,
    step: &str,
) -> Result<()> {
    let (word, text) = step_parts(step);
    match word {
        "append" => append(alloc, journal, told, &hex::decode(alloc, text)?),
        "build" => build(alloc, journal, told, &hex::decode(alloc, text)?),
        "record" => record(alloc, journal, told, text.parse::<u64>()?),
        "front" => front(alloc, journal, told, text),
        "payload" => payload(alloc, journal, told, text.parse::<u64>()?),
        "count" => {
            let (count, held) = (journal.count(), journal.held());
            write!(told, "\t{count} in {held}")?;
            Ok(())
        }
        "shut" => {
            match journal.shut_by() {
                Some(rose) => write!(told, "\tshut {} {}", rose.before(), rose.after())?,
                None => told.push_str("\topen")?,
            }
            Ok(())
        }
        _ => bail!("an unknown step"),
    }
}

fn append<D: Disk>(
    alloc: Global,
    journal: &mut Journal<D>,
    told: &mut String,
    payload: &[u8],
) -> Result<()> {
    journal.reserve(alloc, payload.len())?;
    tell_appended(told, journal.append(payload))
}

// The same, from the buffer in which the record is put together.
fn build<D: Disk>(
    alloc: Global,
    journal: &mut Journal<D>,
    told: &mut String,
    payload: &[u8],
) -> Result<()> {
    let mut buffer = Entry::begin(alloc)?;
    buffer.extend_from_slice(payload)?;
    journal.reserve_place(alloc)?;
    tell_appended(told, journal.append_built(Entry::new(buffer)?))
}

fn tell_appended<D: Disk>(told: &mut String, answer: Result<(), AppendFault<D>>) -> Result<()> {
    match answer {
        Ok(()) => told.push_str("\tok")?,
        Err(AppendFault::Shut { rose }) => {
            write!(told, "\tshut {} {}", rose.before(), rose.after())?;
        }
        Err(AppendFault::JournalFull { held, needed }) => write!(told, "\tfull {held} {needed}")?,
        Err(AppendFault::DiskFault { rose }) => {
            write!(told, "\tfault {} {}", rose.before(), rose.after())?;
        }
    }
    Ok(())
}

fn record<D: Disk>(
    alloc: Global,
    journal: &mut Journal<D>,
    told: &mut String,
    index: u64,
) -> Result<()> {
    if index >= journal.count() {
        bail!("no such record");
    }
    match journal.record(alloc, index) {
        Ok(payload) => tell_bytes(alloc, told, payload.as_slice()),
        Err(fault) => tell_fault(told, fault),
    }
}

// The first bytes of a record, at most as many as are said behind its number.
fn front<D: Disk>(
    alloc: Global,
    journal: &mut Journal<D>,
    told: &mut String,
    text: &str,
) -> Result<()> {
    let (index, most) = step_parts(text);
    let index = index.parse::<u64>()?;
    if index >= journal.count() {
        bail!("no such record");
    }
    let mut into = Vec::new(alloc);
    into.resize(most.parse::<usize>()?, 0)?;
    match journal.front(index, into.as_mut_slice()) {
        Ok(n) => tell_bytes(alloc, told, &into[..n]),
        Err(fault) => tell_fault(told, fault),
    }
}

// The payload of a record among all that were read at once.
fn payload<D: Disk>(
    alloc: Global,
    journal: &mut Journal<D>,
    told: &mut String,
    index: u64,
) -> Result<()> {
    if index >= journal.count() {
        bail!("no such record");
    }
    match journal.body(alloc) {
        Ok(body) => tell_bytes(alloc, told, journal.payload(body.as_slice(), index)),
        Err(fault) => tell_fault(told, fault),
    }
}

fn take_closed(
    alloc: Global,
    disk: &MemoryDisk,
    told: &mut String,
    step: &str,
    limit: u64,
) -> Result<()> {
    match step {
        "bytes" => tell_bytes(alloc, told, disk.bytes()),
        "faults" => {
            let faults = disk.faults();
            write!(told, "\t{faults}")?;
            Ok(())
        }
        "images" => {
            for pick in 0..8 {
                let image = disk.image(alloc, pick)?;
                let disk = MemoryDisk::new(alloc, image, Vec::new(alloc));
                tell_opened(told, Journal::open(alloc, disk, limit))?;
            }
            Ok(())
        }
        _ => bail!("an unknown step"),
    }
}
