//! The steps of a desk.

use crate::journals::disks::tell_bytes;
use crate::journals::setup::Setup;
use anyhow::{Context, Result, bail};
use desk_core::{Desk, DeskFault, DeskOpenFault, DeskRefused};
use disk_api::MemoryDisk;
use std::alloc::Global;
use test_support::step_parts;

/// The number of a desk that isn't said.
const NUMBER: u32 = 7;

/// Where a case has come to: a disk, the desk that was opened over it, or a disk that was refused.
#[derive(Drop)]
enum Place {
    Closed { disk: MemoryDisk },
    Open { desk: Desk<MemoryDisk> },
    Refused,
}

/// Takes the steps over one disk in memory, and tells their answers. Behind the desk's it may be opened
/// again, and the images of the disk are opened.
pub fn run(alloc: Global, steps: &str) -> Result<String> {
    let mut setup = Setup::new(alloc);
    let mut number = NUMBER;
    let mut told = String::new(alloc);
    let mut steps = steps.split('\t');
    for step in steps.by_ref() {
        match step_parts(step) {
            ("open", _) => break,
            ("number", text) => number = text.parse::<u32>()?,
            (word, text) if setup.take(alloc, word, text)? => {}
            _ => bail!("an unknown step"),
        }
    }
    let mut place = open(alloc, number, &mut told, setup.disk(alloc))?;
    for step in steps {
        place = step_on(alloc, number, place, &mut told, step).context(format_args!("{step}"))?;
    }
    Ok(told)
}

fn step_on(
    alloc: Global,
    number: u32,
    place: Place,
    told: &mut String,
    step: &str,
) -> Result<Place> {
    match place {
        Place::Closed { disk } => {
            if step == "open" {
                return open(alloc, number, told, disk);
            }
            take_closed(alloc, number, &disk, told, step)?;
            Ok(Place::Closed { disk })
        }
        Place::Open { mut desk } => {
            if step == "close" {
                return Ok(Place::Closed { disk: desk.close() });
            }
            take(alloc, &mut desk, told, step)?;
            Ok(Place::Open { desk })
        }
        Place::Refused => bail!("a step over a refused disk"),
    }
}

// The desk, or why it isn't one, and whether the disk then is as it was.
fn open(alloc: Global, number: u32, told: &mut String, disk: MemoryDisk) -> Result<Place> {
    let before = disk.bytes().to_vec(alloc)?;
    match Desk::open(alloc, number, disk) {
        Ok(desk) => {
            let count = desk.len();
            write!(told, "\t{count}")?;
            Ok(Place::Open { desk })
        }
        Err(DeskRefused { disk, fault }) => {
            match fault {
                DeskOpenFault::Damaged { at } => write!(told, "\tdamaged {at}")?,
                DeskOpenFault::BadRecord { at } => write!(told, "\tbad record {at}")?,
                DeskOpenFault::DiskFault => told.push_str("\tfault")?,
                DeskOpenFault::Memory => bail!("out of memory"),
            }
            if disk.bytes() != before.as_slice() {
                told.push_str(" and changed")?;
            }
            Ok(Place::Refused)
        }
    }
}

fn take(alloc: Global, desk: &mut Desk<MemoryDisk>, told: &mut String, step: &str) -> Result<()> {
    let (word, text) = step_parts(step);
    match word {
        "commit" => commit(alloc, desk, told, &hex::decode(alloc, text)?),
        "config" => {
            let (count, origins) = (desk.config().count(), desk.config().origins().len());
            write!(told, "\t{} {count} {origins}", desk.len())?;
            Ok(())
        }
        "since" => since(alloc, desk, told, text.parse::<u64>()?),
        _ => bail!("an unknown step"),
    }
}

fn commit(
    alloc: Global,
    desk: &mut Desk<MemoryDisk>,
    told: &mut String,
    record: &[u8],
) -> Result<()> {
    let command = cmd_codec::read(alloc, record)?;
    match desk.commit(alloc, command, 1) {
        Ok(count) => write!(told, "\t{count}")?,
        Err(DeskFault::Shut { rose }) => {
            write!(
                told,
                "\tshut {} {} {}",
                rose.desk(),
                rose.before(),
                rose.after()
            )?;
        }
        Err(DeskFault::Verdict { .. }) => told.push_str("\trefused")?,
        Err(DeskFault::JournalFull { held, needed }) => write!(told, "\tfull {held} {needed}")?,
        Err(DeskFault::DiskFault { rose }) => {
            write!(
                told,
                "\tfault {} {} {}",
                rose.desk(),
                rose.before(),
                rose.after()
            )?;
        }
        Err(DeskFault::Memory) => bail!("out of memory"),
    }
    Ok(())
}

// The records of the commands after the first so many.
fn since(alloc: Global, desk: &Desk<MemoryDisk>, told: &mut String, from: u64) -> Result<()> {
    if from > desk.len() {
        bail!("too few commands");
    }
    told.push('\t')?;
    for command in desk.since(alloc, from)? {
        let record = hex::encode(alloc, cmd_codec::write(alloc, &command)?.as_slice())?;
        write!(told, "/{record}")?;
    }
    Ok(())
}

fn take_closed(
    alloc: Global,
    number: u32,
    disk: &MemoryDisk,
    told: &mut String,
    step: &str,
) -> Result<()> {
    match step {
        "bytes" => tell_bytes(alloc, told, disk.bytes()),
        "images" => {
            for pick in 0..8 {
                let image = disk.image(alloc, pick)?;
                let image = MemoryDisk::new(alloc, image, Vec::new(alloc));
                let _opened = open(alloc, number, told, image)?;
            }
            Ok(())
        }
        _ => bail!("an unknown step"),
    }
}
