//! The desks of a store, over disks in memory.

ghost use Rattle.std.specs.Prelude.{◌≡◌, List, None, IfOk, length, map};
ghost use Rattle.authority_book.specs.declared.commands.Command.{Command};
ghost use Rattle.disk_api.specs.Memory.{memory_bytes};
ghost use Rattle.gate_journal.specs.Format.{recovered};
ghost use Rattle.desk_core.specs.Commands.{HasCommands};
ghost use Rattle.histories.specs.Devices.{opened};
ghost use Rattle.test_histories.specs.Told.{lists_of};
ghost use Rattle.test_histories.specs.Standing.{AreDesks, AreNew, AreOpenedAgain};

use crate::done::Limit;
use anyhow::{Result, bail};
use authority_book::Command;
use desk_core::Desk;
use disk_api::MemoryDisk;
use std::alloc::Global;

/// How many desks there are.
pub const DESKS: usize = 64;

/// The desks over disks that have nothing.
pub fn new_desks(alloc: Global) -> Result<Vec<Desk<MemoryDisk>>>
    ensures new { IfOk result (λ desks. AreNew 0 desks.items) }
    ensures all { IfOk result (λ desks. length desks.items ≡ 64) }
{
    let mut desks = Vec::new(alloc);
    for number in 0..DESKS as u32 {
        let bytes = Vec::new(alloc);
        let desk = open(alloc, number, bytes, None)?;
        desks.push(desk)?;
    }
    Ok(desks)
}

/// The desks that were opened again, and the commands that each has.
#[derive(Drop)]
pub struct OpenedAgain {
    pub desks: Vec<Desk<MemoryDisk>>,
    pub lists: Vec<Vec<Command>>,
}

/// Closes the desks, and opens them again over what a crash leaves of their disks: the image of that pick.
pub fn open_again(
    alloc: Global,
    desks: Vec<Desk<MemoryDisk>>,
    pick: u64,
    limit: &Option<Limit>,
) -> Result<OpenedAgain>
    requires { length desks.items ≡ 64 }
    ensures found { IfOk result (λ again. AreOpenedAgain 0 desks.items again.desks.items (lists_of again.lists)) }
    ensures all { IfOk result (λ again. length again.desks.items ≡ 64) }
    ensures stand { IfOk result (λ again. AreDesks 0 again.desks.items (map opened (lists_of again.lists))) }
{
    let mut closing = desks;
    let mut opened = Vec::new(alloc);
    let mut lists = Vec::new(alloc);
    for number in 0..DESKS as u32 {
        let closed = closing.remove(0);
        let disk = closed.close();
        let image = disk.image(alloc, pick)?;
        let desk = open(alloc, number, image, calls_for(number, limit))?;
        let list = desk.since(alloc, 0)?;
        lists.push(list)?;
        opened.push(desk)?;
    }
    Ok(OpenedAgain {
        desks: opened,
        lists,
    })
}

/// How many calls the disk of that number takes, if they are limited.
pub fn calls_for(number: u32, limit: &Option<Limit>) -> Option<u64> {
    match limit {
        Some(limit) if limit.device == u64::from(number) => Some(limit.calls),
        _ => None,
    }
}

// The desk over a disk with these bytes.
fn open(alloc: Global, number: u32, bytes: Vec<u8>, calls: Option<u64>) -> Result<Desk<MemoryDisk>>
    ensures found { IfOk result (λ desk. desk.records ≡ recovered bytes.items) }
    ensures commands { IfOk result (λ desk. (commands : List Command) × HasCommands desk commands) }
    ensures number { IfOk result (λ desk. desk.number ≡ number) }
    ensures settled { IfOk result (λ desk. desk.doubt ≡ None) }
{
    match Desk::open(alloc, number, disk_over(alloc, bytes, calls)) {
        Ok(desk) => Ok(desk),
        Err(_) => bail!("the desk can't be opened"),
    }
}

/// A disk with these bytes, which takes so many calls, or any number of them.
pub fn disk_over(alloc: Global, bytes: Vec<u8>, calls: Option<u64>) -> MemoryDisk
    ensures { memory_bytes result ≡ bytes.items }
{
    let mut disk = MemoryDisk::new(alloc, bytes, Vec::new(alloc));
    match calls {
        Some(calls) => {
            disk.stop_after(calls);
            disk
        }
        None => disk,
    }
}
