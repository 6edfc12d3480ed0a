//! What disks have at first, and how they fail.

use anyhow::Result;
use disk_api::MemoryDisk;
use std::alloc::Global;
use test_support::numbers_of;

/// A disk in memory to be: its bytes, which calls fail, and after how many it stops.
#[derive(Drop)]
pub struct Setup {
    bytes: Vec<u8>,
    fails: Vec<u64>,
    stop: Option<u64>,
}

impl Setup {
    /// An empty disk that doesn't fail.
    pub fn new(alloc: Global) -> Setup {
        Setup {
            bytes: Vec::new(alloc),
            fails: Vec::new(alloc),
            stop: None,
        }
    }

    /// Takes a step, if it is one of these.
    pub fn take(&mut self, alloc: Global, word: &str, text: &str) -> Result<bool> {
        match word {
            "bytes" => self.bytes = hex::decode(alloc, text)?,
            "fails" => self.fails = numbers_of(alloc, text, ' ')?,
            "stop" => self.stop = Some(text.parse::<u64>()?),
            _ => return Ok(false),
        }
        Ok(true)
    }

    /// The disk.
    pub fn disk(self, alloc: Global) -> MemoryDisk {
        let mut disk = MemoryDisk::new(alloc, self.bytes, self.fails);
        if let Some(calls) = self.stop {
            disk.stop_after(calls);
        }
        disk
    }
}
