// A reader and a writer in memory, whose calls go as a script says.
ghost use Rattle.std.specs.Prelude.{◌≡◌, ◌<◌, ◌≤◌, Some, IfOk, length, vec_len, [], List, ℕ};

use crate::memory::copy_front;
use crate::{RawReader, RawWriter};
use host_calls::{CallFault, Script, Tally};
use std::alloc::Global;

/// A reader of these bytes.
#[derive(Drop)]
pub struct PlayedReader {
    bytes: Vec<u8>,
    at: usize,
    script: Script,
    tally: Tally,
    ghost within: { at ≤ vec_len bytes },
}

impl PlayedReader {
    ghost use Rattle.line_loop.specs.Played.{reader_left};

    pub fn new(bytes: Vec<u8>, script: Script) -> Self
        ensures { reader_left result ≡ bytes.items }
    {
        PlayedReader {
            bytes,
            at: 0,
            script,
            tally: Tally::new(),
        }
    }
}

impl RawReader for PlayedReader {
    ghost use Rattle.line_loop.specs.Played.{reader_left};
    ghost use Rattle.host_calls.specs.Counts.{fault_count, patience_of};

    ghost left = { λ reader. Some (reader_left reader) };

    ghost fault_count = { λ reader. fault_count reader.tally };

    ghost patience = { λ reader. patience_of reader.tally };

    fn read(&mut self, into: &mut [u8]) -> Result<usize, CallFault> {
        match self.script.next(into.len()) {
            Ok(most) => {
                let n = copy_front(&self.bytes[self.at..], into, most);
                self.at += n;
                Ok(n)
            }
            Err(fault) => self.tally.count(Err(fault)),
        }
    }
}

/// A writer that keeps what it takes.
#[derive(Drop)]
pub struct PlayedWriter {
    bytes: Vec<u8>,
    script: Script,
    tally: Tally,
}

impl PlayedWriter {
    ghost use Rattle.line_loop.specs.Played.{writer_bytes};

    pub fn new(alloc: Global, script: Script) -> Self
        ensures { writer_bytes result ≡ [] }
    {
        PlayedWriter {
            bytes: Vec::new(alloc),
            script,
            tally: Tally::new(),
        }
    }

    /// What it has taken.
    pub fn bytes(&self) -> &[u8]
        ensures { result.now ≡ writer_bytes self.now }
    {
        &self.bytes
    }
}

impl RawWriter for PlayedWriter {
    ghost use Rattle.line_loop.specs.Played.{writer_bytes};
    ghost use Rattle.host_calls.specs.Counts.{fault_count, patience_of};

    ghost taken = { λ writer. Some (writer_bytes writer) };

    ghost fault_count = { λ writer. fault_count writer.tally };

    ghost patience = { λ writer. patience_of writer.tally };

    fn write(&mut self, bytes: &[u8]) -> Result<usize, CallFault> {
        match self.script.next(bytes.len()) {
            Ok(n) => match self.bytes.extend_from_slice(&bytes[..n]) {
                Ok(()) => Ok(n),
                Err(_) => self.tally.count(Err(CallFault::Memory)),
            },
            Err(fault) => self.tally.count(Err(fault)),
        }
    }

    fn flush(&mut self) -> Result<(), CallFault> {
        match self.script.next(0) {
            Ok(_) => Ok(()),
            Err(fault) => self.tally.count(Err(fault)),
        }
    }
}
