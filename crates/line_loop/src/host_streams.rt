// The calls of std's readers and writers: the trusted edge where they are the system's. Each is made once.
use crate::{RawReader, RawWriter};
use host_calls::{CallFault, Tally, called, taken};
use std::io::{Read, Write};

/// A reader of std. It is known where that is: a file or a pipe isn't.
#[derive(Drop)]
pub struct HostReader<R> {
    from: R,
    tally: Tally,
}

impl<R: Read> HostReader<R> {
    ghost use Rattle.line_loop.specs.Streams.{host_reader, reader_tally};
    ghost use Rattle.host_calls.specs.Counts.{fault_count};
    ghost use Rattle.std.specs.Prelude.{◌≡◌};

    /// A reader none of whose calls has failed.
    pub fn new(from: R) -> Self
        ensures reader { host_reader result ≡ from }
        ensures fresh { fault_count (reader_tally result) ≡ 0 }
    {
        HostReader {
            from,
            tally: Tally::new(),
        }
    }
}

impl<R: Read + Drop> RawReader for HostReader<R> {
    ghost use Rattle.line_loop.specs.Streams.{host_reader, reader_tally};
    ghost use Rattle.host_calls.specs.Counts.{fault_count, patience_of};

    ghost left = { λ reader. R.remaining (host_reader reader) };

    ghost fault_count = { λ reader. fault_count (reader_tally reader) };

    ghost patience = { λ reader. patience_of (reader_tally reader) };

    fn read(&mut self, into: &mut [u8]) -> Result<usize, CallFault> {
        self.tally.count(called(self.from.read(into)))
    }
}

/// A writer of std. It is known where that is: a file or a pipe isn't.
#[derive(Drop)]
pub struct HostWriter<W> {
    to: W,
    tally: Tally,
}

impl<W: Write> HostWriter<W> {
    ghost use Rattle.line_loop.specs.Streams.{host_writer, writer_tally};
    ghost use Rattle.host_calls.specs.Counts.{fault_count};
    ghost use Rattle.std.specs.Prelude.{◌≡◌};

    /// A writer none of whose calls has failed.
    pub fn new(to: W) -> Self
        ensures writer { host_writer result ≡ to }
        ensures fresh { fault_count (writer_tally result) ≡ 0 }
    {
        HostWriter {
            to,
            tally: Tally::new(),
        }
    }
}

impl<W: Write + Drop> RawWriter for HostWriter<W> {
    ghost use Rattle.line_loop.specs.Streams.{host_writer, writer_tally};
    ghost use Rattle.host_calls.specs.Counts.{fault_count, patience_of};

    ghost taken = { λ writer. W.contents (host_writer writer) };

    ghost fault_count = { λ writer. fault_count (writer_tally writer) };

    ghost patience = { λ writer. patience_of (writer_tally writer) };

    fn write(&mut self, bytes: &[u8]) -> Result<usize, CallFault> {
        let answer = called(self.to.write(bytes));
        self.tally.count(taken(answer, bytes.len()))
    }

    fn flush(&mut self) -> Result<(), CallFault> {
        self.tally.count(called(self.to.flush()))
    }
}
