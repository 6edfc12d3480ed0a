// Ends over the calls of readers and writers, which are made again where a signal interrupts them.
ghost use Rattle.std.specs.Prelude.{◌≡◌, ◌<◌, ◌≤◌, ℕ, Err, List, length, take, IfOk, OnOk, OnErr};
ghost use Rattle.std.specs.Io.KnownBytes.{Appends, Keeps, ReadConsumes, WriteAppends};
ghost use Rattle.host_calls.specs.Rise.{HasRisen};
ghost use Rattle.line_loop.specs.Taking.{TakesFront};

use crate::{HostReader, HostWriter, RawReader, RawWriter, Sink, SinkStop, Source, SourceStop};
use host_calls::CallFault;
use std::alloc::Global;
use std::io::{Read, Write};

/// A source over a reader's calls.
#[derive(Drop)]
pub struct SourceOver<C> {
    from: C,
}

/// A source over a reader of std. It is known where the reader is.
pub type StreamSource<R> = SourceOver<HostReader<R>>;

impl<R: Read> SourceOver<HostReader<R>> {
    ghost use Rattle.line_loop.specs.Streams.{source_reader, host_reader};

    /// A source that has not failed.
    pub fn new(from: R) -> SourceOver<HostReader<R>>
        ensures { host_reader (source_reader result) ≡ from }
    {
        SourceOver {
            from: HostReader::new(from),
        }
    }
}

impl<C: RawReader> SourceOver<C> {
    ghost use Rattle.line_loop.specs.Streams.{source_reader};

    /// A source over these calls.
    pub fn over(from: C) -> SourceOver<C>
        ensures { source_reader result ≡ from }
    {
        SourceOver { from }
    }
}

// Reads once, and again where a signal interrupts it.
fn read_once<C: RawReader>(from: &mut C, into: &mut [u8]) -> Result<usize, SourceStop>
    ensures room { IfOk result (λ n. n ≤ length into.new) }
    ensures bytes { ReadConsumes (C.left from.old) (C.left from.new) result into.new }
    ensures later { C.fault_count from.old ≤ C.fault_count from.new }
    ensures fault { result ≡ Err SourceStop.Fault → HasRisen (C.fault_count from.old) (C.fault_count from.new) }
    ensures ok { OnOk result (C.fault_count from.new ≡ C.fault_count from.old) }
    ensures stop { OnErr result (HasRisen (C.fault_count from.old) (C.fault_count from.new)) }
{
    'tries: loop {
        match from.read(into) {
            Ok(n) => return Ok(n),
            Err(CallFault::Interrupted) => {}
            Err(CallFault::Memory) => return Err(SourceStop::Memory),
            Err(CallFault::Failed) => return Err(SourceStop::Fault),
        }
    }
}

impl<C: RawReader> Source for SourceOver<C> {
    ghost use Rattle.line_loop.specs.Streams.{source_reader};

    ghost left = { λ source. C.left (source_reader source) };

    ghost fault_count = { λ source. C.fault_count (source_reader source) };

    fn take(&mut self, _alloc: Global, into: &mut [u8]) -> Result<usize, SourceStop> {
        read_once(&mut self.from, into)
    }
}

/// A sink over a writer's calls.
#[derive(Drop)]
pub struct SinkOver<C> {
    to: C,
}

/// A sink over a writer of std. It is known where the writer is.
pub type StreamSink<W> = SinkOver<HostWriter<W>>;

impl<W: Write> SinkOver<HostWriter<W>> {
    ghost use Rattle.line_loop.specs.Streams.{sink_writer, host_writer};

    /// A sink that has not failed.
    pub fn new(to: W) -> SinkOver<HostWriter<W>>
        ensures { host_writer (sink_writer result) ≡ to }
    {
        SinkOver {
            to: HostWriter::new(to),
        }
    }
}

impl<C: RawWriter> SinkOver<C> {
    ghost use Rattle.line_loop.specs.Streams.{sink_writer};

    /// A sink over these calls.
    pub fn over(to: C) -> SinkOver<C>
        ensures { sink_writer result ≡ to }
    {
        SinkOver { to }
    }

    /// The writer.
    pub fn calls(&self) -> &C
        ensures { result.now ≡ sink_writer self.now }
    {
        &self.to
    }
}

// Writes once, and again where a signal interrupts it.
fn write_once<C: RawWriter>(to: &mut C, bytes: &[u8]) -> Result<usize, SinkStop>
    ensures piece { IfOk result (λ n. n ≤ length bytes.now) }
    ensures some { IfOk result (λ n. 0 < length bytes.now → 0 < n) }
    ensures bytes { WriteAppends (C.taken to.old) (C.taken to.new) result bytes.now }
    ensures later { C.fault_count to.old ≤ C.fault_count to.new }
    ensures fault { result ≡ Err SinkStop.Fault → HasRisen (C.fault_count to.old) (C.fault_count to.new) }
    ensures ok { OnOk result (C.fault_count to.new ≡ C.fault_count to.old) }
    ensures stop { OnErr result (HasRisen (C.fault_count to.old) (C.fault_count to.new)) }
{
    'tries: loop {
        match to.write(bytes) {
            Ok(taken) => return Ok(taken),
            Err(CallFault::Interrupted) => {}
            Err(CallFault::Memory) => return Err(SinkStop::Memory),
            Err(CallFault::Failed) => return Err(SinkStop::Fault),
        }
    }
}

// Flushes, and again where a signal interrupts it.
fn flush_all<C: RawWriter>(to: &mut C) -> Result<(), SinkStop>
    ensures bytes { Keeps (C.taken to.old) (C.taken to.new) }
    ensures later { C.fault_count to.old ≤ C.fault_count to.new }
    ensures fault { result ≡ Err SinkStop.Fault → HasRisen (C.fault_count to.old) (C.fault_count to.new) }
    ensures ok { OnOk result (C.fault_count to.new ≡ C.fault_count to.old) }
    ensures stop { OnErr result (HasRisen (C.fault_count to.old) (C.fault_count to.new)) }
{
    'tries: loop {
        match to.flush() {
            Ok(()) => return Ok(()),
            Err(CallFault::Interrupted) => {}
            Err(CallFault::Memory) => return Err(SinkStop::Memory),
            Err(CallFault::Failed) => return Err(SinkStop::Fault),
        }
    }
}

impl<C: RawWriter> Sink for SinkOver<C> {
    ghost use Rattle.line_loop.specs.Streams.{sink_writer};

    ghost taken = { λ sink. C.taken (sink_writer sink) };

    ghost fault_count = { λ sink. C.fault_count (sink_writer sink) };

    fn give(&mut self, _alloc: Global, bytes: &[u8]) -> Result<usize, SinkStop>
        ensures piece { IfOk result (λ n. n ≤ length bytes.now) }
        ensures some { IfOk result (λ n. 0 < length bytes.now → 0 < n) }
        ensures bytes { TakesFront (C.taken (sink_writer self.old)) (C.taken (sink_writer self.new)) result bytes.now }
        ensures later { C.fault_count (sink_writer self.old) ≤ C.fault_count (sink_writer self.new) }
        ensures fault { result ≡ Err SinkStop.Fault
            → HasRisen (C.fault_count (sink_writer self.old)) (C.fault_count (sink_writer self.new)) }
        // No call that failed is passed over, and none is told but where one failed.
        ensures ok { OnOk result (C.fault_count (sink_writer self.new) ≡ C.fault_count (sink_writer self.old)) }
        ensures stop { OnErr result (HasRisen (C.fault_count (sink_writer self.old)) (C.fault_count (sink_writer self.new))) }
    {
        let n = write_once(&mut self.to, bytes)?;
        flush_all(&mut self.to)?;
        Ok(n)
    }
}
