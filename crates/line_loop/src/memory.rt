// Ends in memory, whose calls fail where they are told to.
ghost use Rattle.std.specs.Prelude.{◌≡◌, ◌≢◌, ◌↔◌, ℕ, ◌+◌, ◌-◌, ◌^◌, ◌<◌, ◌≤◌, Some, Err, List, [], ◌++◌, length, take, drop, min, vec_len, IsTrue, IfOk, OnOk, OnErr};
ghost use Rattle.std.specs.Io.KnownBytes.{ReadConsumes};
ghost use Rattle.line_loop.specs.Taking.{TakesFront};
ghost use Rattle.host_calls.specs.Rise.{HasRisen};
ghost use Rattle.host_calls.specs.Schedule.{IsFresh, CountsCall, fails_next, faults_of};

use crate::{Clock, Sink, SinkStop, Source, SourceStop};
use host_calls::Schedule;
use std::alloc::Global;

/// A source that gives these bytes and then its end.
#[derive(Drop)]
pub struct MemorySource {
    bytes: Vec<u8>,
    at: usize,
    piece: usize,
    schedule: Schedule,
    ghost within: { at ≤ vec_len bytes },
    ghost some: { 0 < piece },
}

impl MemorySource {
    ghost use Rattle.line_loop.specs.Memory.{source_left, source_piece, source_schedule};

    /// A source whose calls of these numbers, from 1, fail.
    pub fn new(bytes: Vec<u8>, fails: Vec<u64>) -> Self
        ensures left { source_left result ≡ bytes.items }
        ensures piece { source_piece result ≡ usize.MAX }
        ensures fresh { IsFresh (source_schedule result) fails.items }
    {
        MemorySource::in_pieces(bytes, fails, usize::MAX)
    }

    /// The same, which gives at most so many bytes in a call.
    pub fn in_pieces(bytes: Vec<u8>, fails: Vec<u64>, piece: usize) -> Self
        requires { 0 < piece }
        ensures left { source_left result ≡ bytes.items }
        ensures piece { source_piece result ≡ piece }
        ensures fresh { IsFresh (source_schedule result) fails.items }
    {
        MemorySource {
            bytes,
            at: 0,
            piece,
            schedule: Schedule::new(fails),
        }
    }
}

// Copies the first bytes as far as there is room, at most so many, and says how many.
pub(crate) fn copy_front(from: &[u8], into: &mut [u8], most: usize) -> usize
    ensures count { result ≡ min (length from.now) (min (length into.old) most) }
    ensures bytes { take result into.new ≡ take result from.now }
{
    let n = from.len().min(into.len()).min(most);
    into[..n].copy_from_slice(&from[..n]);
    n
}

impl Source for MemorySource {
    ghost use Rattle.line_loop.specs.Memory.{source_left, source_piece, source_schedule};

    ghost left = { λ source. Some (source_left source) };

    ghost fault_count = { λ source. faults_of (source_schedule source) };

    fn take(&mut self, _alloc: Global, into: &mut [u8]) -> Result<usize, SourceStop>
        ensures room { IfOk result (λ n. n ≤ length into.new) }
        ensures bytes { ReadConsumes (Some (source_left self.old)) (Some (source_left self.new)) result into.new }
        ensures later { faults_of (source_schedule self.old) ≤ faults_of (source_schedule self.new) }
        ensures fault { result ≡ Err SourceStop.Fault →
            HasRisen (faults_of (source_schedule self.old)) (faults_of (source_schedule self.new)) }

        // It fails where it is told to and nowhere else, and gives what there is room for.
        ensures fails { (result ≡ Err SourceStop.Fault) ↔ IsTrue (fails_next (source_schedule self.old)) }
        ensures ok { OnOk result (faults_of (source_schedule self.new) ≡ faults_of (source_schedule self.old)) }
        ensures memory { result ≢ Err SourceStop.Memory }
        ensures count { IfOk result (λ n. n ≡
            min (length (source_left self.old)) (min (length into.old) (source_piece self.old))) }
        ensures counts { CountsCall (source_schedule self.old) (source_schedule self.new) }
        ensures piece { source_piece self.new ≡ source_piece self.old }
    {
        if self.schedule.count_call() {
            return Err(SourceStop::Fault);
        }
        let n = copy_front(&self.bytes[self.at..], into, self.piece);
        self.at += n;
        Ok(n)
    }
}

/// A sink that keeps what it takes.
#[derive(Drop)]
pub struct MemorySink {
    bytes: Vec<u8>,
    piece: usize,
    schedule: Schedule,
    ghost some: { 0 < piece },
}

impl MemorySink {
    ghost use Rattle.line_loop.specs.Memory.{sink_bytes, sink_piece, sink_schedule};

    /// An empty sink, whose calls of these numbers, from 1, fail.
    pub fn new(alloc: Global, fails: Vec<u64>) -> Self
        ensures bytes { sink_bytes result ≡ [] }
        ensures piece { sink_piece result ≡ usize.MAX }
        ensures fresh { IsFresh (sink_schedule result) fails.items }
    {
        MemorySink::in_pieces(alloc, fails, usize::MAX)
    }

    /// The same, which takes at most so many bytes in a call.
    pub fn in_pieces(alloc: Global, fails: Vec<u64>, piece: usize) -> Self
        requires { 0 < piece }
        ensures bytes { sink_bytes result ≡ [] }
        ensures piece { sink_piece result ≡ piece }
        ensures fresh { IsFresh (sink_schedule result) fails.items }
    {
        MemorySink {
            bytes: Vec::new(alloc),
            piece,
            schedule: Schedule::new(fails),
        }
    }

    /// What it has taken.
    pub fn bytes(&self) -> &[u8]
        ensures { result.now ≡ sink_bytes self.now }
    {
        &self.bytes
    }
}

impl Sink for MemorySink {
    ghost use Rattle.line_loop.specs.Memory.{sink_bytes, sink_piece, sink_schedule};

    ghost taken = { λ sink. Some (sink_bytes sink) };

    ghost fault_count = { λ sink. faults_of (sink_schedule sink) };

    fn give(&mut self, _alloc: Global, bytes: &[u8]) -> Result<usize, SinkStop>
        ensures piece { IfOk result (λ n. n ≤ length bytes.now) }
        ensures some { IfOk result (λ n. 0 < length bytes.now → 0 < n) }
        ensures bytes { TakesFront (Some (sink_bytes self.old)) (Some (sink_bytes self.new)) result bytes.now }
        ensures none { OnErr result (sink_bytes self.new ≡ sink_bytes self.old) }
        ensures later { faults_of (sink_schedule self.old) ≤ faults_of (sink_schedule self.new) }
        ensures fault { result ≡ Err SinkStop.Fault →
            HasRisen (faults_of (sink_schedule self.old)) (faults_of (sink_schedule self.new)) }

        // It fails where it is told to and nowhere else.
        ensures fails { (result ≡ Err SinkStop.Fault) ↔ IsTrue (fails_next (sink_schedule self.old)) }
        ensures ok { OnOk result (faults_of (sink_schedule self.new) ≡ faults_of (sink_schedule self.old)) }
        ensures count { IfOk result (λ n. n ≡ min (length bytes.now) (sink_piece self.old)) }
        ensures counts { CountsCall (sink_schedule self.old) (sink_schedule self.new) }
        ensures same_piece { sink_piece self.new ≡ sink_piece self.old }
    {
        if self.schedule.count_call() {
            return Err(SinkStop::Fault);
        }
        let n = bytes.len().min(self.piece);
        match self.bytes.extend_from_slice(&bytes[..n]) {
            Ok(()) => Ok(n),
            Err(_) => Err(SinkStop::Memory),
        }
    }
}

/// A clock that gives these moments in their order and then the last again and again, or 0 where there
/// are none.
#[derive(Drop)]
pub struct ListClock {
    moments: Vec<u64>,
    at: usize,
    ghost within: { at ≤ vec_len moments },
}

impl ListClock {
    ghost use Rattle.line_loop.specs.Memory.{clock_moments};

    /// A clock that begins at the first moment.
    pub fn new(moments: Vec<u64>) -> Self
        ensures { clock_moments result ≡ moments.items }
    {
        ListClock { moments, at: 0 }
    }
}

impl Clock for ListClock {
    ghost use Rattle.line_loop.specs.Memory.{clock_moments, moment_at};

    ghost readings = { λ clock. Some (moment_at (clock_moments clock)) };

    fn now(&mut self) -> u64 {
        let rest = &self.moments[self.at..];
        match rest {
            [] => 0,
            [last] => *last,
            [first, ..] => {
                let moment = *first;
                self.at += 1;
                moment
            }
        }
    }
}
