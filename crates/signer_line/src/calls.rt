// The calls of the streams, which are made again where a signal interrupts them.
ghost use Rattle.std.specs.Prelude.{◌≡◌, ◌<◌, ◌≤◌, ℕ, List, Option, length, take, IfOk, OnOk, OnErr};
ghost use Rattle.std.specs.Io.KnownBytes.{Appends, Keeps, ReadConsumes, WriteAppends};
ghost use Rattle.host_calls.specs.Rise.{HasRisen};
ghost use Rattle.host_calls.specs.Faults.{CountsAnswer};

use host_calls::CallFault;
use line_loop::{HostWriter, PlayedWriter, RawReader, RawWriter};
use std::io::Write;

/// A writer that says what it has handed on to the other end.
pub trait HandsOn: RawWriter {
    /// The bytes that the other end was handed, where it is known.
    ghost handed: { Self → Option (List ℕ) };

    /// Hands on all that it has taken.
    fn hand_on(&mut self) -> Result<(), CallFault>
        ensures bytes { Keeps (Self.taken self.old) (Self.taken self.new) }
        ensures faults { CountsAnswer (Self.fault_count self.old) (Self.fault_count self.new)
            (Self.patience self.old) (Self.patience self.new) result }
        ensures handed { OnOk result (handed self.new ≡ Self.taken self.new) };
}

impl<W: Write + Drop> HandsOn for HostWriter<W> {
    ghost use Rattle.line_loop.specs.Streams.{host_writer};

    ghost handed = { λ writer. W.contents (host_writer writer) };

    fn hand_on(&mut self) -> Result<(), CallFault> {
        self.flush()
    }
}

impl HandsOn for PlayedWriter {
    ghost use Rattle.std.specs.Prelude.{Some};
    ghost use Rattle.line_loop.specs.Played.{writer_bytes};

    ghost handed = { λ writer. Some (writer_bytes writer) };

    fn hand_on(&mut self) -> Result<(), CallFault> {
        self.flush()
    }
}

/// A call of a stream failed.
#[derive(Drop)]
pub(crate) struct Broken;

// Reads once, and again where a signal interrupts it.
pub(crate) fn read_once<R: RawReader>(from: &mut R, into: &mut [u8]) -> Result<usize, Broken>
    ensures room { IfOk result (λ n. n ≤ length into.new) }
    ensures bytes { ReadConsumes (R.left from.old) (R.left from.new) result into.new }
    ensures ok { OnOk result (R.fault_count from.new ≡ R.fault_count from.old) }
    ensures stop { OnErr result (HasRisen (R.fault_count from.old) (R.fault_count from.new)) }
{
    'tries: loop {
        match from.read(into) {
            Ok(n) => return Ok(n),
            Err(CallFault::Interrupted) => {}
            Err(_) => return Err(Broken),
        }
    }
}

// Writes once, and again where a signal interrupts it.
fn write_once<W: RawWriter>(to: &mut W, bytes: &[u8]) -> Result<usize, Broken>
    ensures piece { IfOk result (λ n. n ≤ length bytes.now) }
    ensures some { IfOk result (λ n. 0 < length bytes.now → 0 < n) }
    ensures bytes { WriteAppends (W.taken to.old) (W.taken to.new) result bytes.now }
    ensures ok { OnOk result (W.fault_count to.new ≡ W.fault_count to.old) }
    ensures stop { OnErr result (HasRisen (W.fault_count to.old) (W.fault_count to.new)) }
{
    'tries: loop {
        match to.write(bytes) {
            Ok(taken) => return Ok(taken),
            Err(CallFault::Interrupted) => {}
            Err(_) => return Err(Broken),
        }
    }
}

// Hands on what was written, and again where a signal interrupts it.
fn hand_on_all<W: HandsOn>(to: &mut W) -> Result<(), Broken>
    ensures bytes { Keeps (W.taken to.old) (W.taken to.new) }
    ensures handed { OnOk result (W.handed to.new ≡ W.taken to.new) }
    ensures ok { OnOk result (W.fault_count to.new ≡ W.fault_count to.old) }
    ensures stop { OnErr result (HasRisen (W.fault_count to.old) (W.fault_count to.new)) }
{
    'tries: loop {
        match to.hand_on() {
            Ok(()) => return Ok(()),
            Err(CallFault::Interrupted) => {}
            Err(_) => return Err(Broken),
        }
    }
}

// Writes all of it: by one call, where the stream takes it whole.
fn write_whole<W: RawWriter>(to: &mut W, bytes: &[u8]) -> Result<(), Broken>
    ensures sent { OnOk result (Appends (W.taken to.old) (W.taken to.new) bytes.now) }
    ensures ok { OnOk result (W.fault_count to.new ≡ W.fault_count to.old) }
    ensures stop { OnErr result (HasRisen (W.fault_count to.old) (W.fault_count to.new)) }
{
    let mut at = 0;
    'pieces: while at < bytes.len() {
        at += write_once(to, &bytes[at..])?;
    }
    Ok(())
}

/// Writes a line, and hands it on.
pub(crate) fn send<W: HandsOn>(to: &mut W, line: &[u8]) -> Result<(), Broken>
    ensures sent { OnOk result (Appends (W.taken to.old) (W.taken to.new) line.now) }
    ensures handed { OnOk result (W.handed to.new ≡ W.taken to.new) }
    ensures ok { OnOk result (W.fault_count to.new ≡ W.fault_count to.old) }
    ensures stop { OnErr result (HasRisen (W.fault_count to.old) (W.fault_count to.new)) }
{
    write_whole(to, line)?;
    hand_on_all(to)
}
