// A part of the file, read in one piece, in which heads are looked for.
ghost use Rattle.std.specs.Prelude.{◌≡◌, ◌≤◌, ◌<◌, ◌+◌, ◌-◌, ◌^◌, ◌↔◌, ℕ, List, min, length, take, drop, IsTrue, IfSome, IfOk, OnOk, slice_index};
ghost use Rattle.disk_api.specs.Faults.{CountsFaults};
ghost use Rattle.gate_journal.specs.inner.Reading.{IsWindow};
ghost use Rattle.disk_api.specs.Runs.{Rests};

use crate::open::read_part;
use crate::place::Place;
use disk_api::{Disk, DiskStop};
use std::alloc::Global;

/// How many bytes are read at once.
const WINDOW: u64 = 1 << 16;

/// Bytes of the file from an offset on.
#[derive(Drop)]
pub(crate) struct Window {
    start: u64,
    bytes: Vec<u8>,
}

impl Window {
    /// Without bytes.
    pub(crate) fn empty(alloc: Global) -> Window
        ensures { (bytes : List ℕ) → IsWindow result.start result.bytes.items bytes }
    {
        Window {
            start: 0,
            bytes: Vec::new(alloc),
        }
    }

    /// Whether so many bytes from an offset on stand in it.
    fn has(&self, at: u64, want: usize) -> bool
        ensures { IsTrue result ↔ ((self.now.start ≤ at) × (at + want ≤ self.now.start + length self.now.bytes.items)) }
    {
        let filled = self.bytes.len() as u64;
        self.start <= at && at - self.start <= filled && want as u64 <= filled - (at - self.start)
    }

    /// The first bytes from an offset on, which stand in it, and zeros.
    pub(crate) fn head(&self, at: u64, want: usize) -> [u8; 9]
        requires want { want ≤ 9 }
        requires inside { (self.now.start ≤ at) × (at + want ≤ self.now.start + length self.now.bytes.items) }
        ensures bytes { (i : ℕ) → slice_index result i < 256 }
        ensures known { (bytes : List ℕ) → IsWindow self.now.start self.now.bytes.items bytes → take want result ≡ take want (drop at bytes) }
    {
        let skip = (at - self.start) as usize;
        nine(&self.bytes[skip..skip + want])
    }
}

/// The bytes, and zeros behind them.
fn nine(part: &[u8]) -> [u8; 9]
    requires { length part.now ≤ 9 }
    ensures bytes { (i : ℕ) → slice_index result i < 256 }
    ensures front { take (length part.now) result ≡ part.now }
{
    let mut all = [0; 9];
    all[..part.len()].copy_from_slice(part);
    all
}

/// Reads from an offset on, from which `left` bytes are left.
fn read_window<D: Disk>(alloc: Global, disk: &mut D, at: u64, left: u64) -> Result<Window, DiskStop>
    requires { at + left < 2 ^ 64 }
    ensures start { IfOk result (λ window. window.start ≡ at) }
    ensures filled { IfOk result (λ window. length window.bytes.items ≡ min left 65536) }
    ensures window { IfOk result (λ window. IfSome (D.content disk.old) (IsWindow window.start window.bytes.items)) }
    ensures rests { Rests D.Disk disk.old disk.new }
    ensures faults { CountsFaults (D.fault_count disk.old) (D.fault_count disk.new) result }
{
    let size = left.min(WINDOW);
    let bytes = read_part(alloc, disk, Place { at, size })?;
    Ok(Window { start: at, bytes })
}

/// Sees that the first `want` bytes from an offset on, from which `left` are left, stand in the window.
pub(crate) fn reach<D: Disk>(
    alloc: Global,
    disk: &mut D,
    window: &mut Window,
    at: u64,
    left: u64,
    want: usize,
) -> Result<(), DiskStop>
    requires fits { at + left < 2 ^ 64 }
    requires want { (want ≤ 9) × (want ≤ left) }
    requires window { IfSome (D.content disk.old) (IsWindow window.old.start window.old.bytes.items) }
    ensures inside { OnOk result ((window.new.start ≤ at) × (at + want ≤ window.new.start + length window.new.bytes.items)) }
    ensures window { OnOk result (IfSome (D.content disk.old) (IsWindow window.new.start window.new.bytes.items)) }
    ensures rests { Rests D.Disk disk.old disk.new }
    ensures faults { CountsFaults (D.fault_count disk.old) (D.fault_count disk.new) result }
{
    if window.has(at, want) {
        return Ok(());
    }
    *window = read_window(alloc, disk, at, left)?;
    Ok(())
}
