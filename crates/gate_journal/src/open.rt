// Opening: a new journal is begun, and an old one is read head by head.
ghost use Rattle.std.specs.Prelude.{◌≡◌, ◌≤◌, ◌<◌, ◌+◌, ◌-◌, ◌^◌, ◌⊎◌, ℕ, List, [], ◌∷◌, ◌++◌, Some, None, true, length, take, drop, map, IfSome, IfOk, OnOk, OnErr, IfErr, IsErrOf, slice_index};
ghost use Rattle.std.specs.Option.{option_map};
ghost use Rattle.disk_api.specs.Content.{BothKnown};
ghost use Rattle.disk_api.specs.Images.{IsOnly};
ghost use Rattle.disk_api.specs.Runs.{LeavesOnly};
ghost use Rattle.disk_api.specs.Faults.{CountsFaults, CountsStops};
ghost use Rattle.host_calls.specs.Rise.{HasRisen};
ghost use Rattle.gate_journal.specs.Format.{header, has_header, recovered, damaged_at, opened, IsUnopened};
ghost use Rattle.gate_journal.specs.inner.Reading.{Fills, IsWindow, IsHead, StandsAt, IsHarmed, Finds, Opens};
ghost use Rattle.disk_api.specs.Runs.{Rests};
ghost use Rattle.gate_journal.specs.inner.Kept.{IsMeasured};
ghost use Rattle.gate_journal.specs.View.{RecoversToKnown};

use crate::JournalFault;
use crate::place::Place;
use crate::store::OPEN;
use crate::window::{Window, reach};
use disk_api::{Disk, DiskStop};
use std::alloc::Global;

const HEADER: &[u8; 16] = b"KRILLJOURNAL0001";

/// A new journal: the header and a closed gate.
const NEW: &[u8; 17] = b"KRILLJOURNAL0001\0";

/// What was found in a file: the offset just past the closed gate, and where the records lie.
#[derive(Drop)]
pub(crate) struct Layout {
    pub(crate) held: u64,
    pub(crate) places: Vec<Place>,
}

/// What stands at a gate.
#[derive(Clone, Copy)]
pub(crate) enum Head {
    Closed,
    Record { size: u64 },
}

/// Reads the bytes from `at` on until `into` is full or the file ends, and says how many there were.
fn fill<D: Disk>(alloc: Global, disk: &mut D, at: u64, into: &mut [u8]) -> Result<usize, DiskStop>
    requires { at + length into.old < 2 ^ 64 }
    ensures within { IfOk result (λ n. n ≤ length into.old) }
    ensures fills { IfOk result (λ n. IfSome (D.content disk.old) (λ bytes. Fills bytes at n into.new)) }
    ensures bytes { (i : ℕ) → slice_index into.new i < 256 }
    ensures rests { Rests D.Disk disk.old disk.new }
    ensures faults { CountsFaults (D.fault_count disk.old) (D.fault_count disk.new) result }
{
    let mut got = 0;
    while got < into.len() {
        let n = disk.read(alloc, at + got as u64, &mut into[got..])?;
        if n == 0 {
            break;
        }
        got += n;
    }
    Ok(got)
}

/// Reads the gate and the length of a record, as far as they are there.
fn head_bytes<D: Disk>(
    alloc: Global,
    disk: &mut D,
    window: &mut Window,
    at: u64,
    left: u64,
) -> Result<([u8; 9], usize), DiskStop>
    requires fits { at + left < 2 ^ 64 }
    requires known { IfSome (D.content disk.old) (λ bytes. at + left ≡ length bytes) }
    requires window { IfSome (D.content disk.old) (IsWindow window.old.start window.old.bytes.items) }
    ensures window { OnOk result (IfSome (D.content disk.old) (IsWindow window.new.start window.new.bytes.items)) }
    ensures within { IfOk result (λ head. (head.1 ≤ 9) × (head.1 ≤ left)) }
    ensures head { IfOk result (λ head. IfSome (D.content disk.old) (λ bytes. Fills bytes at head.1 head.0)) }
    ensures bytes { IfOk result (λ head. (i : ℕ) → slice_index head.0 i < 256) }
    ensures rests { Rests D.Disk disk.old disk.new }
    ensures faults { CountsFaults (D.fault_count disk.old) (D.fault_count disk.new) result }
{
    let want = left.min(9) as usize;
    reach(alloc, disk, window, at, left, want)?;
    Ok((window.head(at, want), want))
}

/// Reads the head of the record at a gate, from which on `left` bytes are left.
fn read_head<D: Disk>(
    alloc: Global,
    disk: &mut D,
    window: &mut Window,
    at: u64,
    left: u64,
    limit: u64,
) -> Result<Head, JournalFault>
    requires fits { at + left < 2 ^ 64 }
    requires known { IfSome (D.content disk.old) (λ bytes. at + left ≡ length bytes) }
    requires window { IfSome (D.content disk.old) (IsWindow window.old.start window.old.bytes.items) }
    ensures window { OnOk result (IfSome (D.content disk.old) (IsWindow window.new.start window.new.bytes.items)) }
    ensures head { IfOk result (λ head. IsHead left limit head) }
    ensures stands { IfOk result (λ head. IfSome (D.content disk.old) (λ bytes. StandsAt (drop at bytes) head)) }
    ensures harmed { IfErr result (λ fault. (place : ℕ) → fault ≡ JournalFault.Damaged place → (place ≡ at) × IfSome (D.content disk.old) (λ bytes. IsHarmed limit (drop at bytes))) }
    ensures rests { Rests D.Disk disk.old disk.new }
    ensures later { D.fault_count disk.old ≤ D.fault_count disk.new }
    ensures failed { IsErrOf result JournalFault.DiskFault → HasRisen (D.fault_count disk.old) (D.fault_count disk.new) }
{
    let (head, got) = head_bytes(alloc, disk, window, at, left)?;
    if got == 0 {
        return Err(JournalFault::Damaged { at });
    }
    if head[0] != OPEN {
        return Ok(Head::Closed);
    }
    let mut size = [0; 8];
    size.copy_from_slice(&head[1..]);
    let size = u64::from_be_bytes(size);
    if got < 9 || size > limit || size > left - 9 {
        return Err(JournalFault::Damaged { at });
    }
    Ok(Head::Record { size })
}

/// Reads the head of each record, up to the closed gate.
fn read_heads<D: Disk>(
    alloc: Global,
    disk: &mut D,
    len: u64,
    limit: u64,
) -> Result<Layout, JournalFault>
    requires long { 17 < len }
    requires known { IfSome (D.content disk.old) (λ bytes. (len ≡ length bytes) × (has_header bytes ≡ true)) }
    ensures measured { IfOk result (λ layout. IsMeasured (length layout.places.items) layout.held layout.places.items) }
    ensures found { IfOk result (λ layout. IfSome (D.content disk.old) (λ bytes. Finds limit layout.places.items bytes)) }
    ensures harmed { IfErr result (λ fault. (at : ℕ) → fault ≡ JournalFault.Damaged at → IfSome (D.content disk.old) (λ bytes. damaged_at limit bytes ≡ Some at)) }
    ensures rests { Rests D.Disk disk.old disk.new }
    ensures later { D.fault_count disk.old ≤ D.fault_count disk.new }
    ensures failed { IsErrOf result JournalFault.DiskFault → HasRisen (D.fault_count disk.old) (D.fault_count disk.new) }
{
    let mut window = Window::empty(alloc);
    let mut places = Vec::new(alloc);
    let mut at = 16;
    while let Head::Record { size } = read_head(alloc, disk, &mut window, at, len - at, limit)? {
        places.push(Place { at: at + 9, size })?;
        at += 9 + size;
    }
    Ok(Layout {
        held: at + 1,
        places,
    })
}

/// Whether a file of more than 17 bytes begins with the header.
fn is_journal<D: Disk>(alloc: Global, disk: &mut D) -> Result<bool, DiskStop>
    ensures header { IfOk result (λ is. IfSome (D.content disk.old) (λ bytes. is ≡ has_header bytes)) }
    ensures rests { Rests D.Disk disk.old disk.new }
    ensures faults { CountsFaults (D.fault_count disk.old) (D.fault_count disk.new) result }
{
    let mut head = [0; 16];
    let got = fill(alloc, disk, 0, &mut head)?;
    Ok(got == 16 && head == *HEADER)
}

/// Makes a new journal of a file of at most 17 bytes.
fn begin<D: Disk>(alloc: Global, disk: &mut D) -> Result<(), DiskStop>
    requires short { IfSome (D.content disk.old) (λ bytes. length bytes < 18) }
    requires durable { IsOnly (D.content disk.old) (D.may_leave disk.old) }
    ensures begun { OnOk result (D.content disk.new ≡ option_map (λ _. header ++ 0 ∷ []) (D.content disk.old)) }
    ensures durable { OnOk result (IsOnly (D.content disk.new) (D.may_leave disk.new)) }
    ensures short { BothKnown (λ _ bytes. length bytes < 18) (D.content disk.old) (D.content disk.new) }
    ensures any_moment { LeavesOnly D.Disk disk.old disk.new (λ c. IfSome (D.content disk.old) (λ _. length c < 18)) }
    ensures faults { CountsStops (D.fault_count disk.old) (D.fault_count disk.new) result }
{
    disk.write_at(alloc, 0, NEW)?;
    disk.sync(alloc)
}

/// Syncs, and finds the records of the file, or makes it a new journal.
pub(crate) fn find<D: Disk>(alloc: Global, disk: &mut D, limit: u64) -> Result<Layout, JournalFault>
    ensures measured { IfOk result (λ layout. IsMeasured (length layout.places.items) layout.held layout.places.items) }
    ensures found { IfOk result (λ layout. IfSome (D.content disk.old) (λ bytes. Opens limit layout.places.items bytes (D.content disk.new))) }
    ensures opened { OnOk result (D.content disk.new ≡ option_map opened (D.content disk.old)) }
    ensures durable { OnOk result (IsOnly (D.content disk.new) (D.may_leave disk.new)) }
    ensures harmed { IfErr result (λ fault. (at : ℕ) → fault ≡ JournalFault.Damaged at
        → (D.content disk.new ≡ D.content disk.old) × IfSome (D.content disk.old) (λ bytes. damaged_at limit bytes ≡ Some at)) }
    ensures unopened { OnErr result (BothKnown IsUnopened (D.content disk.old) (D.content disk.new)) }
    ensures later { D.fault_count disk.old ≤ D.fault_count disk.new }
    ensures failed { IsErrOf result JournalFault.DiskFault → HasRisen (D.fault_count disk.old) (D.fault_count disk.new) }
    ensures any_moment { LeavesOnly D.Disk disk.old disk.new (λ c. D.may_leave disk.old c ⊎ RecoversToKnown limit (option_map recovered (D.content disk.old)) c) }
{
    disk.sync(alloc)?;
    let len = disk.len(alloc)?;
    if len < 18 {
        begin(alloc, disk)?;
        return Ok(Layout {
            held: 17,
            places: Vec::new(alloc),
        });
    }
    if !is_journal(alloc, disk)? {
        return Err(JournalFault::Damaged { at: 0 });
    }
    read_heads(alloc, disk, len, limit)
}

/// Reads the bytes from `at` on, as many as there is room for.
pub(crate) fn fill_all<D: Disk>(
    alloc: Global,
    disk: &mut D,
    at: u64,
    into: &mut [u8],
) -> Result<(), DiskStop>
    requires { at + length into.old < 2 ^ 64 }
    ensures part { OnOk result (IfSome (D.content disk.old) (λ bytes. into.new ≡ take (length into.old) (drop at bytes))) }
    ensures rests { Rests D.Disk disk.old disk.new }
    ensures faults { CountsFaults (D.fault_count disk.old) (D.fault_count disk.new) result }
{
    if fill(alloc, disk, at, into)? < into.len() {
        // Somebody has cut the file short. The disk hasn't failed.
        return Err(DiskStop::Memory);
    }
    Ok(())
}

/// Reads a part of the file into memory of `alloc`.
pub(crate) fn read_part<D: Disk>(
    alloc: Global,
    disk: &mut D,
    place: Place,
) -> Result<Vec<u8>, DiskStop>
    ensures size { IfOk result (λ part. length part.items ≡ place.size) }
    ensures part { IfOk result (λ part. IfSome (D.content disk.old) (λ bytes. part.items ≡ take place.size (drop place.at bytes))) }
    ensures rests { Rests D.Disk disk.old disk.new }
    ensures faults { CountsFaults (D.fault_count disk.old) (D.fault_count disk.new) result }
{
    let mut part = Vec::new(alloc);
    part.resize(place.size as usize, 0)?;
    fill_all(alloc, disk, place.at, part.as_mut_slice())?;
    Ok(part)
}
