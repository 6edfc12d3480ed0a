// Crash images of a disk in memory: its steps are made again, the unsynced ones only in part.
ghost use Rattle.std.specs.Prelude.{◌≡◌, ◌≢◌, ◌-◌, ◌≤◌, ◌<◌, ◌+◌, ℕ, IsTrue, length, slice_index_or, IfOk, OnOk};
ghost use Rattle.std.specs.List.{All};
ghost use Rattle.disk_api.specs.Content.{Torn, IsCut};
ghost use Rattle.disk_api.specs.Steps.{content_after, after_step, steps_fit, FitsAt, IsImageAfter, IsUnsynced, IsTornBy};
ghost use Rattle.disk_api.specs.declared.step.Step.{Step};
ghost use Rattle.disk_api.specs.declared.step.Step.TheVariants.{Sync};

use crate::step::{Step, overwrite};
use std::alloc::{AllocError, Global};

/// How many steps there are up to the last sync, with it.
pub(crate) fn synced(steps: &[Step]) -> usize
    ensures within { result ≤ length steps.now }
    ensures none_after { (k : ℕ) (d : Step) → result ≤ k → k < length steps.now → slice_index_or steps.now k d ≢ Sync }
{
    let mut end = 0;
    for (i, step) in steps.iter().enumerate() {
        if let Step::Sync = step {
            end = i + 1;
        }
    }
    end
}

/// The bytes after all of these steps.
pub(crate) fn replayed(alloc: Global, first: &[u8], steps: &[Step]) -> Result<Vec<u8>, AllocError>
    requires { IsTrue (steps_fit first.now steps.now) }
    ensures { IfOk result (λ bytes. bytes.items ≡ content_after first.now steps.now) }
{
    let mut bytes = first.to_vec(alloc)?;
    for step in steps {
        redo(&mut bytes, step)?;
    }
    Ok(bytes)
}

fn redo(bytes: &mut Vec<u8>, step: &Step) -> Result<(), AllocError>
    requires { FitsAt bytes.old.items step.now }
    ensures { OnOk result (bytes.new.items ≡ after_step bytes.old.items step.now) }
{
    match step {
        Step::Write { at, bytes: new } => overwrite(bytes, *at, new),
        Step::Cut(len) => {
            bytes.truncate(*len);
            Ok(())
        }
        Step::Sync => Ok(()),
    }
}

/// An image after these steps, none of which is a sync.
pub(crate) fn torn(
    alloc: Global,
    bytes: Vec<u8>,
    steps: &[Step],
    pick: u64,
) -> Result<Vec<u8>, AllocError>
    requires { All IsUnsynced steps.now }
    ensures { IfOk result (λ image. IsImageAfter bytes.items (λ e. e ≡ bytes.items) steps.now image.items) }
{
    let mut image = bytes;
    for (i, step) in steps.iter().enumerate() {
        tear(alloc, &mut image, step, way_of(pick, i))?;
    }
    Ok(image)
}

fn tear(alloc: Global, image: &mut Vec<u8>, step: &Step, way: u64) -> Result<(), AllocError>
    requires { IsUnsynced step.now }
    ensures { OnOk result (IsTornBy step.now image.old.items image.new.items) }
{
    match step {
        Step::Write { at, bytes: new } => tear_write(alloc, image, *at, new, way),
        Step::Cut(len) => {
            tear_cut(image, *len, way);
            Ok(())
        }
        Step::Sync => unreachable!(),
    }
}

/// In which of eight ways a write is cut short: below 8 all in the same way, and from 8 on each in
/// its own, by the next three bits.
fn way_of(pick: u64, index: usize) -> u64 {
    if pick < 8 {
        pick
    } else {
        (pick >> (3 * (index % 21))) & 7
    }
}

fn tear_write(
    alloc: Global,
    image: &mut Vec<u8>,
    at: usize,
    new: &[u8],
    way: u64,
) -> Result<(), AllocError>
    ensures { OnOk result (Torn at (length new.now) image.old.items image.new.items) }
{
    if at > image.len() {
        return Ok(());
    }
    let piece = piece_of(alloc, new, way)?;
    overwrite(image, at, &piece)
}

/// What is left where the file was cut: 0 all that was there, 1 nothing behind the cut, 2 the first half
/// of that, and from 3 on other bytes in its place, as in a write.
fn tear_cut(image: &mut Vec<u8>, len: usize, way: u64)
    ensures { IsCut len image.old.items image.new.items }
{
    if len >= image.len() {
        return;
    }
    let behind = image.len() - len;
    match way {
        0 => {}
        1 => image.truncate(len),
        2 => image.truncate(len + behind / 2),
        _ => spoil(&mut image[len..], way),
    }
}

fn spoil(bytes: &mut [u8], way: u64) {
    for byte in bytes.iter_mut() {
        *byte = byte_left(*byte, way);
    }
}

/// What is left of a write: 0 none of it, 1 all, 2 its first half, 3 other bytes in its range, 4 other
/// bytes in its first half, 5 zeros, 6 ones, 7 each byte with its last bit turned.
fn piece_of(alloc: Global, new: &[u8], way: u64) -> Result<Vec<u8>, AllocError>
    ensures { IfOk result (λ piece. length piece.items ≤ length new.now) }
{
    let reach = match way {
        0 => 0,
        2 | 4 => new.len() / 2,
        _ => new.len(),
    };
    let mut piece = Vec::new(alloc);
    for byte in &new[..reach] {
        piece.push(byte_left(*byte, way))?;
    }
    Ok(piece)
}

fn byte_left(byte: u8, way: u64) -> u8 {
    match way {
        3 | 4 => 255 - byte,
        5 => 0,
        6 => 1,
        7 => byte ^ 1,
        _ => byte,
    }
}
