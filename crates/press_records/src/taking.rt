//! The changes of an edition, carried out while they are read.

ghost use Rattle.std.specs.Prelude.{◌≡◌, [], IfOk, IfErr, OnOk};
ghost use Rattle.pub_set.specs.Objects.{content_at};
ghost use Rattle.pub_set.specs.Changes.{after_all};
ghost use Rattle.press_records.specs.inner.Taking.{AreTaken, AreNone};

use crate::changes::{change_over, rises_behind};
use crate::recovered::carry_out;
use pub_set::{Change, ObjectSet};
use record_forms::ReadFault;
use std::alloc::{AllocError, Global};
use std::cmp::{max, min};
use std::mem;

/// Of so many bytes at least the changes are carried out at once.
const LEAST: usize = 1 << 20;

/// A set is gone through so often at most for one record.
const MOST_TIMES: usize = 16;

/// A change seldom has fewer bytes: where more changes come, their room grows.
const USUAL: usize = 64;

/// What is read and not carried out yet.
#[derive(Drop)]
struct Batch {
    changes: Vec<Change>,
    bytes: usize,
}

/// Reads so many changes by rising URI over the set, and carries them out. The bytes that they put are shared.
/// After an error some may be carried out.
pub(crate) fn take_changes<'a>(
    alloc: Global,
    set: &mut ObjectSet,
    count: u32,
    bytes: &'a [u8],
) -> Result<(Vec<Change>, &'a [u8]), ReadFault>
    ensures taken { IfOk result (λ x.
        AreTaken (content_at set.old) count bytes.now x.0.items x.1.now (content_at set.new)) }
    ensures none { IfErr result (AreNone (content_at set.old) count bytes.now) }
{
    let most = max(LEAST, bytes.len() / MOST_TIMES);
    let mut taken = Vec::with_capacity(alloc, min(count as usize, bytes.len() / USUAL))?;
    let mut batch = Batch {
        changes: Vec::new(alloc),
        bytes: 0,
    };
    let mut left = bytes;
    for _ in 0..count {
        let (change, rest) = change_over(alloc, set, left)?;
        if !rises_behind(&taken, &change) {
            return Err(ReadFault::Bad);
        }
        taken.push(change.copy(alloc)?)?;
        batch.changes.push(change)?;
        batch.bytes = batch
            .bytes
            .saturating_add(left.len().saturating_sub(rest.len()));
        left = rest;
        if batch.bytes >= most {
            flush(alloc, set, &mut batch)?;
        }
    }
    flush(alloc, set, &mut batch)?;
    Ok((taken, left))
}

// Carries out what was read, and begins anew.
fn flush(alloc: Global, set: &mut ObjectSet, batch: &mut Batch) -> Result<(), AllocError>
    ensures led { OnOk result (content_at set.new ≡ after_all (content_at set.old) batch.old.changes.items) }
    ensures empty { OnOk result (batch.new.changes.items ≡ []) }
{
    let changes = mem::replace(&mut batch.changes, Vec::new(alloc));
    batch.bytes = 0;
    carry_out(alloc, set, changes)
}
