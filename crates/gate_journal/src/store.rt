// A record is put together, and stored behind the closed gate by four calls of the disk.
ghost use Rattle.std.specs.Prelude.{◌≡◌, ◌≤◌, ◌<◌, ◌+◌, ◌++◌, [], ◌∷◌, ℕ, length, vec_len, vec_capacity, IfSome, OnOk};
ghost use Rattle.std.specs.Option.{option_map};
ghost use Rattle.disk_api.specs.Content.{BothKnown};
ghost use Rattle.disk_api.specs.Images.{IsOnly};
ghost use Rattle.disk_api.specs.Runs.{LeavesOnly};
ghost use Rattle.disk_api.specs.Faults.{CountsStops};
ghost use Rattle.gate_journal.specs.Format.{spelled};
ghost use Rattle.gate_journal.specs.Storing.{stored, entry_bytes, IsStoring, IsStoringKnown};

use disk_api::{Disk, DiskStop};
use std::alloc::Global;

pub(crate) const OPEN: u8 = 1;

pub(crate) const CLOSED: u8 = 0;

/// Puts a record behind others, as `Journal::body` gives them, in room that is there.
pub fn add_to_body(body: &mut Vec<u8>, payload: &[u8])
    requires { vec_len body.old + (length payload.now + 9) ≤ vec_capacity body.old }
    ensures { body.new.items ≡ body.old.items ++ spelled (payload.now ∷ []) }
{
    let size = (payload.len() as u64).to_be_bytes();
    body.push_reserved(OPEN);
    body.extend_from_slice(&size).unwrap();
    body.extend_from_slice(payload).unwrap();
}

/// Stores what stands behind a gate, as an `Entry` has it, behind the closed gate that ends
/// at `held`, and opens that gate.
pub(crate) fn store<D: Disk>(
    alloc: Global,
    disk: &mut D,
    held: u64,
    entry: &[u8],
) -> Result<(), DiskStop>
    requires gate { 0 < held }
    requires known { IfSome (D.content disk.old) (λ bytes. held ≤ length bytes) }
    requires durable { IsOnly (D.content disk.old) (D.may_leave disk.old) }
    ensures stored { OnOk result (D.content disk.new ≡ option_map (stored held entry.now) (D.content disk.old)) }
    ensures durable { OnOk result (IsOnly (D.content disk.new) (D.may_leave disk.new)) }
    ensures within { BothKnown (IsStoring held entry.now) (D.content disk.old) (D.content disk.new) }
    ensures any_moment { LeavesOnly D.Disk disk.old disk.new (IsStoringKnown held entry.now (D.content disk.old)) }
    ensures faults { CountsStops (D.fault_count disk.old) (D.fault_count disk.new) result }
{
    disk.write_at(alloc, held, entry)?;
    disk.sync(alloc)?;
    disk.write_at(alloc, held - 1, &[OPEN])?;
    disk.sync(alloc)?;
    Ok(())
}
