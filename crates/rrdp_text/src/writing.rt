//! The texts of the three files (RFC 8182 section 3.5).

ghost use Rattle.std.specs.Prelude.{◌≡◌, IfOk};
ghost use Rattle.std.specs.String.{string_bytes};
ghost use Rattle.rrdp_text.specs.Texts.{notification_text, snapshot_text, delta_text};

use crate::files::{DeltaRef, FileRef};
use crate::lines::{push_change, push_delta_line, push_object, push_opening, push_snapshot_line};
use crate::sizes::{delta_len, notification_size, snapshot_len};
use crate::{DELTA_HEAD, NOTIFICATION_HEAD, SNAPSHOT_HEAD};
use pub_set::{Change, ObjectSet};
use std::alloc::{AllocError, Global};
use uuid::Uuid;

#[tactic(auto, unfolding(crate::specs::Texts::head, crate::specs::Texts::notification_text))]
/// The notification (RFC 8182 section 3.5.1) with the deltas as they are given, the newest first.
pub fn notification_text(
    alloc: Global,
    session: &Uuid,
    serial: u64,
    snapshot: &FileRef,
    deltas: &[DeltaRef],
) -> Result<String, AllocError>
    ensures { IfOk result (λ text. string_bytes text
        ≡ notification_text session.now serial snapshot.now deltas.now) }
{
    let size = notification_size(serial, snapshot, deltas).ok_or(AllocError)?;
    let mut out = String::with_capacity(alloc, size)?;
    push_opening(&mut out, NOTIFICATION_HEAD, session, serial)?;
    push_snapshot_line(&mut out, snapshot)?;
    for delta in deltas {
        push_delta_line(&mut out, delta)?;
    }
    out.push_str("</notification>\n")?;
    Ok(out)
}

#[tactic(auto, unfolding(crate::specs::Texts::head, crate::specs::Texts::snapshot_text))]
/// The snapshot of a set (RFC 8182 section 3.5.2).
pub fn snapshot_text(
    alloc: Global,
    session: &Uuid,
    serial: u64,
    set: &ObjectSet,
) -> Result<String, AllocError>
    ensures { IfOk result (λ text. string_bytes text ≡ snapshot_text session.now serial set.now) }
{
    let objects = set.as_slice();
    let len = snapshot_len(session, serial, set);
    let size = usize::try_from(len).map_err(|_| AllocError)?;
    let mut out = String::with_capacity(alloc, size)?;
    push_opening(&mut out, SNAPSHOT_HEAD, session, serial)?;
    for object in objects {
        push_object(&mut out, object)?;
    }
    out.push_str("</snapshot>\n")?;
    Ok(out)
}

#[tactic(auto, unfolding(crate::specs::Texts::head, crate::specs::Texts::delta_text))]
/// The delta with these changes (RFC 8182 section 3.5.3).
pub fn delta_text(
    alloc: Global,
    session: &Uuid,
    serial: u64,
    changes: &[Change],
) -> Result<String, AllocError>
    ensures { IfOk result (λ text. string_bytes text
        ≡ delta_text session.now serial changes.now) }
{
    let len = delta_len(session, serial, changes);
    let size = usize::try_from(len).map_err(|_| AllocError)?;
    let mut out = String::with_capacity(alloc, size)?;
    push_opening(&mut out, DELTA_HEAD, session, serial)?;
    for change in changes {
        push_change(&mut out, change)?;
    }
    out.push_str("</delta>\n")?;
    Ok(out)
}
