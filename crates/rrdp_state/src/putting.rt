//! What an export puts, and what it removes (RFC 8182 section 3.3.2).

ghost use Rattle.std.specs.Prelude.{◌≡◌, [], ◌∷◌, ◌++◌, length, map, take, if◌then◌else◌, IfOk, OnOk};
ghost use Rattle.std.specs.String.{string_bytes};
ghost use Rattle.outlet_api.specs.Calls.{put, removal};
ghost use Rattle.outlet_api.specs.Exports.{put_of, removal_of};
ghost use Rattle.rrdp_state.specs.Named.{snapshot_entry, delta_entry};
ghost use Rattle.rrdp_state.specs.Paths.{path_of, delta_path, notification_path};
ghost use Rattle.rrdp_state.specs.Exported.{Repository, entry_put, delta_ref, file_ref, notification_with};
ghost use Rattle.rrdp_state.specs.Kept.{entries_with, puts_with, left_runs};

use crate::delta::Delta;
use crate::paths::{NOTIFICATION, delta_path, snapshot_path};
use crate::text::FileText;
use outlet_api::OutFile;
use pub_set::Uri;
use rrdp_text::{DeltaRef, FileRef, notification_text};
use std::alloc::{AllocError, Global};
use uuid::Uuid;

/// The files that are put, the notification as the last one.
pub(crate) fn puts(
    alloc: Global,
    session: &Uuid,
    base: &str,
    serial: u64,
    snapshot: FileText,
    deltas: &[Delta],
    all: bool,
) -> Result<Vec<OutFile>, AllocError>
    ensures { IfOk result (λ puts. map put_of puts.items
        ≡ puts_with (record { session = session.now; base = base.now }) serial snapshot
        deltas.now all) }
{
    let notification = put_notification(alloc, session, base, serial, &snapshot, deltas)?;
    let shown = if all { deltas } else { newest(deltas) };
    let mut puts = put_files(alloc, session, serial, snapshot, shown)?;
    puts.push(notification)?;
    Ok(puts)
}

/// The first of the deltas, if there is one.
fn newest(deltas: &[Delta]) -> &[Delta]
    ensures { result.now ≡ take 1 deltas.now }
{
    deltas.get(..1).unwrap_or(deltas)
}

/// The snapshot and these deltas. The text of the snapshot is moved.
fn put_files(
    alloc: Global,
    session: &Uuid,
    serial: u64,
    snapshot: FileText,
    deltas: &[Delta],
) -> Result<Vec<OutFile>, AllocError>
    ensures { IfOk result (λ puts. map put_of puts.items
        ≡ map (entry_put session.now) (entries_with serial snapshot deltas.now)) }
{
    let mut puts = Vec::new(alloc);
    puts.push(put_snapshot(alloc, session, serial, snapshot)?)?;
    for delta in deltas {
        puts.push(put_delta(alloc, session, delta)?)?;
    }
    Ok(puts)
}

fn put_snapshot(
    alloc: Global,
    session: &Uuid,
    serial: u64,
    text: FileText,
) -> Result<OutFile, AllocError>
    ensures { IfOk result (λ file. put_of file ≡ entry_put session.now (snapshot_entry serial text)) }
{
    Ok(OutFile {
        path: snapshot_path(alloc, session, serial)?,
        bytes: text.into_string().into_bytes(),
    })
}

fn put_delta(alloc: Global, session: &Uuid, delta: &Delta) -> Result<OutFile, AllocError>
    ensures { IfOk result (λ file. put_of file ≡ entry_put session.now (delta_entry delta.now)) }
{
    Ok(OutFile {
        path: delta_path(alloc, session, delta.serial)?,
        bytes: Vec::from_slice(alloc, delta.text.as_str().as_bytes())?,
    })
}

/// The notification that names this snapshot and these deltas.
fn put_notification(
    alloc: Global,
    session: &Uuid,
    base: &str,
    serial: u64,
    snapshot: &FileText,
    deltas: &[Delta],
) -> Result<OutFile, AllocError>
    ensures { IfOk result (λ file. put_of file ≡ put notification_path
        (notification_with (record { session = session.now; base = base.now }) serial snapshot.now
        deltas.now)) }
{
    let path = snapshot_path(alloc, session, serial)?;
    let file = reference(alloc, base, path, snapshot)?;
    let deltas = references(alloc, session, base, deltas)?;
    let text = notification_text(alloc, session, serial, &file, &deltas)?;
    Ok(OutFile {
        path: String::from_str(alloc, NOTIFICATION)?,
        bytes: text.into_bytes(),
    })
}

/// The file at a path below the base, with its hash.
fn reference(
    alloc: Global,
    base: &str,
    path: String,
    text: &FileText,
) -> Result<FileRef, AllocError>
    ensures { IfOk result (λ file. file ≡ file_ref base.now (string_bytes path) text.now) }
{
    let mut uri = String::from_str(alloc, base)?;
    uri.push_str(path.as_str())?;
    Ok(FileRef {
        uri: Uri::new(uri),
        hash: text.hash(),
    })
}

fn delta_reference(
    alloc: Global,
    session: &Uuid,
    base: &str,
    delta: &Delta,
) -> Result<DeltaRef, AllocError>
    ensures { IfOk result (λ named. named
        ≡ delta_ref (record { session = session.now; base = base.now }) delta.now) }
{
    let path = delta_path(alloc, session, delta.serial)?;
    Ok(DeltaRef {
        serial: delta.serial,
        file: reference(alloc, base, path, &delta.text)?,
    })
}

fn references(
    alloc: Global,
    session: &Uuid,
    base: &str,
    deltas: &[Delta],
) -> Result<Vec<DeltaRef>, AllocError>
    ensures { IfOk result (λ named. named.items
        ≡ map (delta_ref (record { session = session.now; base = base.now })) deltas.now) }
{
    let mut named = Vec::with_capacity(alloc, deltas.len())?;
    for delta in deltas {
        named.push(delta_reference(alloc, session, base, delta)?)?;
    }
    Ok(named)
}
