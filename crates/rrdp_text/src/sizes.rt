//! How long the texts are, in bytes, so that each is written into memory reserved once. The texts are those of
//! RFC 8182 section 3.5.

ghost use Rattle.std.specs.Prelude.{◌≡◌, ◌<◌, ◌≤◌, ◌*◌, ◌^◌, length};
ghost use Rattle.std.specs.List.{flat_map};
ghost use Rattle.base64.specs.GeneralPurpose.{encode_of};
ghost use Rattle.base64.specs.Engines.{standard};
ghost use Rattle.rrdp_text.specs.Texts.{opening_behind, hash_text, object_text, change_text, snapshot_text, delta_text};

use crate::files::{DeltaRef, FileRef};
use crate::{DELTA_HEAD, SNAPSHOT_HEAD};
use itoa::Buffer;
use pub_set::{Change, Object, ObjectSet, Uri};
use uuid::Uuid;

/// The first line of a notification and the last, but for the serial.
const NOTIFICATION_FRAME: usize = 141;

/// The attribute of a hash.
const HASH: usize = 72;

/// How many bytes the Base64 of these has, with its padding (RFC 4648 section 4).
#[tactic(auto, using(crate::proofs::Lengths::encoded_long))]
fn base64_len(bytes: &[u8]) -> u128
    ensures long { result ≡ length (encode_of standard bytes.now) }
    ensures bound { result < 2 ^ 65 }
{
    (bytes.len() as u128 + 2) / 3 * 4
}

/// How many bytes the line of an object has in a snapshot.
#[tactic(auto, using(crate::proofs::Lengths::object_long))]
fn object_len(object: &Object) -> u128
    ensures long { result ≡ length (object_text object.now) }
    ensures bound { result < 2 ^ 66 }
{
    object.uri.as_str().len() as u128 + base64_len(object.bytes.as_slice()) + 29
}

/// How many bytes the lines of these objects have in a snapshot.
fn objects_len(objects: &[Object]) -> u128
    ensures long { result ≡ length (flat_map object_text objects.now) }
    ensures bound { result ≤ 2 ^ 66 * length objects.now }
{
    let mut len = 0;
    for object in objects {
        len += object_len(object);
    }
    len
}

/// How many bytes the attribute of a hash has.
#[tactic(auto, using(crate::proofs::Lengths::hash_long))]
fn hash_len(hash: &[u8; 32]) -> u128
    ensures long { result ≡ length (hash_text hash.now) }
    ensures bound { result < 2 ^ 66 }
{
    hash.len() as u128 * 2 + 8
}

/// How many bytes the line of a change has in a delta.
#[tactic(auto, using(crate::proofs::Lengths::placed_long, crate::proofs::Lengths::replaced_long, crate::proofs::Lengths::withdrawn_long))]
fn change_len(change: &Change) -> u128
    ensures long { result ≡ length (change_text change.now) }
    ensures bound { result < 2 ^ 68 }
{
    let uri_len = change.uri().as_str().len() as u128;
    match change {
        Change::Put {
            bytes,
            replaces: None,
            ..
        } => uri_len + base64_len(bytes.as_slice()) + 29,
        Change::Put {
            bytes,
            replaces: Some(old),
            ..
        } => uri_len + hash_len(old) + base64_len(bytes.as_slice()) + 29,
        Change::Withdraw { hash, .. } => uri_len + hash_len(hash) + 21,
    }
}

/// How many bytes the lines of these changes have in a delta.
fn changes_len(changes: &[Change]) -> u128
    ensures long { result ≡ length (flat_map change_text changes.now) }
    ensures bound { result ≤ 2 ^ 68 * length changes.now }
{
    let mut len = 0;
    for change in changes {
        len += change_len(change);
    }
    len
}

/// How many bytes the first line has, which begins with these words up to the session.
#[tactic(auto, using(crate::proofs::Lengths::opening_long))]
fn opening_len(head: &str, session: &Uuid, serial: u64) -> u128
    ensures long { result ≡ length (opening_behind head.now session.now serial) }
    ensures bound { result < 2 ^ 67 }
{
    let mut buffer = Uuid::encode_buffer();
    let session_len = session.hyphenated().encode_lower(&mut buffer).len();
    let serial_len = Buffer::new().format(serial).len();
    head.len() as u128 + session_len as u128 + serial_len as u128 + 13
}

/// How many bytes the snapshot of a set has (RFC 8182 section 3.5.2), without writing it.
pub fn snapshot_len(session: &Uuid, serial: u64, set: &ObjectSet) -> u128
    ensures { result ≡ length (snapshot_text session.now serial set.now) }
{
    opening_len(SNAPSHOT_HEAD, session, serial) + objects_len(set.as_slice()) + 12
}

/// How many bytes the delta with these changes has (RFC 8182 section 3.5.3), without writing it.
pub fn delta_len(session: &Uuid, serial: u64, changes: &[Change]) -> u128
    ensures { result ≡ length (delta_text session.now serial changes.now) }
{
    opening_len(DELTA_HEAD, session, serial) + changes_len(changes) + 9
}

/// A URI and what stands round it in its line.
fn with_uri(uri: &Uri, round: usize) -> Option<usize> {
    uri.as_str().len().checked_add(round)
}

fn delta_line_size(delta: &DeltaRef) -> Option<usize> {
    let serial = Buffer::new().format(delta.serial).len();
    with_uri(&delta.file.uri, 28 + HASH)?.checked_add(serial)
}

/// How many bytes a notification has. None where they pass 64 bits.
pub(crate) fn notification_size(
    serial: u64,
    snapshot: &FileRef,
    deltas: &[DeltaRef],
) -> Option<usize> {
    let serial = Buffer::new().format(serial).len();
    let mut size = NOTIFICATION_FRAME + serial;
    size = size.checked_add(with_uri(&snapshot.uri, 21 + HASH)?)?;
    for delta in deltas {
        size = size.checked_add(delta_line_size(delta)?)?;
    }
    Some(size)
}
