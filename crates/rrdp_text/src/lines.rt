//! The parts of a text, appended to what is written so far (RFC 8182 section 3.5).

ghost use Rattle.std.specs.Prelude.{◌≡◌, ◌++◌, OnOk, codes, decimal, List, ℕ};
ghost use Rattle.std.specs.String.{string_bytes};
ghost use Rattle.hex.specs.Hex.{encode_lower};
ghost use Rattle.rrdp_text.specs.Texts.{opening_behind, hash_text, content_text, object_text, change_text, snapshot_line, delta_line};

use crate::fields::text_of;
use crate::files::{DeltaRef, FileRef};
use base64::engine::general_purpose::STANDARD;
use itoa::Buffer;
use pub_set::{Change, Object, Uri};
use std::alloc::AllocError;
use uuid::Uuid;

/// A number in decimal.
fn push_number(out: &mut String, number: u64) -> Result<(), AllocError>
    ensures { OnOk result (string_bytes out.new ≡ string_bytes out.old ++ decimal number) }
{
    out.push_str(Buffer::new().format(number))
}

#[tactic(auto, using(std::proofs::Common::append_assoc), unfolding(crate::specs::Texts::opening_behind))]
/// The first line, which begins with these words up to the session.
pub(crate) fn push_opening(
    out: &mut String,
    head: &str,
    session: &Uuid,
    serial: u64,
) -> Result<(), AllocError>
    ensures { OnOk result
        (string_bytes out.new ≡ string_bytes out.old ++ opening_behind head.now session.now serial) }
{
    out.push_str(head)?;
    let mut buffer = Uuid::encode_buffer();
    out.push_str(session.hyphenated().encode_lower(&mut buffer))?;
    out.push_str("\" serial=\"")?;
    push_number(out, serial)?;
    out.push_str("\">\n")
}

/// The lower-case digits of a hash.
fn push_digits(out: &mut String, hash: &[u8; 32]) -> Result<(), AllocError>
    ensures { OnOk result (string_bytes out.new ≡ string_bytes out.old ++ encode_lower hash.now) }
{
    let mut digits = [0; 64];
    let Ok(()) = hex::encode_to_slice(*hash, &mut digits) else {
        unreachable!();
    };
    out.push_str(text_of(&digits))
}

#[tactic(auto, using(std::proofs::Common::append_assoc), unfolding(crate::specs::Texts::hash_text))]
/// The attribute of a hash, with the space in front.
fn push_hash(out: &mut String, hash: &[u8; 32]) -> Result<(), AllocError>
    ensures { OnOk result (string_bytes out.new ≡ string_bytes out.old ++ hash_text hash.now) }
{
    out.push_str(" hash=\"")?;
    push_digits(out, hash)?;
    out.push_str("\"")
}

#[tactic(auto, using(std::proofs::Common::append_assoc))]
/// A line up to the quote behind its URI.
fn push_uri(out: &mut String, front: &str, uri: &Uri) -> Result<(), AllocError>
    ensures { OnOk result
        (string_bytes out.new ≡ string_bytes out.old ++ front.now ++ uri.now ++ codes "\"") }
{
    out.push_str(front)?;
    out.push_str(uri.as_str())?;
    out.push_str("\"")
}

#[tactic(auto, using(std::proofs::Common::append_assoc), unfolding(crate::specs::Texts::content_text))]
/// The bytes of an object, and the end of its line.
fn push_content(out: &mut String, bytes: &[u8]) -> Result<(), AllocError>
    ensures { OnOk result (string_bytes out.new ≡ string_bytes out.old ++ content_text bytes.now) }
{
    out.push_str(">")?;
    STANDARD.encode_string(bytes, out)?;
    out.push_str("</publish>\n")
}

#[tactic(auto, using(std::proofs::Common::append_assoc), unfolding(crate::specs::Texts::object_text))]
/// The line of an object in a snapshot.
pub(crate) fn push_object(out: &mut String, object: &Object) -> Result<(), AllocError>
    ensures { OnOk result (string_bytes out.new ≡ string_bytes out.old ++ object_text object.now) }
{
    push_uri(out, "  <publish uri=\"", &object.uri)?;
    push_content(out, object.bytes.as_slice())
}

#[tactic(auto, using(std::proofs::Common::append_assoc), unfolding(crate::specs::Texts::change_text))]
/// The line of a change in a delta.
pub(crate) fn push_change(out: &mut String, change: &Change) -> Result<(), AllocError>
    ensures { OnOk result (string_bytes out.new ≡ string_bytes out.old ++ change_text change.now) }
{
    match change {
        Change::Put {
            uri,
            bytes,
            replaces: None,
        } => {
            push_uri(out, "  <publish uri=\"", uri)?;
            push_content(out, bytes.as_slice())
        }
        Change::Put {
            uri,
            bytes,
            replaces: Some(old),
        } => {
            push_uri(out, "  <publish uri=\"", uri)?;
            push_hash(out, old)?;
            push_content(out, bytes.as_slice())
        }
        Change::Withdraw { uri, hash } => {
            push_uri(out, "  <withdraw uri=\"", uri)?;
            push_hash(out, hash)?;
            out.push_str("/>\n")
        }
    }
}

#[tactic(auto, using(std::proofs::Common::append_assoc), unfolding(crate::specs::Texts::snapshot_line))]
/// The line of the snapshot in a notification.
pub(crate) fn push_snapshot_line(out: &mut String, file: &FileRef) -> Result<(), AllocError>
    ensures { OnOk result (string_bytes out.new ≡ string_bytes out.old ++ snapshot_line file.now) }
{
    push_uri(out, "  <snapshot uri=\"", &file.uri)?;
    push_hash(out, &file.hash)?;
    out.push_str("/>\n")
}

#[tactic(auto, using(std::proofs::Common::append_assoc), unfolding(crate::specs::Texts::delta_line))]
/// The line of a delta in a notification.
pub(crate) fn push_delta_line(out: &mut String, delta: &DeltaRef) -> Result<(), AllocError>
    ensures { OnOk result (string_bytes out.new ≡ string_bytes out.old ++ delta_line delta.now) }
{
    out.push_str("  <delta serial=\"")?;
    push_number(out, delta.serial)?;
    push_uri(out, "\" uri=\"", &delta.file.uri)?;
    push_hash(out, &delta.file.hash)?;
    out.push_str("/>\n")
}
