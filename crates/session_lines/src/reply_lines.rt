//! The lines of replies, in room that was taken before anything was done.
ghost use Rattle.std.specs.Prelude.{◌≡◌, ◌⊎◌, ℕ, ◌+◌, ◌≤◌, ◌↔◌, List, ◌∷◌, ◌++◌, [], length, IsTrue, OnOk, OnErr, vec_len, vec_capacity};
ghost use Rattle.std.specs.List.{list_all};
ghost use Rattle.json_api.specs.Reply.{accepted_spelling, published_spelling, serial_spelling};
ghost use Rattle.json_api.specs.Refused.{verdict_spelling, fault_spelling, refused_spelling};
ghost use Rattle.session_lines.specs.Texts.{memory_text, IsDeskFaultText, IsCommandFaultText, published_in_reply, unprepared_as, unmade_as, unexported_as, unpublished_as, awaited_text};
ghost use Rattle.session_lines.specs.Replies.{is_blank_byte, IsBlank, bad_line_text, IsTextIn};

use crate::PRESS_DEVICE;
use authority_book::Refusal;
use desk_core::DeskFault;
use disk_api::Disk;
use editions::PublishedNumbers;
use json_api::{
    LineFault, PublishedReply, Refused, accepted_into, fault_into, published_into, reached_into,
    refused_into, serial_into, verdict_into,
};
use line_loop::LINE_LIMIT;
use manager::{Awaited, CommandFault, PublishFault, Unmade};
use names::Name;
use outlet_api::{ExportFault, Outlet};
use press_core::PrepareFault;
use std::alloc::{AllocError, Global};

/// Room for an accepted command's reply, or one that needs no memory, and its line feed.
pub(crate) const REPLY_ROOM: usize = 256;

/// Appends the reply to an accepted command.
pub(crate) fn append_accepted(out: &mut Vec<u8>, name: &Name, count: u64)
    requires { vec_len out.old + REPLY_ROOM ≤ vec_capacity out.old }
    ensures { out.new.items ≡ out.old.items ++ accepted_spelling name.now count ++ 10 ∷ [] }
{
    accepted_into(out, name, count);
    append(out, b"\n");
}

/// Appends the reply to a publication.
pub(crate) fn append_published(out: &mut Vec<u8>, published: PublishedNumbers)
    requires { vec_len out.old + REPLY_ROOM ≤ vec_capacity out.old }
    ensures { out.new.items ≡ out.old.items ++ published_spelling (published_in_reply published) ++ 10 ∷ [] }
{
    let reply = PublishedReply {
        serial: published.serial,
        moment: published.moment,
        objects: published.objects,
        origins: published.origins,
    };
    published_into(out, &reply);
    append(out, b"\n");
}

/// Appends the reply to `serial`.
pub(crate) fn append_serial(out: &mut Vec<u8>, serial: u64)
    requires { vec_len out.old + REPLY_ROOM ≤ vec_capacity out.old }
    ensures { out.new.items ≡ out.old.items ++ serial_spelling serial ++ 10 ∷ [] }
{
    serial_into(out, serial);
    append(out, b"\n");
}

/// Appends the reply to `await`.
pub(crate) fn append_awaited(out: &mut Vec<u8>, awaited: Awaited)
    requires { vec_len out.old + REPLY_ROOM ≤ vec_capacity out.old }
    ensures { out.new.items ≡ out.old.items ++ awaited_text awaited ++ 10 ∷ [] }
{
    match awaited {
        Awaited::Reached { serial } => {
            reached_into(out, serial);
            append(out, b"\n");
        }
        Awaited::NotYet { seen } => append_refused(out, &Refused::NotYet { seen }),
    }
}

/// Appends the line that says why a command isn't accepted. Only the verdict's refusal may find no memory, and then
/// the line says that.
pub(crate) fn append_command_fault<D: Disk>(
    alloc: Global,
    name: &Name,
    fault: &CommandFault<D>,
    out: &mut Vec<u8>,
)
    requires { vec_len out.old + REPLY_ROOM ≤ vec_capacity out.old }
    ensures { (text : List ℕ) × (out.new.items ≡ out.old.items ++ text ++ 10 ∷ [])
        × IsCommandFaultText name.now fault.now text }
{
    match fault {
        CommandFault::NoSuchAuthority => {
            append_refused(out, &Refused::NoSuchAuthority { name: *name });
        }
        CommandFault::Refused { fault } => append_desk_fault(alloc, fault, out),
    }
}

fn append_desk_fault<D: Disk>(alloc: Global, fault: &DeskFault<D>, out: &mut Vec<u8>)
    requires { vec_len out.old + REPLY_ROOM ≤ vec_capacity out.old }
    ensures { (text : List ℕ) × (out.new.items ≡ out.old.items ++ text ++ 10 ∷ [])
        × IsDeskFaultText fault.now text }
{
    match fault {
        DeskFault::Shut { .. } => append_refused(out, &Refused::Shut),
        DeskFault::Verdict { refusal } => append_verdict(alloc, refusal, out),
        DeskFault::JournalFull { held, needed } => {
            let (held, needed) = (*held, *needed);
            append_refused(out, &Refused::JournalFull { held, needed });
        }
        DeskFault::DiskFault { rose } => {
            let device = rose.desk();
            append_refused(out, &Refused::DiskFault { device });
        }
        DeskFault::Memory => append_refused(out, &Refused::Memory),
    }
}

/// Appends the line that says why nothing is published.
pub(crate) fn append_unpublished<D: Disk, O: Outlet>(out: &mut Vec<u8>, fault: &PublishFault<D, O>)
    requires { vec_len out.old + REPLY_ROOM ≤ vec_capacity out.old }
    ensures { out.new.items ≡ out.old.items ++ refused_spelling (unpublished_as fault.now) ++ 10 ∷ [] }
{
    append_refused(out, &unpublished_as(fault));
}

// Why nothing is published, as a reply tells it.
fn unpublished_as<D: Disk, O: Outlet>(fault: &PublishFault<D, O>) -> Refused
    ensures { result ≡ unpublished_as fault.now }
{
    match fault {
        PublishFault::Unmade { fault, .. } | PublishFault::Repeated { fault, .. } => {
            unmade_as(fault)
        }
        PublishFault::Unexported { serial, fault } => unexported_as(*serial, fault),
    }
}

fn unmade_as<D: Disk>(fault: &Unmade<D>) -> Refused
    ensures { result ≡ unmade_as fault.now }
{
    match fault {
        Unmade::Unprepared { fault } => unprepared_as(fault),
        Unmade::Uncommitted { .. } => Refused::DiskFault {
            device: PRESS_DEVICE,
        },
    }
}

fn unprepared_as<D: Disk>(fault: &PrepareFault<D>) -> Refused
    ensures { result ≡ unprepared_as fault.now }
{
    match fault {
        PrepareFault::Shut { .. } => Refused::Shut,
        PrepareFault::ClockRange { now, .. } => Refused::ClockRange { now: *now },
        PrepareFault::SerialEnd { value, .. } => Refused::SerialEnd { value: *value },
        PrepareFault::Nothing { serial, .. } => Refused::Nothing { serial: *serial },
        PrepareFault::SignerFault { signer, .. } => Refused::SignerFault { signer: *signer },
        PrepareFault::KeyClash { id, .. } => Refused::KeyClash { id: *id },
        PrepareFault::JournalFull { held, needed, .. } => Refused::JournalFull {
            held: *held,
            needed: *needed,
        },
        PrepareFault::Memory => Refused::Memory,
    }
}

// Why an edition isn't exported, as a reply tells it.
fn unexported_as<O: Outlet>(serial: u64, fault: &ExportFault<O>) -> Refused
    ensures { result ≡ unexported_as serial fault.now }
{
    match fault {
        ExportFault::OutletFault { .. } => Refused::OutletFault { serial },
        ExportFault::Memory => Refused::Memory,
    }
}

/// Appends the line of a refusal.
pub(crate) fn append_refused(out: &mut Vec<u8>, refused: &Refused)
    requires { vec_len out.old + REPLY_ROOM ≤ vec_capacity out.old }
    ensures { out.new.items ≡ out.old.items ++ refused_spelling refused.now ++ 10 ∷ [] }
{
    refused_into(out, refused);
    append(out, b"\n");
}

// Appends the line of a verdict, or of want of memory where that finds none.
fn append_verdict(alloc: Global, refusal: &Refusal, out: &mut Vec<u8>)
    requires { vec_len out.old + REPLY_ROOM ≤ vec_capacity out.old }
    ensures { (text : List ℕ) × (out.new.items ≡ out.old.items ++ text ++ 10 ∷ [])
        × ((text ≡ verdict_spelling refusal.now) ⊎ (text ≡ memory_text)) }
{
    if verdict_line(alloc, refusal, out).is_err() {
        append_refused(out, &Refused::Memory);
    }
}

fn verdict_line(alloc: Global, refusal: &Refusal, out: &mut Vec<u8>) -> Result<(), AllocError>
    ensures ok { OnOk result (out.new.items ≡ out.old.items ++ verdict_spelling refusal.now ++ 10 ∷ []) }
    ensures err { OnErr result (out.new.items ≡ out.old.items) }
    ensures capacity { vec_capacity out.old ≤ vec_capacity out.new }
{
    let start = out.len();
    verdict_into(alloc, out, refusal)?;
    if out.push(b'\n').is_err() {
        out.truncate(start);
        return Err(AllocError);
    }
    Ok(())
}

/// Appends the line that says why a line isn't read, or that memory was wanting where that finds none.
pub(crate) fn append_line_fault(alloc: Global, fault: &LineFault, out: &mut Vec<u8>)
    requires { vec_len out.old + REPLY_ROOM ≤ vec_capacity out.old }
    ensures { (text : List ℕ) × (out.new.items ≡ out.old.items ++ text ++ 10 ∷ [])
        × ((text ≡ fault_spelling fault.now) ⊎ (text ≡ memory_text)) }
{
    if fault_line(alloc, fault, out).is_err() {
        append_refused(out, &Refused::Memory);
    }
}

fn fault_line(alloc: Global, fault: &LineFault, out: &mut Vec<u8>) -> Result<(), AllocError>
    ensures ok { OnOk result (out.new.items ≡ out.old.items ++ fault_spelling fault.now ++ 10 ∷ []) }
    ensures err { OnErr result (out.new.items ≡ out.old.items) }
    ensures capacity { vec_capacity out.old ≤ vec_capacity out.new }
{
    let start = out.len();
    fault_into(alloc, out, fault)?;
    if out.push(b'\n').is_err() {
        out.truncate(start);
        return Err(AllocError);
    }
    Ok(())
}

/// Appends the line of a read's text, or of want of memory.
pub(crate) fn append_told(out: &mut Vec<u8>, text: Result<Vec<u8>, AllocError>)
    requires { vec_len out.old + REPLY_ROOM ≤ vec_capacity out.old }
    ensures { (told : List ℕ) × (out.new.items ≡ out.old.items ++ told ++ 10 ∷ [])
        × (IsTextIn text told ⊎ (told ≡ memory_text)) }
{
    match text {
        Ok(text) => append_text(out, text.as_slice()),
        Err(_) => append_refused(out, &Refused::Memory),
    }
}

fn append_text(out: &mut Vec<u8>, text: &[u8])
    requires { vec_len out.old + REPLY_ROOM ≤ vec_capacity out.old }
    ensures { (told : List ℕ) × (out.new.items ≡ out.old.items ++ told ++ 10 ∷ [])
        × ((told ≡ text.now) ⊎ (told ≡ memory_text)) }
{
    if text_line(out, text).is_err() {
        append_refused(out, &Refused::Memory);
    }
}

fn text_line(out: &mut Vec<u8>, text: &[u8]) -> Result<(), AllocError>
    ensures ok { OnOk result (out.new.items ≡ out.old.items ++ text.now ++ 10 ∷ []) }
    ensures err { OnErr result (out.new.items ≡ out.old.items) }
    ensures capacity { vec_capacity out.old ≤ vec_capacity out.new }
{
    let start = out.len();
    out.extend_from_slice(text)?;
    if out.push(b'\n').is_err() {
        out.truncate(start);
        return Err(AllocError);
    }
    Ok(())
}

/// Appends the line that says that a line is none.
pub(crate) fn append_bad_line(out: &mut Vec<u8>) -> Result<(), AllocError>
    ensures ok { OnOk result (out.new.items ≡ out.old.items ++ bad_line_text ++ 10 ∷ []) }
    ensures err { OnErr result (out.new.items ≡ out.old.items) }
{
    out.reserve(REPLY_ROOM)?;
    append_refused(out, &Refused::BadLine);
    Ok(())
}

// Appends within the room that is there.
fn append(out: &mut Vec<u8>, text: &[u8])
    requires { vec_len out.old + length text.now ≤ vec_capacity out.old }
    ensures items { out.new.items ≡ out.old.items ++ text.now }
    ensures len { vec_len out.new ≡ vec_len out.old + length text.now }
    ensures capacity { vec_capacity out.old ≤ vec_capacity out.new }
{
    let _in_the_room = out.extend_from_slice(text);
}

/// Whether the bytes are blanks alone, and not too many.
pub(crate) fn is_blank(line: &[u8]) -> bool
    ensures { IsTrue result ↔ IsBlank line.now }
{
    line.len() <= LINE_LIMIT && has_blanks_alone(line)
}

fn has_blanks_alone(line: &[u8]) -> bool
    ensures { result ≡ list_all is_blank_byte line.now }
{
    line.iter().all(|b| is_blank_byte(*b))
}

fn is_blank_byte(byte: u8) -> bool
    ensures { result ≡ is_blank_byte byte }
{
    byte == b' ' || byte == b'\t' || byte == b'\r'
}
