//! The lines of replies, in room that was taken before anything was done.

ghost use Rattle.std.specs.Prelude.{◌≡◌, ◌⊎◌, ℕ, ◌+◌, ◌≤◌, List, [], ◌∷◌, ◌++◌, false, length, IfOk, OnOk, OnErr, vec_len, vec_capacity};
ghost use Rattle.json_api.specs.Reply.{accepted_spelling, published_spelling, serial_spelling};
ghost use Rattle.json_api.specs.Refused.{verdict_spelling, fault_spelling, refused_spelling};
ghost use Rattle.krill_top.specs.Replies as spec;
ghost use Rattle.krill_top.specs.Exports.{stopped_of};
ghost use Rattle.krill_top.specs.Publishing.{outcome_of, unmade_of, unprepared_by};
ghost use Rattle.krill_top.specs.Replies.{memory_text, bad_line_text, published_in_reply, publish_text, unexported_as, awaited_text, IsVerdictText, IsFaultText, IsTextIn};

use crate::command_fault::CommandFault;
use crate::press_opening::PRESS_DEVICE;
use crate::publication::Publication;
use crate::publish_fault::PublishFault;
use authority_book::Refusal;
use disk_api::Disk;
use editions::PublishedNumbers;
use json_api::{
    LineFault, PublishedReply, Refused, accepted_into, fault_into, published_into, reached_into,
    refused_into, serial_into, verdict_into,
};
use names::Name;
use outlet_api::{ExportFault, Outlet};
use press_core::PrepareFault;
use std::alloc::{AllocError, Global};

/// Room for an accepted command's reply, or one that needs no memory, and its line feed.
pub(crate) const REPLY_ROOM: usize = 256;

/// Appends the reply to an accepted command, in the room that is there.
pub(crate) fn append_accepted(out: &mut Vec<u8>, name: &Name, count: u64)
    requires { vec_len out.old + REPLY_ROOM ≤ vec_capacity out.old }
    ensures { out.new.items ≡ out.old.items ++ accepted_spelling name.now count ++ 10 ∷ [] }
{
    accepted_into(out, name, count);
    append(out, b"\n");
}

// What a publication is called in replies.
fn published_of(published: PublishedNumbers) -> PublishedReply
    ensures { result ≡ published_in_reply published }
{
    PublishedReply {
        serial: published.serial,
        moment: published.moment,
        objects: published.objects,
        origins: published.origins,
    }
}

/// Why nothing is published, as a reply tells it.
pub(crate) fn refused_of<D: Disk>(fault: &PublishFault<D>) -> Refused
    ensures { result ≡ spec.unmade_as (unmade_of fault.now) }
{
    match fault {
        PublishFault::Unprepared { fault } => unprepared_as(fault),
        PublishFault::Uncommitted { .. } => Refused::DiskFault {
            device: PRESS_DEVICE,
        },
    }
}

fn unprepared_as<D: Disk>(fault: &PrepareFault<D>) -> Refused
    ensures { result ≡ spec.unmade_as (unprepared_by fault.now) }
{
    match fault {
        PrepareFault::Shut { .. } => Refused::Shut,
        PrepareFault::ClockRange { now, .. } => Refused::ClockRange { now: *now },
        PrepareFault::SerialEnd { value, .. } => Refused::SerialEnd { value: *value },
        PrepareFault::Nothing { serial, .. } => Refused::Nothing { serial: *serial },
        PrepareFault::SignerFault { signer, .. } => Refused::SignerFault { signer: *signer },
        PrepareFault::KeyClash { id, .. } => Refused::KeyClash { id: *id },
        PrepareFault::JournalFull { held, needed, .. } => Refused::JournalFull {
            held: *held,
            needed: *needed,
        },
        PrepareFault::Memory => Refused::Memory,
    }
}

/// Appends the reply to a publication, in the room that is there.
pub(crate) fn append_publication<D: Disk, O: Outlet>(
    out: &mut Vec<u8>,
    publication: &Publication<D, O>,
)
    requires { vec_len out.old + REPLY_ROOM ≤ vec_capacity out.old }
    ensures { out.new.items ≡ out.old.items ++ publish_text (outcome_of publication.now) ++ 10 ∷ [] }
{
    match publication {
        Publication::Published { published } => append_published(out, &published_of(*published)),
        Publication::Unexported { serial, fault } => {
            append_refused(out, &unexported_as(*serial, fault));
        }
        Publication::Repeated { fault } | Publication::Refused { fault, .. } => {
            append_refused(out, &refused_of(fault));
        }
    }
}

/// Why an edition isn't exported, as a reply tells it.
pub(crate) fn unexported_as<O: Outlet>(serial: u64, fault: &ExportFault<O>) -> Refused
    ensures { result ≡ unexported_as serial (stopped_of fault.now) }
{
    match fault {
        ExportFault::OutletFault { .. } => Refused::OutletFault { serial },
        ExportFault::Memory => Refused::Memory,
    }
}

// Appends what was published, in the room that is there.
fn append_published(out: &mut Vec<u8>, published: &PublishedReply)
    requires { vec_len out.old + REPLY_ROOM ≤ vec_capacity out.old }
    ensures { out.new.items ≡ out.old.items ++ published_spelling published.now ++ 10 ∷ [] }
{
    published_into(out, published);
    append(out, b"\n");
}

/// Appends the reply to `serial`, in the room that is there.
pub(crate) fn append_serial(out: &mut Vec<u8>, serial: u64)
    requires { vec_len out.old + REPLY_ROOM ≤ vec_capacity out.old }
    ensures { out.new.items ≡ out.old.items ++ serial_spelling serial ++ 10 ∷ [] }
{
    serial_into(out, serial);
    append(out, b"\n");
}

/// Appends the reply to `await` where the last edition has that serial, in the room that is there.
pub(crate) fn append_awaited(out: &mut Vec<u8>, asked: u64, serial: u64)
    requires { vec_len out.old + REPLY_ROOM ≤ vec_capacity out.old }
    ensures { out.new.items ≡ out.old.items ++ awaited_text asked serial ++ 10 ∷ [] }
{
    if asked <= serial {
        reached_into(out, serial);
        append(out, b"\n");
    } else {
        append_refused(out, &Refused::NotYet { seen: serial });
    }
}

/// Appends the line that says why a command isn't accepted, in the room that is there, and answers whether
/// it says that memory was wanting. Only the verdict's refusal may find no memory, and then the line says
/// that.
pub(crate) fn append_fault<D: Disk>(
    alloc: Global,
    name: &Name,
    fault: &CommandFault<D>,
    out: &mut Vec<u8>,
) -> bool
    requires { vec_len out.old + REPLY_ROOM ≤ vec_capacity out.old }
    ensures { (text : List ℕ) × (out.new.items ≡ out.old.items ++ text ++ 10 ∷ [])
        × IsFaultText name.now fault.now text result }
{
    match fault {
        CommandFault::NoSuchAuthority => {
            append_other(out, &Refused::NoSuchAuthority { name: *name })
        }
        CommandFault::Shut { .. } => append_other(out, &Refused::Shut),
        CommandFault::Verdict { refusal } => append_verdict(alloc, refusal, out),
        CommandFault::JournalFull { held, needed } => append_other(
            out,
            &Refused::JournalFull {
                held: *held,
                needed: *needed,
            },
        ),
        CommandFault::DiskFault { rose } => {
            let device = rose.desk();
            append_other(out, &Refused::DiskFault { device })
        }
        CommandFault::Memory => {
            append_refused(out, &Refused::Memory);
            true
        }
    }
}

// Appends the line of a refusal that doesn't say that memory was wanting.
fn append_other(out: &mut Vec<u8>, refused: &Refused) -> bool
    requires { vec_len out.old + REPLY_ROOM ≤ vec_capacity out.old }
    ensures items { out.new.items ≡ out.old.items ++ refused_spelling refused.now ++ 10 ∷ [] }
    ensures other { result ≡ false }
{
    append_refused(out, refused);
    false
}

/// Appends the line of a refusal, in the room that is there.
pub(crate) fn append_refused(out: &mut Vec<u8>, refused: &Refused)
    requires { vec_len out.old + REPLY_ROOM ≤ vec_capacity out.old }
    ensures { out.new.items ≡ out.old.items ++ refused_spelling refused.now ++ 10 ∷ [] }
{
    refused_into(out, refused);
    append(out, b"\n");
}

// Appends the line of a verdict, or of want of memory where that finds none, and answers whether it is that.
fn append_verdict(alloc: Global, refusal: &Refusal, out: &mut Vec<u8>) -> bool
    requires { vec_len out.old + REPLY_ROOM ≤ vec_capacity out.old }
    ensures { (text : List ℕ) × (out.new.items ≡ out.old.items ++ text ++ 10 ∷ [])
        × IsVerdictText refusal.now text result }
{
    if verdict_line(alloc, refusal, out).is_err() {
        append_refused(out, &Refused::Memory);
        return true;
    }
    false
}

fn verdict_line(alloc: Global, refusal: &Refusal, out: &mut Vec<u8>) -> Result<(), AllocError>
    ensures ok { OnOk result (out.new.items ≡ out.old.items ++ verdict_spelling refusal.now ++ 10 ∷ []) }
    ensures err { OnErr result (out.new.items ≡ out.old.items) }
    ensures capacity { vec_capacity out.old ≤ vec_capacity out.new }
{
    let start = out.len();
    verdict_into(alloc, out, refusal)?;
    if out.push(b'\n').is_err() {
        out.truncate(start);
        return Err(AllocError);
    }
    Ok(())
}

/// Appends the line that says why a line isn't read, or that memory was wanting where that finds none.
pub(crate) fn append_line_fault(alloc: Global, fault: &LineFault, out: &mut Vec<u8>)
    requires { vec_len out.old + REPLY_ROOM ≤ vec_capacity out.old }
    ensures { (text : List ℕ) × (out.new.items ≡ out.old.items ++ text ++ 10 ∷ [])
        × ((text ≡ fault_spelling fault.now) ⊎ (text ≡ memory_text)) }
{
    if fault_line(alloc, fault, out).is_err() {
        append_refused(out, &Refused::Memory);
    }
}

fn fault_line(alloc: Global, fault: &LineFault, out: &mut Vec<u8>) -> Result<(), AllocError>
    ensures ok { OnOk result (out.new.items ≡ out.old.items ++ fault_spelling fault.now ++ 10 ∷ []) }
    ensures err { OnErr result (out.new.items ≡ out.old.items) }
    ensures capacity { vec_capacity out.old ≤ vec_capacity out.new }
{
    let start = out.len();
    fault_into(alloc, out, fault)?;
    if out.push(b'\n').is_err() {
        out.truncate(start);
        return Err(AllocError);
    }
    Ok(())
}

/// Appends the line of a read's text, or of want of memory. Nothing changes.
pub(crate) fn append_told(
    out: &mut Vec<u8>,
    text: Result<Vec<u8>, AllocError>,
) -> Result<bool, AllocError>
    ensures ok { IfOk result (λ changed. (changed ≡ false)
        × ((told : List ℕ) × (out.new.items ≡ out.old.items ++ told ++ 10 ∷ [])
        × (IsTextIn text told ⊎ (told ≡ memory_text)))) }
    ensures err { OnErr result (out.new.items ≡ out.old.items) }
{
    out.reserve(REPLY_ROOM)?;
    match text {
        Ok(text) => append_text(out, text.as_slice()),
        Err(_) => append_refused(out, &Refused::Memory),
    }
    Ok(false)
}

fn append_text(out: &mut Vec<u8>, text: &[u8])
    requires { vec_len out.old + REPLY_ROOM ≤ vec_capacity out.old }
    ensures { (told : List ℕ) × (out.new.items ≡ out.old.items ++ told ++ 10 ∷ [])
        × ((told ≡ text.now) ⊎ (told ≡ memory_text)) }
{
    if text_line(out, text).is_err() {
        append_refused(out, &Refused::Memory);
    }
}

fn text_line(out: &mut Vec<u8>, text: &[u8]) -> Result<(), AllocError>
    ensures ok { OnOk result (out.new.items ≡ out.old.items ++ text.now ++ 10 ∷ []) }
    ensures err { OnErr result (out.new.items ≡ out.old.items) }
    ensures capacity { vec_capacity out.old ≤ vec_capacity out.new }
{
    let start = out.len();
    out.extend_from_slice(text)?;
    if out.push(b'\n').is_err() {
        out.truncate(start);
        return Err(AllocError);
    }
    Ok(())
}

pub(crate) fn append_bad_line(out: &mut Vec<u8>) -> Result<(), AllocError>
    ensures ok { OnOk result (out.new.items ≡ out.old.items ++ bad_line_text ++ 10 ∷ []) }
    ensures err { OnErr result (out.new.items ≡ out.old.items) }
{
    out.reserve(REPLY_ROOM)?;
    append_refused(out, &Refused::BadLine);
    Ok(())
}

// Appends within the room that is there.
fn append(out: &mut Vec<u8>, text: &[u8])
    requires { vec_len out.old + length text.now ≤ vec_capacity out.old }
    ensures items { out.new.items ≡ out.old.items ++ text.now }
    ensures len { vec_len out.new ≡ vec_len out.old + length text.now }
    ensures capacity { vec_capacity out.old ≤ vec_capacity out.new }
{
    let _in_the_room = out.extend_from_slice(text);
}
