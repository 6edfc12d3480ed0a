//! Refusals: a number, what it is about, a name.

ghost use Rattle.std.specs.Prelude.{◌≡◌, ◌+◌, ◌≤◌, ◌<◌, ◌^◌, ◌++◌, [], true, length, codes, decimal, vec_len, vec_capacity, string_bytes, IfOk, OnOk, OnErr};
ghost use Rattle.std.specs.List.{list_all};
ghost use Rattle.hex.specs.Hex.{encode_lower};
ghost use Rattle.json.specs.Print.{escape};
ghost use Rattle.std.specs.Char.{is_ascii_alphabetic};
ghost use Rattle.authority_book.specs.Refusals.{code_of, name_of};
ghost use Rattle.json_api.specs.Reply.{refusal_spelling};
ghost use Rattle.json_api.specs.Refused.{detail_text, refused_spelling, verdict_detail, verdict_spelling, fault_spelling};

use crate::line::LineFault;
use crate::reply::{append, refusal_bytes};
use authority_book::Refusal;
use key_ids::KeyId;
use names::Name;
use std::alloc::{AllocError, Global};

/// The reply where memory was wanting. It takes none.
pub const MEMORY_REPLY: &str = "{\"code\":40,\"detail\":\"\",\"refused\":\"Memory\"}";

// Room for the longest refusal that needs no escape.
const REFUSAL_ROOM: usize = 200;

/// Why a line gets no other reply. Telling it takes no memory. `held` and `needed` are in bytes,
/// `now` is in seconds since 1970, and devices and signers are numbered from 0.
#[derive(Clone, Copy, Debug, PartialEq, Eq)]
pub enum Refused {
    /// No authority has that name.
    NoSuchAuthority { name: Name },
    /// An earlier call of the device failed.
    Shut,
    /// The bytes that the journal takes and those of the record are more than the limit.
    JournalFull { held: u64, needed: u64 },
    /// The device of that number failed.
    DiskFault { device: u32 },
    /// Nothing is to be published: all stands since that serial.
    Nothing { serial: u64 },
    /// The clock, or the moment that it comes to, is out of range.
    ClockRange { now: u64 },
    /// The serial or the next one, or a number of a key, is at its end.
    SerialEnd { value: u64 },
    /// The signer of that number failed.
    SignerFault { signer: u32 },
    /// A key that was made has the identifier of another one.
    KeyClash { id: KeyId },
    /// The outlet failed: the edition with that serial stands, and isn't exported.
    OutletFault { serial: u64 },
    /// The edition that was waited for wasn't seen: the last one that was has that serial.
    NotYet { seen: u64 },
    BadLine,
    UnknownCommand,
    Memory,
}

// What a refusal is about.
#[derive(Clone, Copy)]
pub(crate) enum Detail {
    Empty,
    Number(u64),
    Numbers(u64, u64),
    Name(Name),
    Key(KeyId),
}

/// Appends the refusal, in the room that is there.
pub fn refused_into(out: &mut Vec<u8>, refused: &Refused)
    requires room { vec_len out.old + 200 ≤ vec_capacity out.old }
    ensures text { out.new.items ≡ out.old.items ++ refused_spelling refused.now }
    ensures short { vec_len out.new ≤ vec_len out.old + 200 }
    ensures capacity { vec_capacity out.old ≤ vec_capacity out.new }
{
    match *refused {
        Refused::NoSuchAuthority { name } => {
            refusal_into(out, 20, Detail::Name(name), "NoSuchAuthority")
        }
        Refused::Shut => refusal_into(out, 21, Detail::Empty, "Shut"),
        Refused::JournalFull { held, needed } => {
            refusal_into(out, 22, Detail::Numbers(held, needed), "JournalFull")
        }
        Refused::DiskFault { device } => {
            refusal_into(out, 23, Detail::Number(u64::from(device)), "DiskFault")
        }
        Refused::Nothing { serial } => refusal_into(out, 24, Detail::Number(serial), "Nothing"),
        Refused::ClockRange { now } => refusal_into(out, 25, Detail::Number(now), "ClockRange"),
        Refused::SerialEnd { value } => refusal_into(out, 26, Detail::Number(value), "SerialEnd"),
        Refused::SignerFault { signer } => {
            refusal_into(out, 27, Detail::Number(u64::from(signer)), "SignerFault")
        }
        Refused::KeyClash { id } => refusal_into(out, 28, Detail::Key(id), "KeyClash"),
        Refused::OutletFault { serial } => {
            refusal_into(out, 29, Detail::Number(serial), "OutletFault")
        }
        Refused::NotYet { seen } => refusal_into(out, 30, Detail::Number(seen), "NotYet"),
        Refused::BadLine => refusal_into(out, 31, Detail::Empty, "BadLine"),
        Refused::UnknownCommand => refusal_into(out, 32, Detail::Empty, "UnknownCommand"),
        Refused::Memory => refusal_into(out, 40, Detail::Empty, "Memory"),
    }
}

// Appends a refusal that needs no escape, in the room that is there.
fn refusal_into(out: &mut Vec<u8>, code: u32, detail: Detail, name: &str)
    requires room { vec_len out.old + 200 ≤ vec_capacity out.old }
    requires letters { list_all is_ascii_alphabetic name.now ≡ true }
    requires few { length name.now ≤ 20 }
    ensures text { out.new.items ≡ out.old.items ++ refusal_spelling code (detail_text detail) name.now }
    ensures short { vec_len out.new ≤ vec_len out.old + 200 }
    ensures capacity { vec_capacity out.old ≤ vec_capacity out.new }
{
    let mut digits = itoa::Buffer::new();
    append(out, b"{\"code\":");
    append(out, digits.format(code).as_bytes());
    append(out, b",\"detail\":\"");
    detail_into(out, detail);
    append(out, b"\",\"refused\":\"");
    append(out, name.as_bytes());
    append(out, b"\"}");
}

fn detail_into(out: &mut Vec<u8>, detail: Detail)
    requires room { vec_len out.old + 70 ≤ vec_capacity out.old }
    ensures text { out.new.items ≡ out.old.items ++ detail_text detail }
    ensures plain { escape (detail_text detail) ≡ detail_text detail }
    ensures short { vec_len out.new ≤ vec_len out.old + 70 }
    ensures capacity { vec_capacity out.old ≤ vec_capacity out.new }
{
    match detail {
        Detail::Empty => {}
        Detail::Number(n) => number_into(out, n),
        Detail::Numbers(first, second) => numbers_into(out, first, second),
        Detail::Name(name) => name_into(out, &name),
        Detail::Key(id) => key_into(out, &id),
    }
}

fn number_into(out: &mut Vec<u8>, n: u64)
    requires room { vec_len out.old + 20 ≤ vec_capacity out.old }
    ensures text { out.new.items ≡ out.old.items ++ decimal n }
    ensures plain { escape (decimal n) ≡ decimal n }
    ensures short { vec_len out.new ≤ vec_len out.old + 20 }
    ensures capacity { vec_capacity out.old ≤ vec_capacity out.new }
{
    let mut digits = itoa::Buffer::new();
    append(out, digits.format(n).as_bytes());
}

// Two numbers with a space between them.
fn numbers_into(out: &mut Vec<u8>, first: u64, second: u64)
    requires room { vec_len out.old + 50 ≤ vec_capacity out.old }
    ensures text { out.new.items ≡ out.old.items ++ (decimal first ++ codes " " ++ decimal second) }
    ensures plain { escape (decimal first ++ codes " " ++ decimal second)
        ≡ decimal first ++ codes " " ++ decimal second }
    ensures short { vec_len out.new ≤ vec_len out.old + 50 }
    ensures capacity { vec_capacity out.old ≤ vec_capacity out.new }
{
    number_into(out, first);
    append(out, b" ");
    number_into(out, second);
}

fn name_into(out: &mut Vec<u8>, name: &Name)
    requires room { vec_len out.old + 64 ≤ vec_capacity out.old }
    ensures text { out.new.items ≡ out.old.items ++ name.now }
    ensures plain { escape name.now ≡ name.now }
    ensures short { vec_len out.new ≤ vec_len out.old + 64 }
    ensures capacity { vec_capacity out.old ≤ vec_capacity out.new }
{
    append(out, name.as_bytes());
}

// The hex digits of a key's identifier.
fn key_into(out: &mut Vec<u8>, id: &KeyId)
    requires room { vec_len out.old + 40 ≤ vec_capacity out.old }
    ensures text { out.new.items ≡ out.old.items ++ encode_lower id.now.bytes }
    ensures plain { escape (encode_lower id.now.bytes) ≡ encode_lower id.now.bytes }
    ensures short { vec_len out.new ≤ vec_len out.old + 40 }
    ensures capacity { vec_capacity out.old ≤ vec_capacity out.new }
{
    digits_are_plain(&id.bytes);
    append(out, &id.hex());
}

// A law, with nothing to run: hex digits need no escape.
fn digits_are_plain(bytes: &[u8])
    ensures { escape (encode_lower bytes.now) ≡ encode_lower bytes.now }
{}

/// Appends the reply to a command that the verdict refused, whole or not at all.
pub fn verdict_into(alloc: Global, out: &mut Vec<u8>, refusal: &Refusal) -> Result<(), AllocError>
    ensures ok { OnOk result (out.new.items ≡ out.old.items ++ verdict_spelling refusal.now) }
    ensures err { OnErr result (out.new.items ≡ out.old.items) }
    ensures capacity { vec_capacity out.old ≤ vec_capacity out.new }
{
    let detail = match refusal {
        Refusal::OriginThere { origin }
        | Refusal::OriginTwice { origin }
        | Refusal::NoSuchOrigin { origin } => {
            let text = origin.text(alloc)?;
            return append_refusal(alloc, out, refusal.code(), &text, refusal.name());
        }
        Refusal::TooManyOrigins { after } => Detail::Number(*after),
        _ => Detail::Empty,
    };
    out.reserve(REFUSAL_ROOM)?;
    refusal_into(out, refusal.code(), detail, refusal.name());
    Ok(())
}

/// Appends the reply to what is no line of the table, whole or not at all.
pub fn fault_into(alloc: Global, out: &mut Vec<u8>, fault: &LineFault) -> Result<(), AllocError>
    ensures ok { OnOk result (out.new.items ≡ out.old.items ++ fault_spelling fault.now) }
    ensures err { OnErr result (out.new.items ≡ out.old.items) }
    ensures capacity { vec_capacity out.old ≤ vec_capacity out.new }
{
    let refused = match fault {
        LineFault::BadField { name } => {
            return append_refusal(alloc, out, 33, name.as_str(), "BadField");
        }
        LineFault::BadLine => Refused::BadLine,
        LineFault::UnknownCommand => Refused::UnknownCommand,
        LineFault::Memory => Refused::Memory,
    };
    out.reserve(REFUSAL_ROOM)?;
    refused_into(out, &refused);
    Ok(())
}

// Appends any refusal, whole or not at all.
fn append_refusal(
    alloc: Global,
    out: &mut Vec<u8>,
    code: u32,
    detail: &str,
    refused: &str,
) -> Result<(), AllocError>
    ensures ok { OnOk result (out.new.items
        ≡ out.old.items ++ refusal_spelling code detail.now refused.now) }
    ensures err { OnErr result (out.new.items ≡ out.old.items) }
    ensures capacity { vec_capacity out.old ≤ vec_capacity out.new }
{
    let text = refusal_bytes(alloc, code, detail, refused)?;
    out.extend_from_slice(&text)
}

/// The constant reply is the refusal 40, of nothing.
pub fn memory_reply()
    ensures { MEMORY_REPLY.now ≡ refusal_spelling 40 [] (codes "Memory") }
{}
