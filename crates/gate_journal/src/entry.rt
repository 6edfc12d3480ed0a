// A record as it is written: its length, its payload and the closed gate behind it.
ghost use Rattle.std.specs.Prelude.{◌≡◌, ◌≤◌, ◌+◌, ◌-◌, ◌<◌, ◌++◌, ◌↔◌, List, [], length, drop, vec_capacity, IfOk, IsTrue};
ghost use Rattle.std.specs.Int.{w64, to_be_bytes};
ghost use Rattle.gate_journal.specs.Storing.{entry_bytes};

use crate::store::CLOSED;
use std::alloc::{AllocError, Global};
use std::marker::Model;

/// How many bytes the length of a payload takes.
const HEAD: usize = 8;

/// A record that is put together, in the buffer that the disk is given. A contract sees the payload.
///
/// It is begun by `begin`, its payload is put behind that, and `new` ends it.
#[derive(Drop)]
pub struct Entry {
    bytes: Vec<u8>,
}

impl Model for Entry {
    ghost use Rattle.std.specs.Prelude.{◌≡◌, List, ℕ};
    ghost use Rattle.gate_journal.specs.Format.{payload_of};
    ghost use Rattle.gate_journal.specs.Storing.{entry_bytes};

    ghost Value = { List ℕ };

    ghost view = { λ e. payload_of e.bytes.items };

    ghost invariant = { λ e. e.bytes.items ≡ entry_bytes (payload_of e.bytes.items) };
}

impl Entry {
    /// Room for the length of a payload, which is put behind it.
    pub fn begin(alloc: Global) -> Result<Vec<u8>, AllocError>
        ensures { IfOk result (λ buffer. length buffer.items ≡ 8) }
    {
        let mut buffer = Vec::new(alloc);
        buffer.resize(HEAD, 0)?;
        Ok(buffer)
    }

    /// The record whose payload stands in the buffer behind the first 8 bytes.
    pub fn new(buffer: Vec<u8>) -> Result<Entry, AllocError>
        requires { 8 ≤ length buffer.items }
        ensures { IfOk result (λ entry. entry ≡ drop 8 buffer.items) }
    {
        let mut buffer = buffer;
        buffer.reserve(1)?;
        Ok(Entry::ended(buffer))
    }

    /// Puts the length in front and the closed gate behind, in room that is there.
    fn ended(buffer: Vec<u8>) -> Entry
        requires long { 8 ≤ length buffer.items }
        requires room { length buffer.items < vec_capacity buffer }
        ensures { result ≡ drop 8 buffer.items }
    {
        let mut bytes = with_length(buffer);
        bytes.push_reserved(CLOSED);
        Entry { bytes }
    }

    /// The record of this payload, put together in room that is there.
    pub(crate) fn spelled(buffer: Vec<u8>, payload: &[u8]) -> Entry
        requires { length payload.now + 9 ≤ vec_capacity buffer }
        ensures { result ≡ payload.now }
    {
        let mut bytes = buffer;
        bytes.clear();
        bytes.extend_from_slice(&[0; HEAD]).unwrap();
        bytes.extend_from_slice(payload).unwrap();
        Entry::ended(bytes)
    }

    /// The payload's length. In bytes.
    pub fn len(&self) -> u64
        ensures { result ≡ length self.now }
    {
        (self.bytes.len() - (HEAD + 1)) as u64
    }

    /// Whether the payload has no bytes.
    pub fn is_empty(&self) -> bool
        ensures { IsTrue result ↔ (self.now ≡ []) }
    {
        self.len() == 0
    }

    /// The payload.
    pub fn payload(&self) -> &[u8]
        ensures { result.now ≡ self.now }
    {
        &self.bytes[HEAD..self.bytes.len() - 1]
    }

    /// What stands behind the record's gate.
    pub(crate) fn bytes(&self) -> &[u8]
        ensures { result.now ≡ entry_bytes self.now }
    {
        &self.bytes
    }

    /// The buffer, as it stands.
    pub(crate) fn into_buffer(self) -> Vec<u8>
        ensures { result.items ≡ entry_bytes self }
    {
        self.bytes
    }
}

/// The buffer with the length of what stands behind its first 8 bytes in these.
fn with_length(buffer: Vec<u8>) -> Vec<u8>
    requires { 8 ≤ length buffer.items }
    ensures items { result.items ≡ to_be_bytes w64 (length buffer.items - 8) ++ drop 8 buffer.items }
    ensures capacity { vec_capacity result ≡ vec_capacity buffer }
{
    let mut bytes = buffer;
    put_length(bytes.as_mut_slice());
    bytes
}

fn put_length(bytes: &mut [u8])
    requires { 8 ≤ length bytes.old }
    ensures { bytes.new ≡ to_be_bytes w64 (length bytes.old - 8) ++ drop 8 bytes.old }
{
    let size = (bytes.len() - HEAD) as u64;
    bytes[..HEAD].copy_from_slice(&size.to_be_bytes());
}
