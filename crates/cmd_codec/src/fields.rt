//! The fields of a record, read one after another.

ghost use Rattle.std.specs.Prelude.{◌≡◌, ◌≤◌, ◌&&◌, nat_le, length, MatchResult, IfOk};
ghost use Rattle.names.specs.Name.{IsName};
ghost use Rattle.cmd_codec.specs.Spelling.{bytes_32, origin_spelling};
ghost use Rattle.cmd_codec.specs.Spelling.Part.{TheNumber};
ghost use Rattle.cmd_codec.specs.Fault.{field, front_32, is_any, is_name_length, is_name_text, is_origin};
ghost use Rattle.cmd_codec.specs.Outcome.{IsFaultOf, Passes, Reads, ReadsRange};

use crate::big_endian::{number_of, wide_number_at};
use crate::cursor::Cursor;
use crate::faults::RecordFault;
use crate::format::{NAME_LEN, NUMBER_SIZE, ORIGIN_SIZE, RANGE_SIZE};
use crate::origin_field::origin_of;
use names::Name;
use origins::Origin;
use res_sets::{PushFault, Range, Ranges};

impl Cursor<'_> {
    /// A number.
    pub fn number(&mut self) -> Result<u32, RecordFault>
        ensures reads { Reads (λ n. TheNumber n) (field 4 is_any) self.old self.new result }
        ensures value { IfOk result (λ n. n ≡ front_32 self.old.left) }
    {
        let fault = self.fault();
        let Some(field) = self.take(NUMBER_SIZE) else {
            return Err(fault);
        };
        Ok(number_of(field))
    }

    /// The length of a name.
    pub fn name_length(&mut self) -> Result<u32, RecordFault>
        ensures { MatchResult result
            (λ n. (n ≡ front_32 self.old.left) × (1 ≤ n) × (n ≤ 64)
            × Passes (bytes_32 n) (field 4 is_name_length) self.old self.new)
            (IsFaultOf (field 4 is_name_length self.old)) }
    {
        let fault = self.fault();
        let Some(field) = self.take(NUMBER_SIZE) else {
            return Err(fault);
        };
        let length = number_of(field);
        if !has_name_length(length) {
            return Err(fault);
        }
        Ok(length)
    }

    /// The bytes of a name of that length.
    pub fn name_of(&mut self, len: u32) -> Result<Name, RecordFault>
        requires some { 1 ≤ len }
        requires short { len ≤ 64 }
        ensures { MatchResult result
            (λ name. IsName name × (length name ≡ len) × Passes name (field len is_name_text) self.old self.new)
            (IsFaultOf (field len is_name_text self.old)) }
    {
        let fault = self.fault();
        let Some(text) = self.take(len as usize) else {
            return Err(fault);
        };
        match Name::of_bytes(text) {
            Some(name) => Ok(name),
            None => Err(fault),
        }
    }

    /// An origin.
    pub fn origin(&mut self) -> Result<Origin, RecordFault>
        ensures { MatchResult result
            (λ origin. Passes (origin_spelling origin) (field 23 is_origin) self.old self.new)
            (IsFaultOf (field 23 is_origin self.old)) }
    {
        let fault = self.fault();
        let Some(field) = self.take(ORIGIN_SIZE) else {
            return Err(fault);
        };
        match origin_of(field) {
            Some(origin) => Ok(origin),
            None => Err(fault),
        }
    }

    /// A range, which is put behind those of the set.
    pub fn range_into(&mut self, set: &mut Ranges) -> Result<(), RecordFault>
        ensures { ReadsRange set.old set.new self.old self.new result }
    {
        let fault = self.fault();
        let Some(field) = self.take(RANGE_SIZE) else {
            return Err(fault);
        };
        let (first, last) = (wide_number_at(field, 0), wide_number_at(field, 16));
        if first > last {
            return Err(fault);
        }
        match set.push(Range { first, last }) {
            Ok(()) => Ok(()),
            Err(PushFault::NotBehind) => Err(fault),
            Err(PushFault::Memory) => Err(RecordFault::Memory),
        }
    }
}

// Whether a name may be so long.
fn has_name_length(length: u32) -> bool
    ensures { result ≡ (nat_le 1 length && nat_le length 64) }
{
    length >= 1 && length <= NAME_LEN
}
