//! The parts of a record that have several fields.

ghost use Rattle.std.specs.Prelude.{◌≡◌, min, length, MatchResult, IfOk};
ghost use Rattle.std.specs.List.{flat_map};
ghost use Rattle.res_sets.specs.Sets.{IsCanonical};
ghost use Rattle.cmd_codec.specs.Spelling.{granted, origin_spelling, range_spelling};
ghost use Rattle.cmd_codec.specs.Spelling.Part.{TheName, TheOrigins, TheRanges};
ghost use Rattle.cmd_codec.specs.Fault.{part, origin_fields, range_fields, grant_kinds};
ghost use Rattle.cmd_codec.specs.Fault.Kind.{NamePart, OriginsPart, RangesPart};
ghost use Rattle.cmd_codec.specs.Outcome.{IsFaultOf, Passes, Reads, ReadsParts};

use crate::cursor::Cursor;
use crate::faults::RecordFault;
use crate::format::{ORIGIN_SIZE, RANGE_SIZE};
use authority_book::OriginList;
use names::Name;
use origins::Origin;
use res_sets::{Family, Ranges, Resources};
use std::alloc::Global;

impl Cursor<'_> {
    /// A name.
    pub fn name(&mut self) -> Result<Name, RecordFault>
        ensures { Reads (λ name. TheName name) (part NamePart) self.old self.new result }
    {
        let len = self.name_length()?;
        self.name_of(len)
    }

    /// A list of origins.
    pub fn origins(&mut self, alloc: Global) -> Result<OriginList, RecordFault>
        ensures { Reads (λ list. TheOrigins list) (part OriginsPart) self.old self.new result }
    {
        let count = self.number()?;
        let origins = self.so_many_origins(alloc, count)?;
        Ok(OriginList::new(alloc, origins)?)
    }

    // So many origins. A count is compared with the bytes that are left before memory is taken.
    fn so_many_origins(&mut self, alloc: Global, count: u32) -> Result<Vec<Origin>, RecordFault>
        ensures { MatchResult result
            (λ list. (length list.items ≡ count) × Passes (flat_map origin_spelling list.items) (origin_fields count) self.old self.new)
            (IsFaultOf (origin_fields count self.old)) }
    {
        let mut origins = Vec::with_capacity(alloc, at_most(count, self.len() / ORIGIN_SIZE))?;
        for _ in 0..count {
            origins.push(self.origin()?)?;
        }
        Ok(origins)
    }

    /// A set of the family.
    pub fn ranges(&mut self, alloc: Global, family: Family) -> Result<Ranges, RecordFault>
        ensures reads { Reads (λ set. TheRanges set) (part (RangesPart family)) self.old self.new result }
        ensures family { IfOk result (λ set. set.family ≡ family) }
    {
        let count = self.number()?;
        self.so_many_ranges(alloc, family, count)
    }

    // So many ranges. A count is compared with the bytes that are left before memory is taken.
    fn so_many_ranges(
        &mut self,
        alloc: Global,
        family: Family,
        count: u32,
    ) -> Result<Ranges, RecordFault>
        ensures { MatchResult result
            (λ set. (set.family ≡ family) × (length set.ranges ≡ count) × IsCanonical set
            × Passes (flat_map range_spelling set.ranges) (range_fields family count 0) self.old self.new)
            (IsFaultOf (range_fields family count 0 self.old)) }
    {
        let mut set = Ranges::with_room(alloc, family, at_most(count, self.len() / RANGE_SIZE))?;
        for _ in 0..count {
            self.range_into(&mut set)?;
        }
        Ok(set)
    }

    /// What a holder is granted.
    pub fn resources(&mut self, alloc: Global) -> Result<Resources, RecordFault>
        ensures { ReadsParts grant_kinds granted self.old self.new result }
    {
        let asn = self.ranges(alloc, Family::Asn)?;
        let v4 = self.ranges(alloc, Family::V4)?;
        let v6 = self.ranges(alloc, Family::V6)?;
        Ok(Resources { asn, v4, v6 })
    }
}

// The count, or what there can be at most.
fn at_most(count: u32, most: usize) -> usize
    ensures { result ≡ min count most }
{
    (count as usize).min(most)
}
