ghost use Rattle.std.specs.Prelude.{◌≡◌, ℕ, ◌^◌, ◌<◌, ◌≤◌, ◌↔◌, [], length, IsTrue, IfOk, OnOk, IfErr, OnErr, IfSome, IsSome};
ghost use Rattle.std.specs.String.{string_bytes};
ghost use Rattle.res_sets.specs.Numbers.{family_end, spans, any_spans, AreCanonical};
ghost use Rattle.res_sets.specs.Sets.{RangeSet, holds, no_numbers, with_range, GoesBehind, IsCanonical, IsEmpty, IsWhole, IsMeet, IsJoin, IsJoinOf, IsMinus, IsInside};
ghost use Rattle.res_sets.specs.Texts.{Spells, HasFault};
ghost use Rattle.res_sets.specs.Pushed.{IsPushFault};
ghost use Rattle.res_sets.specs.Printed.{ranges_text};

use crate::numbers::{Family, Range};
use crate::pushing::PushFault;
use crate::texts::{self, TextFault};
use crate::{lookup, merging, printing};
use std::alloc::{AllocError, Global};
use std::marker::Model;

/// A set of numbers of one family.
///
/// It is kept as its canonical list: sorted ranges that neither overlap nor touch, fewer than 2^32.
#[derive(Debug, Drop)]
pub struct Ranges {
    family: Family,
    ranges: Vec<Range>,
}

impl Model for Ranges {
    ghost Value = { RangeSet };

    ghost view = { λ s. record { family = s.family; ranges = s.ranges.items } };

    ghost invariant = { λ s. AreCanonical s.family s.ranges.items × (length s.ranges.items < 2 ^ 32) };
}

/// A set has fewer than 2^32 ranges, so that a count of 4 bytes holds their number.
pub const MOST_RANGES: usize = u32::MAX as usize;

impl Ranges {
    /// The set without a number. Takes no memory.
    pub fn empty(alloc: Global, family: Family) -> Ranges
        ensures { result ≡ record { family = family; ranges = [] } }
    {
        Ranges {
            family,
            ranges: Vec::new(alloc),
        }
    }

    /// The set without a number, with room for so many ranges.
    pub fn with_room(alloc: Global, family: Family, count: usize) -> Result<Ranges, AllocError>
        ensures { IfOk result (λ set. set ≡ no_numbers family) }
    {
        Ok(Ranges {
            family,
            ranges: Vec::with_capacity(alloc, count)?,
        })
    }

    /// The set of each number of the family.
    pub fn whole(alloc: Global, family: Family) -> Result<Ranges, AllocError>
        ensures { IfOk result (IsWhole family) }
    {
        Ok(Ranges {
            family,
            ranges: lookup::all(alloc, family)?,
        })
    }

    // The set with this canonical list. There is no room for 2^32 or more ranges.
    fn kept(family: Family, ranges: Vec<Range>) -> Result<Ranges, AllocError>
        requires { AreCanonical family ranges.items }
        ensures { IfOk result (λ set. set ≡ record { family = family; ranges = ranges.items }) }
    {
        if ranges.len() > MOST_RANGES {
            return Err(AllocError);
        }
        Ok(Ranges { family, ranges })
    }

    /// The set with this canonical list. Takes no memory. None where the list isn't canonical.
    pub fn from_sorted(family: Family, ranges: Vec<Range>) -> Option<Ranges>
        requires few { length ranges.items < 2 ^ 32 }
        ensures canonical { IsSome result ↔ AreCanonical family ranges.items }
        ensures value { IfSome result (λ set. set ≡ record { family = family; ranges = ranges.items }) }
    {
        if lookup::is_canonical(family, &ranges) {
            Some(Ranges { family, ranges })
        } else {
            None
        }
    }

    /// The set that the text spells.
    ///
    /// Blocks stand between commas, and a text of spaces and tabs alone is the empty set. A block is
    /// an AS number with or without `AS`, an address, a prefix, or two numbers or addresses with a
    /// hyphen between them. Spaces and tabs round commas and hyphens count for nothing.
    pub fn read_text(alloc: Global, family: Family, text: &str) -> Result<Ranges, TextFault>
        ensures spells { IfOk result (Spells family text.now) }
        ensures fault { IfErr result (HasFault family text.now) }
    {
        let ranges = texts::read_ranges(alloc, family, text.as_bytes())?;
        Ok(Ranges::kept(family, ranges)?)
    }

    /// The set as a text: its ranges in order, with a comma and a space between them.
    ///
    /// AS numbers are printed with `AS`. A range of addresses that is a prefix is printed as one, a
    /// single address too.
    pub fn text(&self, alloc: Global) -> Result<String, AllocError>
        ensures { IfOk result (λ text. string_bytes text ≡ ranges_text self.now.family self.now.ranges) }
    {
        printing::print_ranges(alloc, self.family, &self.ranges)
    }

    /// Adds a range behind those of the set: for a reader of canonical lists, range by range.
    pub fn push(&mut self, range: Range) -> Result<(), PushFault>
        ensures taken { OnOk result (GoesBehind self.old range × (self.new ≡ with_range self.old range)) }
        ensures fault { IfErr result (IsPushFault self.old range) }
        ensures kept { OnErr result (self.new ≡ self.old) }
    {
        if !lookup::goes_behind(self.family, &self.ranges, &range) {
            return Err(PushFault::NotBehind);
        }
        if self.ranges.len() == MOST_RANGES {
            return Err(PushFault::Memory);
        }
        self.ranges.push(range)?;
        Ok(())
    }

    /// The numbers that one of the ranges has, which may overlap and stand in any order. It takes
    /// the time of sorting them, and of one pass where they are sorted by their first numbers.
    pub fn join_all(alloc: Global, family: Family, ranges: Vec<Range>) -> Result<Ranges, AllocError>
        requires { (n : ℕ) → IsTrue (any_spans ranges.items n) → n < family_end family }
        ensures { IfOk result (IsJoinOf family ranges.items) }
    {
        let ranges = merging::join_all(alloc, ranges)?;
        Ranges::kept(family, ranges)
    }

    /// Whether the two are one set: of one family, and with the same numbers.
    pub fn equals(&self, other: &Ranges) -> bool
        ensures { IsTrue result ↔ (self.now ≡ other.now) }
    {
        self.family == other.family && lookup::are_same(&self.ranges, &other.ranges)
    }

    /// What the set's numbers are.
    pub fn family(&self) -> Family
        ensures { result ≡ self.now.family }
    {
        self.family
    }

    /// The canonical list of ranges.
    pub fn as_slice(&self) -> &[Range]
        ensures ranges { result.now ≡ self.now.ranges }
        ensures canonical { IsCanonical self.now }
        ensures few { length self.now.ranges < 2 ^ 32 }
    {
        self.ranges.as_slice()
    }

    /// The numbers that are in both sets. Linear in the number of ranges.
    pub fn meet(&self, alloc: Global, other: &Ranges) -> Result<Ranges, AllocError>
        requires { self.now.family ≡ other.now.family }
        ensures { IfOk result (IsMeet self.now other.now) }
    {
        let ranges = merging::meet(alloc, &self.ranges, &other.ranges)?;
        Ranges::kept(self.family, ranges)
    }

    /// The numbers that are in one of the sets or in both. Linear in the number of ranges.
    pub fn join(&self, alloc: Global, other: &Ranges) -> Result<Ranges, AllocError>
        requires { self.now.family ≡ other.now.family }
        ensures { IfOk result (IsJoin self.now other.now) }
    {
        let ranges = merging::join(alloc, &self.ranges, &other.ranges)?;
        Ranges::kept(self.family, ranges)
    }

    /// The numbers that are in this set and not in the other. Linear in the number of ranges.
    pub fn minus(&self, alloc: Global, other: &Ranges) -> Result<Ranges, AllocError>
        requires { self.now.family ≡ other.now.family }
        ensures { IfOk result (IsMinus self.now other.now) }
    {
        let ranges = merging::minus(alloc, &self.ranges, &other.ranges)?;
        Ranges::kept(self.family, ranges)
    }

    /// Whether the number is in the set. Logarithmic in the number of ranges.
    pub fn holds(&self, n: u128) -> bool
        ensures { result ≡ holds self.now n }
    {
        lookup::find(&self.ranges, n).is_some()
    }

    /// Whether each number of the range is in the set. Logarithmic in the number of ranges.
    pub fn holds_range(&self, range: &Range) -> bool
        ensures { IsTrue result ↔ ((n : ℕ) → IsTrue (spans range.now n) → IsTrue (holds self.now n)) }
    {
        match lookup::find(&self.ranges, range.first) {
            Some(found) => range.last <= found.last,
            None => false,
        }
    }

    /// Whether each number of this set is in the other. Linear in the number of ranges.
    pub fn inside(&self, other: &Ranges) -> bool
        requires { self.now.family ≡ other.now.family }
        ensures { IsTrue result ↔ IsInside self.now other.now }
    {
        lookup::is_inside(&self.ranges, &other.ranges)
    }

    /// Whether no number is in the set.
    pub fn is_empty(&self) -> bool
        ensures members { IsTrue result ↔ IsEmpty self.now }
        ensures ranges { IsTrue result ↔ (self.now.ranges ≡ []) }
    {
        self.ranges.is_empty()
    }

    /// The same set in memory of its own.
    pub fn copy(&self, alloc: Global) -> Result<Ranges, AllocError>
        ensures { IfOk result (λ copy. copy ≡ self.now) }
    {
        Ok(Ranges {
            family: self.family,
            ranges: Vec::from_slice(alloc, &self.ranges)?,
        })
    }
}

/// Two sets of a family with the same members are one: members determine the canonical list.
pub fn same_members_same_set()
    ensures { (a b : RangeSet) → IsCanonical a → IsCanonical b → a.family ≡ b.family
        → ((n : ℕ) → holds a n ≡ holds b n) → a ≡ b }
{}
