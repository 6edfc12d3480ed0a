ghost use Rattle.std.specs.Prelude.{◌≡◌};
ghost use Rattle.res_sets.specs.declared.numbers.Family.TheVariants.{Asn, V4, V6};

use crate::numbers::Family;
use crate::sets::Ranges;
use std::alloc::{AllocError, Global};

/// The resources of a holder: a set of each family (RFC 3779 sections 2 and 3).
#[derive(Debug, Drop)]
pub struct Resources {
    pub asn: Ranges,
    pub v4: Ranges,
    pub v6: Ranges,
    ghost asn_family: { asn.family ≡ Asn },
    ghost v4_family: { v4.family ≡ V4 },
    ghost v6_family: { v6.family ≡ V6 },
}

impl Resources {
    ghost use Rattle.std.specs.Prelude.{◌↔◌, IsTrue, IfOk};
    ghost use Rattle.res_sets.specs.Triples.{set_of, has, HaveNone, AreWhole, AreMeets, AreInside, AreEmpty};

    /// No number of any family. Takes no memory.
    pub fn empty(alloc: Global) -> Resources
        ensures { HaveNone result }
    {
        Resources {
            asn: Ranges::empty(alloc, Family::Asn),
            v4: Ranges::empty(alloc, Family::V4),
            v6: Ranges::empty(alloc, Family::V6),
        }
    }

    /// Each number of each family.
    pub fn whole(alloc: Global) -> Result<Resources, AllocError>
        ensures { IfOk result AreWhole }
    {
        Ok(Resources {
            asn: Ranges::whole(alloc, Family::Asn)?,
            v4: Ranges::whole(alloc, Family::V4)?,
            v6: Ranges::whole(alloc, Family::V6)?,
        })
    }

    /// The set of the family.
    pub fn set(&self, family: Family) -> &Ranges
        ensures { result.now ≡ set_of self.now family }
    {
        match family {
            Family::Asn => &self.asn,
            Family::V4 => &self.v4,
            Family::V6 => &self.v6,
        }
    }

    /// Whether the number of the family is in. Logarithmic in the number of ranges.
    pub fn holds(&self, family: Family, n: u128) -> bool
        ensures { result ≡ has self.now family n }
    {
        self.set(family).holds(n)
    }

    /// Whether the two have the same numbers in each family.
    pub fn equals(&self, other: &Resources) -> bool
        ensures { IsTrue result ↔ (self.now ≡ other.now) }
    {
        self.asn.equals(&other.asn) && self.v4.equals(&other.v4) && self.v6.equals(&other.v6)
    }

    /// Family by family, the numbers that are in both.
    pub fn meet(&self, alloc: Global, other: &Resources) -> Result<Resources, AllocError>
        ensures { IfOk result (AreMeets self.now other.now) }
    {
        Ok(Resources {
            asn: self.asn.meet(alloc, &other.asn)?,
            v4: self.v4.meet(alloc, &other.v4)?,
            v6: self.v6.meet(alloc, &other.v6)?,
        })
    }

    /// Whether, family by family, each number is in the other.
    pub fn inside(&self, other: &Resources) -> bool
        ensures { IsTrue result ↔ AreInside self.now other.now }
    {
        self.asn.inside(&other.asn) && self.v4.inside(&other.v4) && self.v6.inside(&other.v6)
    }

    /// Whether none of the three sets has a number.
    pub fn is_empty(&self) -> bool
        ensures { IsTrue result ↔ AreEmpty self.now }
    {
        self.asn.is_empty() && self.v4.is_empty() && self.v6.is_empty()
    }

    /// The same sets in memory of their own.
    pub fn copy(&self, alloc: Global) -> Result<Resources, AllocError>
        ensures { IfOk result (λ copy. copy ≡ self.now) }
    {
        Ok(Resources {
            asn: self.asn.copy(alloc)?,
            v4: self.v4.copy(alloc)?,
            v6: self.v6.copy(alloc)?,
        })
    }
}
