ghost use Rattle.std.specs.Prelude.{◌≤◌};

/// What the numbers of a set are.
#[derive(Clone, Copy, Debug, PartialEq, Eq)]
pub enum Family {
    /// AS numbers, below 2^32.
    Asn,
    /// IPv4 addresses, below 2^32.
    V4,
    /// IPv6 addresses, below 2^128.
    V6,
}

impl Family {
    ghost use Rattle.std.specs.Prelude.{◌≡◌, ◌+◌};
    ghost use Rattle.res_sets.specs.Numbers.{family_end};

    /// The greatest number of the family. 2^32 - 1, or 2^128 - 1 for IPv6 addresses.
    pub fn last(self) -> u128
        ensures { result + 1 ≡ family_end self }
    {
        match self {
            Family::Asn | Family::V4 => u128::from(u32::MAX),
            Family::V6 => u128::MAX,
        }
    }
}

/// The numbers from the first to the last, both in.
#[derive(Clone, Copy, Debug, PartialEq, Eq)]
pub struct Range {
    pub first: u128,
    pub last: u128,
    ghost ordered: { first ≤ last },
}
