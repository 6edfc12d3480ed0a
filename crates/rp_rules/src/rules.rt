//! The rules by which a relying party accepts an object (RFC 6487 section 7, RFC 9286 section 6).

ghost use Rattle.std.specs.Prelude.{◌≡◌};
ghost use Rattle.rp_rules.specs.Rules.{code_of, name_of};

/// A rule of the walk, in the order in which an object is tested.
#[derive(Clone, Copy, Debug, PartialEq, Eq)]
pub enum Rule {
    /// A URI that is named is in the set (RFC 9286 sections 6.2 and 6.4).
    Missing,
    /// The hash that a manifest lists is that of the file (RFC 9286 section 6.5).
    Hash,
    /// The bytes are in the grammar of the kind (RFC 6487 sections 4 and 5, RFC 6488 section 3, RFC
    /// 9286 section 4, RFC 9582 section 4).
    Shape,
    /// Each signature is vouched under its key (RFC 6487 section 7.2, RFC 6488 section 3).
    Signature,
    /// Names and identifiers of keys meet (RFC 6487 section 7.2, RFC 5280 section 6.1.3, RFC 8630
    /// section 3).
    Identity,
    /// The moment lies in the validity or between the updates (RFC 6487 section 7.2, RFC 9286
    /// section 6.3).
    Time,
    /// Resources lie inside those of the issuer (RFC 6487 section 7.1, RFC 9582 section 5).
    Resources,
    /// The serial isn't on the issuer's CRL (RFC 6487 section 7.2).
    Revoked,
    /// A URI is the one in use for the object (RFC 6481 section 2, RFC 6487 sections 4.8.6 to
    /// 4.8.8).
    Place,
    /// A manifest lists one CRL and beside it certificates and ROAs alone, and has the CRL's number
    /// (RFC 9286 sections 2 and 4.2.2).
    List,
    /// An authority is at most 64 below the anchor, and no URI is visited twice.
    Depth,
}

impl Rule {
    /// The rule's number, from 1.
    pub fn code(self) -> u32
        ensures { result ≡ code_of self }
    {
        match self {
            Rule::Missing => 1,
            Rule::Hash => 2,
            Rule::Shape => 3,
            Rule::Signature => 4,
            Rule::Identity => 5,
            Rule::Time => 6,
            Rule::Resources => 7,
            Rule::Revoked => 8,
            Rule::Place => 9,
            Rule::List => 10,
            Rule::Depth => 11,
        }
    }

    /// The rule's name.
    pub fn name(self) -> &'static str
        ensures { result.now ≡ name_of self }
    {
        match self {
            Rule::Missing => "Missing",
            Rule::Hash => "Hash",
            Rule::Shape => "Shape",
            Rule::Signature => "Signature",
            Rule::Identity => "Identity",
            Rule::Time => "Time",
            Rule::Resources => "Resources",
            Rule::Revoked => "Revoked",
            Rule::Place => "Place",
            Rule::List => "List",
            Rule::Depth => "Depth",
        }
    }
}
