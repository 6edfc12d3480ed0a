//! What extensions say (RFC 3779 sections 2.2 and 3.2).

ghost use Rattle.std.specs.Prelude.{◌≡◌, length, true};
ghost use Rattle.res_sets.specs.declared.numbers.Family.TheVariants.{Asn, V4, V6};

use res_sets::Ranges;

/// What an extension of IP address blocks says (RFC 3779 section 2.2.3).
#[derive(Debug, Drop)]
pub struct IpRead {
    /// Whether the addresses are those of the issuer. The sets are empty then.
    pub inherit: bool,
    pub v4: Ranges,
    pub v6: Ranges,
    ghost v4_family: { v4.family ≡ V4 },
    ghost v6_family: { v6.family ≡ V6 },
    ghost v4_alone: { inherit ≡ true → length v4.ranges ≡ 0 },
    ghost v6_alone: { inherit ≡ true → length v6.ranges ≡ 0 },
}

/// What an extension of AS identifiers says (RFC 3779 section 3.2.3).
#[derive(Debug, Drop)]
pub struct AsRead {
    /// Whether the AS numbers are those of the issuer. The set is empty then.
    pub inherit: bool,
    pub asn: Ranges,
    ghost family: { asn.family ≡ Asn },
    ghost alone: { inherit ≡ true → length asn.ranges ≡ 0 },
}
