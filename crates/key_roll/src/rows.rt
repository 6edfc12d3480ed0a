//! The live keys of an edition (RFC 6489 section 2).

ghost use Rattle.std.specs.Prelude.{◌≡◌};
ghost use Rattle.key_roll.specs.Roles.{is_role};

use items::Items;
use signer_api::PublicKey;

/// What a key is for in its authority (RFC 6489 section 2).
#[derive(Clone, Copy, Debug, PartialEq, Eq)]
pub enum Role {
    /// It waits for the rollover, and issues a CRL and a manifest only.
    New,
    /// It issues the authority's certificates and ROAs.
    Current,
    /// It was replaced, and issues a CRL and a manifest only.
    Old,
}

/// Whether the two are one role.
pub fn is_role(role: Role, other: Role) -> bool
    ensures { result ≡ is_role role other }
{
    match role {
        Role::New => matches!(other, Role::New),
        Role::Current => matches!(other, Role::Current),
        Role::Old => matches!(other, Role::Old),
    }
}

/// A live key of an authority.
#[derive(Debug, Drop)]
pub struct KeyRow {
    /// The authority's desk. Numbered from 0, which is the trust anchor's.
    pub desk: u32,
    /// The signer that holds the key. Signers are numbered from 0.
    pub signer: u32,
    pub role: Role,
    pub key: PublicKey,
    /// The serial of the next certificate under the key (RFC 5280 section 4.1.2.2). The first one
    /// has serial 1.
    pub next_serial: u64,
    /// The number of the key's CRL and manifest (RFC 5280 section 5.2.3, RFC 9286 section 4.2.1).
    /// The first ones have number 1.
    pub number: u64,
    /// The thisUpdate of the key's CRL, in seconds since 1970.
    pub this_update: u64,
    /// The moment at which the authority's new key was made, and 0 where none waits. All rows of an
    /// authority have the same. In seconds since 1970.
    pub since: u64,
    /// How many of the rollovers that the authority was told to begin are done. All its rows have the
    /// same.
    pub done: u32,
    /// The entries of the key's CRL, by their serials.
    pub revoked: Items<RevokedRow>,
}

/// An entry of a key's CRL (RFC 5280 section 5.1.2.6).
#[derive(Clone, Copy, Debug, PartialEq, Eq)]
pub struct RevokedRow {
    /// The serial of the certificate.
    pub serial: u64,
    /// The notAfter of the certificate, in seconds since 1970.
    pub not_after: u64,
    /// The moment of the edition that superseded the certificate. In seconds since 1970.
    pub revoked_at: u64,
}
