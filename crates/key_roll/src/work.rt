//! The work of an edition. Keys come and go as RFC 6489 section 2 has it, and each has what RFC
//! 6481 section 2.2 wants published.

use crate::rows::Role;
use items::Items;
use key_ids::KeyId;
use origins::Origin;
use pub_set::Uri;
use res_sets::Resources;

/// What an edition makes, puts and withdraws.
#[derive(Debug, Drop)]
pub struct Work {
    /// The moment of the edition, in seconds since 1970.
    pub moment: u64,
    /// The keys to make.
    pub new_keys: Items<NewKey>,
    /// The live keys that stay and whose role, `since` or `done` changes.
    pub roles: Items<RoleWork>,
    /// The certificates to issue (RFC 6487).
    pub certs: Items<CertWork>,
    /// The ROAs to issue (RFC 9582).
    pub roas: Items<RoaWork>,
    /// The keys whose CRL and manifest are to be issued (RFC 9286 section 5.1).
    pub points: Items<PointWork>,
    /// The URIs of the objects that go (RFC 8181 section 2.2).
    pub withdrawn: Items<Uri>,
    /// The keys that end.
    pub dropped: Items<KeyId>,
}

/// A key that the work names.
#[derive(Clone, Copy, Debug, PartialEq, Eq)]
pub enum KeyName {
    /// A key that is there.
    Live { id: KeyId },
    /// The key that the work makes for the authority with that desk.
    Fresh { desk: u32 },
}

/// A key to make for an authority.
#[derive(Clone, Copy, Debug, PartialEq, Eq)]
pub struct NewKey {
    /// The authority's desk, numbered from 0.
    pub desk: u32,
    /// The signer that is to make it. Signers are numbered from 0.
    pub signer: u32,
    pub role: Role,
    /// As in the key's row, in seconds since 1970.
    pub since: u64,
    /// As in the key's row.
    pub done: u32,
}

/// What becomes of a live key that stays.
#[derive(Clone, Copy, Debug, PartialEq, Eq)]
pub struct RoleWork {
    pub key: KeyId,
    pub role: Role,
    /// As in the key's row, in seconds since 1970.
    pub since: u64,
    /// As in the key's row.
    pub done: u32,
}

/// A certificate to issue for a key of an authority (RFC 6487 section 4).
#[derive(Debug, Drop)]
pub struct CertWork {
    /// The key that is certified.
    pub subject: KeyName,
    /// The key that signs. The trust anchor's certificate is signed by its own key.
    pub issuer: KeyName,
    /// The resources that the certificate holds.
    pub held: Resources,
}

/// A ROA to issue (RFC 9582 section 4).
#[derive(Clone, Copy, Debug, PartialEq, Eq)]
pub struct RoaWork {
    /// The key that signs the ROA's end-entity certificate.
    pub issuer: KeyName,
    pub origin: Origin,
}

/// A CRL and a manifest to issue (RFC 9286 section 5.1).
#[derive(Clone, Copy, Debug, PartialEq, Eq)]
pub struct PointWork {
    pub key: KeyName,
}
