//! Which certificates have a spelling (RFC 6487 section 4).

ghost use Rattle.std.specs.Prelude.{◌≡◌, ◌↔◌, ◌<◌, ◌^◌, true, Some, length, IsTrue};
ghost use Rattle.der.specs.Grammar.{AreBytes};
ghost use Rattle.moments.specs.Civil.{IsMoment};
ghost use Rattle.res_sets.specs.declared.holdings.Resources.{Resources};
ghost use Rattle.cert_obj.specs.Values.{IsUriIf, is_issued, is_authority, is_entity, AreUris, IsHeld, may_hold, IsCert, sets_of, held_value, uris_value, cert_value};

use crate::holdings::has_no_numbers;
use crate::uris::is_uri;
use crate::values::{Cert, CertKind, CertUris, Held};
use moments::is_moment;
use res_sets::Resources;

/// Whether two times have spellings.
fn are_moments(one: u64, other: u64) -> bool
    ensures { IsTrue result ↔ (IsMoment one × IsMoment other) }
{
    is_moment(one) && is_moment(other)
}

impl CertKind {
    /// Whether another key signs it. It names that key's CRL and certificate (RFC 6487 sections
    /// 4.8.6 and 4.8.7).
    pub fn is_issued(self) -> bool
        ensures { result ≡ is_issued self }
    {
        match self {
            CertKind::Anchor => false,
            CertKind::Authority | CertKind::EndEntity => true,
        }
    }

    /// Whether its key signs certificates, a CRL and a manifest. It says where they stand (RFC 6487
    /// section 4.8.8.1).
    pub fn is_authority(self) -> bool
        ensures { result ≡ is_authority self }
    {
        match self {
            CertKind::Anchor | CertKind::Authority => true,
            CertKind::EndEntity => false,
        }
    }

    /// Whether its key signs one object. It names the object (RFC 6487 section 4.8.8.2).
    pub fn is_entity(self) -> bool
        ensures { result ≡ is_entity self }
    {
        match self {
            CertKind::Anchor | CertKind::Authority => false,
            CertKind::EndEntity => true,
        }
    }
}

/// Whether it is a URI where there is to be one, and else nothing.
fn is_uri_if(there: bool, uri: &str) -> bool
    ensures { IsTrue result ↔ IsUriIf there uri.now }
{
    if there {
        is_uri(uri.as_bytes())
    } else {
        uri.is_empty()
    }
}

/// Whether these are the URIs of a kind.
fn are_uris(kind: CertKind, uris: &CertUris) -> bool
    ensures { IsTrue result ↔ AreUris kind (uris_value uris.now) }
{
    let issued = kind.is_issued();
    let authority = kind.is_authority();
    is_uri_if(issued, &uris.crl)
        && is_uri_if(issued, &uris.issuer)
        && is_uri_if(authority, &uris.folder)
        && is_uri_if(authority, &uris.manifest)
        && is_uri_if(authority, &uris.notify)
        && is_uri_if(kind.is_entity(), &uris.object)
}

/// Whether a key of that kind may hold these.
fn may_hold(kind: CertKind, held: &Held) -> bool
    ensures { result ≡ may_hold kind (held_value held.now) }
{
    match kind {
        CertKind::Anchor | CertKind::Authority => true,
        CertKind::EndEntity => has_no_numbers(held),
    }
}

/// What the types say: resources are canonical sets.
pub fn are_sets(resources: &Resources)
    ensures { IsHeld (Some (sets_of resources.now)) }
{
    let _asn = resources.asn.as_slice();
    let _v4 = resources.v4.as_slice();
    let _v6 = resources.v6.as_slice();
}

/// The same of resources that may be the issuer's.
fn is_held(held: &Held)
    ensures { IsHeld (held_value held.now) }
{
    if let Held::Set { resources } = held {
        are_sets(resources);
    }
}

/// What the type says: bytes are below 2 ^ 8.
fn are_bytes(bytes: &[u8])
    ensures { AreBytes bytes.now }
{}

/// What the types say: an identifier is 20 bytes, and a serial has 64 bits.
fn are_whole(issuer: &[u8; 20], serial: u64)
    ensures length { length issuer.now ≡ 20 }
    ensures bytes { AreBytes issuer.now }
    ensures serial { serial < 2 ^ 64 }
{
    are_bytes(issuer)
}

impl Cert {
    /// Whether it has a spelling: its times lie in the years 2000 to 9999, it has just the URIs of its kind,
    /// in ASCII, and no AS numbers that an end-entity may not hold.
    pub fn has_spelling(&self) -> bool
        ensures { IsTrue result ↔ IsCert (cert_value self.now) }
    {
        are_whole(&self.issuer.bytes, self.serial);
        is_held(&self.held);
        are_moments(self.not_before, self.not_after)
            && may_hold(self.kind, &self.held)
            && are_uris(self.kind, &self.uris)
    }
}
