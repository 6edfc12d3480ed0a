//! The extensions of each kind of certificate (RFC 6487 section 4.8).

ghost use Rattle.std.specs.Prelude.{◌≡◌, string_bytes};
ghost use Rattle.std.proofs.Common.{inl, inr};
ghost use Rattle.der.specs.Part.{place};
ghost use Rattle.der.specs.Forms.{choice, preceded};
ghost use Rattle.der.specs.Outcome.{GivesUnlessMemory};
ghost use Rattle.cert_obj.specs.Values.{held_value};
ghost use Rattle.object_parts.specs.FrameFormats.{issuer_key};
ghost use Rattle.cert_obj.specs.inner.Views.{published_value, issued_value, authority_value, entity_value, extended_value};
ghost use Rattle.cert_obj.specs.Formats.{published, anchor_rest, issued_authority, entity, issued_entity, authority_extensions, entity_extensions, of_kinds, kinds, extensions};

use crate::fixed::{
    AUTHORITY_USAGE, ENTITY_USAGE, basic_constraints, key_usage, policies, subject_key,
};
use crate::holdings::{entity_held, held};
use crate::uris::{
    AccessUris, authority_information, distribution, entity_information, issuer_information,
};
use crate::values::{CertKind, CertUris, Held};
use der::tags::{CONTEXT_3, SEQUENCE};
use der::{Part, ShapeFault};
use object_parts::issuer_key;
use std::alloc::Global;

/// What an authority's extensions say behind keyUsage (RFC 6487 sections 4.8.8.1 to 4.8.11).
#[derive(Drop)]
pub struct PublishedRead {
    pub places: AccessUris,
    pub held: Held,
}

/// The same of an authority that isn't the anchor (RFC 6487 sections 4.8.6 to 4.8.11).
#[derive(Drop)]
pub struct IssuedRead {
    pub crl: String,
    pub issuer: String,
    pub published: PublishedRead,
}

/// What an authority's extensions say.
#[derive(Drop)]
pub enum AuthorityRead {
    Anchor(PublishedRead),
    Issued(IssuedRead),
}

/// What an end-entity's extensions say (RFC 6487 sections 4.8.6, 4.8.7, 4.8.8.2, 4.8.10 and
/// 4.8.11).
#[derive(Drop)]
pub struct EntityRead {
    pub crl: String,
    pub issuer: String,
    pub object: String,
    pub held: Held,
}

/// What extensions say.
#[derive(Drop)]
pub struct ExtendedRead {
    pub kind: CertKind,
    pub held: Held,
    pub uris: CertUris,
}

/// The places and the resources of an authority.
#[tactic(auto, unfolding(crate::specs::Formats::published))]
fn published(alloc: Global, part: Part<'_>) -> Result<PublishedRead, ShapeFault>
    ensures { GivesUnlessMemory published_value result (published.read (place part.entry)) }
{
    let (places, rest) = authority_information(alloc, part)?;
    let rest = policies(rest)?;
    let held = held(alloc, rest)?;
    Ok(PublishedRead { places, held })
}

/// The anchor's extensions behind the subject's.
#[tactic(auto, unfolding(crate::specs::Formats::anchor_rest))]
fn anchor_rest(alloc: Global, part: Part<'_>) -> Result<PublishedRead, ShapeFault>
    ensures { GivesUnlessMemory published_value result (anchor_rest.read (place part.entry)) }
{
    let rest = key_usage(part, &AUTHORITY_USAGE)?;
    published(alloc, rest)
}

/// Another authority's extensions behind the issuer's key.
#[tactic(auto, unfolding(crate::specs::Formats::issued_authority))]
fn issued_authority(alloc: Global, part: Part<'_>) -> Result<IssuedRead, ShapeFault>
    ensures { GivesUnlessMemory issued_value result (issued_authority.read (place part.entry)) }
{
    let rest = key_usage(part, &AUTHORITY_USAGE)?;
    let (crl, rest) = distribution(alloc, rest)?;
    let (issuer, rest) = issuer_information(alloc, rest)?;
    let published = published(alloc, rest)?;
    Ok(IssuedRead {
        crl,
        issuer,
        published,
    })
}

/// Another authority's extensions behind the subject's.
fn issued_rest(alloc: Global, part: Part<'_>, issuer: &[u8; 20]) -> Result<IssuedRead, ShapeFault>
    ensures { GivesUnlessMemory issued_value result
        ((preceded (issuer_key issuer.now) issued_authority).read (place part.entry)) }
{
    let rest = issuer_key(part, issuer)?;
    issued_authority(alloc, rest)
}

/// An authority's extensions behind the subject's.
fn authority_rest(
    alloc: Global,
    part: Part<'_>,
    issuer: &[u8; 20],
) -> Result<AuthorityRead, ShapeFault>
    ensures { GivesUnlessMemory authority_value result
        ((choice anchor_rest (preceded (issuer_key issuer.now) issued_authority)).read
        (place part.entry)) }
{
    match anchor_rest(alloc, part) {
        Ok(published) => Ok(AuthorityRead::Anchor(published)),
        Err(ShapeFault::Memory) => Err(ShapeFault::Memory),
        Err(first) => match issued_rest(alloc, part, issuer) {
            Ok(issued) => Ok(AuthorityRead::Issued(issued)),
            Err(ShapeFault::Memory) => Err(ShapeFault::Memory),
            Err(second) => Err(first.later(second)),
        },
    }
}

/// An authority's extensions.
#[tactic(auto, unfolding(crate::specs::Formats::authority_extensions))]
fn authority_extensions(
    alloc: Global,
    part: Part<'_>,
    issuer: &[u8; 20],
    subject: &[u8; 20],
) -> Result<AuthorityRead, ShapeFault>
    ensures { GivesUnlessMemory authority_value result
        ((authority_extensions issuer.now subject.now).read (place part.entry)) }
{
    let rest = basic_constraints(part)?;
    let rest = subject_key(rest, subject)?;
    authority_rest(alloc, rest, issuer)
}

/// The object and the resources of an end-entity.
#[tactic(auto, unfolding(crate::specs::Formats::entity))]
fn entity(alloc: Global, part: Part<'_>) -> Result<(String, Held), ShapeFault>
    ensures { GivesUnlessMemory (λ x. (string_bytes x.0, held_value x.1))
        result (entity.read (place part.entry)) }
{
    let (object, rest) = entity_information(alloc, part)?;
    let rest = policies(rest)?;
    let held = entity_held(alloc, rest)?;
    Ok((object, held))
}

/// An end-entity's extensions behind the issuer's key.
#[tactic(auto, unfolding(crate::specs::Formats::issued_entity))]
fn issued_entity(alloc: Global, part: Part<'_>) -> Result<EntityRead, ShapeFault>
    ensures { GivesUnlessMemory entity_value result (issued_entity.read (place part.entry)) }
{
    let rest = key_usage(part, &ENTITY_USAGE)?;
    let (crl, rest) = distribution(alloc, rest)?;
    let (issuer, rest) = issuer_information(alloc, rest)?;
    let (object, held) = entity(alloc, rest)?;
    Ok(EntityRead {
        crl,
        issuer,
        object,
        held,
    })
}

/// An end-entity's extensions.
#[tactic(auto, unfolding(crate::specs::Formats::entity_extensions))]
fn entity_extensions(
    alloc: Global,
    part: Part<'_>,
    issuer: &[u8; 20],
    subject: &[u8; 20],
) -> Result<EntityRead, ShapeFault>
    ensures { GivesUnlessMemory entity_value result
        ((entity_extensions issuer.now subject.now).read (place part.entry)) }
{
    let rest = subject_key(part, subject)?;
    let rest = issuer_key(rest, issuer)?;
    issued_entity(alloc, rest)
}

/// What an authority's extensions say, in the form of all kinds.
fn authority_extended(alloc: Global, read: AuthorityRead) -> ExtendedRead
    ensures { extended_value result ≡ of_kinds (inl (authority_value read)) }
{
    let (kind, crl, issuer, published) = match read {
        AuthorityRead::Anchor(published) => (
            CertKind::Anchor,
            String::new(alloc),
            String::new(alloc),
            published,
        ),
        AuthorityRead::Issued(issued) => (
            CertKind::Authority,
            issued.crl,
            issued.issuer,
            issued.published,
        ),
    };
    ExtendedRead {
        kind,
        held: published.held,
        uris: CertUris {
            crl,
            issuer,
            folder: published.places.folder,
            manifest: published.places.manifest,
            notify: published.places.notify,
            object: String::new(alloc),
        },
    }
}

/// What an end-entity's extensions say, in the form of all kinds.
fn entity_extended(alloc: Global, read: EntityRead) -> ExtendedRead
    ensures { extended_value result ≡ of_kinds (inr (entity_value read)) }
{
    ExtendedRead {
        kind: CertKind::EndEntity,
        held: read.held,
        uris: CertUris {
            crl: read.crl,
            issuer: read.issuer,
            folder: String::new(alloc),
            manifest: String::new(alloc),
            notify: String::new(alloc),
            object: read.object,
        },
    }
}

/// The extensions of either kind: basicConstraints tells an authority's.
#[tactic(auto, unfolding(crate::specs::Formats::kinds))]
fn kinds(
    alloc: Global,
    part: Part<'_>,
    issuer: &[u8; 20],
    subject: &[u8; 20],
) -> Result<ExtendedRead, ShapeFault>
    ensures { GivesUnlessMemory extended_value
        result ((kinds issuer.now subject.now).read (place part.entry)) }
{
    match authority_extensions(alloc, part, issuer, subject) {
        Ok(read) => Ok(authority_extended(alloc, read)),
        Err(ShapeFault::Memory) => Err(ShapeFault::Memory),
        Err(first) => match entity_extensions(alloc, part, issuer, subject) {
            Ok(read) => Ok(entity_extended(alloc, read)),
            Err(ShapeFault::Memory) => Err(ShapeFault::Memory),
            Err(second) => Err(first.later(second)),
        },
    }
}

/// The extensions under an issuer of a subject (RFC 6487 section 4.8). `issuer` and `subject` are
/// the identifiers of their keys.
#[tactic(auto, unfolding(crate::specs::Formats::extensions))]
pub fn extensions(
    alloc: Global,
    part: Part<'_>,
    issuer: &[u8; 20],
    subject: &[u8; 20],
) -> Result<ExtendedRead, ShapeFault>
    ensures { GivesUnlessMemory extended_value
        result ((extensions issuer.now subject.now).read (place part.entry)) }
{
    kinds(
        alloc,
        part.sole(CONTEXT_3)?.sole(SEQUENCE)?,
        issuer,
        subject,
    )
}
