//! The table of what stands, read from the objects themselves.
//!
//! An object that a press never makes, as the certificate of an authority that inherits or a ROA of several entries, has
//! a row that is none of what is wanted, so that it never fits; but the row tells who issued it, and as which serial.

ghost use Rattle.std.specs.Prelude.{◌≡◌, ◌≢◌, map, IfOk, MatchOption};
ghost use Rattle.std.specs.Option.{option_map};
ghost use Rattle.std.specs.List.{AllZip};
ghost use Rattle.cert_obj.specs.Values.{cert_value, read_value, is_entity};
ghost use Rattle.crl_obj.specs.Values.{read_value as read_crl_value};
ghost use Rattle.cms_obj.specs.Values.{object_value};
ghost use Rattle.payloads.specs.ManifestReading.{manifest_view, manifest_read};
ghost use Rattle.payloads.specs.RoaReading.{roa_view, roa_read};
ghost use Rattle.rp_rules.specs.Objects.{value_in, certificate_in, crl_in, object_in, entity_in};
ghost use Rattle.issue_values.specs.Bodies.{roa_of};
ghost use Rattle.origins.specs.declared.Origin.{Origin};
ghost use Rattle.key_roll.specs.declared.issued.What.TheVariants.{Point};
ghost use Rattle.press_core.specs.Tables.{IsOther, IsOfNothing};
ghost use Rattle.press_core.specs.inner.Rows.{home_value, row_with, Tells, TellsCertificate, TellsMade, IsRowFor, IsToldOf, IsSomeCrl, IsSomeSigned, TellsAuthority, TellsManifest, TellsRoa, TellsRoute, TellsWhat, MayHave};

use crate::exact_holdings::holds_just;
use crate::homes::{Home, is_at_home};
use cert_obj::{Cert, CertKind, Held, ReadCert};
use cms_obj::{ObjectKind, SignedObject};
use crl_obj::ReadCrl;
use der::ShapeFault;
use editions::objects_are_of_one_kind;
use key_ids::KeyId;
use key_roll::{IssuedRow, What};
use origins::Origin;
use payloads::{BodyFault, ManifestBody, RoaBody};
use pub_set::{Object, ObjectSet};
use res_sets::Resources;
use sha2::{Digest, Sha256};
use std::alloc::{AllocError, Global};

// An identifier that is no key's.
const NOBODY: KeyId = KeyId { bytes: [0; 20] };

// What an object is told by, beside its URI and its hash.
#[derive(Drop)]
struct Told {
    issuer: KeyId,
    serial: u64,
    not_after: u64,
    what: What,
}

/// The table of what stands, by rising URI, where the live keys publish there.
pub fn table_of(
    alloc: Global,
    set: &ObjectSet,
    homes: &[Home],
) -> Result<Vec<IssuedRow>, AllocError>
    // A row for each object, with its hash: the object's own, where a press makes such, and else one that is never wanted.
    ensures { IfOk result (λ rows. AllZip (IsRowFor (map home_value homes.now)) set.now rows.items) }
{
    let objects = set.as_slice();
    let mut rows = Vec::with_capacity(alloc, objects.len())?;
    for object in objects {
        rows.push(row_of(alloc, object, homes)?)?;
    }
    Ok(rows)
}

fn row_of(alloc: Global, object: &Object, homes: &[Home]) -> Result<IssuedRow, AllocError>
    ensures { IfOk result (IsRowFor (map home_value homes.now) object.now) }
{
    let bytes = object.bytes.as_slice();
    let told = told_of(alloc, bytes, homes)?;
    Ok(IssuedRow {
        uri: object.uri.copy(alloc)?,
        issuer: told.issuer,
        serial: told.serial,
        not_after: told.not_after,
        hash: Sha256::digest(bytes),
        what: told.what,
    })
}

// What the bytes say.
fn told_of(alloc: Global, bytes: &[u8], homes: &[Home]) -> Result<Told, AllocError>
    ensures { IfOk result (IsToldOf (map home_value homes.now) bytes.now) }
{
    match made_told(alloc, bytes, homes)? {
        Some(told) => Ok(told),
        None => Ok(other_told(alloc, bytes)?),
    }
}

// What a press makes says it as a certificate, a CRL or a signed object.
fn made_told(alloc: Global, bytes: &[u8], homes: &[Home]) -> Result<Option<Told>, AllocError>
    ensures { IfOk result (TellsMade (map home_value homes.now) bytes.now) }
{
    if let Some(told) = by_certificate(alloc, bytes, homes)? {
        return Ok(Some(told));
    }
    if let Some(told) = by_crl(alloc, bytes)? {
        return Ok(Some(told));
    }
    Ok(by_signed_object(alloc, bytes)?)
}

// What a press never makes: it is told as the certificate of nothing for nobody, which is none that is wanted, and by
// whom it was issued, until when and as which serial. So it is among its issuer's files, whose point is made anew when it
// goes, and then its serial is listed.
fn other_told(alloc: Global, bytes: &[u8]) -> Result<Told, AllocError>
    ensures { IfOk result (λ told. IsOther bytes.now (row_with told)) }
{
    match any_certificate(alloc, bytes)? {
        Some(found) => {
            let cert = found.cert;
            Ok(nothing_told(alloc, cert.issuer, cert.serial, cert.not_after))
        }
        None => Ok(nothing_told(alloc, NOBODY, 0, 0)),
    }
}

fn nothing_told(alloc: Global, issuer: KeyId, serial: u64, not_after: u64) -> Told
    ensures what { IsOfNothing result.what }
    ensures issuer { result.issuer ≡ issuer }
    ensures serial { result.serial ≡ serial }
    ensures end { result.not_after ≡ not_after }
{
    Told {
        issuer,
        serial,
        not_after,
        what: What::Authority {
            key: NOBODY,
            held: Resources::empty(alloc),
        },
    }
}

// The certificate that the bytes are, or that the signed object has.
fn any_certificate(alloc: Global, bytes: &[u8]) -> Result<Option<ReadCert>, AllocError>
    ensures { IfOk result (MayHave bytes.now) }
{
    objects_are_of_one_kind();
    if let Some(found) = certificate_in(alloc, bytes)? {
        return Ok(Some(found));
    }
    match object_in(alloc, bytes) {
        Some(object) => Ok(certificate_in(alloc, object.certificate)?),
        None => Ok(None),
    }
}

// ---- certificates and CRLs

fn by_certificate(alloc: Global, bytes: &[u8], homes: &[Home]) -> Result<Option<Told>, AllocError>
    ensures { IfOk result (TellsCertificate (map home_value homes.now) bytes.now) }
{
    match certificate_in(alloc, bytes)? {
        Some(found) => Ok(authority_told(found.cert, homes)),
        None => Ok(None),
    }
}

// The certificate of an authority's key, with resources of its own, which names the folder of the key's authority.
fn authority_told(cert: Cert, homes: &[Home]) -> Option<Told>
    ensures { TellsAuthority (map home_value homes.now) (cert_value cert) result }
{
    if is_entity(cert.kind) {
        return None;
    }
    if !is_at_home(homes, &cert) {
        return None;
    }
    let Cert {
        serial,
        issuer,
        not_after,
        key,
        held,
        ..
    } = cert;
    match held {
        Held::Inherit => None,
        Held::Set { resources } => Some(Told {
            issuer,
            serial,
            not_after,
            what: What::Authority {
                key: KeyId::of(&key.bytes),
                held: resources,
            },
        }),
    }
}

fn is_entity(kind: CertKind) -> bool
    ensures { result ≡ is_entity kind }
{
    match kind {
        CertKind::Anchor => false,
        CertKind::Authority => false,
        CertKind::EndEntity => true,
    }
}

fn by_crl(alloc: Global, bytes: &[u8]) -> Result<Option<Told>, AllocError>
    ensures { IfOk result (Tells IsSomeCrl bytes.now) }
{
    match crl_in(alloc, bytes)? {
        Some(found) => Ok(Some(Told {
            issuer: found.crl.issuer,
            serial: 0,
            not_after: found.crl.next_update,
            what: What::Point,
        })),
        None => Ok(None),
    }
}

// ---- signed objects

fn by_signed_object(alloc: Global, bytes: &[u8]) -> Result<Option<Told>, AllocError>
    ensures { IfOk result (Tells IsSomeSigned bytes.now) }
{
    let Some(object) = object_in(alloc, bytes) else {
        return Ok(None);
    };
    let Some(inside) = entity_in(alloc, object.certificate)? else {
        return Ok(None);
    };
    match what_of(alloc, &object, &inside.cert)? {
        Some(what) => Ok(Some(Told {
            issuer: inside.cert.issuer,
            serial: inside.cert.serial,
            not_after: inside.cert.not_after,
            what,
        })),
        None => Ok(None),
    }
}

// A manifest, or the ROA of one origin, under that certificate.
fn what_of(
    alloc: Global,
    object: &SignedObject<'_>,
    cert: &Cert,
) -> Result<Option<What>, AllocError>
    ensures { IfOk result (TellsWhat (object_value object.now) (cert_value cert.now)) }
{
    match object.kind {
        ObjectKind::Manifest => manifest_told(alloc, object.content, cert),
        ObjectKind::Roa => roa_told(alloc, object.content, cert),
    }
}

// A manifest whose nextUpdate is the end of its certificate.
fn manifest_told(alloc: Global, content: &[u8], cert: &Cert) -> Result<Option<What>, AllocError>
    ensures { IfOk result (TellsManifest content.now (cert_value cert.now)) }
{
    match manifest_body(alloc, content)? {
        Some(body) => Ok(point_told(&body, cert)),
        None => Ok(None),
    }
}

fn point_told(body: &ManifestBody, cert: &Cert) -> Option<What>
    ensures { MatchOption result (body.now.next_update ≢ cert.now.not_after)
        (λ what. (what ≡ Point) × (body.now.next_update ≡ cert.now.not_after)) }
{
    if body.next_update == cert.not_after {
        Some(What::Point)
    } else {
        None
    }
}

// The ROA of one origin whose certificate holds just the prefix.
fn roa_told(alloc: Global, content: &[u8], cert: &Cert) -> Result<Option<What>, AllocError>
    ensures { IfOk result (TellsRoa content.now (cert_value cert.now)) }
{
    match roa_body(alloc, content)? {
        Some(body) => Ok(route_told(&body, cert)),
        None => Ok(None),
    }
}

fn route_told(body: &RoaBody, cert: &Cert) -> Option<What>
    ensures { TellsRoute (roa_view body.now) (cert_value cert.now) result }
{
    let Some(origin) = one_origin(body) else {
        return None;
    };
    if holds_just(&cert.held, &origin.prefix) {
        Some(What::Route { origin })
    } else {
        None
    }
}

fn one_origin(body: &RoaBody) -> Option<Origin>
    ensures { MatchOption result ((origin : Origin) → roa_view body.now ≢ roa_of origin)
        (λ origin. roa_view body.now ≡ roa_of origin) }
{
    if body.entries.len() != 1 {
        return None;
    }
    let entry = &body.entries[0];
    Origin::new(entry.prefix, entry.max, body.asn)
}

// ---- what bytes say

// The certificate that the bytes are.
fn certificate_in(alloc: Global, bytes: &[u8]) -> Result<Option<ReadCert>, AllocError>
    ensures { IfOk result (λ read. option_map read_value read ≡ certificate_in bytes.now) }
{
    match cert_obj::read(alloc, bytes) {
        Ok(read) => Ok(Some(read)),
        Err(ShapeFault::Shape { .. }) => Ok(None),
        Err(ShapeFault::Memory) => Err(AllocError),
    }
}

// The certificate of a key that signs one object.
fn entity_in(alloc: Global, bytes: &[u8]) -> Result<Option<ReadCert>, AllocError>
    ensures { IfOk result (λ read. option_map read_value read ≡ entity_in bytes.now) }
{
    match certificate_in(alloc, bytes)? {
        Some(read) => match read.cert.kind {
            CertKind::Anchor => Ok(None),
            CertKind::Authority => Ok(None),
            CertKind::EndEntity => Ok(Some(read)),
        },
        None => Ok(None),
    }
}

// The CRL that the bytes are.
fn crl_in(alloc: Global, bytes: &[u8]) -> Result<Option<ReadCrl>, AllocError>
    ensures { IfOk result (λ read. option_map read_crl_value read ≡ crl_in bytes.now) }
{
    match crl_obj::read(alloc, bytes) {
        Ok(read) => Ok(Some(read)),
        Err(ShapeFault::Shape { .. }) => Ok(None),
        Err(ShapeFault::Memory) => Err(AllocError),
    }
}

// The signed object that the bytes are.
fn object_in<'a>(alloc: Global, bytes: &'a [u8]) -> Option<SignedObject<'a>>
    ensures { option_map object_value result ≡ object_in bytes.now }
{
    match cms_obj::read(alloc, bytes) {
        Ok(object) => Some(object),
        Err(_) => None,
    }
}

fn manifest_body(alloc: Global, content: &[u8]) -> Result<Option<ManifestBody>, AllocError>
    ensures { IfOk result (λ body. option_map manifest_view body ≡ value_in (manifest_read content.now)) }
{
    match ManifestBody::read(alloc, content) {
        Ok(body) => Ok(Some(body)),
        Err(BodyFault::Shape { .. }) => Ok(None),
        Err(BodyFault::Order { .. }) => Ok(None),
        Err(BodyFault::Memory) => Err(AllocError),
    }
}

fn roa_body(alloc: Global, content: &[u8]) -> Result<Option<RoaBody>, AllocError>
    ensures { IfOk result (λ body. option_map roa_view body ≡ value_in (roa_read content.now)) }
{
    match RoaBody::read(alloc, content) {
        Ok(body) => Ok(Some(body)),
        Err(BodyFault::Shape { .. }) => Ok(None),
        Err(BodyFault::Order { .. }) => Ok(None),
        Err(BodyFault::Memory) => Err(AllocError),
    }
}
