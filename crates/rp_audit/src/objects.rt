//! What bytes say, where they are those of a signed object (RFC 6488 section 3).

ghost use Rattle.std.specs.Prelude.{◌≡◌, true, IfOk, IfSome};
ghost use Rattle.std.specs.Option.{option_map};
ghost use Rattle.payloads.specs.ManifestFormats.{is_rising_manifest};
ghost use Rattle.payloads.specs.ManifestReading.{manifest_view, manifest_read};
ghost use Rattle.payloads.specs.RoaReading.{roa_view, roa_read};
ghost use Rattle.cms_obj.specs.Values.{object_value};
ghost use Rattle.rp_rules.specs.Objects.{value_in, manifest_in, roa_in, object_in, is_manifest};
ghost use Rattle.rp_audit.specs.inner.Views.{manifest_value, roa_value};

use crate::certificates::entity_in;
use crate::signed::{ReadManifest, ReadRoa};
use cms_obj::{ObjectKind, SignedObject};
use payloads::{BodyFault, ManifestBody, RoaBody};
use std::alloc::{AllocError, Global};

fn manifest_body(alloc: Global, content: &[u8]) -> Result<Option<ManifestBody>, AllocError>
    ensures read { IfOk result (λ body. option_map manifest_view body ≡ value_in (manifest_read content.now)) }
    ensures rises { IfOk result (λ body. IfSome body (λ b. is_rising_manifest (manifest_view b) ≡ true)) }
{
    match ManifestBody::read(alloc, content) {
        Ok(body) => Ok(Some(body)),
        Err(BodyFault::Shape { .. }) => Ok(None),
        Err(BodyFault::Order { .. }) => Ok(None),
        Err(BodyFault::Memory) => Err(AllocError),
    }
}

fn roa_body(alloc: Global, content: &[u8]) -> Result<Option<RoaBody>, AllocError>
    ensures { IfOk result (λ body. option_map roa_view body ≡ value_in (roa_read content.now)) }
{
    match RoaBody::read(alloc, content) {
        Ok(body) => Ok(Some(body)),
        Err(BodyFault::Shape { .. }) => Ok(None),
        Err(BodyFault::Order { .. }) => Ok(None),
        Err(BodyFault::Memory) => Err(AllocError),
    }
}

/// The manifest that the bytes are (RFC 9286 section 4).
pub fn manifest_in<'a>(
    alloc: Global,
    bytes: &'a [u8],
) -> Result<Option<ReadManifest<'a>>, AllocError>
    ensures { IfOk result (λ m. option_map manifest_value m ≡ manifest_in bytes.now) }
{
    let Some(object) = object_in(alloc, bytes) else {
        return Ok(None);
    };
    if !is_manifest(object.kind) {
        return Ok(None);
    }
    let Some(certificate) = entity_in(alloc, object.certificate)? else {
        return Ok(None);
    };
    match manifest_body(alloc, object.content)? {
        Some(body) => Ok(Some(ReadManifest {
            object,
            certificate,
            body,
        })),
        None => Ok(None),
    }
}

/// The ROA that the bytes are (RFC 9582 section 4).
pub fn roa_in<'a>(alloc: Global, bytes: &'a [u8]) -> Result<Option<ReadRoa<'a>>, AllocError>
    ensures { IfOk result (λ r. option_map roa_value r ≡ roa_in bytes.now) }
{
    let Some(object) = object_in(alloc, bytes) else {
        return Ok(None);
    };
    if is_manifest(object.kind) {
        return Ok(None);
    }
    let Some(certificate) = entity_in(alloc, object.certificate)? else {
        return Ok(None);
    };
    match roa_body(alloc, object.content)? {
        Some(body) => Ok(Some(ReadRoa {
            object,
            certificate,
            body,
        })),
        None => Ok(None),
    }
}

fn object_in<'a>(alloc: Global, bytes: &'a [u8]) -> Option<SignedObject<'a>>
    ensures { option_map object_value result ≡ object_in bytes.now }
{
    match cms_obj::read(alloc, bytes) {
        Ok(object) => Some(object),
        Err(_) => None,
    }
}

fn is_manifest(kind: ObjectKind) -> bool
    ensures { result ≡ is_manifest kind }
{
    match kind {
        ObjectKind::Manifest => true,
        ObjectKind::Roa => false,
    }
}
