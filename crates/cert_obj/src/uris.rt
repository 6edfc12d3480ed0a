//! URIs, and the extensions that hold them (RFC 6487 sections 4.8.6 to 4.8.8).

ghost use Rattle.std.specs.Prelude.{◌≡◌, IfOk, string_bytes};
ghost use Rattle.std.specs.Option.{option_map};
ghost use Rattle.der.specs.Part.{place};
ghost use Rattle.der.specs.Outcome.{GivesUnlessMemory};
ghost use Rattle.std.specs.List.{list_all};
ghost use Rattle.cert_obj.specs.Values.{is_ascii_byte, is_uri};
ghost use Rattle.cert_obj.specs.inner.Views.{access_uris_value};
ghost use Rattle.cert_obj.specs.Extensions.{uri, uri_in, distribution_points, distribution, access, issuer_access_uris, issuer_information, authority_access_uris, authority_information, entity_access_uris, entity_information};

use der::tags::{CONTEXT_0, PRIMITIVE_6, SEQUENCE};
use der::{Part, ShapeFault};
use object_parts::identifiers::{
    AUTHORITY_INFORMATION, CA_ISSUERS, CA_REPOSITORY, DISTRIBUTION_POINTS, RPKI_MANIFEST,
    RPKI_NOTIFY, SIGNED_OBJECT, SUBJECT_INFORMATION,
};
use object_parts::{extension, identifier};
use std::alloc::{AllocError, Global};

/// Whether a byte is ASCII.
fn is_ascii_byte(byte: u8) -> bool
    ensures { result ≡ is_ascii_byte byte }
{
    byte < 128
}

/// Whether all bytes are ASCII.
fn are_ascii(bytes: &[u8]) -> bool
    ensures { result ≡ list_all is_ascii_byte bytes.now }
{
    bytes.iter().all(|byte| is_ascii_byte(*byte))
}

/// Whether bytes are ASCII, and there are some (an IA5String that isn't empty, RFC 5280 section
/// 4.2.1.6).
pub fn is_uri(bytes: &[u8]) -> bool
    ensures { result ≡ is_uri bytes.now }
{
    match bytes {
        [] => false,
        _ => are_ascii(bytes),
    }
}

/// The text of ASCII, if it is some.
fn uri_text(bytes: &[u8]) -> Option<&str>
    ensures { option_map (λ text. text.now) result ≡ uri_in bytes.now }
{
    if !is_uri(bytes) {
        return None;
    }
    match str::from_utf8(bytes) {
        Ok(text) => Some(text),
        Err(_) => None,
    }
}

/// The same text in memory of its own.
fn owned(alloc: Global, text: &str) -> Result<String, AllocError>
    ensures { IfOk result (λ s. string_bytes s ≡ text.now) }
{
    let mut owned = String::new(alloc);
    owned.push_str(text)?;
    Ok(owned)
}

/// A URI that is all of the part.
#[tactic(auto, unfolding(crate::specs::Extensions::uri))]
fn uri(alloc: Global, part: Part<'_>) -> Result<String, ShapeFault>
    ensures { GivesUnlessMemory string_bytes result (uri.read (place part.entry)) }
{
    match uri_text(part.bytes) {
        Some(text) => Ok(owned(alloc, text)?),
        None => Err(part.fault()),
    }
}

/// The one distribution point of a CRL.
#[tactic(auto, unfolding(crate::specs::Extensions::distribution_points))]
fn distribution_points(alloc: Global, part: Part<'_>) -> Result<String, ShapeFault>
    ensures { GivesUnlessMemory string_bytes result (distribution_points.read (place part.entry)) }
{
    let point = part.sole(SEQUENCE)?.sole(SEQUENCE)?;
    let names = point.sole(CONTEXT_0)?.sole(CONTEXT_0)?;
    uri(alloc, names.sole(PRIMITIVE_6)?)
}

/// Where the issuer's CRL is (RFC 6487 section 4.8.6).
pub fn distribution<'a>(alloc: Global, part: Part<'a>) -> Result<(String, Part<'a>), ShapeFault>
    ensures { GivesUnlessMemory (λ x. (string_bytes x.0, place x.1))
        result (distribution.read (place part.entry)) }
{
    let (value, rest) = extension(part, &DISTRIBUTION_POINTS)?;
    let crl = distribution_points(alloc, value)?;
    Ok((crl, rest))
}

/// What is found by a method of access.
#[tactic(auto, unfolding(crate::specs::Extensions::access))]
fn access<'a>(
    alloc: Global,
    part: Part<'a>,
    method: &[u8],
) -> Result<(String, Part<'a>), ShapeFault>
    ensures { GivesUnlessMemory (λ x. (string_bytes x.0, place x.1))
        result ((access method.now).read (place part.entry)) }
{
    let (content, rest) = part.open(SEQUENCE)?;
    let content = identifier(content, method)?;
    let found = uri(alloc, content.sole(PRIMITIVE_6)?)?;
    Ok((found, rest))
}

/// Where the issuer's certificate is, in an extension's value.
#[tactic(auto, unfolding(crate::specs::Extensions::issuer_access_uris))]
fn issuer_access_uris(alloc: Global, part: Part<'_>) -> Result<String, ShapeFault>
    ensures { GivesUnlessMemory string_bytes result (issuer_access_uris.read (place part.entry)) }
{
    let (issuer, end) = access(alloc, part.sole(SEQUENCE)?, &CA_ISSUERS)?;
    end.end()?;
    Ok(issuer)
}

/// Where the issuer's certificate is (RFC 6487 section 4.8.7).
pub fn issuer_information<'a>(
    alloc: Global,
    part: Part<'a>,
) -> Result<(String, Part<'a>), ShapeFault>
    ensures { GivesUnlessMemory (λ x. (string_bytes x.0, place x.1))
        result (issuer_information.read (place part.entry)) }
{
    let (value, rest) = extension(part, &AUTHORITY_INFORMATION)?;
    let issuer = issuer_access_uris(alloc, value)?;
    Ok((issuer, rest))
}

/// Where an authority publishes (RFC 6487 section 4.8.8.1, RFC 8182 section 3.2).
#[derive(Drop)]
pub struct AccessUris {
    pub folder: String,
    pub manifest: String,
    pub notify: String,
}

/// Where an authority publishes, in an extension's value.
#[tactic(auto, unfolding(crate::specs::Extensions::authority_access_uris))]
fn authority_access_uris(alloc: Global, part: Part<'_>) -> Result<AccessUris, ShapeFault>
    ensures { GivesUnlessMemory access_uris_value result (authority_access_uris.read (place part.entry)) }
{
    let (folder, rest) = access(alloc, part.sole(SEQUENCE)?, &CA_REPOSITORY)?;
    let (manifest, rest) = access(alloc, rest, &RPKI_MANIFEST)?;
    let (notify, end) = access(alloc, rest, &RPKI_NOTIFY)?;
    end.end()?;
    Ok(AccessUris {
        folder,
        manifest,
        notify,
    })
}

/// Where an authority publishes (RFC 6487 section 4.8.8.1, RFC 8182 section 3.2).
pub fn authority_information<'a>(
    alloc: Global,
    part: Part<'a>,
) -> Result<(AccessUris, Part<'a>), ShapeFault>
    ensures { GivesUnlessMemory (λ x. (access_uris_value x.0, place x.1))
        result (authority_information.read (place part.entry)) }
{
    let (value, rest) = extension(part, &SUBJECT_INFORMATION)?;
    let places = authority_access_uris(alloc, value)?;
    Ok((places, rest))
}

/// Where an end-entity's object is, in an extension's value.
#[tactic(auto, unfolding(crate::specs::Extensions::entity_access_uris))]
fn entity_access_uris(alloc: Global, part: Part<'_>) -> Result<String, ShapeFault>
    ensures { GivesUnlessMemory string_bytes result (entity_access_uris.read (place part.entry)) }
{
    let (object, end) = access(alloc, part.sole(SEQUENCE)?, &SIGNED_OBJECT)?;
    end.end()?;
    Ok(object)
}

/// Where an end-entity's object is (RFC 6487 section 4.8.8.2).
pub fn entity_information<'a>(
    alloc: Global,
    part: Part<'a>,
) -> Result<(String, Part<'a>), ShapeFault>
    ensures { GivesUnlessMemory (λ x. (string_bytes x.0, place x.1))
        result (entity_information.read (place part.entry)) }
{
    let (value, rest) = extension(part, &SUBJECT_INFORMATION)?;
    let object = entity_access_uris(alloc, value)?;
    Ok((object, rest))
}
