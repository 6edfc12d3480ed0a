//! Readers of what the objects have in common (RFC 5280 sections 4.1 and 4.2, RFC 5652 section
//! 5.3).

ghost use Rattle.std.specs.Prelude.{[], ◌∷◌};
ghost use Rattle.der.specs.Tags as tag;
ghost use Rattle.der.specs.Part.{place};
ghost use Rattle.der.specs.Outcome.{Gives};
ghost use Rattle.object_parts.specs.FrameFormats.{identifier, signature_algorithm, key_algorithm, digest_algorithm, named_at, critical_extension_at, signature, signed_at, key_identifier, issuer_key_identifier, issuer_key, key_info};

use crate::identifiers::{
    AUTHORITY_KEY_IDENTIFIER, DIGEST_ALGORITHM, KEY_ALGORITHM, SIGNATURE_ALGORITHM,
};
use der::tags::{BIT_STRING, BOOLEAN, OBJECT_IDENTIFIER, OCTET_STRING, PRIMITIVE_0, SEQUENCE, SET};
use der::{Part, ShapeFault, constant, exactly, fixed, octet_bits};

/// An OBJECT IDENTIFIER; what stands behind it (X.690 section 8.19).
pub fn identifier<'a>(part: Part<'a>, oid: &[u8]) -> Result<Part<'a>, ShapeFault>
    ensures { Gives (λ q. (tt, place q)) result ((identifier oid.now).read (place part.entry)) }
{
    constant(part, OBJECT_IDENTIFIER, oid)
}

/// The algorithm of a signature; what stands behind it (RFC 7935 section 2).
pub fn signature_algorithm(part: Part<'_>) -> Result<Part<'_>, ShapeFault>
    ensures { Gives (λ q. (tt, place q)) result (signature_algorithm.read (place part.entry)) }
{
    constant(part, SEQUENCE, &SIGNATURE_ALGORITHM)
}

/// The algorithm of a key; what stands behind it (RFC 7935 section 3).
pub fn key_algorithm(part: Part<'_>) -> Result<Part<'_>, ShapeFault>
    ensures { Gives (λ q. (tt, place q)) result (key_algorithm.read (place part.entry)) }
{
    constant(part, SEQUENCE, &KEY_ALGORITHM)
}

/// The algorithm of a digest; what stands behind it (RFC 7935 section 2).
pub fn digest_algorithm(part: Part<'_>) -> Result<Part<'_>, ShapeFault>
    ensures { Gives (λ q. (tt, place q)) result (digest_algorithm.read (place part.entry)) }
{
    constant(part, SEQUENCE, &DIGEST_ALGORITHM)
}

/// A SEQUENCE of an identifier and an element of that tag: the content of the element, and what stands
/// behind the SEQUENCE.
#[tactic(auto, unfolding(crate::specs::FrameFormats::named_at))]
fn named<'a>(part: Part<'a>, outer: u8, oid: &[u8]) -> Result<(Part<'a>, Part<'a>), ShapeFault>
    ensures { Gives (λ x. (place x.0, place x.1)) result (named_at outer oid.now (place part.entry)) }
{
    let (content, rest) = part.open(SEQUENCE)?;
    let content = identifier(content, oid)?;
    let value = content.sole(outer)?;
    Ok((value, rest))
}

/// An extension that isn't critical: its value, and what stands behind it (RFC 5280 section 4.2).
pub fn extension<'a>(part: Part<'a>, oid: &[u8]) -> Result<(Part<'a>, Part<'a>), ShapeFault>
    ensures { Gives (λ x. (place x.0, place x.1))
        result (named_at tag.octet_string oid.now (place part.entry)) }
{
    named(part, OCTET_STRING, oid)
}

/// An attribute of a signed object: its value, and what stands behind it (RFC 5652 section 5.3).
pub fn attribute<'a>(part: Part<'a>, oid: &[u8]) -> Result<(Part<'a>, Part<'a>), ShapeFault>
    ensures { Gives (λ x. (place x.0, place x.1))
        result (named_at tag.set_of oid.now (place part.entry)) }
{
    named(part, SET, oid)
}

/// A critical extension: its value, and what stands behind it (RFC 5280 section 4.2).
#[tactic(auto, unfolding(crate::specs::FrameFormats::critical_extension_at))]
pub fn critical_extension<'a>(
    part: Part<'a>,
    oid: &[u8],
) -> Result<(Part<'a>, Part<'a>), ShapeFault>
    ensures { Gives (λ x. (place x.0, place x.1))
        result (critical_extension_at oid.now (place part.entry)) }
{
    let (content, rest) = part.open(SEQUENCE)?;
    let content = identifier(content, oid)?;
    let content = constant(content, BOOLEAN, &[255])?;
    let value = content.sole(OCTET_STRING)?;
    Ok((value, rest))
}

/// What is signed, and its signature (RFC 5280 section 4.1.1).
#[derive(Clone, Copy, Debug)]
pub struct SignedParts<'a> {
    /// The content of the element that is signed.
    pub content: Part<'a>,
    /// The element, which the signature is of.
    pub whole: &'a [u8],
    pub signature: [u8; 256],
}

/// The algorithm and the bytes of a signature.
fn signature(part: Part<'_>) -> Result<[u8; 256], ShapeFault>
    ensures { Gives (λ b. b) result (signature.read (place part.entry)) }
{
    let rest = signature_algorithm(part)?;
    octet_bits(rest.sole(BIT_STRING)?)
}

/// An object that is signed: one element, its algorithm and its signature (RFC 5280 section 4.1).
#[tactic(auto, unfolding(crate::specs::FrameFormats::signed_at))]
pub fn signed(part: Part<'_>) -> Result<SignedParts<'_>, ShapeFault>
    ensures { Gives (λ s. (place s.content, s.whole.now, s.signature))
        result (signed_at (place part.entry)) }
{
    let inner = part.sole(SEQUENCE)?;
    let (content, rest) = inner.open(SEQUENCE)?;
    let signature = signature(rest)?;
    Ok(SignedParts {
        content,
        whole: inner.before(rest),
        signature,
    })
}

/// The bytes of a key's identifier (RFC 5280 section 4.2.1.2).
pub fn key_identifier(part: Part<'_>) -> Result<[u8; 20], ShapeFault>
    ensures { Gives (λ b. b) result (key_identifier.read (place part.entry)) }
{
    fixed(part.sole(OCTET_STRING)?)
}

/// The bytes of the identifier of the issuer's key (RFC 5280 section 4.2.1.1).
pub fn issuer_key_identifier(part: Part<'_>) -> Result<[u8; 20], ShapeFault>
    ensures { Gives (λ b. b) result (issuer_key_identifier.read (place part.entry)) }
{
    fixed(part.sole(SEQUENCE)?.sole(PRIMITIVE_0)?)
}

/// The extension with the identifier of the issuer's key, which is that one; what stands behind it
/// (RFC 6487 section 4.8.3).
pub fn issuer_key<'a>(part: Part<'a>, key: &[u8; 20]) -> Result<Part<'a>, ShapeFault>
    ensures { Gives (λ q. (tt, place q)) result ((issuer_key key.now).read (place part.entry)) }
{
    let (value, rest) = extension(part, &AUTHORITY_KEY_IDENTIFIER)?;
    exactly(value.sole(SEQUENCE)?.sole(PRIMITIVE_0)?, key)?;
    Ok(rest)
}

/// A key with its algorithm (RFC 5280 section 4.1.2.7).
pub fn key_info(part: Part<'_>) -> Result<([u8; 270], Part<'_>), ShapeFault>
    ensures { Gives (λ x. (x.0, place x.1)) result (key_info.read (place part.entry)) }
{
    let (content, rest) = part.open(SEQUENCE)?;
    let content = key_algorithm(content)?;
    let key = octet_bits(content.sole(BIT_STRING)?)?;
    Ok((key, rest))
}
