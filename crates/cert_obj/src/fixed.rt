//! The extensions that a kind and a key fix (RFC 6487 sections 4.8.1, 4.8.2, 4.8.4 and 4.8.9).

ghost use Rattle.der.specs.Part.{place};
ghost use Rattle.der.specs.Outcome.{Gives};
ghost use Rattle.cert_obj.specs.Extensions.{basic_constraints, subject_key, key_usage, policies};

use der::tags::OCTET_STRING;
use der::{Part, ShapeFault, exactly};
use object_parts::identifiers::{BASIC_CONSTRAINTS, KEY_USAGE, POLICIES, SUBJECT_KEY_IDENTIFIER};
use object_parts::{critical_extension, extension};

/// The value of basicConstraints: an authority, and no length of paths (RFC 6487 section 4.8.1).
pub const CA_TRUE: [u8; 5] = [0x30, 0x03, 0x01, 0x01, 0xff];

/// The usage of an authority's key: keyCertSign and cRLSign (RFC 6487 section 4.8.4).
pub const AUTHORITY_USAGE: [u8; 4] = [0x03, 0x02, 0x01, 0x06];

/// The usage of an end-entity's key: digitalSignature (RFC 6487 section 4.8.4).
pub const ENTITY_USAGE: [u8; 4] = [0x03, 0x02, 0x07, 0x80];

/// The one policy of the RPKI (RFC 6487 section 4.8.9, RFC 6484 section 1.2).
pub const RPKI_POLICIES: [u8; 14] = [
    0x30, 0x0c, 0x30, 0x0a, 0x06, 0x08, 0x2b, 0x06, 0x01, 0x05, 0x05, 0x07, 0x0e, 0x02,
];

/// That it is an authority's; what stands behind (RFC 6487 section 4.8.1).
pub fn basic_constraints(part: Part<'_>) -> Result<Part<'_>, ShapeFault>
    ensures { Gives (λ q. (tt, place q)) result (basic_constraints.read (place part.entry)) }
{
    let (value, rest) = critical_extension(part, &BASIC_CONSTRAINTS)?;
    exactly(value, &CA_TRUE)?;
    Ok(rest)
}

/// The identifier of the subject's key; what stands behind it (RFC 6487 section 4.8.2).
pub fn subject_key<'a>(part: Part<'a>, subject: &[u8; 20]) -> Result<Part<'a>, ShapeFault>
    ensures { Gives (λ q. (tt, place q))
        result ((subject_key subject.now).read (place part.entry)) }
{
    let (value, rest) = extension(part, &SUBJECT_KEY_IDENTIFIER)?;
    exactly(value.sole(OCTET_STRING)?, subject)?;
    Ok(rest)
}

/// The usage of the key; what stands behind it (RFC 6487 section 4.8.4).
pub fn key_usage<'a>(part: Part<'a>, usage: &[u8; 4]) -> Result<Part<'a>, ShapeFault>
    ensures { Gives (λ q. (tt, place q)) result ((key_usage usage.now).read (place part.entry)) }
{
    let (value, rest) = critical_extension(part, &KEY_USAGE)?;
    exactly(value, usage)?;
    Ok(rest)
}

/// The policy; what stands behind it (RFC 6487 section 4.8.9).
pub fn policies(part: Part<'_>) -> Result<Part<'_>, ShapeFault>
    ensures { Gives (λ q. (tt, place q)) result (policies.read (place part.entry)) }
{
    let (value, rest) = critical_extension(part, &POLICIES)?;
    exactly(value, &RPKI_POLICIES)?;
    Ok(rest)
}
