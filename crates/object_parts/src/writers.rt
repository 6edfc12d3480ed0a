//! Writers of what the objects have in common (RFC 5280 sections 4.1 and 4.2, RFC 5652 section
//! 5.3).

ghost use Rattle.std.specs.Prelude.{◌≡◌, ◌++◌, ◌∷◌, OnOk, IfOk};
ghost use Rattle.der.specs.Spelling.{spelled};
ghost use Rattle.der.specs.Tags as tag;
ghost use Rattle.der.specs.Forms.{content};
ghost use Rattle.moments.specs.Civil.{IsMoment};
ghost use Rattle.object_parts.specs.TimeFormats.{time, general_time, period};
ghost use Rattle.object_parts.specs.FrameFormats.{identifier, signature_algorithm, key_algorithm, digest_algorithm, extension, critical_extension, signature as signature_form, key_identifier, issuer_key_identifier, issuer_key, key_info};
ghost use Rattle.object_parts.specs.NameFormats.{name};

use crate::identifiers::{
    AUTHORITY_KEY_IDENTIFIER, COMMON_NAME, DIGEST_ALGORITHM, KEY_ALGORITHM, SIGNATURE_ALGORITHM,
};
use crate::names::key_text;
use der::tags::{
    BIT_STRING, BOOLEAN, GENERALIZED_TIME, OBJECT_IDENTIFIER, OCTET_STRING, PRIMITIVE_0,
    PRINTABLE_STRING, SEQUENCE, SET, UTC_TIME,
};
use std::alloc::{AllocError, Global};

/// Room for a signature with its algorithm, and for the header around all.
const SIGNATURE_ROOM: usize = 288;

/// Appends a time: a UTCTime through 2049, and a GeneralizedTime from 2050 on (RFC 5280 section
/// 4.1.2.5).
pub fn push_time(alloc: Global, out: &mut Vec<u8>, seconds: u64) -> Result<(), AllocError>
    requires { IsMoment seconds }
    ensures { OnOk result (out.new.items ≡ out.old.items ++ time.spelling seconds) }
{
    let text = moments::cert_time(seconds);
    let tag = if text.general {
        GENERALIZED_TIME
    } else {
        UTC_TIME
    };
    der::element(alloc, out, tag, text.as_bytes())
}

/// Appends a GeneralizedTime (RFC 5280 section 4.1.2.5.2).
pub fn push_general_time(alloc: Global, out: &mut Vec<u8>, seconds: u64) -> Result<(), AllocError>
    requires { IsMoment seconds }
    ensures { OnOk result (out.new.items ≡ out.old.items ++ general_time.spelling seconds) }
{
    let text = moments::general(seconds);
    der::element(alloc, out, GENERALIZED_TIME, text.as_bytes())
}

/// Appends the name of an identifier (RFC 6487 sections 4.4 and 4.5).
#[tactic(auto, using(std::proofs::Common::append_assoc), unfolding(crate::specs::NameFormats::name))]
pub fn push_name(alloc: Global, out: &mut Vec<u8>, key: &[u8; 20]) -> Result<(), AllocError>
    ensures { OnOk result (out.new.items ≡ out.old.items ++ name.spelling key.now) }
{
    let from = out.len();
    der::element(alloc, out, OBJECT_IDENTIFIER, &COMMON_NAME)?;
    der::element(alloc, out, PRINTABLE_STRING, &key_text(key))?;
    der::enclose(alloc, out, from, SEQUENCE)?;
    der::enclose(alloc, out, from, SET)?;
    der::enclose(alloc, out, from, SEQUENCE)
}

/// Appends a period (RFC 5280 section 4.1.2.5). Both ends are in seconds since 1970.
#[tactic(auto, using(std::proofs::Common::append_assoc), unfolding(crate::specs::TimeFormats::period))]
pub fn push_period(alloc: Global, out: &mut Vec<u8>, from: u64, to: u64) -> Result<(), AllocError>
    requires from { IsMoment from }
    requires to { IsMoment to }
    ensures { OnOk result (out.new.items ≡ out.old.items ++ period.spelling (from, to)) }
{
    let start = out.len();
    push_time(alloc, out, from)?;
    push_time(alloc, out, to)?;
    der::enclose(alloc, out, start, SEQUENCE)
}

/// Appends an OBJECT IDENTIFIER.
pub fn push_identifier(alloc: Global, out: &mut Vec<u8>, oid: &[u8]) -> Result<(), AllocError>
    ensures { OnOk result (out.new.items ≡ out.old.items ++ (identifier oid.now).spelling tt) }
{
    der::element(alloc, out, OBJECT_IDENTIFIER, oid)
}

/// Appends the algorithm of a signature (RFC 7935 section 2).
pub fn push_signature_algorithm(alloc: Global, out: &mut Vec<u8>) -> Result<(), AllocError>
    ensures { OnOk result (out.new.items ≡ out.old.items ++ signature_algorithm.spelling tt) }
{
    der::element(alloc, out, SEQUENCE, &SIGNATURE_ALGORITHM)
}

/// Appends the algorithm of a key (RFC 7935 section 3).
pub fn push_key_algorithm(alloc: Global, out: &mut Vec<u8>) -> Result<(), AllocError>
    ensures { OnOk result (out.new.items ≡ out.old.items ++ key_algorithm.spelling tt) }
{
    der::element(alloc, out, SEQUENCE, &KEY_ALGORITHM)
}

/// Appends the algorithm of a digest (RFC 7935 section 2).
pub fn push_digest_algorithm(alloc: Global, out: &mut Vec<u8>) -> Result<(), AllocError>
    ensures { OnOk result (out.new.items ≡ out.old.items ++ digest_algorithm.spelling tt) }
{
    der::element(alloc, out, SEQUENCE, &DIGEST_ALGORITHM)
}

/// Appends bytes as a BIT STRING without unused bits.
#[tactic(auto, using(std::proofs::Common::append_assoc))]
pub fn push_octet_bits(alloc: Global, out: &mut Vec<u8>, bytes: &[u8]) -> Result<(), AllocError>
    ensures { OnOk result (out.new.items ≡ out.old.items
        ++ spelled tag.bit_string (0 ∷ bytes.now)) }
{
    let from = out.len();
    out.push(0)?;
    out.extend_from_slice(bytes)?;
    der::enclose(alloc, out, from, BIT_STRING)
}

/// Appends the bytes of a key's identifier (RFC 5280 section 4.2.1.2).
pub fn push_key_identifier(
    alloc: Global,
    out: &mut Vec<u8>,
    key: &[u8; 20],
) -> Result<(), AllocError>
    ensures { OnOk result (out.new.items ≡ out.old.items ++ key_identifier.spelling key.now) }
{
    der::element(alloc, out, OCTET_STRING, key)
}

/// Appends the bytes of the identifier of the issuer's key (RFC 5280 section 4.2.1.1).
#[tactic(auto, using(std::proofs::Common::append_assoc))]
pub fn push_issuer_key_identifier(
    alloc: Global,
    out: &mut Vec<u8>,
    key: &[u8; 20],
) -> Result<(), AllocError>
    ensures { OnOk result (out.new.items ≡ out.old.items
        ++ issuer_key_identifier.spelling key.now) }
{
    let from = out.len();
    der::element(alloc, out, PRIMITIVE_0, key)?;
    der::enclose(alloc, out, from, SEQUENCE)
}

/// Appends the extension with the identifier of the issuer's key (RFC 6487 section 4.8.3).
#[tactic(auto, using(std::proofs::Common::append_assoc))]
pub fn push_issuer_key(alloc: Global, out: &mut Vec<u8>, key: &[u8; 20]) -> Result<(), AllocError>
    ensures { OnOk result (out.new.items ≡ out.old.items ++ (issuer_key key.now).spelling tt) }
{
    let from = out.len();
    push_identifier(alloc, out, &AUTHORITY_KEY_IDENTIFIER)?;
    let value = out.len();
    push_issuer_key_identifier(alloc, out, key)?;
    der::enclose(alloc, out, value, OCTET_STRING)?;
    der::enclose(alloc, out, from, SEQUENCE)
}

/// Appends a key with its algorithm (RFC 5280 section 4.1.2.7).
#[tactic(auto, using(std::proofs::Common::append_assoc))]
pub fn push_key_info(alloc: Global, out: &mut Vec<u8>, key: &[u8; 270]) -> Result<(), AllocError>
    ensures { OnOk result (out.new.items ≡ out.old.items ++ key_info.spelling key.now) }
{
    let from = out.len();
    push_key_algorithm(alloc, out)?;
    push_octet_bits(alloc, out, key)?;
    der::enclose(alloc, out, from, SEQUENCE)
}

/// Appends an extension that isn't critical, with that value (RFC 5280 section 4.2).
#[tactic(auto, using(std::proofs::Common::append_assoc))]
pub fn push_extension(
    alloc: Global,
    out: &mut Vec<u8>,
    oid: &[u8],
    value: &[u8],
) -> Result<(), AllocError>
    ensures { OnOk result (out.new.items ≡ out.old.items
        ++ (extension oid.now content).spelling value.now) }
{
    let from = out.len();
    push_identifier(alloc, out, oid)?;
    der::element(alloc, out, OCTET_STRING, value)?;
    der::enclose(alloc, out, from, SEQUENCE)
}

/// Appends a critical extension with that value (RFC 5280 section 4.2).
#[tactic(auto, using(std::proofs::Common::append_assoc))]
pub fn push_critical_extension(
    alloc: Global,
    out: &mut Vec<u8>,
    oid: &[u8],
    value: &[u8],
) -> Result<(), AllocError>
    ensures { OnOk result (out.new.items ≡ out.old.items
        ++ (critical_extension oid.now content).spelling value.now) }
{
    let from = out.len();
    push_identifier(alloc, out, oid)?;
    der::element(alloc, out, BOOLEAN, &[255])?;
    der::element(alloc, out, OCTET_STRING, value)?;
    der::enclose(alloc, out, from, SEQUENCE)
}

/// What is signed, which is a whole element, with its signature (RFC 5280 section 4.1).
#[tactic(auto, using(std::proofs::Common::append_assoc))]
pub fn write_signed(
    alloc: Global,
    whole: &[u8],
    signature: &[u8; 256],
) -> Result<Vec<u8>, AllocError>
    ensures { IfOk result (λ out. out.items
        ≡ spelled tag.sequence (whole.now ++ signature_form.spelling signature.now)) }
{
    let mut out = Vec::with_capacity(alloc, whole.len().saturating_add(SIGNATURE_ROOM))?;
    out.extend_from_slice(whole)?;
    push_signature_algorithm(alloc, &mut out)?;
    push_octet_bits(alloc, &mut out, signature)?;
    der::enclose(alloc, &mut out, 0, SEQUENCE)?;
    Ok(out)
}
