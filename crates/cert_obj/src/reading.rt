//! Readers of certificates (RFC 5280 section 4.1, RFC 6487 section 4).

ghost use Rattle.std.specs.Prelude.{◌≡◌, if◌then◌else◌, Some, None, IfOk, IfErr};
ghost use Rattle.std.specs.Option.{option_map};
ghost use Rattle.sha1.specs.Sha1.{sha1};
ghost use Rattle.der.specs.Part.{place};
ghost use Rattle.der.specs.Forms.{tested};
ghost use Rattle.der.specs.Leaves.{octet_bits, are_same};
ghost use Rattle.der.specs.Outcome.{Gives, GivesUnlessMemory, UnlessMemory};
ghost use Rattle.der.specs.Object.{Spells, read_object, IsTrueFault};
ghost use Rattle.cert_obj.specs.Values.{SignedCert, cert_value, read_value};
ghost use Rattle.cert_obj.specs.inner.Views.{subject_value, body_value};
ghost use Rattle.cert_obj.specs.Formats.{is_public_key, is_key_of, key_of, subject, body, tbs_content, signed_cert};
ghost use Rattle.cert_obj.specs.laws.CertLaws.{signed_cert-law};

use crate::kinds::{ExtendedRead, extensions};
use crate::values::{Cert, ReadCert};
use der::tags::{BIT_STRING, CONTEXT_0, SEQUENCE};
use der::{Part, ShapeFault, WholeReader, are_same, constant, number, object, octet_bits};
use key_ids::KeyId;
use object_parts::{key_algorithm, name, period, signature_algorithm, signed};
use signer_api::{Digest, PublicKey, Signature};
use std::alloc::Global;

/// Whether a key has that identifier.
fn has_identifier(key: &[u8; 270], identifier: &[u8; 20]) -> bool
    ensures { result ≡ are_same (sha1 key.now) identifier.now }
{
    are_same(&KeyId::of(key).bytes, identifier)
}

/// The key that is spelled by the bytes, if there is one.
fn public_key(bytes: &[u8; 270]) -> Option<PublicKey>
    ensures { option_map (λ key. key.bytes) result
        ≡ (if is_public_key bytes.now then Some bytes.now else None) }
{
    PublicKey::read(bytes)
}

/// The same, where it has that identifier.
fn key_in(bytes: &[u8; 270], subject: &[u8; 20]) -> Option<PublicKey>
    ensures { option_map (λ key. key.bytes) result
        ≡ (if is_key_of subject.now bytes.now then Some bytes.now else None) }
{
    if has_identifier(bytes, subject) {
        public_key(bytes)
    } else {
        None
    }
}

/// A key that has that identifier.
fn key_content(part: Part<'_>, subject: &[u8; 20]) -> Result<PublicKey, ShapeFault>
    ensures { Gives (λ key. key.bytes) result
        ((tested (octet_bits 270) (is_key_of subject.now)).read (place part.entry)) }
{
    let bytes = octet_bits(part)?;
    match key_in(&bytes, subject) {
        Some(key) => Ok(key),
        None => Err(part.fault()),
    }
}

/// The subject's key; what stands behind it.
#[tactic(auto, unfolding(crate::specs::Formats::key_of))]
fn key_of<'a>(part: Part<'a>, subject: &[u8; 20]) -> Result<(PublicKey, Part<'a>), ShapeFault>
    ensures { Gives (λ x. (x.0.bytes, place x.1))
        result ((key_of subject.now).read (place part.entry)) }
{
    let (content, rest) = part.open(SEQUENCE)?;
    let content = key_algorithm(content)?;
    let key = key_content(content.sole(BIT_STRING)?, subject)?;
    Ok((key, rest))
}

/// The subject and the extensions (RFC 6487 sections 4.5, 4.7 and 4.8).
#[derive(Drop)]
pub struct SubjectRead {
    pub id: [u8; 20],
    pub key: PublicKey,
    pub extended: ExtendedRead,
}

/// The subject's name, its key and the extensions.
#[tactic(auto, unfolding(crate::specs::Formats::subject))]
fn subject(alloc: Global, part: Part<'_>, issuer: &[u8; 20]) -> Result<SubjectRead, ShapeFault>
    ensures { GivesUnlessMemory subject_value
        result ((subject issuer.now).read (place part.entry)) }
{
    let (id, rest) = name(part)?;
    let (key, rest) = key_of(rest, &id)?;
    let extended = extensions(alloc, rest, issuer, &id)?;
    Ok(SubjectRead { id, key, extended })
}

/// What stands behind the issuer's name (RFC 6487 sections 4.5 to 4.8).
#[derive(Drop)]
pub struct BodyRead {
    /// Seconds since 1970 (RFC 6487 section 4.6.1).
    pub not_before: u64,
    /// Seconds since 1970 (RFC 6487 section 4.6.2).
    pub not_after: u64,
    pub subject: SubjectRead,
}

/// The times, the subject and the extensions.
#[tactic(auto, unfolding(crate::specs::Formats::body))]
fn body(alloc: Global, part: Part<'_>, issuer: &[u8; 20]) -> Result<BodyRead, ShapeFault>
    ensures { GivesUnlessMemory body_value result ((body issuer.now).read (place part.entry)) }
{
    let ((not_before, not_after), rest) = period(part)?;
    let subject = subject(alloc, rest, issuer)?;
    Ok(BodyRead {
        not_before,
        not_after,
        subject,
    })
}

/// What is signed.
#[tactic(auto, unfolding(crate::specs::Formats::tbs_content))]
fn tbs_content(alloc: Global, part: Part<'_>) -> Result<Cert, ShapeFault>
    ensures { GivesUnlessMemory cert_value result (tbs_content.read (place part.entry)) }
{
    let rest = constant(part, CONTEXT_0, &[2, 1, 2])?;
    let (serial, rest) = number(rest)?;
    let rest = signature_algorithm(rest)?;
    let (issuer, rest) = name(rest)?;
    let body = body(alloc, rest, &issuer)?;
    let extended = body.subject.extended;
    Ok(Cert {
        serial,
        issuer: KeyId { bytes: issuer },
        not_before: body.not_before,
        not_after: body.not_after,
        key: body.subject.key,
        kind: extended.kind,
        held: extended.held,
        uris: extended.uris,
    })
}

/// What is signed, its digest, and the signature.
#[tactic(auto, unfolding(crate::specs::Formats::signed_cert))]
fn signed_cert(alloc: Global, part: Part<'_>) -> Result<ReadCert, ShapeFault>
    ensures { GivesUnlessMemory read_value result (signed_cert.read (place part.entry)) }
{
    let parts = signed(part)?;
    let cert = tbs_content(alloc, parts.content)?;
    Ok(ReadCert {
        cert,
        digest: Digest::of(parts.whole),
        signature: Signature {
            bytes: parts.signature,
        },
    })
}

/// Reads certificates.
struct CertReader;

impl<'a> WholeReader<'a> for CertReader {
    type Item = ReadCert;

    ghost Meaning = { SignedCert };

    ghost view = { λ r. read_value r };

    ghost format = { λ reader. signed_cert };

    fn read_whole(&self, alloc: Global, part: Part<'a>) -> Result<ReadCert, ShapeFault> {
        signed_cert(alloc, part)
    }

    ghost is_whole = { λ reader. signed_cert-law };
}

/// The certificate that the bytes are (RFC 5280 section 4.1, RFC 6487 section 4).
///
/// The place in `Shape` is an offset in bytes. Whether the signature holds and whether the
/// certificate is valid at some time isn't asked here.
pub fn read(alloc: Global, bytes: &[u8]) -> Result<ReadCert, ShapeFault>
    // What is read is spelled so, each byte of it, and what is spelled so is read.
    ensures found { IfOk result (λ x. Spells signed_cert (read_value x) bytes.now) }
    ensures only { (value : SignedCert) → Spells signed_cert value bytes.now
        → UnlessMemory (λ x. read_value x ≡ value) result }

    // The very answer, and that the place of a fault is a true one.
    ensures exact { GivesUnlessMemory read_value result (read_object signed_cert bytes.now) }
    ensures fault { IfErr result (IsTrueFault signed_cert bytes.now) }
{
    object(alloc, &CertReader, bytes)
}
