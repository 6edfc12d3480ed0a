//! Readers of signed objects (RFC 6488 section 2, RFC 5652 section 5).

ghost use Rattle.std.specs.Prelude.{◌≡◌, IfOk, IfErr};
ghost use Rattle.sha2.specs.Sha256.{sha256};
ghost use Rattle.der.specs.Grammar.{AreBytes};
ghost use Rattle.der.specs.Part.{place};
ghost use Rattle.der.specs.Outcome.{Gives, UnlessMemory};
ghost use Rattle.der.specs.Object.{Spells, read_object, IsTrueFault};
ghost use Rattle.cms_obj.specs.Values.{ObjectValue, object_value};
ghost use Rattle.cms_obj.specs.Formats.{kind, encapsulated, certificates, content_type, signing_time, message_digest, attributes, under_set, signer, signature, signed, signers, digest_algorithms, behind_content, signed_data, signed_object};

use crate::kinds::kind_in;
use crate::values::{ObjectKind, SignedObject};
use der::tags::{CONTEXT_0, INTEGER, OBJECT_IDENTIFIER, OCTET_STRING, PRIMITIVE_0, SEQUENCE, SET};
use der::{Part, ShapeFault, constant, exactly, fixed};
use key_ids::KeyId;
use object_parts::identifiers::{CONTENT_TYPE, MESSAGE_DIGEST, SIGNED_DATA, SIGNING_TIME};
use object_parts::{attribute, digest_algorithm, identifier, key_algorithm, time};
use sha2::{Digest as Hasher, Sha256};
use signer_api::{Digest, Signature};
use std::alloc::Global;

/// The kind of the content; what stands behind it.
fn kind(part: Part<'_>) -> Result<(ObjectKind, Part<'_>), ShapeFault>
    ensures { Gives (λ x. (x.0, place x.1)) result (kind.read (place part.entry)) }
{
    let (content, rest) = part.open(OBJECT_IDENTIFIER)?;
    match kind_in(content.bytes) {
        Some(kind) => Ok((kind, rest)),
        None => Err(content.fault()),
    }
}

/// What is signed for.
#[derive(Clone, Copy)]
struct TypedContent<'a> {
    kind: ObjectKind,
    bytes: &'a [u8],
}

/// The content; what stands behind it.
#[tactic(auto, unfolding(crate::specs::Formats::encapsulated))]
fn encapsulated<'a>(part: Part<'a>) -> Result<(TypedContent<'a>, Part<'a>), ShapeFault>
    ensures { Gives (λ x. ((x.0.kind, x.0.bytes.now), place x.1))
        result (encapsulated.read (place part.entry)) }
{
    let (inside, rest) = part.open(SEQUENCE)?;
    let (kind, inside) = kind(inside)?;
    let content = inside.sole(CONTEXT_0)?.sole(OCTET_STRING)?;
    Ok((
        TypedContent {
            kind,
            bytes: content.bytes,
        },
        rest,
    ))
}

/// The certificate; what stands behind it.
#[tactic(auto, unfolding(crate::specs::Formats::certificates))]
fn certificates<'a>(part: Part<'a>) -> Result<(&'a [u8], Part<'a>), ShapeFault>
    ensures { Gives (λ x. (x.0.now, place x.1)) result (certificates.read (place part.entry)) }
{
    let (content, rest) = part.open(CONTEXT_0)?;
    content.sole(SEQUENCE)?;
    Ok((content.bytes, rest))
}

/// The kind of the content once more; what stands behind it.
fn content_type<'a>(part: Part<'a>, kind: ObjectKind) -> Result<Part<'a>, ShapeFault>
    ensures { Gives (λ q. (tt, place q)) result ((content_type kind).read (place part.entry)) }
{
    let (value, rest) = attribute(part, &CONTENT_TYPE)?;
    exactly(value.sole(OBJECT_IDENTIFIER)?, &kind.identifier())?;
    Ok(rest)
}

/// The time of the signature; what stands behind it.
fn signing_time(part: Part<'_>) -> Result<(u64, Part<'_>), ShapeFault>
    ensures { Gives (λ x. (x.0, place x.1)) result (signing_time.read (place part.entry)) }
{
    let (value, rest) = attribute(part, &SIGNING_TIME)?;
    let (moment, end) = time(value)?;
    end.end()?;
    Ok((moment, rest))
}

/// The hash of the content; what stands behind it.
fn message_digest<'a>(part: Part<'a>, hash: &[u8; 32]) -> Result<Part<'a>, ShapeFault>
    ensures { Gives (λ q. (tt, place q))
        result ((message_digest hash.now).read (place part.entry)) }
{
    let (value, rest) = attribute(part, &MESSAGE_DIGEST)?;
    exactly(value.sole(OCTET_STRING)?, hash)?;
    Ok(rest)
}

/// The time that the attributes tell.
#[tactic(auto, unfolding(crate::specs::Formats::attributes))]
fn attributes(part: Part<'_>, kind: ObjectKind, hash: &[u8; 32]) -> Result<u64, ShapeFault>
    ensures { Gives (λ n. n) result ((attributes kind hash.now).read (place part.entry)) }
{
    let rest = content_type(part, kind)?;
    let (moment, rest) = signing_time(rest)?;
    message_digest(rest, hash)?.end()?;
    Ok(moment)
}

/// The bytes of the identifier of the key that signs; what stands behind it.
fn signer(part: Part<'_>) -> Result<([u8; 20], Part<'_>), ShapeFault>
    ensures { Gives (λ x. (x.0, place x.1)) result (signer.read (place part.entry)) }
{
    let (content, rest) = part.open(PRIMITIVE_0)?;
    let bytes = fixed(content)?;
    Ok((bytes, rest))
}

/// The bytes of the signature.
fn signature(part: Part<'_>) -> Result<[u8; 256], ShapeFault>
    ensures { Gives (λ b. b) result (signature.read (place part.entry)) }
{
    let rest = key_algorithm(part)?;
    fixed(rest.sole(OCTET_STRING)?)
}

/// What is signed, and the signature.
#[derive(Clone, Copy)]
struct SignedPart<'a> {
    moment: u64,
    /// The element of the attributes.
    attributes: &'a [u8],
    signature: [u8; 256],
}

/// The attributes and the signature.
#[tactic(auto, unfolding(crate::specs::Formats::signed))]
fn signed_part<'a>(
    part: Part<'a>,
    kind: ObjectKind,
    hash: &[u8; 32],
) -> Result<SignedPart<'a>, ShapeFault>
    ensures { Gives (λ s. (s.moment, s.attributes.now, s.signature))
        result ((signed kind hash.now).read (place part.entry)) }
{
    let (content, behind) = part.open(CONTEXT_0)?;
    let signature = signature(behind)?;
    let moment = attributes(content, kind, hash)?;
    Ok(SignedPart {
        moment,
        attributes: part.before(behind),
        signature,
    })
}

/// What the signer says.
#[derive(Clone, Copy)]
struct Statement<'a> {
    key: [u8; 20],
    signed: SignedPart<'a>,
}

/// The one signer.
#[tactic(auto, unfolding(crate::specs::Formats::signers))]
fn signers<'a>(
    part: Part<'a>,
    kind: ObjectKind,
    hash: &[u8; 32],
) -> Result<Statement<'a>, ShapeFault>
    ensures { Gives (λ s. (s.key, (s.signed.moment, s.signed.attributes.now, s.signed.signature)))
        result ((signers kind hash.now).read (place part.entry)) }
{
    let content = part.sole(SET)?.sole(SEQUENCE)?;
    let rest = constant(content, INTEGER, &[3])?;
    let (key, rest) = signer(rest)?;
    let rest = digest_algorithm(rest)?;
    let signed = signed_part(rest, kind, hash)?;
    Ok(Statement { key, signed })
}

/// The digest algorithms, of which there is one; what stands behind them.
fn digest_algorithms(part: Part<'_>) -> Result<Part<'_>, ShapeFault>
    ensures { Gives (λ q. (tt, place q)) result (digest_algorithms.read (place part.entry)) }
{
    let (content, rest) = part.open(SET)?;
    digest_algorithm(content)?.end()?;
    Ok(rest)
}

/// The SHA-256 of bytes.
fn hash_of(bytes: &[u8]) -> [u8; 32]
    ensures { result ≡ sha256 bytes.now }
{
    Sha256::digest(bytes)
}

/// The SHA-256 of an element with the tag of a SET in place of its own (RFC 5652 section 5.4).
fn hash_under_set(element: &[u8]) -> [u8; 32]
    ensures { result ≡ sha256 (under_set element.now) }
{
    let [_, rest @ ..] = element else {
        return Sha256::digest(element);
    };
    let mut hasher = Sha256::new();
    hasher.update([SET]);
    hasher.update(rest);
    hasher.finalize()
}

/// The certificate, and what the signer says.
#[derive(Clone, Copy)]
struct Vouched<'a> {
    certificate: &'a [u8],
    statement: Statement<'a>,
}

/// What stands behind a content.
#[tactic(auto, unfolding(crate::specs::Formats::behind_content))]
fn behind_content<'a>(part: Part<'a>, content: TypedContent<'_>) -> Result<Vouched<'a>, ShapeFault>
    ensures { Gives
        (λ v. (
          v.certificate.now,
          (
            v.statement.key,
            (
              v.statement.signed.moment,
              v.statement.signed.attributes.now,
              v.statement.signed.signature,
            ),
          ),
        ))
        result ((behind_content (content.entry.kind, content.entry.bytes.now)).read
        (place part.entry)) }
{
    let (certificate, rest) = certificates(part)?;
    let statement = signers(rest, content.kind, &hash_of(content.bytes))?;
    Ok(Vouched {
        certificate,
        statement,
    })
}

/// A content, and what stands behind it.
#[derive(Clone, Copy)]
struct SignedData<'a> {
    content: TypedContent<'a>,
    vouched: Vouched<'a>,
}

/// The content and all that stands behind it.
#[tactic(auto, unfolding(crate::specs::Formats::signed_data))]
fn signed_data<'a>(part: Part<'a>) -> Result<SignedData<'a>, ShapeFault>
    ensures { Gives
        (λ s. (
          (s.content.kind, s.content.bytes.now),
          (
            s.vouched.certificate.now,
            (
              s.vouched.statement.key,
              (
                s.vouched.statement.signed.moment,
                s.vouched.statement.signed.attributes.now,
                s.vouched.statement.signed.signature,
              ),
            ),
          ),
        ))
        result (signed_data.read (place part.entry)) }
{
    let rest = constant(part.sole(SEQUENCE)?, INTEGER, &[3])?;
    let rest = digest_algorithms(rest)?;
    let (content, rest) = encapsulated(rest)?;
    let vouched = behind_content(rest, content)?;
    Ok(SignedData { content, vouched })
}

/// A signed object.
#[tactic(auto, unfolding(crate::specs::Formats::signed_object))]
fn signed_object<'a>(part: Part<'a>) -> Result<SignedObject<'a>, ShapeFault>
    ensures { Gives object_value result (signed_object.read (place part.entry)) }
{
    let rest = identifier(part.sole(SEQUENCE)?, &SIGNED_DATA)?;
    let data = signed_data(rest.sole(CONTEXT_0)?)?;
    let statement = data.vouched.statement;
    Ok(SignedObject {
        kind: data.content.kind,
        content: data.content.bytes,
        certificate: data.vouched.certificate,
        signer: KeyId {
            bytes: statement.key,
        },
        moment: statement.signed.moment,
        digest: Digest {
            bytes: hash_under_set(statement.signed.attributes),
        },
        signature: Signature {
            bytes: statement.signed.signature,
        },
    })
}

/// What the reading comes to.
fn read_bytes<'a>(bytes: &'a [u8]) -> Result<SignedObject<'a>, ShapeFault>
    ensures exact { Gives object_value result (read_object signed_object bytes.now) }
    ensures bytes { AreBytes bytes.now }
{
    match Part::whole(bytes) {
        Some(part) => signed_object(part),
        None => Err(ShapeFault::Shape {
            at: bytes.len() as u64,
        }),
    }
}

/// The signed object that the bytes are (RFC 6488 section 2.1). Its content and its certificate are
/// parts of them. Whether the signature is the signer's isn't asked. No memory is taken.
///
/// The place in `Shape` is an offset in bytes. The content and the certificate are read by the
/// crates of their own formats.
pub fn read<'a>(_alloc: Global, bytes: &'a [u8]) -> Result<SignedObject<'a>, ShapeFault>
    // What is read is spelled so, each byte of it, and what is spelled so is read.
    ensures found { IfOk result (λ o. Spells signed_object (object_value o) bytes.now) }
    ensures only { (value : ObjectValue) → Spells signed_object value bytes.now
        → UnlessMemory (λ o. object_value o ≡ value) result }

    // The very answer, which is never want of memory, and that the place of a fault is a true one.
    ensures exact { Gives object_value result (read_object signed_object bytes.now) }
    ensures fault { IfErr result (IsTrueFault signed_object bytes.now) }
{
    read_bytes(bytes)
}
