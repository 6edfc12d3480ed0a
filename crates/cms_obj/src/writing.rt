//! Writers of signed objects (RFC 6488 section 2, RFC 5652 section 5).

ghost use Rattle.std.specs.Prelude.{◌≡◌, ◌↔◌, ◌<◌, ◌^◌, ◌++◌, length, IfOk, OnOk, IsTrue};
ghost use Rattle.sha2.specs.Sha256.{sha256};
ghost use Rattle.moments.specs.Civil.{IsMoment};
ghost use Rattle.der.specs.Tags as tag;
ghost use Rattle.der.specs.Spelling.{spelled};
ghost use Rattle.der.specs.Object.{Spells};
ghost use Rattle.cms_obj.specs.Values.{IsElement};
ghost use Rattle.cms_obj.specs.Formats.{encapsulated, certificates, content_type, signing_time, message_digest, attributes, signed_attributes, version, signature as signature_form, signed, signers, signed_of, parts_of, digest_algorithms, signed_data, IsSignedObject, signed_object, object_of};

use crate::values::{HashedContent, ObjectKind};
use der::Part;
use der::tags::{CONTEXT_0, INTEGER, OCTET_STRING, PRIMITIVE_0, SEQUENCE, SET};
use key_ids::KeyId;
use object_parts::identifiers::{CONTENT_TYPE, MESSAGE_DIGEST, SIGNED_DATA, SIGNING_TIME};
use object_parts::{push_digest_algorithm, push_identifier, push_key_algorithm, push_time};
use sha2::{Digest as Hasher, Sha256};
use signer_api::Signature;
use std::alloc::{AllocError, Global};

/// Room for the attributes.
const ATTRIBUTES_ROOM: usize = 128;

/// Room for what stands around a content and its certificate.
const AROUND: usize = 560;

/// Appends the kind of the content as an attribute.
#[tactic(auto, using(std::proofs::Common::append_assoc))]
fn push_content_type(alloc: Global, out: &mut Vec<u8>, kind: ObjectKind) -> Result<(), AllocError>
    ensures { OnOk result (out.new.items ≡ out.old.items ++ (content_type kind).spelling tt) }
{
    let from = out.len();
    push_identifier(alloc, out, &CONTENT_TYPE)?;
    let value = out.len();
    push_identifier(alloc, out, &kind.identifier())?;
    der::enclose(alloc, out, value, SET)?;
    der::enclose(alloc, out, from, SEQUENCE)
}

/// Appends the time of the signature as an attribute.
#[tactic(auto, using(std::proofs::Common::append_assoc))]
fn push_signing_time(alloc: Global, out: &mut Vec<u8>, moment: u64) -> Result<(), AllocError>
    requires { IsMoment moment }
    ensures { OnOk result (out.new.items ≡ out.old.items ++ signing_time.spelling moment) }
{
    let from = out.len();
    push_identifier(alloc, out, &SIGNING_TIME)?;
    let value = out.len();
    push_time(alloc, out, moment)?;
    der::enclose(alloc, out, value, SET)?;
    der::enclose(alloc, out, from, SEQUENCE)
}

/// Appends the hash of the content as an attribute.
#[tactic(auto, using(std::proofs::Common::append_assoc))]
fn push_message_digest(alloc: Global, out: &mut Vec<u8>, hash: &[u8; 32]) -> Result<(), AllocError>
    ensures { OnOk result (out.new.items ≡ out.old.items ++ (message_digest hash.now).spelling tt) }
{
    let from = out.len();
    push_identifier(alloc, out, &MESSAGE_DIGEST)?;
    let value = out.len();
    der::element(alloc, out, OCTET_STRING, hash)?;
    der::enclose(alloc, out, value, SET)?;
    der::enclose(alloc, out, from, SEQUENCE)
}

/// Appends the attributes.
#[tactic(auto, using(std::proofs::Common::append_assoc), unfolding(crate::specs::Formats::attributes))]
fn push_attributes(
    alloc: Global,
    out: &mut Vec<u8>,
    kind: ObjectKind,
    hash: &[u8; 32],
    moment: u64,
) -> Result<(), AllocError>
    requires { IsMoment moment }
    ensures { OnOk result (out.new.items ≡ out.old.items
        ++ (attributes kind hash.now).spelling moment) }
{
    push_content_type(alloc, out, kind)?;
    push_signing_time(alloc, out, moment)?;
    push_message_digest(alloc, out, hash)
}

/// The attributes of a content with that hash, as a SET.
fn attributes_with(
    alloc: Global,
    kind: ObjectKind,
    hash: &[u8; 32],
    moment: u64,
) -> Result<Vec<u8>, AllocError>
    requires { IsMoment moment }
    ensures { IfOk result (λ bytes. bytes.items
        ≡ spelled tag.set_of ((attributes kind hash.now).spelling moment)) }
{
    let mut out = Vec::with_capacity(alloc, ATTRIBUTES_ROOM)?;
    push_attributes(alloc, &mut out, kind, hash, moment)?;
    der::enclose(alloc, &mut out, 0, SET)?;
    Ok(out)
}

/// The attributes of an object that is signed at that time, as the SET whose SHA-256 is signed (RFC
/// 6488 section 2.1.6.4, RFC 9589). `moment` is in seconds since 1970.
#[tactic(auto, unfolding(crate::specs::Formats::signed_attributes))]
pub fn attributes(
    alloc: Global,
    kind: ObjectKind,
    content: &[u8],
    moment: u64,
) -> Result<Vec<u8>, AllocError>
    requires { IsMoment moment }
    ensures { IfOk result (λ bytes. bytes.items ≡ signed_attributes kind content.now moment) }
{
    attributes_with(alloc, kind, &Sha256::digest(content), moment)
}

/// The same of a content that was hashed.
#[tactic(auto, unfolding(crate::specs::Formats::signed_attributes))]
pub fn hashed_attributes(
    alloc: Global,
    kind: ObjectKind,
    content: &HashedContent,
    moment: u64,
) -> Result<Vec<u8>, AllocError>
    requires { IsMoment moment }
    ensures { IfOk result (λ bytes. bytes.items
        ≡ signed_attributes kind content.now.bytes.items moment) }
{
    attributes_with(alloc, kind, &content.hash, moment)
}

/// Appends the algorithm and the bytes of the signature.
#[tactic(auto, using(std::proofs::Common::append_assoc))]
fn push_signature(alloc: Global, out: &mut Vec<u8>, signature: &[u8; 256]) -> Result<(), AllocError>
    ensures { OnOk result (out.new.items ≡ out.old.items ++ signature_form.spelling signature.now) }
{
    push_key_algorithm(alloc, out)?;
    der::element(alloc, out, OCTET_STRING, signature)
}

/// What a signer says of a content.
#[derive(Clone, Copy)]
struct Statement {
    kind: ObjectKind,
    /// The SHA-256 of the content.
    hash: [u8; 32],
    moment: u64,
    signer: [u8; 20],
    signature: [u8; 256],
}

/// Appends the attributes and the signature.
#[tactic(auto, using(std::proofs::Common::append_assoc), unfolding(crate::specs::Formats::signed))]
fn push_signed(alloc: Global, out: &mut Vec<u8>, said: &Statement) -> Result<(), AllocError>
    requires { IsMoment said.now.moment }
    ensures { OnOk result (out.new.items ≡ out.old.items
        ++ (signed said.now.kind said.now.hash).spelling
        (signed_of said.now.kind said.now.hash said.now.moment said.now.signature)) }
{
    let from = out.len();
    push_attributes(alloc, out, said.kind, &said.hash, said.moment)?;
    der::enclose(alloc, out, from, CONTEXT_0)?;
    push_signature(alloc, out, &said.signature)
}

/// Appends the one signer.
#[tactic(auto, using(std::proofs::Common::append_assoc), unfolding(crate::specs::Formats::signers))]
fn push_signers(alloc: Global, out: &mut Vec<u8>, said: &Statement) -> Result<(), AllocError>
    requires { IsMoment said.now.moment }
    ensures { OnOk result (out.new.items ≡ out.old.items
        ++ (signers said.now.kind said.now.hash).spelling
        (said.now.signer, signed_of said.now.kind said.now.hash said.now.moment said.now.signature)) }
{
    let from = out.len();
    der::element(alloc, out, INTEGER, &[3])?;
    der::element(alloc, out, PRIMITIVE_0, &said.signer)?;
    push_digest_algorithm(alloc, out)?;
    push_signed(alloc, out, said)?;
    der::enclose(alloc, out, from, SEQUENCE)?;
    der::enclose(alloc, out, from, SET)
}

/// Appends the content with its kind.
#[tactic(auto, using(std::proofs::Common::append_assoc), unfolding(crate::specs::Formats::encapsulated))]
fn push_encapsulated(
    alloc: Global,
    out: &mut Vec<u8>,
    kind: ObjectKind,
    content: &[u8],
) -> Result<(), AllocError>
    ensures { OnOk result (out.new.items ≡ out.old.items
        ++ encapsulated.spelling (kind, content.now)) }
{
    let from = out.len();
    push_identifier(alloc, out, &kind.identifier())?;
    let inside = out.len();
    der::element(alloc, out, OCTET_STRING, content)?;
    der::enclose(alloc, out, inside, CONTEXT_0)?;
    der::enclose(alloc, out, from, SEQUENCE)
}

/// Appends the certificate.
#[tactic(auto, unfolding(crate::specs::Formats::certificates))]
fn push_certificate(alloc: Global, out: &mut Vec<u8>, certificate: &[u8]) -> Result<(), AllocError>
    ensures { OnOk result (out.new.items ≡ out.old.items ++ certificates.spelling certificate.now) }
{
    der::element(alloc, out, CONTEXT_0, certificate)
}

/// Appends the version and the digest algorithms, of which there is one.
#[tactic(auto, using(std::proofs::Common::append_assoc))]
fn push_head(alloc: Global, out: &mut Vec<u8>) -> Result<(), AllocError>
    ensures { OnOk result (out.new.items ≡ out.old.items
        ++ (version.spelling tt ++ digest_algorithms.spelling tt)) }
{
    der::element(alloc, out, INTEGER, &[3])?;
    let from = out.len();
    push_digest_algorithm(alloc, out)?;
    der::enclose(alloc, out, from, SET)
}

/// Appends a content, its certificate and what the signer says of it.
#[tactic(auto, using(std::proofs::Common::append_assoc), unfolding(crate::specs::Formats::signed_data, crate::specs::Formats::behind_content))]
fn push_signed_data(
    alloc: Global,
    out: &mut Vec<u8>,
    content: &[u8],
    certificate: &[u8],
    said: &Statement,
) -> Result<(), AllocError>
    requires moment { IsMoment said.now.moment }
    requires hash { said.now.hash ≡ sha256 content.now }
    ensures { OnOk result (out.new.items ≡ out.old.items ++ signed_data.spelling (parts_of
        (object_of said.now.kind content.now certificate.now said.now.signer said.now.moment
        said.now.signature))) }
{
    let from = out.len();
    push_head(alloc, out)?;
    push_encapsulated(alloc, out, said.kind, content)?;
    push_certificate(alloc, out, certificate)?;
    push_signers(alloc, out, said)?;
    der::enclose(alloc, out, from, SEQUENCE)
}

/// What the types say, and what is given.
fn is_object(
    kind: ObjectKind,
    content: &[u8],
    certificate: &[u8],
    signer: &[u8; 20],
    moment: u64,
    signature: &[u8; 256],
)
    requires certificate { IsElement tag.sequence certificate.now }
    requires moment { IsMoment moment }
    ensures { IsSignedObject
        (object_of kind content.now certificate.now signer.now moment signature.now) }
{}

/// The signed object of a content and its certificate, with what the signer says of it.
#[tactic(auto, using(std::proofs::Common::append_assoc), unfolding(crate::specs::Formats::signed_object))]
fn written(
    alloc: Global,
    content: &[u8],
    certificate: &[u8],
    said: &Statement,
) -> Result<Vec<u8>, AllocError>
    requires moment { IsMoment said.now.moment }
    requires hash { said.now.hash ≡ sha256 content.now }
    ensures { IfOk result (λ out. out.items ≡ signed_object.spelling
        (object_of said.now.kind content.now certificate.now said.now.signer said.now.moment
        said.now.signature)) }
{
    let inside = content.len().saturating_add(certificate.len());
    let mut out = Vec::with_capacity(alloc, inside.saturating_add(AROUND))?;
    push_identifier(alloc, &mut out, &SIGNED_DATA)?;
    let from = out.len();
    push_signed_data(alloc, &mut out, content, certificate, said)?;
    der::enclose(alloc, &mut out, from, CONTEXT_0)?;
    der::enclose(alloc, &mut out, 0, SEQUENCE)?;
    Ok(out)
}

/// The signed object of a content with that hash.
#[tactic(auto, unfolding(crate::specs::Formats::signed_object))]
fn written_with(
    alloc: Global,
    kind: ObjectKind,
    content: &[u8],
    hash: [u8; 32],
    certificate: &[u8],
    signer: &KeyId,
    moment: u64,
    signature: &Signature,
) -> Result<Vec<u8>, AllocError>
    requires certificate { IsElement tag.sequence certificate.now }
    requires moment { IsMoment moment }
    requires hash { hash ≡ sha256 content.now }
    ensures bytes { IfOk result (λ out. out.items ≡ signed_object.spelling
        (object_of kind content.now certificate.now signer.now.bytes moment signature.now.bytes)) }
    ensures spelled { IfOk result (λ out. length out.items < 2 ^ 32 → Spells signed_object
        (object_of kind content.now certificate.now signer.now.bytes moment signature.now.bytes)
        out.items) }
{
    is_object(
        kind,
        content,
        certificate,
        &signer.bytes,
        moment,
        &signature.bytes,
    );
    let said = Statement {
        kind,
        hash,
        moment,
        signer: signer.bytes,
        signature: signature.bytes,
    };
    let out = written(alloc, content, certificate, &said)?;
    Ok(out)
}

/// The signed object of a content, the certificate of the key that signs, the key's identifier, the time
/// of the signature, and the signature of the [`attributes`]. `moment` is in seconds since 1970, as it
/// was given there.
pub fn write(
    alloc: Global,
    kind: ObjectKind,
    content: &[u8],
    certificate: &[u8],
    signer: &KeyId,
    moment: u64,
    signature: &Signature,
) -> Result<Vec<u8>, AllocError>
    // See `is_certificate` and `moments::is_moment`.
    requires certificate { IsElement tag.sequence certificate.now }
    requires moment { IsMoment moment }

    // The bytes are the spelling of the object. Where they are few enough, they are read back to it.
    ensures bytes { IfOk result (λ out. out.items ≡ signed_object.spelling
        (object_of kind content.now certificate.now signer.now.bytes moment signature.now.bytes)) }
    ensures spelled { IfOk result (λ out. length out.items < 2 ^ 32 → Spells signed_object
        (object_of kind content.now certificate.now signer.now.bytes moment signature.now.bytes)
        out.items) }
{
    let hash = Sha256::digest(content);
    written_with(
        alloc,
        kind,
        content,
        hash,
        certificate,
        signer,
        moment,
        signature,
    )
}

/// The same of a content that was hashed, which takes its hash as it is.
pub fn write_hashed(
    alloc: Global,
    kind: ObjectKind,
    content: &HashedContent,
    certificate: &[u8],
    signer: &KeyId,
    moment: u64,
    signature: &Signature,
) -> Result<Vec<u8>, AllocError>
    // See `is_certificate` and `moments::is_moment`.
    requires certificate { IsElement tag.sequence certificate.now }
    requires moment { IsMoment moment }

    // The bytes are the spelling of the object. Where they are few enough, they are read back to it.
    ensures bytes { IfOk result (λ out. out.items ≡ signed_object.spelling
        (object_of kind content.now.bytes.items certificate.now signer.now.bytes moment
        signature.now.bytes)) }
    ensures spelled { IfOk result (λ out. length out.items < 2 ^ 32 → Spells signed_object
        (object_of kind content.now.bytes.items certificate.now signer.now.bytes moment
        signature.now.bytes) out.items) }
{
    written_with(
        alloc,
        kind,
        &content.bytes,
        content.hash,
        certificate,
        signer,
        moment,
        signature,
    )
}

/// Whether a part is one whole element.
#[tactic(auto, using(crate::specs::laws::ObjectLaws::element_found, crate::specs::laws::ObjectLaws::element_only))]
fn is_sole(part: Part<'_>) -> bool
    ensures { IsTrue result ↔ IsElement tag.sequence part.entry.bytes.now }
{
    match part.sole(SEQUENCE) {
        Ok(_) => true,
        Err(_) => false,
    }
}

/// Whether bytes may stand for a certificate: they are one whole element (RFC 6488 section 2.1.4).
/// Its own format isn't asked.
pub fn is_certificate(bytes: &[u8]) -> bool
    ensures { IsTrue result ↔ IsElement tag.sequence bytes.now }
{
    match Part::whole(bytes) {
        Some(part) => is_sole(part),
        None => false,
    }
}
