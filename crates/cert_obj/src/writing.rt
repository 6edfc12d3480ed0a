//! Writers of certificates (RFC 5280 section 4.1, RFC 6487 section 4).

ghost use Rattle.std.specs.Prelude.{◌≡◌, ◌<◌, ◌^◌, ◌++◌, length, IfOk, OnOk};
ghost use Rattle.sha1.specs.Sha1.{sha1};
ghost use Rattle.sha2.specs.Sha256.{sha256};
ghost use Rattle.der.specs.Tags as tag;
ghost use Rattle.der.specs.Spelling.{spelled};
ghost use Rattle.der.specs.Object.{Spells};
ghost use Rattle.object_parts.specs.FrameFormats.{signature as signature_form};
ghost use Rattle.cert_obj.specs.declared.values.CertKind.TheVariants.{Anchor, Authority, EndEntity};
ghost use Rattle.cert_obj.specs.Values.{CertValue, IsCert, held_value, uris_value, cert_value};
ghost use Rattle.cert_obj.specs.Formats.{published, published_of, anchor_rest, issued_authority, entity, issued_entity, authority_extensions, entity_extensions, kinds_for, kinds, extensions, extended_of, subject as subject_form, body, parts_of, tbs_content, signed_bytes, signed_cert};

use crate::extension_writing::{
    push_authority_information, push_basic_constraints, push_distribution, push_entity_information,
    push_issuer_information, push_key_usage, push_policies, push_subject_key,
};
use crate::fixed::{AUTHORITY_USAGE, ENTITY_USAGE};
use crate::holding_writing::push_held;
use crate::values::{Cert, CertKind};
use der::tags::{CONTEXT_0, CONTEXT_3, SEQUENCE};
use key_ids::KeyId;
use object_parts::{
    push_issuer_key, push_key_info, push_name, push_period, push_signature_algorithm, write_signed,
};
use signer_api::Signature;
use std::alloc::{AllocError, Global};

/// Room for what is signed of a certificate with few resources, so that it is written in one place.
const ROOM: usize = 1_536;

/// Appends the places and the resources of an authority.
#[tactic(auto, using(std::proofs::Common::append_assoc), unfolding(crate::specs::Formats::published))]
fn push_published(alloc: Global, out: &mut Vec<u8>, cert: &Cert) -> Result<(), AllocError>
    ensures { OnOk result (out.new.items ≡ out.old.items
        ++ published.spelling (published_of (uris_value cert.now.uris) (held_value cert.now.held))) }
{
    let uris = &cert.uris;
    push_authority_information(alloc, out, &uris.folder, &uris.manifest, &uris.notify)?;
    push_policies(alloc, out)?;
    push_held(alloc, out, &cert.held)
}

/// Appends the anchor's extensions behind the subject's.
#[tactic(auto, using(std::proofs::Common::append_assoc), unfolding(crate::specs::Formats::anchor_rest))]
fn push_anchor_rest(alloc: Global, out: &mut Vec<u8>, cert: &Cert) -> Result<(), AllocError>
    ensures { OnOk result (out.new.items ≡ out.old.items
        ++ anchor_rest.spelling
        (published_of (uris_value cert.now.uris) (held_value cert.now.held))) }
{
    push_key_usage(alloc, out, &AUTHORITY_USAGE)?;
    push_published(alloc, out, cert)
}

/// Appends another authority's extensions behind the issuer's key.
#[tactic(auto, using(std::proofs::Common::append_assoc), unfolding(crate::specs::Formats::issued_authority))]
fn push_issued_authority(alloc: Global, out: &mut Vec<u8>, cert: &Cert) -> Result<(), AllocError>
    ensures { OnOk result (out.new.items ≡ out.old.items
        ++ issued_authority.spelling (
          (uris_value cert.now.uris).crl,
          (
            (uris_value cert.now.uris).issuer,
            published_of (uris_value cert.now.uris) (held_value cert.now.held),
          ),
        )) }
{
    push_key_usage(alloc, out, &AUTHORITY_USAGE)?;
    push_distribution(alloc, out, &cert.uris.crl)?;
    push_issuer_information(alloc, out, &cert.uris.issuer)?;
    push_published(alloc, out, cert)
}

/// Appends the object and the resources of an end-entity.
#[tactic(auto, using(std::proofs::Common::append_assoc), unfolding(crate::specs::Formats::entity, crate::specs::Holdings::entity_held))]
fn push_entity(alloc: Global, out: &mut Vec<u8>, cert: &Cert) -> Result<(), AllocError>
    ensures { OnOk result (out.new.items ≡ out.old.items
        ++ entity.spelling ((uris_value cert.now.uris).object, held_value cert.now.held)) }
{
    push_entity_information(alloc, out, &cert.uris.object)?;
    push_policies(alloc, out)?;
    push_held(alloc, out, &cert.held)
}

/// Appends an end-entity's extensions behind the issuer's key.
#[tactic(auto, using(std::proofs::Common::append_assoc), unfolding(crate::specs::Formats::issued_entity))]
fn push_issued_entity(alloc: Global, out: &mut Vec<u8>, cert: &Cert) -> Result<(), AllocError>
    ensures { OnOk result (out.new.items ≡ out.old.items
        ++ issued_entity.spelling (
          (uris_value cert.now.uris).crl,
          (
            (uris_value cert.now.uris).issuer,
            ((uris_value cert.now.uris).object, held_value cert.now.held),
          ),
        )) }
{
    push_key_usage(alloc, out, &ENTITY_USAGE)?;
    push_distribution(alloc, out, &cert.uris.crl)?;
    push_issuer_information(alloc, out, &cert.uris.issuer)?;
    push_entity(alloc, out, cert)
}

/// Appends the anchor's extensions.
#[tactic(auto, using(std::proofs::Common::append_assoc), unfolding(crate::specs::Formats::kinds, crate::specs::Formats::authority_extensions))]
fn push_anchor(
    alloc: Global,
    out: &mut Vec<u8>,
    cert: &Cert,
    subject: &[u8; 20],
) -> Result<(), AllocError>
    requires { cert.now.kind ≡ Anchor }
    ensures { OnOk result (out.new.items ≡ out.old.items
        ++ (kinds cert.now.issuer.bytes subject.now).spelling (extended_of (cert_value cert.now))) }
{
    push_basic_constraints(alloc, out)?;
    push_subject_key(alloc, out, subject)?;
    push_anchor_rest(alloc, out, cert)
}

/// Appends another authority's extensions.
#[tactic(auto, using(std::proofs::Common::append_assoc), unfolding(crate::specs::Formats::kinds, crate::specs::Formats::authority_extensions))]
fn push_authority(
    alloc: Global,
    out: &mut Vec<u8>,
    cert: &Cert,
    subject: &[u8; 20],
) -> Result<(), AllocError>
    requires { cert.now.kind ≡ Authority }
    ensures { OnOk result (out.new.items ≡ out.old.items
        ++ (kinds cert.now.issuer.bytes subject.now).spelling (extended_of (cert_value cert.now))) }
{
    push_basic_constraints(alloc, out)?;
    push_subject_key(alloc, out, subject)?;
    push_issuer_key(alloc, out, &cert.issuer.bytes)?;
    push_issued_authority(alloc, out, cert)
}

/// Appends an end-entity's extensions.
#[tactic(auto, using(std::proofs::Common::append_assoc), unfolding(crate::specs::Formats::kinds, crate::specs::Formats::entity_extensions))]
fn push_end_entity(
    alloc: Global,
    out: &mut Vec<u8>,
    cert: &Cert,
    subject: &[u8; 20],
) -> Result<(), AllocError>
    requires { cert.now.kind ≡ EndEntity }
    ensures { OnOk result (out.new.items ≡ out.old.items
        ++ (kinds cert.now.issuer.bytes subject.now).spelling (extended_of (cert_value cert.now))) }
{
    push_subject_key(alloc, out, subject)?;
    push_issuer_key(alloc, out, &cert.issuer.bytes)?;
    push_issued_entity(alloc, out, cert)
}

/// Appends the extensions of its kind.
fn push_kinds(
    alloc: Global,
    out: &mut Vec<u8>,
    cert: &Cert,
    subject: &[u8; 20],
) -> Result<(), AllocError>
    ensures { OnOk result (out.new.items ≡ out.old.items
        ++ (kinds cert.now.issuer.bytes subject.now).spelling (extended_of (cert_value cert.now))) }
{
    match cert.kind {
        CertKind::Anchor => push_anchor(alloc, out, cert, subject),
        CertKind::Authority => push_authority(alloc, out, cert, subject),
        CertKind::EndEntity => push_end_entity(alloc, out, cert, subject),
    }
}

/// Appends the extensions under the issuer of a subject.
#[tactic(auto, unfolding(crate::specs::Formats::extensions))]
fn push_extensions(
    alloc: Global,
    out: &mut Vec<u8>,
    cert: &Cert,
    subject: &[u8; 20],
) -> Result<(), AllocError>
    ensures { OnOk result (out.new.items ≡ out.old.items
        ++ (extensions cert.now.issuer.bytes subject.now).spelling
        (extended_of (cert_value cert.now))) }
{
    let from = out.len();
    push_kinds(alloc, out, cert, subject)?;
    der::enclose(alloc, out, from, SEQUENCE)?;
    der::enclose(alloc, out, from, CONTEXT_3)
}

/// Appends the subject's name, its key and the extensions.
#[tactic(auto, using(std::proofs::Common::append_assoc), unfolding(crate::specs::Formats::subject, crate::specs::Formats::key_of))]
fn push_subject(alloc: Global, out: &mut Vec<u8>, cert: &Cert) -> Result<(), AllocError>
    ensures { OnOk result (out.new.items ≡ out.old.items
        ++ (subject_form cert.now.issuer.bytes).spelling
        (sha1 cert.now.key.bytes, (cert.now.key.bytes, extended_of (cert_value cert.now)))) }
{
    let subject = KeyId::of(&cert.key.bytes);
    push_name(alloc, out, &subject.bytes)?;
    push_key_info(alloc, out, &cert.key.bytes)?;
    push_extensions(alloc, out, cert, &subject.bytes)
}

/// Appends what follows the issuer's name.
#[tactic(auto, using(std::proofs::Common::append_assoc), unfolding(crate::specs::Formats::body))]
fn push_body(alloc: Global, out: &mut Vec<u8>, cert: &Cert) -> Result<(), AllocError>
    requires { IsCert (cert_value cert.now) }
    ensures { OnOk result (out.new.items ≡ out.old.items
        ++ (body cert.now.issuer.bytes).spelling (parts_of (cert_value cert.now)).1.1) }
{
    push_period(alloc, out, cert.not_before, cert.not_after)?;
    push_subject(alloc, out, cert)
}

/// Appends the content of what is signed.
#[tactic(auto, using(std::proofs::Common::append_assoc), unfolding(crate::specs::Formats::tbs_content, der::specs::Spelling::unsigned_spelling))]
fn push_content(alloc: Global, out: &mut Vec<u8>, cert: &Cert) -> Result<(), AllocError>
    requires { IsCert (cert_value cert.now) }
    ensures { OnOk result (out.new.items ≡ out.old.items
        ++ tbs_content.spelling (cert_value cert.now)) }
{
    der::element(alloc, out, CONTEXT_0, &[2, 1, 2])?;
    der::unsigned(alloc, out, cert.serial)?;
    push_signature_algorithm(alloc, out)?;
    push_name(alloc, out, &cert.issuer.bytes)?;
    push_body(alloc, out, cert)
}

impl Cert {
    /// The bytes that are signed (tbsCertificate, RFC 5280 section 4.1.2). Whether there are any,
    /// `has_spelling` says.
    #[tactic(auto, unfolding(crate::specs::Formats::signed_bytes))]
    pub fn tbs(&self, alloc: Global) -> Result<Vec<u8>, AllocError>
        requires { IsCert (cert_value self.now) }
        ensures { IfOk result (λ bytes. bytes.items ≡ signed_bytes (cert_value self.now)) }
    {
        let mut out = Vec::with_capacity(alloc, ROOM)?;
        push_content(alloc, &mut out, self)?;
        der::enclose(alloc, &mut out, 0, SEQUENCE)?;
        Ok(out)
    }
}

/// A signature's length.
fn is_whole(bytes: &[u8; 256])
    ensures { length bytes.now ≡ 256 }
{}

/// The certificate of the bytes that are signed, and their signature (RFC 5280 section 4.1).
pub fn write(alloc: Global, tbs: &[u8], signature: &Signature) -> Result<Vec<u8>, AllocError>
    // An element around what is signed, the algorithm and the signature.
    ensures bytes { IfOk result (λ out.
        out.items ≡ spelled tag.sequence (tbs.now ++ signature_form.spelling signature.now.bytes)) }

    // So it is the spelling of a certificate that is signed so, and is read back.
    ensures spelled { IfOk result (λ out. (cert : CertValue) → IsCert cert → tbs.now ≡ signed_bytes cert
        → length out.items < 2 ^ 32
        → Spells signed_cert
        (record { cert = cert; digest = sha256 tbs.now; signature = signature.now.bytes })
        out.items) }
{
    is_whole(&signature.bytes);
    write_signed(alloc, tbs, &signature.bytes)
}
