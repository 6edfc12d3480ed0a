//! Writers of the extensions but for the resources (RFC 5280 section 4.2, RFC 6487 sections 4.8.1
//! to 4.8.9).

ghost use Rattle.std.specs.Prelude.{◌≡◌, ◌++◌, OnOk};
ghost use Rattle.cert_obj.specs.Extensions.{basic_constraints, subject_key, key_usage, distribution_points, distribution, access, issuer_access_uris, issuer_information, authority_access_uris, authority_information, entity_access_uris, entity_information, policies};

use crate::fixed::{CA_TRUE, RPKI_POLICIES};
use der::tags::{CONTEXT_0, OCTET_STRING, PRIMITIVE_6, SEQUENCE};
use object_parts::identifiers::{
    AUTHORITY_INFORMATION, BASIC_CONSTRAINTS, CA_ISSUERS, CA_REPOSITORY, DISTRIBUTION_POINTS,
    KEY_USAGE, POLICIES, RPKI_MANIFEST, RPKI_NOTIFY, SIGNED_OBJECT, SUBJECT_INFORMATION,
    SUBJECT_KEY_IDENTIFIER,
};
use object_parts::{push_critical_extension, push_identifier, push_key_identifier};
use std::alloc::{AllocError, Global};

/// Appends that it is an authority's (RFC 6487 section 4.8.1).
pub fn push_basic_constraints(alloc: Global, out: &mut Vec<u8>) -> Result<(), AllocError>
    ensures { OnOk result (out.new.items ≡ out.old.items ++ basic_constraints.spelling tt) }
{
    push_critical_extension(alloc, out, &BASIC_CONSTRAINTS, &CA_TRUE)
}

/// Appends the identifier of the subject's key (RFC 6487 section 4.8.2).
#[tactic(auto, using(std::proofs::Common::append_assoc))]
pub fn push_subject_key(
    alloc: Global,
    out: &mut Vec<u8>,
    subject: &[u8; 20],
) -> Result<(), AllocError>
    ensures { OnOk result (out.new.items ≡ out.old.items ++ (subject_key subject.now).spelling tt) }
{
    let from = out.len();
    push_identifier(alloc, out, &SUBJECT_KEY_IDENTIFIER)?;
    let value = out.len();
    push_key_identifier(alloc, out, subject)?;
    der::enclose(alloc, out, value, OCTET_STRING)?;
    der::enclose(alloc, out, from, SEQUENCE)
}

/// Appends the usage of the key (RFC 6487 section 4.8.4).
pub fn push_key_usage(alloc: Global, out: &mut Vec<u8>, usage: &[u8; 4]) -> Result<(), AllocError>
    ensures { OnOk result (out.new.items ≡ out.old.items ++ (key_usage usage.now).spelling tt) }
{
    push_critical_extension(alloc, out, &KEY_USAGE, usage)
}

/// Appends the one distribution point of a CRL.
#[tactic(auto, using(std::proofs::Common::append_assoc), unfolding(crate::specs::Extensions::distribution_points, crate::specs::Extensions::uri))]
fn push_distribution_points(alloc: Global, out: &mut Vec<u8>, crl: &str) -> Result<(), AllocError>
    ensures { OnOk result (out.new.items ≡ out.old.items ++ distribution_points.spelling crl.now) }
{
    let from = out.len();
    der::element(alloc, out, PRIMITIVE_6, crl.as_bytes())?;
    der::enclose(alloc, out, from, CONTEXT_0)?;
    der::enclose(alloc, out, from, CONTEXT_0)?;
    der::enclose(alloc, out, from, SEQUENCE)?;
    der::enclose(alloc, out, from, SEQUENCE)
}

/// Appends where the issuer's CRL is (RFC 6487 section 4.8.6).
#[tactic(auto, using(std::proofs::Common::append_assoc))]
pub fn push_distribution(alloc: Global, out: &mut Vec<u8>, crl: &str) -> Result<(), AllocError>
    ensures { OnOk result (out.new.items ≡ out.old.items ++ distribution.spelling crl.now) }
{
    let from = out.len();
    push_identifier(alloc, out, &DISTRIBUTION_POINTS)?;
    let value = out.len();
    push_distribution_points(alloc, out, crl)?;
    der::enclose(alloc, out, value, OCTET_STRING)?;
    der::enclose(alloc, out, from, SEQUENCE)
}

/// Appends what is found by a method of access.
#[tactic(auto, using(std::proofs::Common::append_assoc), unfolding(crate::specs::Extensions::access, crate::specs::Extensions::uri))]
fn push_access(
    alloc: Global,
    out: &mut Vec<u8>,
    method: &[u8; 8],
    uri: &str,
) -> Result<(), AllocError>
    ensures { OnOk result (out.new.items ≡ out.old.items ++ (access method.now).spelling uri.now) }
{
    let from = out.len();
    push_identifier(alloc, out, method)?;
    der::element(alloc, out, PRIMITIVE_6, uri.as_bytes())?;
    der::enclose(alloc, out, from, SEQUENCE)
}

/// Appends the value of the issuer's information.
#[tactic(auto, unfolding(crate::specs::Extensions::issuer_access_uris))]
fn push_issuer_access_uris(alloc: Global, out: &mut Vec<u8>, issuer: &str) -> Result<(), AllocError>
    ensures { OnOk result (out.new.items ≡ out.old.items ++ issuer_access_uris.spelling issuer.now) }
{
    let from = out.len();
    push_access(alloc, out, &CA_ISSUERS, issuer)?;
    der::enclose(alloc, out, from, SEQUENCE)
}

/// Appends where the issuer's certificate is (RFC 6487 section 4.8.7).
#[tactic(auto, using(std::proofs::Common::append_assoc))]
pub fn push_issuer_information(
    alloc: Global,
    out: &mut Vec<u8>,
    issuer: &str,
) -> Result<(), AllocError>
    ensures { OnOk result (out.new.items ≡ out.old.items
        ++ issuer_information.spelling issuer.now) }
{
    let from = out.len();
    push_identifier(alloc, out, &AUTHORITY_INFORMATION)?;
    let value = out.len();
    push_issuer_access_uris(alloc, out, issuer)?;
    der::enclose(alloc, out, value, OCTET_STRING)?;
    der::enclose(alloc, out, from, SEQUENCE)
}

/// Appends the value of an authority's information.
#[tactic(auto, using(std::proofs::Common::append_assoc), unfolding(crate::specs::Extensions::authority_access_uris))]
fn push_authority_access_uris(
    alloc: Global,
    out: &mut Vec<u8>,
    folder: &str,
    manifest: &str,
    notify: &str,
) -> Result<(), AllocError>
    ensures { OnOk result (out.new.items ≡ out.old.items
        ++ authority_access_uris.spelling (folder.now, (manifest.now, notify.now))) }
{
    let from = out.len();
    push_access(alloc, out, &CA_REPOSITORY, folder)?;
    push_access(alloc, out, &RPKI_MANIFEST, manifest)?;
    push_access(alloc, out, &RPKI_NOTIFY, notify)?;
    der::enclose(alloc, out, from, SEQUENCE)
}

/// Appends where an authority publishes (RFC 6487 section 4.8.8.1, RFC 8182 section 3.2).
#[tactic(auto, using(std::proofs::Common::append_assoc))]
pub fn push_authority_information(
    alloc: Global,
    out: &mut Vec<u8>,
    folder: &str,
    manifest: &str,
    notify: &str,
) -> Result<(), AllocError>
    ensures { OnOk result (out.new.items ≡ out.old.items
        ++ authority_information.spelling (folder.now, (manifest.now, notify.now))) }
{
    let from = out.len();
    push_identifier(alloc, out, &SUBJECT_INFORMATION)?;
    let value = out.len();
    push_authority_access_uris(alloc, out, folder, manifest, notify)?;
    der::enclose(alloc, out, value, OCTET_STRING)?;
    der::enclose(alloc, out, from, SEQUENCE)
}

/// Appends the value of an end-entity's information.
#[tactic(auto, unfolding(crate::specs::Extensions::entity_access_uris))]
fn push_entity_access_uris(alloc: Global, out: &mut Vec<u8>, object: &str) -> Result<(), AllocError>
    ensures { OnOk result (out.new.items ≡ out.old.items ++ entity_access_uris.spelling object.now) }
{
    let from = out.len();
    push_access(alloc, out, &SIGNED_OBJECT, object)?;
    der::enclose(alloc, out, from, SEQUENCE)
}

/// Appends where an end-entity's object is (RFC 6487 section 4.8.8.2).
#[tactic(auto, using(std::proofs::Common::append_assoc))]
pub fn push_entity_information(
    alloc: Global,
    out: &mut Vec<u8>,
    object: &str,
) -> Result<(), AllocError>
    ensures { OnOk result (out.new.items ≡ out.old.items
        ++ entity_information.spelling object.now) }
{
    let from = out.len();
    push_identifier(alloc, out, &SUBJECT_INFORMATION)?;
    let value = out.len();
    push_entity_access_uris(alloc, out, object)?;
    der::enclose(alloc, out, value, OCTET_STRING)?;
    der::enclose(alloc, out, from, SEQUENCE)
}

/// Appends the policy (RFC 6487 section 4.8.9).
pub fn push_policies(alloc: Global, out: &mut Vec<u8>) -> Result<(), AllocError>
    ensures { OnOk result (out.new.items ≡ out.old.items ++ policies.spelling tt) }
{
    push_critical_extension(alloc, out, &POLICIES, &RPKI_POLICIES)
}
