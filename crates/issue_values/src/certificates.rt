//! Certificates (RFC 6487 section 4).

ghost use Rattle.std.specs.Prelude.{◌≡◌, ◌+◌, ◌<◌, ◌^◌, true, Some, None, IfOk, string_bytes};
ghost use Rattle.cert_obj.specs.Values.{IsCert, IsHeld, cert_value, held_value, sets_of, is_uri};
ghost use Rattle.issue_values.specs.Publishers.{publishing, manifest_of};
ghost use Rattle.issue_values.specs.Certificates.{IsEditionMoment, prefix_sets};
ghost use Rattle.issue_values.specs.Certificates as values;

use crate::prefixes::exactly;
use crate::publishers::Publisher;
use crate::uris::{anchor_uris, authority_uris, can_publish, entity_uris};
use cert_obj::{Cert, CertKind, Held, are_sets};
use key_ids::Site;
use origins::Prefix;
use res_sets::Resources;
use signer_api::PublicKey;
use std::alloc::{AllocError, Global};

/// How long certificates of authorities and of ROAs are valid: 52 weeks, in seconds (RFC 6487
/// section 4.6).
pub const CERTIFICATE_LIFE: u64 = 31_449_600;

/// How long a CRL and a manifest are valid, and the manifest's certificate: a day, in seconds (RFC
/// 9286 section 5.1).
pub const POINT_LIFE: u64 = 86_400;

/// The trust anchor's certificate.
fn made_anchor(
    alloc: Global,
    site: &Site,
    moment: u64,
    anchor: &Publisher,
    held: &Resources,
    serial: u64,
) -> Result<Cert, AllocError>
    requires { IsEditionMoment moment }
    ensures { IfOk result (λ cert. cert_value cert
        ≡ values.anchor_certificate site.now moment (publishing anchor.now) held.now serial) }
{
    let uris = anchor_uris(alloc, site, anchor)?;
    let resources = held.copy(alloc)?;
    Ok(Cert {
        serial,
        issuer: anchor.id,
        not_before: moment,
        not_after: moment + CERTIFICATE_LIFE,
        key: anchor.key,
        kind: CertKind::Anchor,
        held: Held::Set { resources },
        uris,
    })
}

/// Another authority's certificate.
fn made_authority(
    alloc: Global,
    site: &Site,
    moment: u64,
    issuer: &Publisher,
    subject: &Publisher,
    held: &Resources,
    serial: u64,
) -> Result<Cert, AllocError>
    requires { IsEditionMoment moment }
    ensures { IfOk result (λ cert. cert_value cert ≡ values.authority_certificate site.now moment
        (publishing issuer.now) (publishing subject.now) held.now serial) }
{
    let uris = authority_uris(alloc, site, issuer, subject)?;
    let resources = held.copy(alloc)?;
    Ok(Cert {
        serial,
        issuer: issuer.id,
        not_before: moment,
        not_after: moment + CERTIFICATE_LIFE,
        key: subject.key,
        kind: CertKind::Authority,
        held: Held::Set { resources },
        uris,
    })
}

/// What a key that signs one object needs for its certificate.
#[derive(Drop)]
struct Entity {
    key: PublicKey,
    held: Held,
    object: String,
}

/// The certificate of a key that signs one object, which is valid so long.
fn made_entity(
    alloc: Global,
    site: &Site,
    moment: u64,
    life: u64,
    issuer: &Publisher,
    entity: Entity,
    serial: u64,
) -> Result<Cert, AllocError>
    requires { moment + life < 2 ^ 64 }
    ensures { IfOk result (λ cert. cert_value cert ≡ values.entity_certificate site.now moment life
        (publishing issuer.now) entity.key.bytes (held_value entity.held) (string_bytes entity.object) serial) }
{
    let Entity { key, held, object } = entity;
    let uris = entity_uris(alloc, site, issuer, object)?;
    Ok(Cert {
        serial,
        issuer: issuer.id,
        not_before: moment,
        not_after: moment + life,
        key,
        kind: CertKind::EndEntity,
        held,
        uris,
    })
}

/// The trust anchor's certificate, which it signs itself (RFC 8630 section 2.3). `moment` is its
/// notBefore, in seconds since 1970.
pub fn anchor_certificate(
    alloc: Global,
    site: &Site,
    moment: u64,
    anchor: &Publisher,
    held: &Resources,
    serial: u64,
) -> Result<Cert, AllocError>
    requires { IsEditionMoment moment }
    ensures value { IfOk result (λ cert. cert_value cert
        ≡ values.anchor_certificate site.now moment (publishing anchor.now) held.now serial) }
    ensures spelled { IfOk result (λ cert. IsCert (cert_value cert)) }
{
    can_publish(site, anchor);
    are_sets(held);
    let cert = made_anchor(alloc, site, moment, anchor, held, serial)?;
    Ok(cert)
}

/// The certificate of another authority's key. `moment` is its notBefore, in seconds since 1970
/// (RFC 6487 section 4.8.8.1).
pub fn authority_certificate(
    alloc: Global,
    site: &Site,
    moment: u64,
    issuer: &Publisher,
    subject: &Publisher,
    held: &Resources,
    serial: u64,
) -> Result<Cert, AllocError>
    requires moment { IsEditionMoment moment }
    requires certified { is_uri issuer.now.certificate ≡ true }
    ensures value { IfOk result (λ cert. cert_value cert ≡ values.authority_certificate site.now moment
        (publishing issuer.now) (publishing subject.now) held.now serial) }
    ensures spelled { IfOk result (λ cert. IsCert (cert_value cert)) }
{
    can_publish(site, issuer);
    can_publish(site, subject);
    are_sets(held);
    let cert = made_authority(alloc, site, moment, issuer, subject, held, serial)?;
    Ok(cert)
}

/// A ROA's key, which holds exactly the prefix.
fn roa_entity(
    alloc: Global,
    key: &PublicKey,
    prefix: &Prefix,
    object: &str,
) -> Result<Entity, AllocError>
    ensures key { IfOk result (λ entity. entity.key.bytes ≡ key.now.bytes) }
    ensures prefix { IfOk result (λ entity. held_value entity.held ≡ Some (prefix_sets prefix.now)) }
    ensures held { IfOk result (λ entity. IsHeld (held_value entity.held)) }
    ensures object { IfOk result (λ entity. string_bytes entity.object ≡ object.now) }
{
    let resources = exactly(alloc, prefix)?;
    are_sets(&resources);
    let object = String::from_str(alloc, object)?;
    Ok(Entity {
        key: *key,
        held: Held::Set { resources },
        object,
    })
}

/// The certificate of a ROA's key: it holds exactly the prefix, and names the ROA's URI (RFC 9582
/// section 5). `moment` is its notBefore, in seconds since 1970.
pub fn roa_certificate(
    alloc: Global,
    site: &Site,
    moment: u64,
    issuer: &Publisher,
    key: &PublicKey,
    prefix: &Prefix,
    object: &str,
    serial: u64,
) -> Result<Cert, AllocError>
    requires moment { IsEditionMoment moment }
    requires certified { is_uri issuer.now.certificate ≡ true }
    requires object { is_uri object.now ≡ true }
    ensures value { IfOk result (λ cert. cert_value cert ≡ values.roa_certificate site.now moment
        (publishing issuer.now) key.now.bytes prefix.now object.now serial) }
    ensures spelled { IfOk result (λ cert. IsCert (cert_value cert)) }
{
    can_publish(site, issuer);
    let entity = roa_entity(alloc, key, prefix, object)?;
    let cert = made_entity(
        alloc,
        site,
        moment,
        CERTIFICATE_LIFE,
        issuer,
        entity,
        serial,
    )?;
    Ok(cert)
}

/// The key of an issuer's manifest, which inherits.
fn manifest_entity(
    alloc: Global,
    site: &Site,
    issuer: &Publisher,
    key: &PublicKey,
) -> Result<Entity, AllocError>
    ensures key { IfOk result (λ entity. entity.key.bytes ≡ key.now.bytes) }
    ensures held { IfOk result (λ entity. held_value entity.held ≡ None) }
    ensures object { IfOk result (λ entity.
        string_bytes entity.object ≡ manifest_of site.now (publishing issuer.now)) }
{
    let object = site.manifest_uri(alloc, issuer.name.as_str(), &issuer.id)?;
    Ok(Entity {
        key: *key,
        held: Held::Inherit,
        object,
    })
}

/// The certificate of the key of an issuer's manifest: it inherits, and names the manifest's URI
/// (RFC 9286 section 5.1). `moment` is its notBefore, in seconds since 1970.
pub fn manifest_certificate(
    alloc: Global,
    site: &Site,
    moment: u64,
    issuer: &Publisher,
    key: &PublicKey,
    serial: u64,
) -> Result<Cert, AllocError>
    requires moment { IsEditionMoment moment }
    requires certified { is_uri issuer.now.certificate ≡ true }
    ensures value { IfOk result (λ cert. cert_value cert ≡ values.manifest_certificate site.now moment
        (publishing issuer.now) key.now.bytes serial) }
    ensures spelled { IfOk result (λ cert. IsCert (cert_value cert)) }
{
    can_publish(site, issuer);
    let entity = manifest_entity(alloc, site, issuer, key)?;
    let cert = made_entity(alloc, site, moment, POINT_LIFE, issuer, entity, serial)?;
    Ok(cert)
}
