//! Certificates and signed objects.

use crate::authorities::Authority;
use crate::given::{FROM, TO};
use crate::maker::Maker;
use anyhow::{Result, bail};
use cert_obj::{Cert, CertKind, CertUris, Held};
use cms_obj::ObjectKind;
use key_ids::{KeyId, Site};
use signer_api::PublicKey;
use std::alloc::Global;

/// The anchor, whose certificate is put.
pub fn anchor(alloc: Global, site: &Site, maker: &mut Maker, held: Held) -> Result<Authority> {
    let key = maker.key(alloc)?;
    let id = KeyId::of(&key.bytes);
    let cert = Cert {
        serial: maker.serial(),
        issuer: id,
        not_before: FROM,
        not_after: TO,
        key,
        kind: CertKind::Anchor,
        held,
        uris: uris_of(alloc, site, "ta", &id)?,
    };
    let bytes = maker.certify(alloc, &key, &cert)?;
    let uri = site.anchor_uri(alloc)?;
    maker.put(alloc, site.anchor_uri(alloc)?, bytes)?;
    Authority::new(alloc, "ta", key, uri)
}

/// An authority of that name below another, whose certificate is put.
pub fn below(
    alloc: Global,
    site: &Site,
    maker: &mut Maker,
    parent: &mut Authority,
    name: &str,
    held: Held,
) -> Result<Authority> {
    let key = maker.key(alloc)?;
    let id = KeyId::of(&key.bytes);
    let mut uris = uris_of(alloc, site, name, &id)?;
    uris.crl = site.crl_uri(alloc, parent.name.as_str(), &parent.id)?;
    uris.issuer = String::from_str(alloc, parent.uri.as_str())?;
    let cert = Cert {
        serial: maker.serial(),
        issuer: parent.id,
        not_before: FROM,
        not_after: TO,
        key,
        kind: CertKind::Authority,
        held,
        uris,
    };
    let bytes = maker.certify(alloc, &parent.key, &cert)?;
    let text = hex::encode(alloc, id.bytes)?;
    parent.put(alloc, site, maker, format!(in alloc; "{text}.cer")?, bytes)?;
    let uri = site.cert_uri(alloc, parent.name.as_str(), &id)?;
    Authority::new(alloc, name, key, uri)
}

// The URIs of an authority, without those of its issuer.
fn uris_of(alloc: Global, site: &Site, name: &str, id: &KeyId) -> Result<CertUris> {
    Ok(CertUris {
        crl: String::new(alloc),
        issuer: String::new(alloc),
        folder: site.folder(alloc, name)?,
        manifest: site.manifest_uri(alloc, name, id)?,
        notify: site.notify_uri(alloc)?,
        object: String::new(alloc),
    })
}

/// The certificate of a new key that signs the object at the URI.
pub fn entity_of(
    alloc: Global,
    site: &Site,
    maker: &mut Maker,
    issuer: &Authority,
    uri: &str,
    held: Held,
) -> Result<Cert> {
    Ok(Cert {
        serial: maker.serial(),
        issuer: issuer.id,
        not_before: FROM,
        not_after: TO,
        key: maker.key(alloc)?,
        kind: CertKind::EndEntity,
        held,
        uris: CertUris {
            crl: site.crl_uri(alloc, issuer.name.as_str(), &issuer.id)?,
            issuer: String::from_str(alloc, issuer.uri.as_str())?,
            folder: String::new(alloc),
            manifest: String::new(alloc),
            notify: String::new(alloc),
            object: String::from_str(alloc, uri)?,
        },
    })
}

/// The object of that content, signed with the key of the certificate.
pub fn signed_object(
    alloc: Global,
    maker: &mut Maker,
    issuer: &Authority,
    kind: ObjectKind,
    cert: &Cert,
    content: &[u8],
) -> Result<Vec<u8>> {
    let certificate = maker.certify(alloc, &issuer.key, cert)?;
    if !cms_obj::is_certificate(&certificate) || !cms_obj::is_moment(FROM) {
        bail!("no object");
    }
    let signed = cms_obj::attributes(alloc, kind, content, FROM)?;
    let signature = maker.sign(alloc, &cert.key, &signed)?;
    maker.note(alloc, content)?;
    let id = KeyId::of(&cert.key.bytes);
    Ok(cms_obj::write(alloc, kind, content, &certificate, &id, FROM, &signature)?)
}
