//! Objects made and read.

use crate::objects::given::Given;
use anyhow::{Context, Result, bail};
use cert_obj::{Cert, ReadCert};
use cms_obj::{ObjectKind, SignedObject};
use key_ids::KeyId;
use payloads::RoaBody;
use signer_api::Signature;
use std::alloc::Global;

/// The certificate's bytes.
fn certificate(alloc: Global, cert: &Cert, signature: &Signature) -> Result<Vec<u8>> {
    if !cert.has_spelling() {
        bail!("no certificate");
    }
    let signed = cert.tbs(alloc)?;
    Ok(cert_obj::write(alloc, &signed, signature)?)
}

/// The body's bytes.
fn body(alloc: Global, body: &RoaBody) -> Result<Vec<u8>> {
    if !body.has_spelling() {
        bail!("no body");
    }
    Ok(body.write(alloc)?)
}

/// The object's bytes. The attributes are made too, as for one who signs them.
pub fn made(alloc: Global, given: &Given) -> Result<Vec<u8>> {
    let certificate = certificate(alloc, &given.cert, &given.signature)?;
    let content = body(alloc, &given.body)?;
    if !cms_obj::is_certificate(&certificate) || !cms_obj::is_moment(given.moment) {
        bail!("no object");
    }
    let _signed = cms_obj::attributes(alloc, ObjectKind::Roa, &content, given.moment)?;
    Ok(cms_obj::write(
        alloc,
        ObjectKind::Roa,
        &content,
        &certificate,
        &KeyId::of(&given.cert.key.bytes),
        given.moment,
        &given.signature,
    )?)
}

/// A certificate and a body that were read.
#[derive(Drop)]
pub struct RoaParts {
    pub certificate: ReadCert,
    pub body: RoaBody,
}

/// The object's parts.
fn frame<'a>(alloc: Global, bytes: &'a [u8]) -> Result<SignedObject<'a>> {
    match cms_obj::read(alloc, bytes) {
        Ok(object) => Ok(object),
        Err(_) => bail!("no signed object"),
    }
}

/// What is read of an object: frame, certificate and body.
pub fn found(alloc: Global, bytes: &[u8]) -> Result<RoaParts> {
    let object = frame(alloc, bytes)?;
    Ok(RoaParts {
        certificate: cert_obj::read(alloc, object.certificate)
            .ok()
            .context("no certificate")?,
        body: RoaBody::read(alloc, object.content)
            .ok()
            .context("no body")?,
    })
}
