//! What a certificate says, as a text.

use anyhow::Result;
use cert_obj::{CertUris, Held, ReadCert};
use std::alloc::Global;
use test_support::digits_of;

/// What a certificate says: its fields, the digest and the signature.
pub fn shown(alloc: Global, read: &ReadCert) -> Result<String> {
    let cert = &read.cert;
    let issuer = digits_of(alloc, &cert.issuer.bytes)?;
    let key = digits_of(alloc, &cert.key.bytes)?;
    let held = held_text(alloc, &cert.held)?;
    let uris = uris_text(alloc, &cert.uris)?;
    let digest = digits_of(alloc, &read.digest.bytes)?;
    let signature = digits_of(alloc, &read.signature.bytes)?;
    let mut text = format!(in alloc;
        "{} {issuer} {} {}",
        cert.serial, cert.not_before, cert.not_after
    )?;
    write!(text, " {key} {:?} [{held}] {uris}", cert.kind)?;
    write!(text, " {digest} {signature}")?;
    Ok(text)
}

/// The resources: the issuer's, or three sets with semicolons between them.
fn held_text(alloc: Global, held: &Held) -> Result<String> {
    match held {
        Held::Inherit => Ok(format!(in alloc; "inherit")?),
        Held::Set { resources } => {
            let asn = resources.asn.text(alloc)?;
            let v4 = resources.v4.text(alloc)?;
            let v6 = resources.v6.text(alloc)?;
            Ok(format!(in alloc; "{asn};{v4};{v6}")?)
        }
    }
}

/// The URIs, with bars between them.
fn uris_text(alloc: Global, uris: &CertUris) -> Result<String> {
    Ok(format!(in alloc;
        "{}|{}|{}|{}|{}|{}",
        uris.crl, uris.issuer, uris.folder, uris.manifest, uris.notify, uris.object
    )?)
}
