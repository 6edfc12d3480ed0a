//! Cases of certificates.
//!
//! Each line is a case: its name, a call, and its arguments, with tabs between them.
//! For each the name and the answer are printed. The files `stdin` and `stdout` beside `src` are what an
//! independent model made.

mod parts;
mod places;
mod shown;

use crate::certificates::parts::{held_of, kind_of, owned};
use crate::certificates::places::CertProbe;
use crate::certificates::shown::shown;
use anyhow::{Context, Result, bail};
use cert_obj::{Cert, CertUris};
use key_ids::KeyId;
use signer_api::{PublicKey, Signature};
use std::alloc::Global;
use test_support::{bytes_of, changes, cuts, digits_of, fixed_of, number_of};

/// Prints the answer to the case of a line.
pub fn print_case(rt: &HostRuntime, line: &str) -> Result<()> {
    let (name, rest) = line.split_once('\t').context("a line without a name")?;
    let (call, arguments) = rest.split_once('\t').context("a line without a call")?;
    let answer = answer(rt.alloc(), call, arguments)?;
    println!(rt; "{name}\t{answer}")?;
    Ok(())
}

/// The answer to a call.
fn answer(alloc: Global, call: &str, arguments: &str) -> Result<String> {
    match call {
        "tbs" => tbs(alloc, arguments),
        "write" => write(alloc, arguments),
        "read" => read(alloc, arguments),
        "cuts" => cuts(alloc, &CertProbe, &bytes_of(alloc, arguments)?),
        "changes" => changes(alloc, &CertProbe, bytes_of(alloc, arguments)?),
        _ => bail!("an unknown call: {call}"),
    }
}

/// The bytes that are signed of a certificate, if it has a spelling.
fn tbs(alloc: Global, arguments: &str) -> Result<String> {
    let cert = cert_of(alloc, arguments)?;
    if !cert.has_spelling() {
        return Ok(format!(in alloc; "no spelling")?);
    }
    Ok(digits_of(alloc, &cert.tbs(alloc)?)?)
}

/// The certificate of fields with tabs between them.
fn cert_of(alloc: Global, arguments: &str) -> Result<Cert> {
    let mut fields = Vec::new(alloc);
    for field in arguments.split('\t') {
        fields.push(field)?;
    }
    let [
        serial,
        issuer,
        not_before,
        not_after,
        key,
        kind,
        held,
        uris @ ..,
    ] = fields.as_slice()
    else {
        bail!("too few fields");
    };
    let key = PublicKey::read(&bytes_of(alloc, key)?).context("no key")?;
    Ok(Cert {
        serial: number_of(serial)?,
        issuer: KeyId {
            bytes: fixed_of(alloc, issuer)?,
        },
        not_before: number_of(not_before)?,
        not_after: number_of(not_after)?,
        key,
        kind: kind_of(kind)?,
        held: held_of(alloc, held)?,
        uris: uris_of(alloc, uris)?,
    })
}

/// The six URIs.
fn uris_of(alloc: Global, fields: &[&str]) -> Result<CertUris> {
    let [crl, issuer, folder, manifest, notify, object] = fields else {
        bail!("another number of URIs");
    };
    Ok(CertUris {
        crl: owned(alloc, crl)?,
        issuer: owned(alloc, issuer)?,
        folder: owned(alloc, folder)?,
        manifest: owned(alloc, manifest)?,
        notify: owned(alloc, notify)?,
        object: owned(alloc, object)?,
    })
}

/// The certificate of what is signed and a signature.
fn write(alloc: Global, arguments: &str) -> Result<String> {
    let (signed, signature) = arguments.split_once('\t').context("no signature")?;
    let bytes = fixed_of(alloc, signature)?;
    let written = cert_obj::write(alloc, &bytes_of(alloc, signed)?, &Signature { bytes })?;
    Ok(digits_of(alloc, &written)?)
}

/// What a certificate says, or why it is none.
fn read(alloc: Global, digits: &str) -> Result<String> {
    match cert_obj::read(alloc, &bytes_of(alloc, digits)?) {
        Ok(read) => shown(alloc, &read),
        Err(fault) => Ok(format!(in alloc; "{fault:?}")?),
    }
}
