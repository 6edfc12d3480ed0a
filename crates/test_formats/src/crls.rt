//! Cases of CRLs.
//!
//! Each line is a case: its name, a call, and its arguments, with tabs between them.
//! For each the name and the answer are printed. The files `stdin` and `stdout` beside `src` are what an
//! independent model made.

mod parts;
mod places;

use crate::crls::parts::entries_of;
use crate::crls::places::CrlProbe;
use anyhow::{Context, Result, bail};
use crl_obj::{Crl, ReadCrl};
use key_ids::KeyId;
use signer_api::Signature;
use std::alloc::Global;
use test_support::{bytes_of, changes, cuts, digits_of, fixed_of, number_of};

/// Prints the answer to the case of a line.
pub fn print_case(rt: &HostRuntime, line: &str) -> Result<()> {
    let (name, rest) = line.split_once('\t').context("a line without a name")?;
    let (call, arguments) = rest.split_once('\t').context("a line without a call")?;
    let answer = answer(rt.alloc(), call, arguments)?;
    println!(rt; "{name}\t{answer}")?;
    Ok(())
}

/// The answer to a call.
fn answer(alloc: Global, call: &str, arguments: &str) -> Result<String> {
    match call {
        "tbs" => tbs(alloc, arguments),
        "write" => write(alloc, arguments),
        "read" => read(alloc, arguments),
        "cuts" => cuts(alloc, &CrlProbe, &bytes_of(alloc, arguments)?),
        "changes" => changes(alloc, &CrlProbe, bytes_of(alloc, arguments)?),
        _ => bail!("an unknown call: {call}"),
    }
}

/// The bytes that are signed of a CRL, if it has a spelling.
fn tbs(alloc: Global, arguments: &str) -> Result<String> {
    let crl = crl_of(alloc, arguments)?;
    if !crl.has_spelling() {
        return Ok(format!(in alloc; "no spelling")?);
    }
    Ok(digits_of(alloc, &crl.tbs(alloc)?)?)
}

/// The CRL of its issuer, two times, number and entries.
fn crl_of(alloc: Global, arguments: &str) -> Result<Crl> {
    let mut fields = arguments.split('\t');
    let issuer = fixed_of(alloc, fields.next().context("no issuer")?)?;
    let this_update = number_of(fields.next().context("no time")?)?;
    let next_update = number_of(fields.next().context("no next time")?)?;
    let number = number_of(fields.next().context("no number")?)?;
    let entries = entries_of(alloc, fields.next().context("no entries")?)?;
    Ok(Crl {
        issuer: KeyId { bytes: issuer },
        this_update,
        next_update,
        number,
        entries,
    })
}

/// The CRL of what is signed and a signature.
fn write(alloc: Global, arguments: &str) -> Result<String> {
    let (signed, signature) = arguments.split_once('\t').context("no signature")?;
    let bytes = fixed_of(alloc, signature)?;
    let written = crl_obj::write(alloc, &bytes_of(alloc, signed)?, &Signature { bytes })?;
    Ok(digits_of(alloc, &written)?)
}

/// What a CRL says, or why it is none.
fn read(alloc: Global, digits: &str) -> Result<String> {
    match crl_obj::read(alloc, &bytes_of(alloc, digits)?) {
        Ok(read) => shown(alloc, &read),
        Err(fault) => Ok(format!(in alloc; "{fault:?}")?),
    }
}

/// What a CRL says.
fn shown(alloc: Global, read: &ReadCrl) -> Result<String> {
    let crl = &read.crl;
    let mut text = digits_of(alloc, &crl.issuer.bytes)?;
    write!(
        text,
        " {} {} {} [",
        crl.this_update, crl.next_update, crl.number
    )?;
    for (i, entry) in crl.entries.iter().enumerate() {
        if i > 0 {
            text.push(',')?;
        }
        write!(text, "{}:{}", entry.serial, entry.revoked_at)?;
    }
    text.push_str("] ")?;
    text.push_str(digits_of(alloc, &read.digest.bytes)?.as_str())?;
    text.push(' ')?;
    text.push_str(digits_of(alloc, &read.signature.bytes)?.as_str())?;
    Ok(text)
}
