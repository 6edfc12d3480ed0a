//! Cases of signed objects.
//!
//! Each line is a case: its name, a call, and its arguments, with tabs between them.
//! For each the name and the answer are printed. The files `stdin` and `stdout` beside `src` are what an
//! independent model made.

mod parts;
mod places;

use crate::signed::parts::kind_of;
use crate::signed::places::ObjectProbe;
use anyhow::{Context, Result, bail};
use cms_obj::{ObjectKind, SignedObject};
use key_ids::KeyId;
use signer_api::Signature;
use std::alloc::Global;
use test_support::{bytes_of, changes, cuts, digits_of, fixed_of, number_of};

/// Prints the answer to the case of a line.
pub fn print_case(rt: &HostRuntime, line: &str) -> Result<()> {
    let (name, rest) = line.split_once('\t').context("a line without a name")?;
    let (call, arguments) = rest.split_once('\t').context("a line without a call")?;
    let answer = answer(rt.alloc(), call, arguments)?;
    println!(rt; "{name}\t{answer}")?;
    Ok(())
}

/// The answer to a call.
fn answer(alloc: Global, call: &str, arguments: &str) -> Result<String> {
    match call {
        "attributes" => attributes(alloc, arguments),
        "write" => write(alloc, arguments),
        "read" => read(alloc, arguments),
        "cuts" => cuts(alloc, &ObjectProbe, &bytes_of(alloc, arguments)?),
        "changes" => changes(alloc, &ObjectProbe, bytes_of(alloc, arguments)?),
        _ => bail!("an unknown call: {call}"),
    }
}

/// The attributes of a kind, a content and a time.
fn attributes(alloc: Global, arguments: &str) -> Result<String> {
    let mut fields = arguments.split('\t');
    let kind = kind_of(fields.next().context("no kind")?)?;
    let content = bytes_of(alloc, fields.next().context("no content")?)?;
    let moment = number_of(fields.next().context("no time")?)?;
    if !cms_obj::is_moment(moment) {
        return Ok(format!(in alloc; "no spelling")?);
    }
    let written = cms_obj::attributes(alloc, kind, &content, moment)?;
    Ok(digits_of(alloc, &written)?)
}

/// What is written as a signed object.
#[derive(Drop)]
struct Given {
    kind: ObjectKind,
    content: Vec<u8>,
    certificate: Vec<u8>,
    signer: KeyId,
    moment: u64,
    signature: Signature,
}

/// A kind, a content, a certificate, a signer, a time and a signature.
fn given_of(alloc: Global, arguments: &str) -> Result<Given> {
    let mut fields = arguments.split('\t');
    let kind = kind_of(fields.next().context("no kind")?)?;
    let content = bytes_of(alloc, fields.next().context("no content")?)?;
    let certificate = bytes_of(alloc, fields.next().context("no certificate")?)?;
    let signer = fixed_of(alloc, fields.next().context("no signer")?)?;
    let moment = number_of(fields.next().context("no time")?)?;
    let signature = fixed_of(alloc, fields.next().context("no signature")?)?;
    Ok(Given {
        kind,
        content,
        certificate,
        signer: KeyId { bytes: signer },
        moment,
        signature: Signature { bytes: signature },
    })
}

/// The signed object of what is given, if it has a spelling.
fn write(alloc: Global, arguments: &str) -> Result<String> {
    let given = given_of(alloc, arguments)?;
    if !cms_obj::is_certificate(&given.certificate) || !cms_obj::is_moment(given.moment) {
        return Ok(format!(in alloc; "no spelling")?);
    }
    let written = cms_obj::write(
        alloc,
        given.kind,
        &given.content,
        &given.certificate,
        &given.signer,
        given.moment,
        &given.signature,
    )?;
    Ok(digits_of(alloc, &written)?)
}

/// What a signed object says, or why it is none.
fn read(alloc: Global, digits: &str) -> Result<String> {
    match cms_obj::read(alloc, &bytes_of(alloc, digits)?) {
        Ok(object) => shown(alloc, &object),
        Err(fault) => Ok(format!(in alloc; "{fault:?}")?),
    }
}

/// What a signed object says.
fn shown(alloc: Global, object: &SignedObject<'_>) -> Result<String> {
    let mut text = format!(in alloc; "{:?} {} ", object.kind, object.moment)?;
    text.push_str(digits_of(alloc, object.content)?.as_str())?;
    text.push(' ')?;
    text.push_str(digits_of(alloc, object.certificate)?.as_str())?;
    text.push(' ')?;
    text.push_str(digits_of(alloc, &object.signer.bytes)?.as_str())?;
    text.push(' ')?;
    text.push_str(digits_of(alloc, &object.digest.bytes)?.as_str())?;
    text.push(' ')?;
    text.push_str(digits_of(alloc, &object.signature.bytes)?.as_str())?;
    Ok(text)
}
