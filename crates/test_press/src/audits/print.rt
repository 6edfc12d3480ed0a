//! What is printed.

use crate::audits::changed::Count;
use anyhow::Result;
use rp_audit::AuditRefused;
use rp_rules::{Audited, AuditedPoint};
use std::alloc::Global;

fn push_point(alloc: Global, told: &mut String, point: &AuditedPoint) -> Result<()> {
    let key = hex::encode(alloc, point.key.bytes)?;
    let (number, moment, serial) = (point.number, point.this_update, point.greatest_serial);
    told.push_str(format!(in alloc; "\t{key} {number} {moment} {serial}")?.as_str())?;
    for entry in &point.crl {
        let (serial, moment) = (entry.serial, entry.revoked_at);
        told.push_str(format!(in alloc; " {serial}@{moment}")?.as_str())?;
    }
    Ok(())
}

/// The number of objects, the origins with their folders, the points.
pub fn audited_text(alloc: Global, audited: &Audited) -> Result<String> {
    let objects = audited.objects();
    let mut told = format!(in alloc; "ok {objects}")?;
    for yielded in audited.origins() {
        let text = yielded.origin.text(alloc)?;
        told.push('\t')?;
        told.push_str(yielded.folder.as_str())?;
        told.push(' ')?;
        told.push_str(text.as_str())?;
    }
    for point in audited.points() {
        push_point(alloc, &mut told, point)?;
    }
    Ok(told)
}

/// Appends how often an object was refused at its URI, rule by rule, and how often not.
pub fn push_count(alloc: Global, told: &mut String, uri: &str, count: &Count) -> Result<()> {
    let text = format!(in alloc;
        "{uri} Hash {}, Shape or Signature {}, Identity {}, otherwise {}",
        count.hash, count.shape_or_signature, count.identity, count.otherwise
    )?;
    if !told.is_empty() {
        told.push('\t')?;
    }
    told.push_str(text.as_str())?;
    Ok(())
}

pub fn refused_text(alloc: Global, refused: &AuditRefused) -> Result<String> {
    match refused {
        AuditRefused::Refused { uri, rule } => {
            let (code, name) = (rule.code(), rule.name());
            Ok(format!(in alloc; "refused {code} {name} {uri}")?)
        }
        AuditRefused::Unreached { uri } => Ok(format!(in alloc; "unreached {uri}")?),
        AuditRefused::SignerFault { signer } => Ok(format!(in alloc; "signer {signer}")?),
        AuditRefused::Memory => Ok(String::from_str(alloc, "memory")?),
    }
}
