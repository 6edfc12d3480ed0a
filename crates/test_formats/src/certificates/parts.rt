//! The arguments of cases.

use anyhow::{Result, bail};
use cert_obj::{CertKind, Held};
use std::alloc::{AllocError, Global};
use test_support::resources_of;

/// The same text in memory of its own.
pub fn owned(alloc: Global, text: &str) -> Result<String, AllocError> {
    let mut owned = String::new(alloc);
    owned.push_str(text)?;
    Ok(owned)
}

/// A kind by its name.
pub fn kind_of(name: &str) -> Result<CertKind> {
    match name {
        "Anchor" => Ok(CertKind::Anchor),
        "Authority" => Ok(CertKind::Authority),
        "EndEntity" => Ok(CertKind::EndEntity),
        _ => bail!("an unknown kind: {name}"),
    }
}

/// The issuer's resources, or three sets with semicolons between them.
pub fn held_of(alloc: Global, text: &str) -> Result<Held> {
    if text == "inherit" {
        return Ok(Held::Inherit);
    }
    let mut sets = Vec::new(alloc);
    for set in text.split(';') {
        sets.push(set)?;
    }
    let [asn, v4, v6] = sets.as_slice() else {
        bail!("another number of sets: {text}");
    };
    Ok(Held::Set {
        resources: resources_of(alloc, asn, v4, v6)?,
    })
}
