//! The arguments of cases.

use anyhow::{Result, bail};
use cms_obj::ObjectKind;

/// A kind of content by its name.
pub fn kind_of(name: &str) -> Result<ObjectKind> {
    match name {
        "Manifest" => Ok(ObjectKind::Manifest),
        "Roa" => Ok(ObjectKind::Roa),
        _ => bail!("no kind: {name}"),
    }
}
