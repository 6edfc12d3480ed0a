//! The resources of cases.

use anyhow::Result;
use res_sets::{Family, Ranges, Resources};
use std::alloc::Global;

/// The resources of the texts of their three sets.
pub fn resources_of(alloc: Global, asn: &str, v4: &str, v6: &str) -> Result<Resources> {
    Ok(Resources {
        asn: Ranges::read_text(alloc, Family::Asn, asn)?,
        v4: Ranges::read_text(alloc, Family::V4, v4)?,
        v6: Ranges::read_text(alloc, Family::V6, v6)?,
    })
}
