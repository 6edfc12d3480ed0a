//! Where the reading of changed bodies stops.

use anyhow::Result;
use payloads::{BodyFault, ManifestBody, RoaBody};
use std::alloc::Global;
use test_support::Probe;

/// Reads bodies of a kind.
pub enum BodyProbe {
    Roa,
    Manifest,
}

/// Why the bytes are no body of that kind.
fn fault_of(alloc: Global, probe: &BodyProbe, bytes: &[u8]) -> Option<BodyFault> {
    match probe {
        BodyProbe::Roa => RoaBody::read(alloc, bytes).err(),
        BodyProbe::Manifest => ManifestBody::read(alloc, bytes).err(),
    }
}

impl Probe for BodyProbe {
    fn push_answer(&self, alloc: Global, out: &mut String, bytes: &[u8]) -> Result<()> {
        match fault_of(alloc, self, bytes) {
            None => out.push_str("read")?,
            Some(BodyFault::Shape { at }) => write!(out, "{at}")?,
            Some(BodyFault::Order { at }) => write!(out, "order:{at}")?,
            Some(BodyFault::Memory) => out.push_str("memory")?,
        }
        Ok(())
    }
}
