//! Where the reading of changed CRLs stops.

use anyhow::Result;
use std::alloc::Global;
use test_support::{Probe, push_fault};

/// Reads CRLs.
pub struct CrlProbe;

impl Probe for CrlProbe {
    fn push_answer(&self, alloc: Global, out: &mut String, bytes: &[u8]) -> Result<()> {
        push_fault(out, crl_obj::read(alloc, bytes).err())
    }
}
