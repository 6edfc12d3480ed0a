//! Where the reading of changed certificates stops.

use anyhow::Result;
use std::alloc::Global;
use test_support::{Probe, push_fault};

/// Reads certificates.
pub struct CertProbe;

impl Probe for CertProbe {
    fn push_answer(&self, alloc: Global, out: &mut String, bytes: &[u8]) -> Result<()> {
        push_fault(out, cert_obj::read(alloc, bytes).err())
    }
}
