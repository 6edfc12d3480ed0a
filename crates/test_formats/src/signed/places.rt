//! Where the reading of changed objects stops.

use anyhow::Result;
use std::alloc::Global;
use test_support::{Probe, push_fault};

/// Reads objects.
pub struct ObjectProbe;

impl Probe for ObjectProbe {
    fn push_answer(&self, alloc: Global, out: &mut String, bytes: &[u8]) -> Result<()> {
        push_fault(out, cms_obj::read(alloc, bytes).err())
    }
}
