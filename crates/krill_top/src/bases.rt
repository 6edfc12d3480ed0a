//! The bases of the repository, as the words give them.

ghost use Rattle.std.specs.Prelude.{◌≡◌, ◌↔◌, IsTrue, IfOk, IfErr};
ghost use Rattle.key_ids.specs.Base.{IsBase, is_base_byte};
ghost use Rattle.krill_top.specs.Run.{AreRefusedBases};

use crate::faults::RunFault;
use key_ids::{Site, SiteFault};
use std::alloc::Global;

fn is_base_byte(c: u8) -> bool
    ensures { result ≡ is_base_byte c }
{
    c.is_ascii_alphanumeric()
        || c == b'-'
        || c == b'.'
        || c == b'_'
        || c == b'~'
        || c == b'/'
        || c == b':'
}

fn is_base(text: &str, scheme: &str) -> bool
    ensures { IsTrue result ↔ IsBase scheme.now text.now }
{
    let bytes = text.as_bytes();
    12 <= bytes.len()
        && bytes.len() <= 200
        && bytes.starts_with(scheme.as_bytes())
        && bytes.ends_with(b"/")
        && bytes.iter().all(|c| is_base_byte(*c))
}

/// Reads the two bases. Both are tested before any memory is taken, so want of it comes only where they
/// are bases: the contract of `Site::read` doesn't say so.
pub(crate) fn read_bases(alloc: Global, rsync: &str, rrdp: &str) -> Result<Site, RunFault>
    ensures site { IfOk result (λ site. site ≡ record { rsync = rsync.now; rrdp = rrdp.now }) }
    ensures refused { IfErr result (AreRefusedBases (record { rsync = rsync.now; rrdp = rrdp.now })) }
{
    if !is_base(rsync, "rsync://") {
        let fault = SiteFault::BadRsync;
        return Err(RunFault::Base { fault });
    }
    if !is_base(rrdp, "https://") {
        let fault = SiteFault::BadRrdp;
        return Err(RunFault::Base { fault });
    }
    match Site::read(alloc, rsync, rrdp) {
        Ok(site) => Ok(site),
        Err(SiteFault::Memory) => Err(RunFault::Memory),
        Err(SiteFault::BadRsync | SiteFault::BadRrdp) => unreachable!(),
    }
}
