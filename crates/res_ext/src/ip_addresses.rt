//! IP address blocks (RFC 3779 section 2.2).

ghost use Rattle.std.specs.Prelude.{◌≡◌, Ok, Err, Some, None, Option, IfOk};
ghost use Rattle.res_sets.specs.declared.numbers.Family.TheVariants.{V4, V6};
ghost use Rattle.res_ext.specs.Formats.{ip_content, ip_blocks};
ghost use Rattle.res_ext.specs.Views.{set_view, ip_view};
ghost use Rattle.res_ext.specs.declared.fault.ExtFault.TheVariants.{NotCanonical, Family as BadFamily};
ghost use Rattle.res_ext.specs.Extensions.{Spans, SpellsIp, HasBadFamily};
ghost use Rattle.res_ext.specs.Answers.{IsUnlessMemory, answer, goes_wrong};

use crate::elements::content_of;
use crate::families::fault_of;
use crate::fault::ExtFault;
use crate::ip_reading::ip_content;
use crate::values::IpRead;
use crate::writing::{push_inherited_ip, push_ip_blocks};
use der::ShapeFault;
use res_sets::Ranges;
use std::alloc::{AllocError, Global};

/// The extension of these addresses (RFC 3779 section 2.2.3). A set that is empty is left out.
///
/// [`read_ip`] reads it again where its content has fewer than 2 ^ 32 bytes.
pub fn write_ip(alloc: Global, v4: &Ranges, v6: &Ranges) -> Result<Vec<u8>, AllocError>
    requires v4_family { v4.now.family ≡ V4 }
    requires v6_family { v6.now.family ≡ V6 }
    ensures { IfOk result (λ out. out.items ≡ ip_blocks.spelling (Some (set_view v4.now, set_view v6.now))) }
{
    let mut out = Vec::new(alloc);
    push_ip_blocks(alloc, &mut out, v4, v6)?;
    Ok(out)
}

/// The extension that says that all addresses are those of the issuer (RFC 3779 section 2.2.3.5).
pub fn inherit_ip(alloc: Global) -> Result<Vec<u8>, AllocError>
    ensures { IfOk result (λ out. out.items ≡ ip_blocks.spelling None) }
{
    let mut out = Vec::new(alloc);
    push_inherited_ip(alloc, &mut out)?;
    Ok(out)
}

/// What an extension says, or why it says nothing.
fn extension_of(alloc: Global, bytes: &[u8]) -> Result<IpRead, ExtFault>
    ensures { IsUnlessMemory ip_view result (answer ip_content goes_wrong bytes.now) }
{
    let Some(content) = content_of(bytes) else {
        return Err(ExtFault::NotCanonical);
    };
    match ip_content(alloc, content) {
        Ok(read) => Ok(read),
        Err(ShapeFault::Memory) => Err(ExtFault::Memory),
        Err(ShapeFault::Shape { .. }) => Err(fault_of(alloc, content)),
    }
}

/// What the extension says, in time linear in the bytes.
///
/// Lengths have at most four bytes: an extension whose content has 2 ^ 32 bytes or more isn't canonical.
///
/// Both are the value of the extension, inside its OCTET STRING (RFC 3779 section 2.2.1).
pub fn read_ip(alloc: Global, bytes: &[u8]) -> Result<IpRead, ExtFault>
    // What is read is spelled so, each byte of it, and what is spelled so is read.
    ensures found { IfOk result (λ read. SpellsIp (ip_view read) bytes.now) }
    ensures only { (value : Option (Spans × Spans)) → SpellsIp value bytes.now
        → IsUnlessMemory ip_view result (Ok value) }

    // A family is refused that may not come next, where all before it is as it may be.
    ensures family { result ≡ Err BadFamily → HasBadFamily bytes.now }
    ensures family_only { HasBadFamily bytes.now → IsUnlessMemory ip_view result (Err BadFamily) }

    // The rest isn't canonical.
    ensures refused { result ≡ Err NotCanonical
        → ((value : Option (Spans × Spans)) → ¬ SpellsIp value bytes.now) × ¬ HasBadFamily bytes.now }
    ensures refused_only { ((value : Option (Spans × Spans)) → ¬ SpellsIp value bytes.now)
        → ¬ HasBadFamily bytes.now → IsUnlessMemory ip_view result (Err NotCanonical) }
{
    extension_of(alloc, bytes)
}
