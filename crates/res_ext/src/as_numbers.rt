//! AS identifiers (RFC 3779 section 3.2).

ghost use Rattle.std.specs.Prelude.{◌≡◌, ◌≢◌, Ok, Err, Some, None, Option, IfOk};
ghost use Rattle.res_sets.specs.declared.numbers.Family.TheVariants.{Asn};
ghost use Rattle.res_ext.specs.Formats.{as_content, as_identifiers};
ghost use Rattle.res_ext.specs.Views.{set_view, as_view};
ghost use Rattle.res_ext.specs.declared.fault.ExtFault.TheVariants.{NotCanonical, Family as BadFamily};
ghost use Rattle.res_ext.specs.Extensions.{Spans, SpellsAs};
ghost use Rattle.res_ext.specs.Answers.{IsUnlessMemory, answer, never};

use crate::as_reading::as_content;
use crate::elements::content_of;
use crate::fault::ExtFault;
use crate::values::AsRead;
use crate::writing::{push_as_identifiers, push_inherited_as};
use der::ShapeFault;
use res_sets::Ranges;
use std::alloc::{AllocError, Global};

/// The extension of these AS numbers (RFC 3779 section 3.2.3).
///
/// [`read_as`] reads it again where its content has fewer than 2 ^ 32 bytes.
pub fn write_as(alloc: Global, asn: &Ranges) -> Result<Vec<u8>, AllocError>
    requires { asn.now.family ≡ Asn }
    ensures { IfOk result (λ out. out.items ≡ as_identifiers.spelling (Some (set_view asn.now))) }
{
    let mut out = Vec::new(alloc);
    push_as_identifiers(alloc, &mut out, asn)?;
    Ok(out)
}

/// The extension that says that all AS numbers are those of the issuer (RFC 3779 section 3.2.3.3).
pub fn inherit_as(alloc: Global) -> Result<Vec<u8>, AllocError>
    ensures { IfOk result (λ out. out.items ≡ as_identifiers.spelling None) }
{
    let mut out = Vec::new(alloc);
    push_inherited_as(alloc, &mut out)?;
    Ok(out)
}

/// What an extension says, or why it says nothing.
fn extension_of(alloc: Global, bytes: &[u8]) -> Result<AsRead, ExtFault>
    ensures { IsUnlessMemory as_view result (answer as_content never bytes.now) }
{
    let Some(content) = content_of(bytes) else {
        return Err(ExtFault::NotCanonical);
    };
    match as_content(alloc, content) {
        Ok(read) => Ok(read),
        Err(ShapeFault::Memory) => Err(ExtFault::Memory),
        Err(ShapeFault::Shape { .. }) => Err(ExtFault::NotCanonical),
    }
}

/// What the extension says, in time linear in the bytes.
///
/// Lengths have at most four bytes: an extension whose content has 2 ^ 32 bytes or more isn't canonical.
///
/// Both are the value of the extension, inside its OCTET STRING (RFC 3779 section 3.2.1).
pub fn read_as(alloc: Global, bytes: &[u8]) -> Result<AsRead, ExtFault>
    // What is read is spelled so, each byte of it, and what is spelled so is read.
    ensures found { IfOk result (λ read. SpellsAs (as_view read) bytes.now) }
    ensures only { (value : Option Spans) → SpellsAs value bytes.now → IsUnlessMemory as_view result (Ok value) }

    // All else isn't canonical.
    ensures refused { result ≡ Err NotCanonical → (value : Option Spans) → ¬ SpellsAs value bytes.now }
    ensures refused_only { ((value : Option Spans) → ¬ SpellsAs value bytes.now)
        → IsUnlessMemory as_view result (Err NotCanonical) }
    ensures no_family { result ≢ Err BadFamily }
{
    extension_of(alloc, bytes)
}
