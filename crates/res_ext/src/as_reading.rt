//! AS identifiers, read (RFC 3779 section 3.2.3).

ghost use Rattle.std.specs.Prelude.{◌≡◌, IfSome};
ghost use Rattle.der.specs.Part.{place};
ghost use Rattle.der.specs.Outcome.{GivesUnlessMemory};
ghost use Rattle.res_sets.specs.declared.numbers.Family.TheVariants.{Asn};
ghost use Rattle.res_ext.specs.Formats.{as_content, as_identifiers};
ghost use Rattle.res_ext.specs.Views.{choice_view, as_view};

use crate::choices::choice;
use crate::values::AsRead;
use der::tags::{CONTEXT_0, SEQUENCE};
use der::{Part, ShapeFault};
use res_sets::{Family, Ranges};
use std::alloc::Global;

/// What the choice says.
fn as_read(alloc: Global, choice: Option<Ranges>) -> AsRead
    requires { IfSome choice (λ set. set.family ≡ Asn) }
    ensures { as_view result ≡ choice_view choice }
{
    match choice {
        None => AsRead {
            inherit: true,
            asn: Ranges::empty(alloc, Family::Asn),
        },
        Some(set) => AsRead {
            inherit: false,
            asn: set,
        },
    }
}

/// What the content of an extension says (RFC 3779 section 3.2.3).
#[tactic(auto, unfolding(crate::specs::Formats::as_content))]
pub fn as_content(alloc: Global, part: Part<'_>) -> Result<AsRead, ShapeFault>
    ensures { GivesUnlessMemory as_view result (as_content.read (place part.entry)) }
{
    let choice = choice(alloc, Family::Asn, part.sole(CONTEXT_0)?)?;
    Ok(as_read(alloc, choice))
}

/// What an extension of AS identifiers says, which is all of the part (RFC 3779 section 3.2.3.1).
pub fn as_identifiers(alloc: Global, part: Part<'_>) -> Result<AsRead, ShapeFault>
    ensures { GivesUnlessMemory as_view result (as_identifiers.read (place part.entry)) }
{
    as_content(alloc, part.sole(SEQUENCE)?)
}
