//! Prefixes as BIT STRINGs (RFC 9582 section 4.3.2.1).

ghost use Rattle.std.specs.Prelude.{◌≡◌, ◌++◌, OnOk};
ghost use Rattle.origins.specs.Prefix.{address_bits};
ghost use Rattle.der.specs.Part.{place};
ghost use Rattle.der.specs.Outcome.{Gives};
ghost use Rattle.payloads.specs.Prefixes.{prefix_parts, prefix as prefix_form};

use der::{Part, ShapeFault};
use origins::Prefix;
use res_ext::{leading_bits, push_leading};
use std::alloc::{AllocError, Global};

/// How many bits an address of the family has.
pub fn address_bits(v6: bool) -> u32
    ensures { result ≡ address_bits v6 }
{
    if v6 { 128 } else { 32 }
}

/// A prefix of the family (RFC 9582 section 4.3.2.1).
#[tactic(auto, using(crate::specs::laws::PrefixLaws::address_size))]
pub fn prefix(v6: bool, part: Part<'_>) -> Result<(Prefix, Part<'_>), ShapeFault>
    ensures { Gives (λ x. (prefix_parts x.0, place x.1))
        result ((prefix_form v6).read (place part.entry)) }
{
    let ((length, address), rest) = leading_bits(address_bits(v6), part)?;
    let prefix = Prefix {
        v6,
        address,
        length: length as u8,
    };
    Ok((prefix, rest))
}

/// Appends a prefix (RFC 9582 section 4.3.2.1).
#[tactic(auto, using(crate::specs::laws::PrefixLaws::address_size), unfolding(res_ext::specs::Prefixes::leading_spelling, der::specs::Spelling::bits_spelling))]
pub fn push_prefix(alloc: Global, out: &mut Vec<u8>, prefix: Prefix) -> Result<(), AllocError>
    ensures { OnOk result (out.new.items ≡ out.old.items
        ++ (prefix_form prefix.v6).spelling (prefix_parts prefix)) }
{
    let length = u32::from(prefix.length);
    push_leading(alloc, out, address_bits(prefix.v6), length, prefix.address)
}
