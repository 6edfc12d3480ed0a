//! The resources of a ROA's certificate (RFC 9582 section 5).

ghost use Rattle.std.specs.Prelude.{◌≡◌, ◌<◌, [], ◌∷◌, IfOk, if◌then◌else◌};
ghost use Rattle.res_sets.specs.Numbers.{family_end};
ghost use Rattle.res_sets.specs.declared.numbers.Family.TheVariants.{V4, V6};
ghost use Rattle.res_ext.specs.Formats.{span_of};
ghost use Rattle.res_ext.specs.Views.{set_view};
ghost use Rattle.cert_obj.specs.Values.{sets_of};
ghost use Rattle.issue_values.specs.Certificates.{prefix_span, prefix_sets};

use origins::Prefix;
use res_sets::{Family, PushFault, Range, Ranges, Resources};
use std::alloc::{AllocError, Global};

/// The addresses of a prefix.
fn addresses(prefix: &Prefix) -> Range
    ensures span { span_of result ≡ prefix_span prefix.now }
    ensures family { result.last < family_end (if prefix.now.v6 then V6 else V4) }
{
    Range {
        first: prefix.first(),
        last: prefix.last(),
    }
}

/// The set of one range.
fn one_range(alloc: Global, family: Family, range: Range) -> Result<Ranges, AllocError>
    requires { range.last < family_end family }
    ensures set { IfOk result (λ set. set_view set ≡ span_of range ∷ []) }
    ensures family { IfOk result (λ set. set.family ≡ family) }
{
    let mut set = Ranges::with_room(alloc, family, 1)?;
    match set.push(range) {
        Ok(()) => Ok(set),
        Err(PushFault::Memory) => Err(AllocError),
        Err(PushFault::NotBehind) => unreachable!(),
    }
}

/// The addresses of an IPv4 prefix, and nothing else.
fn exactly_v4(alloc: Global, range: Range) -> Result<Resources, AllocError>
    requires { range.last < family_end V4 }
    ensures { IfOk result (λ held. sets_of held ≡ record { asn = []; v4 = span_of range ∷ []; v6 = [] }) }
{
    Ok(Resources {
        asn: Ranges::empty(alloc, Family::Asn),
        v4: one_range(alloc, Family::V4, range)?,
        v6: Ranges::empty(alloc, Family::V6),
    })
}

/// The addresses of an IPv6 prefix, and nothing else.
fn exactly_v6(alloc: Global, range: Range) -> Result<Resources, AllocError>
    requires { range.last < family_end V6 }
    ensures { IfOk result (λ held. sets_of held ≡ record { asn = []; v4 = []; v6 = span_of range ∷ [] }) }
{
    Ok(Resources {
        asn: Ranges::empty(alloc, Family::Asn),
        v4: Ranges::empty(alloc, Family::V4),
        v6: one_range(alloc, Family::V6, range)?,
    })
}

/// The resources that have the addresses of a prefix, and nothing else.
pub fn exactly(alloc: Global, prefix: &Prefix) -> Result<Resources, AllocError>
    ensures { IfOk result (λ held. sets_of held ≡ prefix_sets prefix.now) }
{
    if prefix.v6 {
        exactly_v6(alloc, addresses(prefix))
    } else {
        exactly_v4(alloc, addresses(prefix))
    }
}
