//! Whether a certificate holds the prefix of an origin, and nothing else (RFC 9582 section 5).

ghost use Rattle.std.specs.Prelude.{◌≡◌};
ghost use Rattle.cert_obj.specs.Values.{sets_of, held_value};
ghost use Rattle.issue_values.specs.Certificates.{prefix_span};
ghost use Rattle.press_core.specs.inner.Rows.{ends_of, is_span, is_none, are_just, holds_just};

use cert_obj::Held;
use origins::Prefix;
use res_sets::{Ranges, Resources};

// Whether the set has just the addresses from the first to the last.
fn is_range(set: &Ranges, first: u128, last: u128) -> bool
    ensures { result ≡ is_span (ends_of set.now) (first, last) }
{
    let ranges = set.as_slice();
    if ranges.len() != 1 {
        return false;
    }
    ranges[0].first == first && ranges[0].last == last
}

// Whether the set has just the addresses of the prefix.
fn is_prefix(set: &Ranges, prefix: &Prefix) -> bool
    ensures { result ≡ is_span (ends_of set.now) (prefix_span prefix.now) }
{
    is_range(set, prefix.first(), prefix.last())
}

fn is_none(set: &Ranges) -> bool
    ensures { result ≡ is_none (ends_of set.now) }
{
    set.as_slice().is_empty()
}

fn are_just(held: &Resources, prefix: &Prefix) -> bool
    ensures { result ≡ are_just (sets_of held.now) prefix.now }
{
    if prefix.v6 {
        is_none(&held.asn) && is_none(&held.v4) && is_prefix(&held.v6, prefix)
    } else {
        is_none(&held.asn) && is_prefix(&held.v4, prefix) && is_none(&held.v6)
    }
}

/// Whether just the prefix is held.
pub fn holds_just(held: &Held, prefix: &Prefix) -> bool
    ensures { result ≡ holds_just (held_value held.now) prefix.now }
{
    match held {
        Held::Inherit => false,
        Held::Set { resources } => are_just(resources, prefix),
    }
}
