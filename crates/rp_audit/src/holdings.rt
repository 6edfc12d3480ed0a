//! Number resources inside others (RFC 3779 sections 2.3 and 3.3, RFC 6487 section 7.1).

ghost use Rattle.std.specs.Prelude.{◌≡◌, map};
ghost use Rattle.std.specs.List.{list_all};
ghost use Rattle.cert_obj.specs.Values.{sets_of, held_value};
ghost use Rattle.res_ext.specs.Views.{set_view};
ghost use Rattle.payloads.specs.RoaFormats.{entry_view};
ghost use Rattle.rp_rules.specs.Holdings.{has_span, is_inside, addresses, span_of, are_inside, held_under, have_prefixes};
ghost use Rattle.rp_rules.specs.Certificates.{is_held_under};

use cert_obj::Held;
use payloads::RoaEntry;
use res_sets::{Range, Ranges, Resources};

/// Whether one range of the set has the whole range.
fn has_range(set: &Ranges, range: &Range) -> bool
    ensures { result ≡ has_span (set_view set.now) (range.now.first, range.now.last) }
{
    // Its list is canonical.
    let _ranges = set.as_slice();
    set.holds_range(range)
}

fn has_each(other: &Ranges, ranges: &[Range]) -> bool
    ensures { result ≡ list_all (λ range. has_span (set_view other.now) (range.first, range.last)) ranges.now }
{
    ranges.iter().all(|range| has_range(other, range))
}

/// Whether each range of the set is inside the other.
fn is_inside(set: &Ranges, other: &Ranges) -> bool
    ensures { result ≡ is_inside (set_view set.now) (set_view other.now) }
{
    has_each(other, set.as_slice())
}

fn are_inside(held: &Resources, other: &Resources) -> bool
    ensures { result ≡ are_inside (sets_of held.now) (sets_of other.now) }
{
    is_inside(&held.asn, &other.asn)
        && is_inside(&held.v4, &other.v4)
        && is_inside(&held.v6, &other.v6)
}

/// The resources of a certificate under an issuer.
pub fn held_under<'a>(issuer: &'a Resources, held: &'a Held) -> &'a Resources
    ensures { sets_of result.now ≡ held_under (sets_of issuer.now) (held_value held.now) }
{
    match held {
        Held::Inherit => issuer,
        Held::Set { resources } => resources,
    }
}

/// Inherited resources are inside the issuer's (RFC 6487 section 7.1).
pub fn is_held_under(issuer: &Resources, held: &Held) -> bool
    ensures { result ≡ is_held_under (sets_of issuer.now) (held_value held.now) }
{
    match held {
        Held::Inherit => true,
        Held::Set { resources } => are_inside(resources, issuer),
    }
}

fn has_prefix(held: &Resources, entry: &RoaEntry) -> bool
    ensures { result ≡ has_span (addresses (sets_of held.now) (entry_view entry.now).v6) (span_of (entry_view entry.now)) }
{
    let range = Range {
        first: entry.prefix.first(),
        last: entry.prefix.last(),
    };
    if entry.prefix.v6 {
        has_range(&held.v6, &range)
    } else {
        has_range(&held.v4, &range)
    }
}

/// The prefix of each entry lies in the addresses of its family (RFC 9582 section 5).
pub fn have_prefixes(held: &Resources, entries: &[RoaEntry]) -> bool
    ensures { result ≡ have_prefixes (sets_of held.now) (map entry_view entries.now) }
{
    have_each(held, entries)
}

fn have_each(held: &Resources, entries: &[RoaEntry]) -> bool
    ensures { result ≡ list_all (λ entry. has_span (addresses (sets_of held.now) (entry_view entry).v6) (span_of (entry_view entry)))
        entries.now }
{
    entries.iter().all(|entry| has_prefix(held, entry))
}
