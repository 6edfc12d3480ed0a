//! Texts of sets, printed (RFC 5396, RFC 5952 section 4).

ghost use Rattle.std.specs.Prelude.{◌≡◌, ℕ, ◌++◌, ◌^◌, ◌<◌, ◌≤◌, codes, if◌then◌else◌, IsTrue, IfOk, OnOk};
ghost use Rattle.std.specs.String.{string_bytes};
ghost use Rattle.res_sets.specs.Numbers.{family_end, any_spans};
ghost use Rattle.res_sets.specs.Printed.{number_text, as_text, PrintsAddresses, PrintsRange, ranges_text, Appends};
ghost use Rattle.res_sets.specs.Sets.{RangeSet, IsCanonical};
ghost use Rattle.res_sets.specs.Texts.{Spells};

use crate::numbers::{Family, Range};
use crate::prefixes::prefix_length;
use ip_text::{push_ipv4, push_ipv6, reads_own_ipv6_text};
use std::alloc::{AllocError, Global};

fn push_number(out: &mut String, family: Family, n: u128) -> Result<(), AllocError>
    requires { n < family_end family }
    ensures { OnOk result (string_bytes out.new ≡ string_bytes out.old ++ number_text family n) }
{
    match family {
        Family::Asn => write!(out, "AS{n}"),
        Family::V4 => push_ipv4(out, n as u32),
        Family::V6 => push_ipv6(out, n),
    }
}

fn push_as_range(out: &mut String, range: Range) -> Result<(), AllocError>
    requires { range.last < 2 ^ 32 }
    ensures { OnOk result (string_bytes out.new ≡ string_bytes out.old ++ as_text range) }
{
    push_number(out, Family::Asn, range.first)?;
    if range.first == range.last {
        return Ok(());
    }
    out.push_str("-")?;
    push_number(out, Family::Asn, range.last)
}

fn push_addresses(
    out: &mut String,
    bits: u32,
    family: Family,
    range: Range,
) -> Result<(), AllocError>
    requires short { bits ≤ 128 }
    requires fits { range.last < 2 ^ bits }
    requires below { range.last < family_end family }
    ensures { OnOk result
        (Appends (PrintsAddresses bits family range) (string_bytes out.old) (string_bytes out.new)) }
{
    push_number(out, family, range.first)?;
    match prefix_length(bits, range) {
        Some(length) => write!(out, "/{length}"),
        None => {
            out.push_str("-")?;
            push_number(out, family, range.last)
        }
    }
}

fn push_range(out: &mut String, family: Family, range: Range) -> Result<(), AllocError>
    requires { range.last < family_end family }
    ensures { OnOk result
        (Appends (PrintsRange family range) (string_bytes out.old) (string_bytes out.new)) }
{
    match family {
        Family::Asn => push_as_range(out, range),
        Family::V4 => push_addresses(out, 32, family, range),
        Family::V6 => push_addresses(out, 128, family, range),
    }
}

// Adds the range behind those that are printed, with a comma where there are some.
fn push_next(
    out: &mut String,
    family: Family,
    range: Range,
    is_first: bool,
) -> Result<(), AllocError>
    requires { range.last < family_end family }
    ensures { OnOk result (Appends (PrintsRange family range)
        (if is_first then string_bytes out.old else string_bytes out.old ++ codes ", ")
        (string_bytes out.new)) }
{
    if !is_first {
        out.push_str(", ")?;
    }
    push_range(out, family, range)
}

pub fn print_ranges(alloc: Global, family: Family, ranges: &[Range]) -> Result<String, AllocError>
    requires { (n : ℕ) → IsTrue (any_spans ranges.now n) → n < family_end family }
    ensures { IfOk result (λ text. string_bytes text ≡ ranges_text family ranges.now) }
{
    let mut out = String::new(alloc);
    for (place, range) in ranges.iter().enumerate() {
        push_next(&mut out, family, *range, place == 0)?;
    }
    Ok(out)
}

/// A law, with nothing to run: what is printed of a set spells it, so it is read back to it.
pub fn reads_own_texts()
    ensures { (set : RangeSet) → IsCanonical set
        → Spells set.family (ranges_text set.family set.ranges) set }
{
    reads_own_ipv6_text();
}
