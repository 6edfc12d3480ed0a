// IPv6 addresses in hex groups.
ghost use Rattle.std.specs.Prelude.{◌≡◌, ◌++◌, ◌^◌, ◌<◌, ℕ, List, OnOk};
ghost use Rattle.std.specs.String.{string_bytes};
ghost use Rattle.ip_text.specs.Reader.{Reads};
ghost use Rattle.ip_text.specs.Ipv6.{IsIpv6Text, ipv6_text};

use std::alloc::AllocError;
use std::net::Ipv6Addr;

/// The IPv6 address that the whole text writes: eight groups of one to four hex digits of either
/// case, or fewer with one `::` in place of zero groups (RFC 4291 section 2.2). A part in dotted
/// decimal is refused.
pub fn read_ipv6(text: &[u8]) -> Option<u128>
    ensures { Reads (IsIpv6Text text.now) result }
{
    // std reads a dotted part too.
    if text.contains(&b'.') {
        return None;
    }
    let address = Ipv6Addr::parse_ascii(text).ok()?;
    Some(address.to_bits())
}

/// Appends the address as RFC 5952 section 4 prints it, with no dotted part, at most 39 bytes. An
/// `Err` may
/// leave a part of it.
pub fn push_ipv6(out: &mut String, address: u128) -> Result<(), AllocError>
    ensures { OnOk result (string_bytes out.new ≡ string_bytes out.old ++ ipv6_text address) }
{
    let groups = Ipv6Addr::from_bits(address).hex_groups();
    write!(out, "{groups}")
}

/// A law, with nothing to run: no text writes two IPv6 addresses.
pub fn reads_ipv6_once()
    ensures { (text : List ℕ) (a b : ℕ) → IsIpv6Text text a → IsIpv6Text text b → a ≡ b }
{}

/// A law, with nothing to run: what is printed of an IPv6 address is read back to it.
pub fn reads_own_ipv6_text()
    ensures { (address : ℕ) → address < 2 ^ 128 → IsIpv6Text (ipv6_text address) address }
{}
