// IPv4 addresses in dotted decimal.
ghost use Rattle.std.specs.Prelude.{◌≡◌, ◌++◌, ℕ, List, OnOk};
ghost use Rattle.std.specs.String.{string_bytes};
ghost use Rattle.ip_text.specs.Reader.{Reads};
ghost use Rattle.ip_text.specs.Ipv4.{IsIpv4Text, dotted};

use std::alloc::AllocError;
use std::net::Ipv4Addr;

/// The IPv4 address that the whole text writes: four decimal numbers below 256, joined by dots.
pub fn read_ipv4(text: &[u8]) -> Option<u32>
    ensures { Reads (IsIpv4Text text.now) result }
{
    let address = Ipv4Addr::parse_ascii(text).ok()?;
    Some(address.to_bits())
}

/// Appends the address in dotted decimal, at most 15 bytes. An `Err` may leave a part of it.
pub fn push_ipv4(out: &mut String, address: u32) -> Result<(), AllocError>
    ensures { OnOk result (string_bytes out.new ≡ string_bytes out.old ++ dotted address) }
{
    let address = Ipv4Addr::from_bits(address);
    write!(out, "{address}")
}

/// A law, with nothing to run: no text writes two IPv4 addresses.
pub fn reads_ipv4_once()
    ensures { (text : List ℕ) (a b : ℕ) → IsIpv4Text text a → IsIpv4Text text b → a ≡ b }
{}
