// From origins to texts.
ghost use Rattle.std.specs.Prelude.{◌≡◌, ◌++◌, ◌<◌, ◌^◌, false, IfOk, OnOk, codes, decimal};
ghost use Rattle.std.specs.String.{string_bytes};
ghost use Rattle.hex.specs.Hex.{encode_lower};
ghost use Rattle.origins.specs.declared.Origin.{Origin};
ghost use Rattle.origins.specs.Origin.{address_text, maximum_text, origin_text, SpellsOrigin};

use crate::{Origin, Prefix};
use ip_text::{push_ipv4, push_ipv6};
use std::alloc::{AllocError, Global};

fn push_address(out: &mut String, prefix: &Prefix) -> Result<(), AllocError>
    ensures { OnOk result (string_bytes out.new ≡ string_bytes out.old
        ++ address_text prefix.now.v6 prefix.now.address) }
{
    if prefix.v6 {
        push_ipv6(out, prefix.address)
    } else {
        push_ipv4(out, prefix.address as u32)
    }
}

fn push_prefix(out: &mut String, prefix: &Prefix) -> Result<(), AllocError>
    ensures { OnOk result (string_bytes out.new ≡ string_bytes out.old
        ++ address_text prefix.now.v6 prefix.now.address ++ codes "/" ++ decimal prefix.now.length) }
{
    push_address(out, prefix)?;
    write!(out, "/{}", prefix.length)
}

fn push_maximum(out: &mut String, length: u8, max: u8) -> Result<(), AllocError>
    ensures { OnOk result (string_bytes out.new ≡ string_bytes out.old ++ maximum_text length max) }
{
    if max == length {
        return Ok(());
    }
    write!(out, "-{max}")
}

impl Origin {
    /// The origin's one text, as `10.0.0.0/16-24 => 64496`.
    pub fn text(&self, alloc: Global) -> Result<String, AllocError>
        ensures { IfOk result (λ text. string_bytes text ≡ origin_text self.now) }
    {
        let mut text = String::new(alloc);
        push_prefix(&mut text, &self.prefix)?;
        push_maximum(&mut text, self.prefix.length, self.max)?;
        write!(text, " => {}", self.asn)?;
        Ok(text)
    }

    /// The name of the file that holds the origin's ROA: its text in hex, and `.roa`.
    pub fn file_name(&self, alloc: Global) -> Result<String, AllocError>
        ensures { IfOk result (λ name.
            string_bytes name ≡ encode_lower (origin_text self.now) ++ codes ".roa") }
    {
        let text = self.text(alloc)?;
        let mut name = hex::encode(alloc, text.as_bytes())?;
        name.push_str(".roa")?;
        Ok(name)
    }
}

/// A law, with nothing to run: an origin's text is read back to it.
pub fn reads_own_text()
    ensures { (origin : Origin) → origin.asn < 2 ^ 32 → SpellsOrigin (origin_text origin) origin }
{}
