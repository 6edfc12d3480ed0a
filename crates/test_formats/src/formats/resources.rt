//! Extensions for number resources, read and written.

ghost use Rattle.std.specs.Prelude.{◌≡◌, IfOk};

use anyhow::{Result, bail};
use res_ext::{inherit_as as inherited_as, inherit_ip as inherited_ip};
use res_sets::{Family, Ranges};
use std::alloc::Global;
use test_support::{bytes_of, digits_of};

/// The answer to a call.
pub fn answer(alloc: Global, call: &str, first: &str, second: &str) -> Result<String> {
    match call {
        "read_ip" => read_ip(alloc, first),
        "read_as" => read_as(alloc, first),
        "write_ip" => write_ip(alloc, first, second),
        "write_as" => write_as(alloc, first),
        "inherit_ip" => inherit_ip(alloc),
        "inherit_as" => inherit_as(alloc),
        _ => bail!("an unknown call: {call}"),
    }
}

/// The set of a text.
fn set_of(alloc: Global, family: Family, text: &str) -> Result<Ranges>
    ensures { IfOk result (λ set. set.family ≡ family) }
{
    match Ranges::read_text(alloc, family, text) {
        Ok(set) => Ok(set),
        Err(_) => bail!("no set: {text}"),
    }
}

/// What an extension of addresses says.
pub fn read_ip(alloc: Global, digits: &str) -> Result<String> {
    let bytes = bytes_of(alloc, digits)?;
    match res_ext::read_ip(alloc, &bytes) {
        Ok(read) if read.inherit => Ok(format!(in alloc; "inherit")?),
        Ok(read) => {
            let (v4, v6) = (read.v4.text(alloc)?, read.v6.text(alloc)?);
            Ok(format!(in alloc; "{v4} and {v6}")?)
        }
        Err(fault) => Ok(format!(in alloc; "{fault:?}")?),
    }
}

/// What an extension of AS numbers says.
pub fn read_as(alloc: Global, digits: &str) -> Result<String> {
    let bytes = bytes_of(alloc, digits)?;
    match res_ext::read_as(alloc, &bytes) {
        Ok(read) if read.inherit => Ok(format!(in alloc; "inherit")?),
        Ok(read) => Ok(read.asn.text(alloc)?),
        Err(fault) => Ok(format!(in alloc; "{fault:?}")?),
    }
}

/// The extension of addresses.
pub fn write_ip(alloc: Global, v4: &str, v6: &str) -> Result<String> {
    let v4 = set_of(alloc, Family::V4, v4)?;
    let v6 = set_of(alloc, Family::V6, v6)?;
    Ok(digits_of(alloc, &res_ext::write_ip(alloc, &v4, &v6)?)?)
}

/// The extension of AS numbers.
pub fn write_as(alloc: Global, asn: &str) -> Result<String> {
    let asn = set_of(alloc, Family::Asn, asn)?;
    Ok(digits_of(alloc, &res_ext::write_as(alloc, &asn)?)?)
}

/// The extension that inherits addresses.
pub fn inherit_ip(alloc: Global) -> Result<String> {
    Ok(digits_of(alloc, &inherited_ip(alloc)?)?)
}

/// The extension that inherits AS numbers.
pub fn inherit_as(alloc: Global) -> Result<String> {
    Ok(digits_of(alloc, &inherited_as(alloc)?)?)
}
