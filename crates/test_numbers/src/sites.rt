//! Cases of key identifiers and URIs: each line is one, and its answer is printed.
//!
//! A line's fields are separated by tabs. The first is the case's name, the second what is asked: `identify`
//! with a key in hex; `site` with two bases; `uris` with two bases, an authority's name, an identifier in hex and a
//! file's name.

use anyhow::{Result, anyhow, bail};
use hex::FromHex;
use key_ids::{KeyId, Site, SiteFault};
use std::str;

fn answer(rt: &HostRuntime, fields: &[&str]) -> Result<()> {
    match fields {
        [name, "identify", key] => {
            let key = hex::decode(rt.alloc(), *key)?;
            let digits = KeyId::of(key.as_slice()).hex();
            println!(rt; "{name}\t{}", str::from_utf8(&digits)?)?;
        }
        [name, "site", rsync, rrdp] => match Site::read(rt.alloc(), rsync, rrdp) {
            Ok(site) => println!(rt; "{name}\t{}\t{}", site.rsync(), site.rrdp())?,
            Err(SiteFault::Memory) => bail!("out of memory"),
            Err(fault) => println!(rt; "{name}\t{fault:?}")?,
        },
        [name, "uris", rsync, rrdp, authority, identifier, file] => {
            let site = Site::read(rt.alloc(), rsync, rrdp)?;
            let key = KeyId {
                bytes: <[u8; 20] as FromHex>::from_hex(*identifier)?,
            };
            print_uris(rt, name, &site, authority, &key, file)?;
        }
        _ => bail!("a line is no case"),
    }
    Ok(())
}

fn print_uris(
    rt: &HostRuntime,
    name: &str,
    site: &Site,
    authority: &str,
    key: &KeyId,
    file: &str,
) -> Result<()> {
    let alloc = rt.alloc();
    println!(rt;
        "{name}\t{}\t{}",
        site.folder(alloc, authority)?,
        site.anchor_uri(alloc)?
    )?;
    println!(rt; "{name}\t{}", site.cert_uri(alloc, authority, key)?)?;
    println!(rt; "{name}\t{}", site.crl_uri(alloc, authority, key)?)?;
    println!(rt; "{name}\t{}", site.manifest_uri(alloc, authority, key)?)?;
    println!(rt;
        "{name}\t{}\t{}",
        site.notify_uri(alloc)?,
        site.file_uri(alloc, authority, file)?
    )?;
    Ok(())
}

/// Prints the answer to the case of a line.
pub fn print_case(rt: &HostRuntime, line: &str) -> Result<()> {
    let mut fields = Vec::new(rt.alloc());
    for field in line.split('\t') {
        fields.push(field)?;
    }
    answer(rt, fields.as_slice())
}
