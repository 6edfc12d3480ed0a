//! Cases of answers of provisioning: each line is one, and its answer is printed.
//!
//! A line's fields are separated by tabs: the case's name, the child's AS numbers, IPv4 and IPv6
//! addresses, the identifiers of its keys in hex with `;` between them, and `list`, or `issue` or
//! `revoke` with a class and a key's identifier in hex.

use anyhow::{Result, bail};
use hex::FromHex;
use key_ids::KeyId;
use provision::{Class, Reply, Request, answer};
use res_sets::Resources;
use std::alloc::Global;
use std::str;
use test_support::resources_of;

fn print_answer(rt: &HostRuntime, fields: &[&str]) -> Result<()> {
    let alloc = rt.alloc();
    let [name, asn, v4, v6, keys, asked @ ..] = fields else {
        bail!("a line is no case");
    };
    let class = Class {
        resources: resources_of(alloc, asn, v4, v6)?,
        keys: keys_of(alloc, keys)?,
    };
    let request = match asked {
        ["list"] => Request::List,
        ["issue", class, key] => Request::Issue {
            class: format!(in alloc; "{class}")?,
            key: key_of(key)?,
        },
        ["revoke", class, key] => Request::Revoke {
            class: format!(in alloc; "{class}")?,
            key: key_of(key)?,
        },
        _ => bail!("a line is no case"),
    };
    print_reply(rt, name, &answer(alloc, &class, &request)?)
}

fn keys_of(alloc: Global, digits: &str) -> Result<Vec<KeyId>> {
    let mut keys = Vec::new(alloc);
    for key in digits.split(';') {
        if !key.is_empty() {
            keys.push(key_of(key)?)?;
        }
    }
    Ok(keys)
}

fn key_of(digits: &str) -> Result<KeyId> {
    Ok(KeyId {
        bytes: <[u8; 20] as FromHex>::from_hex(digits)?,
    })
}

fn print_reply(rt: &HostRuntime, name: &str, reply: &Reply) -> Result<()> {
    match reply {
        Reply::NoClass => println!(rt; "{name}\tNoClass")?,
        Reply::Class { resources } => {
            println!(rt; "{name}\tClass\t{}", text_of(rt, resources)?)?;
        }
        Reply::Issued { key, resources } => {
            let digits = key.hex();
            let key = str::from_utf8(&digits)?;
            println!(rt; "{name}\tIssued\t{key}\t{}", text_of(rt, resources)?)?;
        }
        Reply::Revoked { key } => {
            let digits = key.hex();
            println!(rt; "{name}\tRevoked\t{}", str::from_utf8(&digits)?)?;
        }
        Reply::Error { code } => println!(rt; "{name}\tError\t{code}")?,
    }
    Ok(())
}

fn text_of(rt: &HostRuntime, resources: &Resources) -> Result<String> {
    let alloc = rt.alloc();
    let asn = resources.asn.text(alloc)?;
    let v4 = resources.v4.text(alloc)?;
    let v6 = resources.v6.text(alloc)?;
    Ok(format!(in alloc; "{asn}\t{v4}\t{v6}")?)
}

/// Prints the answer to the case of a line.
pub fn print_case(rt: &HostRuntime, line: &str) -> Result<()> {
    let mut fields = Vec::new(rt.alloc());
    for field in line.split('\t') {
        fields.push(field)?;
    }
    print_answer(rt, fields.as_slice())
}
