//! Live keys and standing objects, read from their texts.

use anyhow::{Context, Result, bail};
use hex::FromHex;
use items::Items;
use key_ids::KeyId;
use key_roll::{Issued, IssuedRow, KeyRow, Role, What};
use origins::read_origin;
use pub_set::Uri;
use signer_api::PublicKey;
use std::alloc::Global;
use test_support::resources_of;

/// The live keys: of each its desk, signer, role, key, `since` and `done`.
pub fn rows_of(alloc: Global, text: &str) -> Result<Vec<KeyRow>> {
    let mut rows = Vec::new(alloc);
    for row in text.split('|') {
        if !row.is_empty() {
            rows.push(row_of(alloc, row)?)?;
        }
    }
    Ok(rows)
}

fn fields_of(alloc: Global, text: &str) -> Result<Vec<&str>> {
    let mut fields = Vec::new(alloc);
    for field in text.split(';') {
        fields.push(field)?;
    }
    Ok(fields)
}

fn row_of(alloc: Global, text: &str) -> Result<KeyRow> {
    let fields = fields_of(alloc, text)?;
    let [desk, signer, role, key, since, done] = fields.as_slice() else {
        bail!("no key");
    };
    let key = <[u8; 270] as FromHex>::from_hex(*key)?;
    Ok(KeyRow {
        desk: desk.parse::<u32>()?,
        signer: signer.parse::<u32>()?,
        role: role_of(role)?,
        key: PublicKey::read(&key).context("no public key")?,
        next_serial: 1,
        number: 1,
        this_update: 0,
        since: since.parse::<u64>()?,
        done: done.parse::<u32>()?,
        revoked: Items::new(Vec::new(alloc)),
    })
}

fn role_of(text: &str) -> Result<Role> {
    match text {
        "New" => Ok(Role::New),
        "Current" => Ok(Role::Current),
        "Old" => Ok(Role::Old),
        _ => bail!("no role"),
    }
}

/// What stands: of each object its URI, issuer, serial, notAfter, hash, and what it says: nothing, an
/// origin, or a key and its three sets.
pub fn issued_of(alloc: Global, text: &str) -> Result<Issued> {
    let mut rows = Vec::new(alloc);
    for row in text.split('|') {
        if !row.is_empty() {
            rows.push(object_of(alloc, row)?)?;
        }
    }
    Ok(Issued {
        rows: Items::new(rows),
    })
}

fn object_of(alloc: Global, text: &str) -> Result<IssuedRow> {
    let fields = fields_of(alloc, text)?;
    let [uri, issuer, serial, not_after, hash, what @ ..] = fields.as_slice() else {
        bail!("no object");
    };
    Ok(IssuedRow {
        uri: Uri::new(String::from_str(alloc, uri)?),
        issuer: id_of(issuer)?,
        serial: serial.parse::<u64>()?,
        not_after: not_after.parse::<u64>()?,
        hash: <[u8; 32] as FromHex>::from_hex(*hash)?,
        what: what_of(alloc, what)?,
    })
}

fn id_of(text: &str) -> Result<KeyId> {
    Ok(KeyId {
        bytes: <[u8; 20] as FromHex>::from_hex(text)?,
    })
}

fn what_of(alloc: Global, fields: &[&str]) -> Result<What> {
    match fields {
        [] => Ok(What::Point),
        [origin] => Ok(What::Route {
            origin: read_origin(origin)?,
        }),
        [key, asn, v4, v6] => Ok(What::Authority {
            key: id_of(key)?,
            held: resources_of(alloc, asn, v4, v6)?,
        }),
        _ => bail!("no object"),
    }
}
