//! Rows of keys, and what the work says of them.

use crate::keys::fields::{field, id, number, parts, public_key, role, short_number};
use anyhow::Result;
use items::Items;
use key_ids::KeyId;
use key_roll::{KeyRow, RevokedRow, RoleWork};
use std::alloc::Global;

pub fn revoked(alloc: Global, text: &str) -> Result<Vec<RevokedRow>> {
    let mut rows = Vec::new(alloc);
    for row in parts(alloc, text, '/')? {
        let fields = parts(alloc, row, ',')?;
        rows.push(RevokedRow {
            serial: number(&fields, 0)?,
            not_after: number(&fields, 1)?,
            revoked_at: number(&fields, 2)?,
        })?;
    }
    Ok(rows)
}

fn key_row(alloc: Global, text: &str) -> Result<KeyRow> {
    let fields = parts(alloc, text, ';')?;
    Ok(KeyRow {
        desk: short_number(&fields, 0)?,
        signer: short_number(&fields, 1)?,
        role: role(field(&fields, 2)?)?,
        key: public_key(alloc, field(&fields, 3)?)?,
        next_serial: number(&fields, 4)?,
        number: number(&fields, 5)?,
        this_update: number(&fields, 6)?,
        since: number(&fields, 7)?,
        done: short_number(&fields, 8)?,
        revoked: Items::new(revoked(alloc, field(&fields, 9)?)?),
    })
}

pub fn key_rows(alloc: Global, text: &str) -> Result<Vec<KeyRow>> {
    let mut rows = Vec::new(alloc);
    for row in parts(alloc, text, '|')? {
        rows.push(key_row(alloc, row)?)?;
    }
    Ok(rows)
}

pub fn roles(alloc: Global, text: &str) -> Result<Vec<RoleWork>> {
    let mut roles = Vec::new(alloc);
    for one in parts(alloc, text, '|')? {
        let fields = parts(alloc, one, ';')?;
        roles.push(RoleWork {
            key: id(alloc, field(&fields, 0)?)?,
            role: role(field(&fields, 1)?)?,
            since: number(&fields, 2)?,
            done: short_number(&fields, 3)?,
        })?;
    }
    Ok(roles)
}

pub fn ids(alloc: Global, text: &str) -> Result<Vec<KeyId>> {
    let mut ids = Vec::new(alloc);
    for one in parts(alloc, text, '|')? {
        ids.push(id(alloc, one)?)?;
    }
    Ok(ids)
}
