//! Sets with one byte changed.

use crate::audits::asked::Told;
use anyhow::{Context, Result};
use pub_set::{Change, Content, Object, ObjectSet};
use rp_audit::AuditRefused;
use rp_rules::Rule;
use sha2::{Digest, Sha256};
use std::alloc::Global;

/// How often an object was refused at its own URI, by these rules, and how often not.
#[derive(Clone, Copy)]
pub struct Count {
    pub hash: u32,
    pub shape_or_signature: u32,
    pub identity: u32,
    pub otherwise: u32,
}

impl Count {
    pub fn none() -> Count {
        Count {
            hash: 0,
            shape_or_signature: 0,
            identity: 0,
            otherwise: 0,
        }
    }

    /// Counts what an audit came to, the object with that URI being changed.
    pub fn add(&mut self, told: &Told, uri: &str) {
        match rule_at(told, uri) {
            Some(Rule::Hash) => self.hash = self.hash.saturating_add(1),
            Some(Rule::Shape) => self.add_shape_or_signature(),
            Some(Rule::Signature) => self.add_shape_or_signature(),
            Some(Rule::Identity) => self.identity = self.identity.saturating_add(1),
            _ => self.otherwise = self.otherwise.saturating_add(1),
        }
    }

    fn add_shape_or_signature(&mut self) {
        self.shape_or_signature = self.shape_or_signature.saturating_add(1);
    }
}

/// The rule that the object at the URI breaks, if it is refused.
fn rule_at(told: &Told, uri: &str) -> Option<Rule> {
    match told {
        Err(AuditRefused::Refused { uri: at, rule }) => {
            if at.as_str() == uri {
                Some(*rule)
            } else {
                None
            }
        }
        _ => None,
    }
}

/// The set with the byte at that place of an object changed.
pub fn changed(
    alloc: Global,
    base: &ObjectSet,
    object: &Object,
    place: usize,
    mask: u8,
) -> Result<ObjectSet> {
    let held = object.bytes.as_slice();
    let mut bytes = Vec::with_capacity(alloc, held.len())?;
    bytes.extend_from_slice(held)?;
    let byte = bytes.get_mut(place).context("no byte")?;
    *byte ^= mask;
    let mut changes = Vec::new(alloc);
    changes.push(Change::Put {
        uri: object.uri.copy(alloc)?,
        bytes: Content::new(alloc, bytes)?,
        replaces: Some(Sha256::digest(held)),
    })?;
    let mut set = base.copy(alloc)?;
    set.query(alloc, "", changes)?;
    Ok(set)
}
