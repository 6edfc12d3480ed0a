//! Sets of objects and changes as a case spells them.
//!
//! A set is its objects by rising URI, each `URI=BYTES`, or `-` alone. Changes are `+URI=BYTES`,
//! `+URI=BYTES=HASH` and `-URI=HASH`, or `-` alone. Blanks stand between them.

use anyhow::{Context, Result, bail};
use hex::FromHex;
use pub_set::{Change, Content, Object, ObjectSet, Uri};
use sha2::{Digest, Sha256};
use std::alloc::Global;

/// The set of a text.
pub fn read_set(alloc: Global, text: &str) -> Result<ObjectSet> {
    let mut set = ObjectSet::new(alloc);
    if text == "-" {
        return Ok(set);
    }
    for part in text.split(' ') {
        let (uri, bytes) = part.split_once('=').context("an object without bytes")?;
        let object = Object {
            uri: read_uri(alloc, uri)?,
            bytes: read_bytes(alloc, bytes)?,
        };
        if !set.is_behind(object.uri.as_str()) {
            bail!("out of order: {uri}");
        }
        set.push(object)?;
    }
    Ok(set)
}

/// The changes of a text.
pub fn read_changes(alloc: Global, text: &str) -> Result<Vec<Change>> {
    let mut changes = Vec::new(alloc);
    if text == "-" {
        return Ok(changes);
    }
    for part in text.split(' ') {
        changes.push(read_change(alloc, part)?)?;
    }
    Ok(changes)
}

fn read_change(alloc: Global, text: &str) -> Result<Change> {
    if let Some(put) = text.strip_prefix('+') {
        let (uri, rest) = put.split_once('=').context("a put without bytes")?;
        let (bytes, replaces) = match rest.split_once('=') {
            Some((bytes, hash)) => (bytes, Some(read_hash(hash)?)),
            None => (rest, None),
        };
        return Ok(Change::Put {
            uri: read_uri(alloc, uri)?,
            bytes: read_bytes(alloc, bytes)?,
            replaces,
        });
    }
    let withdrawn = text.strip_prefix('-').context("no change")?;
    let (uri, hash) = withdrawn.split_once('=').context("no hash")?;
    Ok(Change::Withdraw {
        uri: read_uri(alloc, uri)?,
        hash: read_hash(hash)?,
    })
}

/// The URI of a text.
pub fn read_uri(alloc: Global, text: &str) -> Result<Uri> {
    Ok(Uri::new(String::from_str(alloc, text)?))
}

fn read_bytes(alloc: Global, text: &str) -> Result<Content> {
    Ok(Content::new(alloc, hex::decode(alloc, text)?)?)
}

/// The hash of hex digits.
pub fn read_hash(text: &str) -> Result<[u8; 32]> {
    Ok(<[u8; 32] as FromHex>::from_hex(text)?)
}

/// The objects of a set, as a case spells one.
pub fn set_text(alloc: Global, objects: &[Object]) -> Result<String> {
    let mut text = String::new(alloc);
    for object in objects {
        let uri = &object.uri;
        let bytes = hex::encode(alloc, object.bytes.as_slice())?;
        append(&mut text, format!(in alloc; "{uri}={bytes}")?.as_str())?;
    }
    or_none(text)
}

/// The changes, as a case spells them.
pub fn changes_text(alloc: Global, changes: &[Change]) -> Result<String> {
    let mut text = String::new(alloc);
    for change in changes {
        append(&mut text, change_text(alloc, change)?.as_str())?;
    }
    or_none(text)
}

fn change_text(alloc: Global, change: &Change) -> Result<String> {
    match change {
        Change::Put {
            uri,
            bytes,
            replaces,
        } => {
            let bytes = hex::encode(alloc, bytes.as_slice())?;
            let mut text = format!(in alloc; "+{uri}={bytes}")?;
            if let Some(hash) = replaces {
                text.push('=')?;
                text.push_str(hex::encode(alloc, hash.as_slice())?.as_str())?;
            }
            Ok(text)
        }
        Change::Withdraw { uri, hash } => {
            let hash = hex::encode(alloc, hash.as_slice())?;
            Ok(format!(in alloc; "-{uri}={hash}")?)
        }
    }
}

/// The SHA-256 over all objects by rising URI: the URI, a zero byte, the length in 8 bytes, the
/// bytes.
pub fn digest_text(alloc: Global, set: &ObjectSet) -> Result<String> {
    let mut hasher = Sha256::new();
    for object in set.as_slice() {
        let bytes = object.bytes.as_slice();
        hasher.update(object.uri.as_str());
        hasher.update([0u8].as_slice());
        hasher.update((bytes.len() as u64).to_be_bytes().as_slice());
        hasher.update(bytes);
    }
    Ok(hex::encode(alloc, hasher.finalize().as_slice())?)
}

fn append(text: &mut String, part: &str) -> Result<()> {
    if !text.is_empty() {
        text.push(' ')?;
    }
    text.push_str(part)?;
    Ok(())
}

fn or_none(mut text: String) -> Result<String> {
    if text.is_empty() {
        text.push('-')?;
    }
    Ok(text)
}
