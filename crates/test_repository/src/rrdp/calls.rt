//! The calls.

use crate::rrdp::forms::{read_deltas, read_file};
use crate::rrdp::print::{delta_said, snapshot_said, written};
use crate::rrdp::sweeps::{changed, cut};
use anyhow::{Context, Result, bail};
use rrdp_text::{delta_text, locator_text, notification_text, snapshot_text};
use std::alloc::Global;
use test_support::{read_changes, read_set};
use uuid::Uuid;

/// The two kinds of text that are read.
#[derive(Clone, Copy, Debug, PartialEq, Eq)]
pub enum Kind {
    Snapshot,
    Delta,
}

/// What a line comes to.
pub fn answer(alloc: Global, line: &str) -> Result<String> {
    let (name, rest) = line.split_once('\t').context("no name")?;
    let (call, arguments) = rest.split_once('\t').context("no call")?;
    let told = match call {
        "snapshot" | "delta" | "notification" => text(alloc, call, arguments)?,
        "locator" => locator(alloc, arguments)?,
        "read" => read(alloc, arguments)?,
        "read_bytes" => read_bytes(alloc, arguments)?,
        "cut" | "change" => swept(alloc, call, arguments)?,
        _ => bail!("an unknown call: {call}"),
    };
    Ok(format!(in alloc; "{name}\t{told}")?)
}

fn text(alloc: Global, call: &str, arguments: &str) -> Result<String> {
    let (session, rest) = arguments.split_once('\t').context("no session")?;
    let (serial, rest) = rest.split_once('\t').context("no serial")?;
    let session = Uuid::parse_str(session).ok().context("a bad session")?;
    let serial = serial.parse::<u64>()?;
    match call {
        "snapshot" => snapshot(alloc, &session, serial, rest),
        "delta" => delta(alloc, &session, serial, rest),
        _ => notification(alloc, &session, serial, rest),
    }
}

fn snapshot(alloc: Global, session: &Uuid, serial: u64, set: &str) -> Result<String> {
    let set = read_set(alloc, set)?;
    written(alloc, &snapshot_text(alloc, session, serial, &set)?)
}

fn delta(alloc: Global, session: &Uuid, serial: u64, changes: &str) -> Result<String> {
    let changes = read_changes(alloc, changes)?;
    written(alloc, &delta_text(alloc, session, serial, &changes)?)
}

fn notification(alloc: Global, session: &Uuid, serial: u64, files: &str) -> Result<String> {
    let (snapshot, deltas) = files.split_once(' ').unwrap_or((files, ""));
    let snapshot = read_file(alloc, snapshot)?;
    let deltas = read_deltas(alloc, deltas)?;
    written(
        alloc,
        &notification_text(alloc, session, serial, &snapshot, &deltas)?,
    )
}

fn locator(alloc: Global, arguments: &str) -> Result<String> {
    let mut fields = arguments.split('\t');
    let key = hex::decode(alloc, fields.next().context("no key")?)?;
    let mut uris = Vec::new(alloc);
    for uri in fields {
        uris.push(String::from_str(alloc, uri)?)?;
    }
    written(alloc, &locator_text(alloc, &uris, &key)?)
}

fn kind_of(word: &str) -> Result<Kind> {
    match word {
        "snapshot" => Ok(Kind::Snapshot),
        "delta" => Ok(Kind::Delta),
        _ => bail!("an unknown kind: {word}"),
    }
}

fn said(alloc: Global, kind: Kind, bytes: &[u8]) -> Result<String> {
    match kind {
        Kind::Snapshot => snapshot_said(alloc, bytes),
        Kind::Delta => delta_said(alloc, bytes),
    }
}

fn read(alloc: Global, arguments: &str) -> Result<String> {
    let (kind, text) = arguments.split_once('\t').context("no kind")?;
    let text = text.replace(alloc, "␊", "\n")?;
    said(alloc, kind_of(kind)?, text.as_bytes())
}

fn read_bytes(alloc: Global, arguments: &str) -> Result<String> {
    let (kind, bytes) = arguments.split_once('\t').context("no kind")?;
    let bytes = hex::decode(alloc, bytes)?;
    said(alloc, kind_of(kind)?, &bytes)
}

fn swept(alloc: Global, call: &str, arguments: &str) -> Result<String> {
    let (kind, text) = arguments.split_once('\t').context("no kind")?;
    let text = text.replace(alloc, "␊", "\n")?;
    if call == "cut" {
        cut(alloc, kind_of(kind)?, text.as_bytes())
    } else {
        changed(alloc, kind_of(kind)?, text.as_bytes())
    }
}
