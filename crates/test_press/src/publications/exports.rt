//! What an outlet shows of the press's exports.

use anyhow::{Context, Result, bail};
use editions::StateParts;
use outlet_api::MemoryOutlet;
use sha2::{Digest, Sha256};
use std::alloc::Global;

/// The session of the press's files.
const SESSION_TEXT: &str = "00000000-0000-4000-8000-000000000000";

/// A file that a notification names.
#[derive(Drop)]
struct Named {
    path: String,
    hash: String,
}

/// What the outlet shows: the serial of the notification and the files that it names, whether `ta.cer`
/// is that of the edition that stands, how long `ta.tal` is, and the serials of the snapshots that are
/// there, up to the last one. Ends with an error where a file that is named isn't there with its hash.
pub fn shown(
    alloc: Global,
    outlet: &MemoryOutlet,
    base: &str,
    parts: &StateParts,
) -> Result<String> {
    let mut shown = notification(alloc, outlet, base)?;
    let held = parts.set.get("rsync://rpki.example/repo/ta.cer");
    let of = if outlet.file("ta.cer") == held {
        "this"
    } else {
        "another"
    };
    let locator = outlet.file("ta.tal").context("no locator")?;
    write!(
        shown,
        ", ta.cer of {of} edition, ta.tal of {}, snapshots",
        locator.len()
    )?;
    for serial in 1..=parts.serial {
        let path = format!(in alloc; "{SESSION_TEXT}/{serial}/snapshot.xml")?;
        if outlet.file(path.as_str()).is_some() {
            write!(shown, " {serial}")?;
        }
    }
    Ok(shown)
}

// The serial of the notification, and the files that it names.
fn notification(alloc: Global, outlet: &MemoryOutlet, base: &str) -> Result<String> {
    let Some(bytes) = outlet.file("notification.xml") else {
        return Ok(String::from_str(alloc, "no notification")?);
    };
    let text = std::str::from_utf8(bytes).ok().context("no text")?;
    let mut shown = String::from_str(alloc, "notification of ")?;
    for line in text.split('\n') {
        match read(alloc, base, line)? {
            Line::Head { serial } => write!(shown, "{serial}:")?,
            Line::File { file } => {
                fetch(alloc, outlet, &file)?;
                write!(shown, " {}", below(file.path.as_str()))?;
            }
            Line::Other => {}
        }
    }
    Ok(shown)
}

/// A line of a notification.
#[derive(Drop)]
enum Line {
    Head { serial: String },
    File { file: Named },
    Other,
}

fn read(alloc: Global, base: &str, line: &str) -> Result<Line> {
    let parts: Vec<&str> = line.split('"').collect(alloc)?;
    match parts.as_slice() {
        [
            _,
            _,
            " version=",
            "1",
            " session_id=",
            _,
            " serial=",
            serial,
            _,
        ] => Ok(Line::Head {
            serial: String::from_str(alloc, serial)?,
        }),
        [_, uri, " hash=", hash, _] => file(alloc, base, uri, hash),
        [_, _, " uri=", uri, " hash=", hash, _] => file(alloc, base, uri, hash),
        _ => Ok(Line::Other),
    }
}

fn file(alloc: Global, base: &str, uri: &str, hash: &str) -> Result<Line> {
    let path = uri.strip_prefix(base).context("not below the base")?;
    Ok(Line::File {
        file: Named {
            path: String::from_str(alloc, path)?,
            hash: String::from_str(alloc, hash)?,
        },
    })
}

// Sees that the file is there with its hash.
fn fetch(alloc: Global, outlet: &MemoryOutlet, file: &Named) -> Result<()> {
    let bytes = outlet
        .file(file.path.as_str())
        .context("a file is named that isn't there")?;
    let hash = hex::encode(alloc, Sha256::digest(bytes))?;
    if hash.as_str() != file.hash.as_str() {
        bail!("a file is there with another hash");
    }
    Ok(())
}

// The path behind the session.
fn below(path: &str) -> &str {
    match path.split_once('/') {
        Some((_, rest)) => rest,
        None => path,
    }
}
