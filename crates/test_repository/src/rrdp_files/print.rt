//! What a case prints.

use anyhow::{Result, bail};
use outlet_api::{OutFiles, is_file_path};
use sha2::{Digest, Sha256};
use std::alloc::Global;

/// The lengths of a snapshot and of a delta.
pub fn lengths_text(alloc: Global, lengths: (u128, Option<u128>)) -> Result<String> {
    let (snapshot, delta) = lengths;
    match delta {
        Some(delta) => Ok(format!(in alloc; "{snapshot} {delta}")?),
        None => Ok(format!(in alloc; "{snapshot} -")?),
    }
}

/// The puts, and then the removals.
pub fn files_text(alloc: Global, files: &OutFiles) -> Result<String> {
    let mut told = String::new(alloc);
    for file in &files.puts {
        let path = file.path.as_str();
        check_path(path)?;
        let len = file.bytes.len();
        let hash = hex::encode(alloc, Sha256::digest(&file.bytes))?;
        told.push_str(format!(in alloc; "+{path} {len} {hash} ")?.as_str())?;
    }
    for path in &files.removes {
        let path = path.as_str();
        check_path(path)?;
        told.push_str(format!(in alloc; "-{path} ")?.as_str())?;
    }
    Ok(String::from_str(alloc, told.as_str().trim_end())?)
}

/// An error where an outlet over a folder doesn't take the path.
fn check_path(path: &str) -> Result<()> {
    if !is_file_path(path) {
        bail!("no path of a file: {path}");
    }
    Ok(())
}
