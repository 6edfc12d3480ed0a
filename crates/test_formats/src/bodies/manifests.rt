//! Bodies of manifests, read and written.

use anyhow::{Result, bail};
use payloads::{ListedFile, ManifestBody};
use std::alloc::Global;
use test_support::{bytes_of, digits_of, fixed_of, number_of};

/// The file of a name and a hash in hex, with a space between them.
fn file_of(alloc: Global, text: &str) -> Result<ListedFile> {
    let Some((name, digits)) = text.split_once(' ') else {
        bail!("no file: {text}");
    };
    let name = String::from_str(alloc, name)?;
    let hash = fixed_of(alloc, digits)?;
    Ok(ListedFile { name, hash })
}

/// The files with commas between them.
fn files_of(alloc: Global, list: &str) -> Result<Vec<ListedFile>> {
    let mut files = Vec::new(alloc);
    if list.is_empty() {
        return Ok(files);
    }
    for text in list.split(',') {
        files.push(file_of(alloc, text)?)?;
    }
    Ok(files)
}

/// The spelling of the body of a number, two times and those files.
pub fn write(alloc: Global, numbers: &str, list: &str) -> Result<String> {
    let mut words = numbers.split(' ');
    let body = ManifestBody {
        number: number_of(words.next().unwrap_or(""))?,
        this_update: number_of(words.next().unwrap_or(""))?,
        next_update: number_of(words.next().unwrap_or(""))?,
        files: files_of(alloc, list)?,
    };
    if !body.has_spelling() {
        bail!("no body: {list}");
    }
    let bytes = body.write(alloc)?;
    Ok(digits_of(alloc, &bytes)?)
}

/// The body that the bytes spell, or why they spell none.
pub fn read(alloc: Global, digits: &str) -> Result<String> {
    match ManifestBody::read(alloc, &bytes_of(alloc, digits)?) {
        Ok(body) => printed(alloc, &body),
        Err(fault) => Ok(format!(in alloc; "{fault:?}")?),
    }
}

/// The number and the times, and the files with commas between them.
fn printed(alloc: Global, body: &ManifestBody) -> Result<String> {
    let (number, from, to) = (body.number, body.this_update, body.next_update);
    let mut out = format!(in alloc; "{number} {from} {to}:")?;
    let mut between = " ";
    for file in &body.files {
        let hash = digits_of(alloc, &file.hash)?;
        let file = format!(in alloc; "{between}{} {hash}", file.name)?;
        out.push_str(file.as_str())?;
        between = ",";
    }
    Ok(out)
}
