// Positions under keys.
use anyhow::{Result, bail};
use issue_keys::{KeyIndex, KeyPosition};
use key_ids::KeyId;
use std::alloc::Global;

// The key whose last byte is this number.
fn key_of(word: &str) -> Result<KeyId> {
    let mut bytes = [0x5a; 20];
    bytes[19] = word.parse::<u8>()?;
    Ok(KeyId { bytes })
}

fn read_position(word: &str) -> Result<KeyPosition> {
    let Some((key, position)) = word.split_once(':') else {
        bail!("no position under a key: {word}");
    };
    Ok(KeyPosition {
        key: key_of(key)?,
        position: position.parse::<usize>()?,
    })
}

// What stands under the key, of positions that are separated by blanks.
pub(crate) fn run(alloc: Global, positions: &str, key: &str) -> Result<String> {
    let mut entries = Vec::new(alloc);
    for word in positions.split_whitespace() {
        entries.push(read_position(word)?)?;
    }
    let index = KeyIndex::new(entries)?;
    let key = key_of(key)?;
    let mut texts = match index.first(&key) {
        Some(position) => format!(in alloc; "first {position}, all")?,
        None => String::from_str(alloc, "none, all")?,
    };
    for entry in index.positions(&key) {
        texts.push_str(format!(in alloc; " {}", entry.position)?.as_str())?;
    }
    Ok(texts)
}
