// Bytes and numbers as the cases write them.
use anyhow::{Result, bail};
use hex::FromHex;

pub(crate) fn read_bytes<const N: usize>(digits: &str) -> Result<[u8; N]> {
    match <[u8; N] as FromHex>::from_hex(digits) {
        Ok(bytes) => Ok(bytes),
        Err(_) => bail!("not {N} bytes: {digits}"),
    }
}
