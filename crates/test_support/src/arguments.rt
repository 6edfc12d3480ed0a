//! The arguments of cases.

ghost use Rattle.std.specs.Prelude.{◌≡◌, Ok, IfOk, string_bytes};
ghost use Rattle.hex.specs.Hex.{encode_lower, decode_of};

use anyhow::{Context, Result, bail};
use std::alloc::{AllocError, Global};

/// The bytes of hex digits.
pub fn bytes_of(alloc: Global, digits: &str) -> Result<Vec<u8>>
    ensures { IfOk result (λ bytes. decode_of digits.now ≡ Ok bytes.items) }
{
    match hex::decode(alloc, digits.as_bytes()) {
        Ok(bytes) => Ok(bytes),
        Err(_) => bail!("no hex digits: {digits}"),
    }
}

/// The hex digits of bytes.
pub fn digits_of(alloc: Global, bytes: &[u8]) -> Result<String, AllocError>
    ensures { IfOk result (λ text. string_bytes text ≡ encode_lower bytes.now) }
{
    hex::encode(alloc, bytes)
}

/// Just so many bytes.
pub fn fixed_of<const N: usize>(alloc: Global, digits: &str) -> Result<[u8; N]> {
    match <[u8; N]>::try_from(bytes_of(alloc, digits)?.as_slice()) {
        Ok(bytes) => Ok(bytes),
        Err(_) => bail!("another number of bytes: {digits}"),
    }
}

/// A number in decimal digits.
pub fn number_of(digits: &str) -> Result<u64> {
    match digits.parse() {
        Ok(n) => Ok(n),
        Err(_) => bail!("no number: {digits}"),
    }
}

/// The numbers between such characters, as those of the calls that fail.
pub fn numbers_of(alloc: Global, text: &str, between: char) -> Result<Vec<u64>> {
    let mut numbers = Vec::new(alloc);
    for digits in text.split(between) {
        if !digits.is_empty() {
            numbers.push(number_of(digits)?)?;
        }
    }
    Ok(numbers)
}

/// What stands before the first such character, and what behind it.
pub fn split_field(text: &str, between: char) -> Result<(&str, &str)> {
    text.split_once(between).context("a field is missing")
}

/// What stands before the first tab, and what behind it.
pub fn first_field(text: &str) -> Result<(&str, &str)> {
    split_field(text, '\t')
}

/// A step: its word, and what goes with it behind a blank.
pub fn step_parts(step: &str) -> (&str, &str) {
    step.split_once(' ').unwrap_or((step, ""))
}
