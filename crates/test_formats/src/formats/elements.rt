//! Elements, read and written.

ghost use Rattle.std.specs.Prelude.{◌≡◌, IsTrue, ◌↔◌};
ghost use Rattle.der.specs.Spelling.{AreBits};

use anyhow::{Result, bail};
use der::{Bits, Reader};
use std::alloc::Global;
use test_support::{bytes_of, digits_of, number_of};

/// The answer to a call.
pub fn answer(alloc: Global, call: &str, first: &str, second: &str, third: &str) -> Result<String> {
    match call {
        "read" => read(alloc, first, second),
        "integer" => write_integer(alloc, first),
        "element" => write_element(alloc, first, second),
        "bits" => write_bits(alloc, first, second),
        "enclose" => enclose(alloc, first, second, third),
        _ => bail!("an unknown call: {call}"),
    }
}

/// The tag of two hex digits.
fn tag_of(digits: &str) -> Result<u8> {
    match u8::from_str_radix(digits, 16) {
        Ok(tag) => Ok(tag),
        Err(_) => bail!("no tag: {digits}"),
    }
}

/// What one call of a reader answers.
fn call(alloc: Global, reader: &mut Reader<'_>, call: &str) -> Result<String> {
    let answer = match call.split_once(' ') {
        None if call == "unsigned" => match reader.unsigned() {
            Ok(n) => format!(in alloc; "{n}")?,
            Err(fault) => format!(in alloc; "{fault:?}")?,
        },
        None if call == "bits" => match reader.bits() {
            Ok(Bits { unused, bytes }) => {
                let digits = digits_of(alloc, bytes)?;
                format!(in alloc; "{unused}:{digits}")?
            }
            Err(fault) => format!(in alloc; "{fault:?}")?,
        },
        Some(("take", tag)) => match reader.take(tag_of(tag)?) {
            Ok(bytes) => digits_of(alloc, bytes)?,
            Err(fault) => format!(in alloc; "{fault:?}")?,
        },
        Some(("take_whole", tag)) => match reader.take_whole(tag_of(tag)?) {
            Ok(bytes) => digits_of(alloc, bytes)?,
            Err(fault) => format!(in alloc; "{fault:?}")?,
        },
        _ => bail!("an unknown call of a reader: {call}"),
    };
    Ok(answer)
}

/// What the calls of one reader answer, one after the other, and how many bytes are left.
pub fn read(alloc: Global, digits: &str, calls: &str) -> Result<String> {
    let bytes = bytes_of(alloc, digits)?;
    let mut reader = Reader::new(&bytes);
    let mut answers = String::new(alloc);
    for word in calls.split(',') {
        let answer = call(alloc, &mut reader, word)?;
        answers.push_str(&answer)?;
        answers.push_str("; ")?;
    }
    let left = reader.rest().len();
    let ended = reader.is_empty() == reader.peek().is_none();
    if !ended {
        bail!("a reader that is empty before a byte");
    }
    let count = format!(in alloc; "{left} left")?;
    answers.push_str(&count)?;
    Ok(answers)
}

/// An INTEGER.
pub fn write_integer(alloc: Global, digits: &str) -> Result<String> {
    let mut out = Vec::new(alloc);
    der::unsigned(alloc, &mut out, number_of(digits)?)?;
    Ok(digits_of(alloc, &out)?)
}

/// An element.
pub fn write_element(alloc: Global, tag: &str, digits: &str) -> Result<String> {
    let content = bytes_of(alloc, digits)?;
    let mut out = Vec::new(alloc);
    der::element(alloc, &mut out, tag_of(tag)?, &content)?;
    Ok(digits_of(alloc, &out)?)
}

/// Whether so many low bits of the last byte are zero, and none where there is no byte.
fn are_bits(unused: u8, bytes: &[u8]) -> bool
    ensures { IsTrue result → AreBits unused bytes.now }
{
    match bytes {
        [] => unused == 0,
        [.., last] => unused < 8 && *last % (1 << unused) == 0,
    }
}

/// A BIT STRING.
pub fn write_bits(alloc: Global, unused: &str, digits: &str) -> Result<String> {
    let bytes = bytes_of(alloc, digits)?;
    let unused = tag_of(unused)?;
    if !are_bits(unused, &bytes) {
        bail!("no bits: {unused} of {digits}");
    }
    let mut out = Vec::new(alloc);
    der::bits(alloc, &mut out, unused, &bytes)?;
    Ok(digits_of(alloc, &out)?)
}

/// What was appended to a front, as an element.
pub fn enclose(alloc: Global, front: &str, content: &str, tag: &str) -> Result<String> {
    let mut out = bytes_of(alloc, front)?;
    let from = out.len();
    out.extend_from_slice(&bytes_of(alloc, content)?)?;
    der::enclose(alloc, &mut out, from, tag_of(tag)?)?;
    Ok(digits_of(alloc, &out)?)
}
