//! Names of files (RFC 9286 section 4.2.2).

ghost use Rattle.std.specs.Prelude.{◌≡◌, ◌<◌, true, length, IfOk, string_bytes};
ghost use Rattle.std.specs.List.{list_all};
ghost use Rattle.std.specs.Char.{is_ascii_alphabetic};
ghost use Rattle.der.specs.Part.{place};
ghost use Rattle.der.specs.Outcome.{GivesUnlessMemory};
ghost use Rattle.payloads.specs.ManifestFormats.{is_stem_byte, has_dot_at, is_name, name_content, file_name};

use der::tags::IA5_STRING;
use der::{Part, ShapeFault};
use std::alloc::{AllocError, Global};
use std::str;

/// Whether the byte may stand before the dot: a letter, a digit, `-` or `_`.
fn is_stem_byte(byte: u8) -> bool
    ensures { result ≡ is_stem_byte byte }
{
    byte.is_ascii_alphanumeric() || byte == b'-' || byte == b'_'
}

fn is_stem(bytes: &[u8]) -> bool
    ensures { result ≡ list_all is_stem_byte bytes.now }
{
    bytes.iter().all(|byte| is_stem_byte(*byte))
}

fn are_letters(bytes: &[u8]) -> bool
    ensures { result ≡ list_all is_ascii_alphabetic bytes.now }
{
    bytes.iter().all(|byte| byte.is_ascii_alphabetic())
}

/// Whether there is a dot at that place, a stem before it and letters behind it.
fn has_dot_at(at: usize, bytes: &[u8]) -> bool
    requires { at < length bytes.now }
    ensures { result ≡ has_dot_at at bytes.now }
{
    is_stem(&bytes[..at]) && bytes[at] == b'.' && are_letters(&bytes[at + 1..])
}

/// Whether the bytes are a name: a stem, a dot and three letters (RFC 9286 section 4.2.2).
#[tactic(auto, unfolding(crate::specs::ManifestFormats::is_name))]
pub fn is_name(bytes: &[u8]) -> bool
    ensures { result ≡ is_name bytes.now }
{
    bytes.len() > 4 && has_dot_at(bytes.len() - 4, bytes)
}

/// The text of a name.
#[tactic(auto, using(crate::proofs::NameBytes::utf8_of))]
fn text_of(alloc: Global, name: &[u8]) -> Result<String, AllocError>
    requires { is_name name.now ≡ true }
    ensures { IfOk result (λ text. string_bytes text ≡ name.now) }
{
    // A name's bytes are ASCII.
    String::from_str(alloc, str::from_utf8(name).unwrap())
}

/// The name that all bytes of the part are.
fn name_content(alloc: Global, part: Part<'_>) -> Result<String, ShapeFault>
    ensures { GivesUnlessMemory (λ text. string_bytes text)
        result (name_content.read (place part.entry)) }
{
    if !is_name(part.bytes) {
        return Err(part.fault());
    }
    Ok(text_of(alloc, part.bytes)?)
}

/// The name in front, as an IA5String.
pub fn file_name(alloc: Global, part: Part<'_>) -> Result<(String, Part<'_>), ShapeFault>
    ensures { GivesUnlessMemory (λ x. (string_bytes x.0, place x.1))
        result (file_name.read (place part.entry)) }
{
    let (content, rest) = part.open(IA5_STRING)?;
    let name = name_content(alloc, content)?;
    Ok((name, rest))
}
