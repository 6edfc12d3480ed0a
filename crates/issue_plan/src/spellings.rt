//! Whether a text goes on with an origin's text in hex, told without spelling that.

ghost use Rattle.std.specs.Prelude.{◌≡◌, ◌++◌, ◌∷◌, [], IfSome, IfOk, codes, decimal, false, true};
ghost use Rattle.hex.specs.Hex.{encode_lower};
ghost use Rattle.origins.specs.Origin.{address_text, maximum_text, origin_text};
ghost use Rattle.issue_plan.specs.Uris.{roa_file};

use itoa::Buffer;
use origins::Origin;
use std::alloc::{AllocError, Global};

const DIGITS: &[u8; 16] = b"0123456789abcdef";

// What is left of digits behind a byte's two.
fn behind_byte(digits: &[u8], byte: u8) -> Option<&[u8]>
    ensures { IfSome result (λ rest. digits.now ≡ encode_lower (byte ∷ []) ++ rest.now) }
{
    if digits.len() < 2 {
        return None;
    }
    let (high, low) = (DIGITS[(byte / 16) as usize], DIGITS[(byte % 16) as usize]);
    if digits[0] == high && digits[1] == low {
        Some(&digits[2..])
    } else {
        None
    }
}

// What is left behind those of a text's bytes.
fn behind_text<'a>(digits: &'a [u8], text: &[u8]) -> Option<&'a [u8]>
    ensures { IfSome result (λ rest. digits.now ≡ encode_lower text.now ++ rest.now) }
{
    let mut rest = digits;
    for byte in text {
        rest = behind_byte(rest, *byte)?;
    }
    Some(rest)
}

fn behind_number(digits: &[u8], number: u32) -> Option<&[u8]>
    ensures { IfSome result (λ rest. digits.now ≡ encode_lower (decimal number) ++ rest.now) }
{
    let mut buffer = Buffer::new();
    let rest = behind_text(digits, buffer.format(number).as_bytes())?;
    Some(rest)
}

// What is left behind those of a mark and a number.
fn behind_marked(digits: &[u8], mark: u8, number: u32) -> Option<&[u8]>
    ensures { IfSome result (λ rest. digits.now ≡ encode_lower (mark ∷ decimal number) ++ rest.now) }
{
    let behind_mark = behind_byte(digits, mark)?;
    let rest = behind_number(behind_mark, number)?;
    Some(rest)
}

fn behind_ipv4(digits: &[u8], address: u32) -> Option<&[u8]>
    ensures { IfSome result (λ rest. digits.now ≡ encode_lower (address_text false address) ++ rest.now) }
{
    let bytes = address.to_be_bytes();
    let first = behind_number(digits, bytes[0] as u32)?;
    let second = behind_marked(first, b'.', bytes[1] as u32)?;
    let third = behind_marked(second, b'.', bytes[2] as u32)?;
    let rest = behind_marked(third, b'.', bytes[3] as u32)?;
    Some(rest)
}

fn behind_maximum(digits: &[u8], length: u8, max: u8) -> Option<&[u8]>
    ensures { IfSome result (λ rest. digits.now ≡ encode_lower (maximum_text length max) ++ rest.now) }
{
    if max == length {
        return Some(digits);
    }
    let rest = behind_marked(digits, b'-', max as u32)?;
    Some(rest)
}

// The same of an origin of IPv4.
fn behind_ipv4_origin<'a>(digits: &'a [u8], origin: &Origin) -> Option<&'a [u8]>
    requires { origin.now.prefix.v6 ≡ false }
    ensures { IfSome result (λ rest. digits.now ≡ encode_lower (origin_text origin.now) ++ rest.now) }
{
    let address = behind_ipv4(digits, origin.prefix.address as u32)?;
    let length = behind_marked(address, b'/', origin.prefix.length as u32)?;
    let maximum = behind_maximum(length, origin.prefix.length, origin.max)?;
    let arrow = behind_text(maximum, b" => ")?;
    let rest = behind_number(arrow, origin.asn)?;
    Some(rest)
}

// The same of any origin, by its text.
fn behind_spelled<'a>(
    alloc: Global,
    digits: &'a [u8],
    origin: &Origin,
) -> Result<Option<&'a [u8]>, AllocError>
    ensures { IfOk result (λ rest. IfSome rest (λ rest.
        digits.now ≡ encode_lower (origin_text origin.now) ++ rest.now)) }
{
    let text = origin.text(alloc)?;
    Ok(behind_text(digits, text.as_bytes()))
}

fn behind_origin<'a>(
    alloc: Global,
    digits: &'a [u8],
    origin: &Origin,
) -> Result<Option<&'a [u8]>, AllocError>
    ensures { IfOk result (λ rest. IfSome rest (λ rest.
        digits.now ≡ encode_lower (origin_text origin.now) ++ rest.now)) }
{
    if origin.prefix.v6 {
        behind_spelled(alloc, digits, origin)
    } else {
        Ok(behind_ipv4_origin(digits, origin))
    }
}

/// Whether the URI is known to be that of the origin's ROA in the folder. Of a URI of IPv4 this takes no memory.
pub fn is_roa_in(
    alloc: Global,
    folder: &str,
    origin: &Origin,
    uri: &str,
) -> Result<bool, AllocError>
    ensures { IfOk result (λ is. is ≡ true → uri.now ≡ folder.now ++ roa_file origin.now) }
{
    let Some(file) = uri.as_bytes().strip_prefix(folder.as_bytes()) else {
        return Ok(false);
    };
    match behind_origin(alloc, file, origin)? {
        Some(rest) => Ok(rest == b".roa".as_slice()),
        None => Ok(false),
    }
}
