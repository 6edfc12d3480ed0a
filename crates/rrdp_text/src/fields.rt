//! The values in a text, each read up to the byte that ends it (RFC 8182 section 3.5).

ghost use Rattle.std.specs.Prelude.{IfOk, IfSome, ◌≡◌, ◌+◌, length, Some, Ok, true};
ghost use Rattle.std.specs.List.{list_all};
ghost use Rattle.std.specs.Str.{IsUtf8};
ghost use Rattle.rrdp_text.specs.inner.Parts.{Gives};
ghost use Rattle.rrdp_text.specs.Fields.{is_below, uri_above, hash, serial, session, content, is_digit};
ghost use Rattle.rrdp_text.specs.Reading.{field};
ghost use Rattle.rrdp_text.specs.Template.{quote, opens, hash_in, content_in, opening_in};

use crate::fault::Stop;
use crate::parts::{Alphabet, delimited, literal};
use base64::DecodeAllocError;
use base64::engine::general_purpose::STANDARD;
use memchr::memchr;
use std::alloc::Global;
use uuid::Uuid;

/// A fault at the byte in front of these.
fn stop_before(rest: &[u8]) -> Stop
    ensures { result ≡ Stop.Here (length rest.now + 1) }
{
    Stop::Here {
        left: rest.len() + 1,
    }
}

/// Whether the first stands before the second, byte by byte.
fn is_below(a: &[u8], b: &[u8]) -> bool
    ensures { result ≡ is_below a.now b.now }
{
    a.cmp(b).is_lt()
}

#[tactic(auto, using(crate::proofs::Fronts::uri_by))]
/// A URI above the one before it, up to the quote.
pub(crate) fn uri<'a>(previous: &[u8], bytes: &'a [u8]) -> Result<(&'a [u8], &'a [u8]), Stop>
    ensures read { Gives (λ p. (p.0.now, p.1.now)) result (field (uri_above previous.now) quote bytes.now) }
    ensures text { IfOk result (λ p. IsUtf8 p.0.now) }
{
    let (uri, rest) = delimited(Alphabet::Uri, b'"', bytes)?;
    if is_below(previous, uri) {
        Ok((uri, rest))
    } else {
        Err(stop_before(rest))
    }
}

/// The hash of 64 lower-case digits.
fn hash_of(digits: &[u8]) -> Option<[u8; 32]>
    ensures { result ≡ hash.value digits.now }
{
    let mut hash = [0; 32];
    hex::decode_to_slice(digits, &mut hash).ok()?;
    let mut text = [0; 64];
    hex::encode_to_slice(hash, &mut text).ok()?;
    if text.as_slice() == digits {
        Some(hash)
    } else {
        None
    }
}

#[tactic(auto, using(crate::proofs::Fronts::hash_by), unfolding(crate::specs::Template::hash_in))]
/// The attribute of a hash.
pub(crate) fn hash(bytes: &[u8]) -> Result<([u8; 32], &[u8]), Stop>
    ensures { Gives (λ p. (p.0, p.1.now)) result (hash_in bytes.now) }
{
    let rest = literal(bytes, b" hash=\"")?;
    let (digits, rest) = delimited(Alphabet::Hex, b'"', rest)?;
    match hash_of(digits) {
        Some(hash) => Ok((hash, rest)),
        None => Err(stop_before(rest)),
    }
}

/// The same bytes as a text.
pub(crate) fn text_of(bytes: &[u8]) -> &str
    requires { IsUtf8 bytes.now }
    ensures { result.now ≡ bytes.now }
{
    str::from_utf8(bytes).unwrap()
}

/// The number of the digits, if it has no needless zero in front and fits 64 bits.
fn serial_of(digits: &[u8]) -> Option<u64>
    requires { list_all is_digit digits.now ≡ true }
    ensures { result ≡ serial.value digits.now }
{
    if digits.len() > 1 && digits[0] == b'0' {
        return None;
    }
    text_of(digits).parse().ok()
}

/// The UUID of a text that is hyphenated and in lower case.
fn session_of(text: &[u8]) -> Option<Uuid>
    requires { IsUtf8 text.now }
    ensures { result ≡ session.value text.now }
{
    let session = Uuid::parse_str(text_of(text)).ok()?;
    let mut buffer = Uuid::encode_buffer();
    if session.hyphenated().encode_lower(&mut buffer).as_bytes() == text {
        Some(session)
    } else {
        None
    }
}

#[tactic(auto, using(crate::proofs::Fronts::opening_steps), unfolding(crate::specs::Template::opening_in))]
/// The first line, which begins so up to the session: the bytes of the session, and the serial.
pub(crate) fn opening<'a>(head: &[u8], bytes: &'a [u8]) -> Result<([u8; 16], u64, &'a [u8]), Stop>
    ensures { Gives (λ p. ((p.0, p.1), p.2.now)) result (opening_in head.now bytes.now) }
{
    let rest = literal(bytes, head)?;
    let (text, rest) = delimited(Alphabet::Session, b'"', rest)?;
    let Some(session) = session_of(text) else {
        return Err(stop_before(rest));
    };
    let rest = literal(rest, b" serial=\"")?;
    let (digits, rest) = delimited(Alphabet::Digit, b'"', rest)?;
    let Some(serial) = serial_of(digits) else {
        return Err(stop_before(rest));
    };
    let rest = literal(rest, b">\n")?;
    Ok((session.into_bytes(), serial, rest))
}

/// The content that stands up to the next bracket, if that is Base64, and what is behind the bracket.
fn content_at_once(alloc: Global, bytes: &[u8]) -> Option<(Vec<u8>, &[u8])>
    ensures { IfSome result (λ p. field content opens bytes.now ≡ Ok (p.0.items, p.1.now)) }
{
    let end = memchr(b'<', bytes)?;
    let content = STANDARD.decode(alloc, &bytes[..end]).ok()?;
    Some((content, &bytes[end + 1..]))
}

#[tactic(auto, using(crate::proofs::Fronts::content_by))]
/// The content up to its bracket, gone over byte by byte, so that a fault has its place.
fn content_by_bytes(alloc: Global, bytes: &[u8]) -> Result<(Vec<u8>, &[u8]), Stop>
    ensures { Gives (λ p. (p.0.items, p.1.now)) result (field content opens bytes.now) }
{
    let (text, rest) = delimited(Alphabet::Base64, b'<', bytes)?;
    match STANDARD.decode(alloc, text) {
        Ok(bytes) => Ok((bytes, rest)),
        Err(DecodeAllocError::DecodeError(_)) => Err(stop_before(rest)),
        Err(DecodeAllocError::OutOfMemory) => Err(Stop::Memory),
    }
}

#[tactic(auto, unfolding(crate::specs::Template::content_in))]
/// The bytes of an object, between their bracket and the end of the line.
pub(crate) fn content(alloc: Global, bytes: &[u8]) -> Result<(Vec<u8>, &[u8]), Stop>
    ensures { Gives (λ p. (p.0.items, p.1.now)) result (content_in bytes.now) }
{
    let rest = literal(bytes, b">")?;
    let (content, rest) = match content_at_once(alloc, rest) {
        Some(read) => read,
        None => content_by_bytes(alloc, rest)?,
    };
    Ok((content, literal(rest, b"/publish>\n")?))
}
