//! Writers of single elements (X.690 sections 8.1, 8.3 and 8.6).

ghost use Rattle.std.specs.Prelude.{◌≡◌, ◌++◌, ◌∷◌, ◌+◌, ◌-◌, ◌≤◌, List, ℕ, take, drop, length, slice_get, Some, OnOk, OnErr};
ghost use Rattle.der.specs.Spelling.{length_bytes, needs_zero, nonnegative, spelled, unsigned_spelling, bits_spelling, AreBits};
ghost use Rattle.der.specs.inner.Digits.{without_zeros};

use crate::{BIT_STRING, INTEGER};
use std::alloc::{AllocError, Global};

/// The bytes from the first that isn't zero.
fn without_zeros(bytes: &[u8]) -> &[u8]
    ensures { result.now ≡ without_zeros bytes.now }
{
    for (i, b) in bytes.iter().enumerate() {
        if *b != 0 {
            return &bytes[i..];
        }
    }
    &[]
}

/// Whether a zero has to stand in front for the sign.
fn needs_zero(digits: &[u8]) -> bool
    ensures { result ≡ needs_zero digits.now }
{
    match digits {
        [] => true,
        [first, ..] => *first >= 128,
    }
}

/// The fewest bytes for the number of the bytes, the first of which is zero, without making it
/// negative (X.690 section 8.3.2).
fn nonnegative(bytes: &[u8]) -> &[u8]
    requires { slice_get bytes.now 0 ≡ Some 0 }
    ensures { result.now ≡ nonnegative (without_zeros bytes.now) }
{
    let digits = without_zeros(bytes);
    if needs_zero(digits) {
        &bytes[bytes.len() - digits.len() - 1..]
    } else {
        digits
    }
}

/// Appends a header. After an `Err` the old bytes still stand in front.
fn push_header(out: &mut Vec<u8>, tag: u8, len: usize) -> Result<(), AllocError>
    ensures ok { OnOk result (out.new.items ≡ out.old.items ++ tag ∷ length_bytes len) }
    ensures err { OnErr result (take (length out.old.items) out.new.items ≡ out.old.items) }
{
    out.push(tag)?;
    if len < 128 {
        out.push(len as u8)?;
        return Ok(());
    }
    let bytes = (len as u64).to_be_bytes();
    let digits = without_zeros(&bytes);
    out.push(128 + digits.len() as u8)?;
    out.extend_from_slice(digits)
}

#[tactic(auto, using(std::proofs::Common::append_assoc), unfolding(crate::specs::Spelling::spelled))]
/// Appends an element. After an `Err` the old bytes still stand in front.
fn push_element(out: &mut Vec<u8>, tag: u8, content: &[u8]) -> Result<(), AllocError>
    ensures ok { OnOk result (out.new.items ≡ out.old.items ++ spelled tag content.now) }
    ensures err { OnErr result (take (length out.old.items) out.new.items ≡ out.old.items) }
{
    push_header(out, tag, content.len())?;
    out.extend_from_slice(content)
}

#[tactic(auto, using(std::proofs::Common::append_assoc), unfolding(crate::specs::Spelling::spelled, crate::specs::Spelling::bits_spelling))]
/// Appends a BIT STRING. After an `Err` the old bytes still stand in front.
fn push_bits(out: &mut Vec<u8>, unused: u8, bytes: &[u8]) -> Result<(), AllocError>
    ensures ok { OnOk result (out.new.items ≡ out.old.items ++ bits_spelling unused bytes.now) }
    ensures err { OnErr result (take (length out.old.items) out.new.items ≡ out.old.items) }
{
    push_header(out, BIT_STRING, bytes.len() + 1)?;
    out.push(unused)?;
    out.extend_from_slice(bytes)
}

/// Takes back what a call that failed has appended to so many bytes.
fn or_undo(
    appended: Result<(), AllocError>,
    out: &mut Vec<u8>,
    len: usize,
) -> Result<(), AllocError>
    ensures result { result ≡ appended }
    ensures ok { OnOk result (out.new.items ≡ out.old.items) }
    ensures err { OnErr result (out.new.items ≡ take len out.old.items) }
{
    if appended.is_err() {
        out.truncate(len);
    }
    appended
}

/// Appends an element (X.690 section 8.1).
///
/// [`Reader::take`](crate::Reader::take) reads it again where the content has fewer than 2 ^ 32 bytes.
pub fn element(_alloc: Global, out: &mut Vec<u8>, tag: u8, content: &[u8]) -> Result<(), AllocError>
    ensures ok { OnOk result (out.new.items ≡ out.old.items ++ spelled tag content.now) }
    ensures err { OnErr result (out.new.items ≡ out.old.items) }
{
    let len = out.len();
    let appended = push_element(out, tag, content);
    or_undo(appended, out, len)
}

/// Appends an INTEGER (X.690 section 8.3).
pub fn unsigned(alloc: Global, out: &mut Vec<u8>, n: u64) -> Result<(), AllocError>
    ensures ok { OnOk result (out.new.items ≡ out.old.items ++ unsigned_spelling n) }
    ensures err { OnErr result (out.new.items ≡ out.old.items) }
{
    let mut bytes = [0; 9];
    bytes[1..].copy_from_slice(&n.to_be_bytes());
    element(alloc, out, INTEGER, nonnegative(&bytes))
}

/// Appends a BIT STRING: the bytes, of the last of which so many low bits are unused (X.690
/// sections 8.6 and 11.2).
pub fn bits(_alloc: Global, out: &mut Vec<u8>, unused: u8, bytes: &[u8]) -> Result<(), AllocError>
    requires { AreBits unused bytes.now }
    ensures ok { OnOk result (out.new.items ≡ out.old.items ++ bits_spelling unused bytes.now) }
    ensures err { OnErr result (out.new.items ≡ out.old.items) }
{
    let len = out.len();
    let appended = push_bits(out, unused, bytes);
    or_undo(appended, out, len)
}

/// Brings the last bytes to the front, one after the other.
fn turn_by_ones(bytes: &mut [u8], count: usize)
    requires { count ≤ length bytes.old }
    ensures { bytes.new ≡ drop (length bytes.old - count) bytes.old ++ take (length bytes.old - count) bytes.old }
{
    for _turn in 0..count {
        bytes.rotate_right(1);
    }
}

/// Brings the last bytes to the front. A rotation by more than one byte first fills a page on the stack,
/// which costs more than some short moves.
fn turn(bytes: &mut [u8], count: usize)
    requires { count ≤ length bytes.old }
    ensures { bytes.new ≡ drop (length bytes.old - count) bytes.old ++ take (length bytes.old - count) bytes.old }
{
    if bytes.len() < 2_048 {
        turn_by_ones(bytes, count);
    } else {
        bytes.rotate_right(count);
    }
}

/// Brings the last bytes to an earlier place.
fn bring(bytes: &mut [u8], from: usize, count: usize)
    requires { from + count ≤ length bytes.old }
    ensures { bytes.new ≡ take from bytes.old
        ++ (drop (length bytes.old - count) bytes.old ++ drop from (take (length bytes.old - count) bytes.old)) }
{
    turn(&mut bytes[from..], count);
}

/// Appends a header, or nothing.
fn header(out: &mut Vec<u8>, tag: u8, len: usize) -> Result<(), AllocError>
    ensures ok { OnOk result (out.new.items ≡ out.old.items ++ tag ∷ length_bytes len) }
    ensures err { OnErr result (out.new.items ≡ out.old.items) }
{
    let before = out.len();
    let pushed = push_header(out, tag, len);
    or_undo(pushed, out, before)
}

/// Makes an element of the bytes from that place on, in place. `from` is an offset in bytes.
pub fn enclose(_alloc: Global, out: &mut Vec<u8>, from: usize, tag: u8) -> Result<(), AllocError>
    requires { from ≤ length out.old.items }
    ensures ok { OnOk result (out.new.items ≡ take from out.old.items ++ spelled tag (drop from out.old.items)) }
    // The same of what was appended to a front.
    ensures behind { OnOk result ((front content : List ℕ) → out.old.items ≡ front ++ content → length front ≡ from
        → out.new.items ≡ front ++ spelled tag content) }
    ensures err { OnErr result (out.new.items ≡ out.old.items) }
{
    let len = out.len();
    header(out, tag, len - from)?;
    let count = out.len() - len;
    bring(out, from, count);
    Ok(())
}
