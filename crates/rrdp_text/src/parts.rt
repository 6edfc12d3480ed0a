//! What stands at the front of a text, and the bytes behind it (RFC 8182 section 3.5).

ghost use Rattle.std.specs.Prelude.{◌≡◌, ◌||◌};
ghost use Rattle.std.specs.List.{prefix_len};
ghost use Rattle.rrdp_text.specs.Fields.{is_letter, is_digit};
ghost use Rattle.rrdp_text.specs.inner.Parts.{Gives, has, plain};
ghost use Rattle.rrdp_text.specs.Reading.{literal, field};

use crate::fault::Stop;

/// The bytes that may stand in a kind of value.
#[derive(Clone, Copy, Debug, PartialEq, Eq)]
pub(crate) enum Alphabet {
    Uri,
    Hex,
    Digit,
    Session,
    Base64,
}

fn is_digit(byte: u8) -> bool
    ensures { result ≡ has Alphabet.Digit byte }
{
    byte.is_ascii_digit()
}

fn is_hex(byte: u8) -> bool
    ensures { result ≡ has Alphabet.Hex byte }
{
    is_digit(byte) || matches!(byte, b'a'..=b'f')
}

fn is_alphanumeric(byte: u8) -> bool
    ensures { result ≡ is_letter byte || is_digit byte }
{
    byte.is_ascii_alphanumeric()
}

impl Alphabet {
    pub(crate) fn has(self, byte: u8) -> bool
        ensures { result ≡ has self byte }
    {
        match self {
            Alphabet::Uri => {
                is_alphanumeric(byte) || matches!(byte, b'-' | b'.' | b'_' | b'~' | b'/' | b':')
            }
            Alphabet::Hex => is_hex(byte),
            Alphabet::Digit => is_digit(byte),
            Alphabet::Session => is_hex(byte) || byte == b'-',
            Alphabet::Base64 => is_alphanumeric(byte) || matches!(byte, b'+' | b'/' | b'='),
        }
    }
}

/// What is behind these bytes.
#[tactic(auto, using(crate::proofs::Fronts::literal_steps))]
pub(crate) fn literal<'a>(bytes: &'a [u8], expected: &[u8]) -> Result<&'a [u8], Stop>
    ensures { Gives (λ rest. rest.now) result (literal expected.now bytes.now) }
{
    for (i, byte) in expected.iter().enumerate() {
        match bytes.get(i) {
            None => return Err(Stop::Here { left: 0 }),
            Some(found) if found == byte => {}
            Some(_) => {
                return Err(Stop::Here {
                    left: bytes.len() - i,
                });
            }
        }
    }
    Ok(&bytes[expected.len()..])
}

#[tactic(auto, using(crate::proofs::Fronts::front_steps))]
/// How many bytes at the front are of the alphabet.
fn front_len(alphabet: Alphabet, bytes: &[u8]) -> usize
    ensures { result ≡ prefix_len (has alphabet) bytes.now }
{
    for (i, byte) in bytes.iter().enumerate() {
        if !alphabet.has(*byte) {
            return i;
        }
    }
    bytes.len()
}

#[tactic(auto, using(crate::proofs::Fronts::field_cases))]
/// The bytes of the alphabet up to the byte that ends them, and what is behind that one.
pub(crate) fn delimited<'a>(
    alphabet: Alphabet,
    ends: u8,
    bytes: &'a [u8],
) -> Result<(&'a [u8], &'a [u8]), Stop>
    ensures { Gives (λ p. (p.0.now, p.1.now)) result (field (plain alphabet) ends bytes.now) }
{
    let (front, back) = bytes.split_at(front_len(alphabet, bytes));
    match back.split_first() {
        None => Err(Stop::Here { left: 0 }),
        Some((byte, rest)) if *byte == ends => Ok((front, rest)),
        Some(_) => Err(Stop::Here { left: back.len() }),
    }
}
