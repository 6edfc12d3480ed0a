//! The name that an identifier of a key has (RFC 6487 sections 4.4 and 4.5).

ghost use Rattle.std.specs.Prelude.{◌≡◌};
ghost use Rattle.der.specs.Leaves.{are_same};
ghost use Rattle.der.specs.Part.{place};
ghost use Rattle.der.specs.Outcome.{Gives};
ghost use Rattle.object_parts.specs.NameFormats.{key_text, key_in, key_digits, name};

use crate::frames::identifier;
use crate::identifiers::COMMON_NAME;
use der::tags::{PRINTABLE_STRING, SEQUENCE, SET};
use der::{Part, ShapeFault, are_same};

/// The 20 bytes of hex digits in either case.
#[tactic(auto, unfolding(crate::specs::NameFormats::key_in))]
fn key_in(text: &[u8]) -> Option<[u8; 20]>
    ensures { result ≡ key_in text.now }
{
    let mut bytes = [0; 20];
    match hex::decode_to_slice(text, &mut bytes) {
        Ok(()) => Some(bytes),
        Err(_) => None,
    }
}

/// The hex digits of 20 bytes, in lower case.
#[tactic(auto, unfolding(crate::specs::NameFormats::key_text))]
pub(crate) fn key_text(bytes: &[u8; 20]) -> [u8; 40]
    ensures { result ≡ key_text bytes.now }
{
    let mut text = [0; 40];
    let _ = hex::encode_to_slice(bytes.as_slice(), &mut text);
    text
}

/// Whether the text is that of the bytes.
fn is_text_of(text: &[u8], bytes: &[u8; 20]) -> bool
    ensures { result ≡ are_same text.now (key_text bytes.now) }
{
    are_same(text, &key_text(bytes))
}

/// The 20 bytes of hex digits in lower case.
fn key_digits(part: Part<'_>) -> Result<[u8; 20], ShapeFault>
    ensures { Gives (λ b. b) result (key_digits.read (place part.entry)) }
{
    let Some(bytes) = key_in(part.bytes) else {
        return Err(part.fault());
    };
    if is_text_of(part.bytes, &bytes) {
        Ok(bytes)
    } else {
        Err(part.fault())
    }
}

/// The name of an identifier. One commonName, its 40 hex digits in lower case, as a
/// PrintableString.
#[tactic(auto, unfolding(crate::specs::NameFormats::name))]
pub fn name(part: Part<'_>) -> Result<([u8; 20], Part<'_>), ShapeFault>
    ensures { Gives (λ x. (x.0, place x.1)) result (name.read (place part.entry)) }
{
    let (content, rest) = part.open(SEQUENCE)?;
    let attribute = content.sole(SET)?.sole(SEQUENCE)?;
    let value = identifier(attribute, &COMMON_NAME)?;
    let bytes = key_digits(value.sole(PRINTABLE_STRING)?)?;
    Ok((bytes, rest))
}
