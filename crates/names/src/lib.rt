//! Names of authorities.
#![tactic(auto)]

ghost use Rattle.std.specs.Prelude.{◌≡◌, ◌↔◌, ◌≤◌, ◌++◌, ◌-◌, ℕ, List, take, length, replicate, IsTrue, IsSome, IfSome};
ghost use Rattle.names.specs.Name.{IsName, IsPaddedName, is_name_byte, padded};

use std::marker::Model;
use std::str;

const MAX_LEN: usize = 64;

/// The name of the trust anchor.
pub const ANCHOR: &str = "ta";

/// The name of an authority: 1 to 64 ASCII letters, digits, `-` and `_`. Case matters.
///
/// It stands in the value itself and takes no memory.
#[derive(Clone, Copy, Debug, PartialEq, Eq)]
pub struct Name {
    bytes: [u8; 64],
    len: usize,
}

impl Model for Name {
    ghost use Rattle.std.specs.Prelude.{ℕ, List, length, take};
    ghost use Rattle.std.proofs.Common.{sym, length-take-le};
    ghost use Rattle.names.specs.Name.{IsPaddedName, padded};

    ghost Value = { List ℕ };

    ghost view = { λ name. take name.len name.bytes };

    ghost invariant = { λ name. IsPaddedName name.bytes name.len };

    ghost inverse = { λ text. record { bytes = padded text; len = length text } };

    ghost inverse_ok = { λ name kept i. record {
      bytes = sym kept.filled i;
      len = length-take-le name.len name.bytes kept.within i;
    } };
}

fn is_name_byte(c: u8) -> bool
    ensures { result ≡ is_name_byte c }
{
    c.is_ascii_alphanumeric() || c == b'-' || c == b'_'
}

/// Whether the text is a name.
pub fn is_name(text: &str) -> bool
    ensures { IsTrue result ↔ IsName text.now }
{
    are_of_name(text.as_bytes())
}

fn are_of_name(text: &[u8]) -> bool
    ensures { IsTrue result ↔ IsName text.now }
{
    !text.is_empty() && text.len() <= MAX_LEN && text.iter().all(|c| is_name_byte(*c))
}

#[tactic(auto, using(crate::proofs::Kept::zeros_behind))]
fn padded(text: &[u8]) -> [u8; 64]
    requires { length text.now ≤ 64 }
    ensures { result ≡ padded text.now }
{
    let mut bytes = [0; MAX_LEN];
    bytes[..text.len()].copy_from_slice(text);
    bytes
}

impl Name {
    /// The name of that text, or `None` where the text isn't a name.
    pub fn read(text: &str) -> Option<Name>
        ensures found { IsSome result ↔ IsName text.now }
        ensures name { IfSome result (λ name. name ≡ text.now) }
    {
        Name::of_bytes(text.as_bytes())
    }

    /// The name of these bytes, or `None` where they aren't those of a name.
    #[tactic(auto, using(crate::proofs::Kept::kept_of))]
    pub fn of_bytes(text: &[u8]) -> Option<Name>
        ensures found { IsSome result ↔ IsName text.now }
        ensures name { IfSome result (λ name. name ≡ text.now) }
    {
        if !are_of_name(text) {
            return None;
        }
        Some(Name {
            bytes: padded(text),
            len: text.len(),
        })
    }

    /// The name's bytes.
    pub fn as_bytes(&self) -> &[u8]
        ensures bytes { result.now ≡ self.now }
        ensures rule { IsName result.now }
    {
        &self.bytes[..self.len]
    }

    /// The name as text.
    #[tactic(auto, using(crate::proofs::Kept::utf8_of))]
    pub fn as_str(&self) -> &str
        ensures { result.now ≡ self.now }
    {
        // A name's bytes are ASCII.
        unsafe { str::from_utf8_unchecked(self.as_bytes()) }
    }
}
