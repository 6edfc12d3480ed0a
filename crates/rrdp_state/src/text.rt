//! A text that is written, with its hash.

ghost use Rattle.std.specs.Prelude.{◌≡◌, length};
ghost use Rattle.std.specs.String.{string_bytes};
ghost use Rattle.sha2.specs.Sha256.{sha256};

use sha2::{Digest, Sha256};
use std::marker::Model;

/// The text of a file. It is hashed once. A clause sees its bytes.
#[derive(Debug, Drop)]
pub struct FileText {
    text: String,
    hash: [u8; 32],
}

impl Model for FileText {
    ghost use Rattle.std.specs.Prelude.{◌≡◌, ℕ, List};
    ghost use Rattle.std.specs.String.{string_bytes};
    ghost use Rattle.sha2.specs.Sha256.{sha256};

    ghost Value = { List ℕ };

    ghost view = { λ file. string_bytes file.text };

    ghost invariant = { λ file. file.hash ≡ sha256 (string_bytes file.text) };
}

impl FileText {
    /// This text. Takes no memory.
    pub fn new(text: String) -> FileText
        ensures { result ≡ string_bytes text }
    {
        let hash = Sha256::digest(text.as_bytes());
        FileText { text, hash }
    }

    /// The text.
    pub fn as_str(&self) -> &str
        ensures { result.now ≡ self.now }
    {
        self.text.as_str()
    }

    /// The text, given back.
    pub fn into_string(self) -> String
        ensures { string_bytes result ≡ self }
    {
        self.text
    }

    /// The SHA-256 hash of its bytes.
    pub fn hash(&self) -> [u8; 32]
        ensures { result ≡ sha256 self.now }
    {
        self.hash
    }

    /// How many bytes it has.
    pub fn len(&self) -> usize
        ensures { result ≡ length self.now }
    {
        self.text.as_str().len()
    }
}
