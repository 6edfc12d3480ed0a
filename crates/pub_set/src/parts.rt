//! Texts and bytes as plain values: a clause sees the bytes, and neither place nor capacity.

ghost use Rattle.std.specs.Prelude.{◌≡◌, IfOk};
ghost use Rattle.std.specs.String.{string_bytes};

use std::alloc::{AllocError, Global};
use std::fmt;
use std::marker::Model;
use std::sync::Arc;

/// The URI of an object. A clause sees the bytes of its text.
#[derive(Debug, Drop)]
pub struct Uri {
    text: String,
}

impl Model for Uri {
    ghost use Rattle.std.specs.Prelude.{ℕ, List};
    ghost use Rattle.std.specs.String.{string_bytes};

    ghost Value = { List ℕ };

    ghost view = { λ uri. string_bytes uri.text };
}

impl Uri {
    /// The URI that the text spells. Takes no memory.
    pub fn new(text: String) -> Uri
        ensures { result ≡ string_bytes text }
    {
        Uri { text }
    }

    /// The text of the URI.
    pub fn as_str(&self) -> &str
        ensures { result.now ≡ self.now }
    {
        self.text.as_str()
    }

    /// The text of the URI, given back.
    pub fn into_string(self) -> String
        ensures { string_bytes result ≡ self }
    {
        self.text
    }

    /// The same URI in memory of its own.
    pub fn copy(&self, alloc: Global) -> Result<Uri, AllocError>
        ensures { IfOk result (λ copy. copy ≡ self.now) }
    {
        Ok(Uri {
            text: String::from_str(alloc, self.text.as_str())?,
        })
    }
}

impl fmt::Display for Uri {
    ghost use Rattle.std.specs.Prelude.{Some};

    ghost output = { λ uri. Some uri };

    fn fmt<W: fmt::Write>(&self, f: &mut fmt::Formatter<W>) -> fmt::Result {
        let text = self.text.as_str();
        write!(f, "{text}")
    }
}

/// The bytes of an object. Copies share them.
#[derive(Debug, Drop)]
pub struct Content {
    bytes: Arc<Vec<u8>>,
}

impl Model for Content {
    ghost use Rattle.std.specs.Prelude.{ℕ, List};
    ghost use Rattle.std.specs.Arc.{arc_value};

    ghost Value = { List ℕ };

    ghost view = { λ content. (arc_value content.bytes).items };
}

impl Content {
    /// These bytes. They aren't moved.
    pub fn new(alloc: Global, bytes: Vec<u8>) -> Result<Content, AllocError>
        ensures { IfOk result (λ content. content ≡ bytes.items) }
    {
        Ok(Content {
            bytes: Arc::new(alloc, bytes)?,
        })
    }

    /// The bytes.
    pub fn as_slice(&self) -> &[u8]
        ensures { result.now ≡ self.now }
    {
        self.bytes.as_slice()
    }

    /// The same bytes, which both then hold. It takes no memory, and fails only where so many hold
    /// them that they can't be counted.
    pub fn share(&self) -> Result<Content, AllocError>
        ensures { IfOk result (λ shared. shared ≡ self.now) }
    {
        Ok(Content {
            bytes: Arc::try_clone(&self.bytes)?,
        })
    }
}
