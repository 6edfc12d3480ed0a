//! What bodies hold (RFC 9582 section 4.3.2, RFC 9286 section 4.2.1).

ghost use Rattle.std.specs.Prelude.{◌≡◌, length};
ghost use Rattle.origins.specs.Prefix.{IsMaximum};

use origins::Prefix;

/// A prefix that an AS may announce (RFC 9582 section 4.3.2).
#[derive(Clone, Copy, Debug, PartialEq, Eq)]
pub struct RoaEntry {
    pub prefix: Prefix,
    /// The greatest length that may be announced, from the prefix's length to 32 or 128 (RFC 9582
    /// section 4.3.2.2).
    pub max: u8,
    ghost maximum: { IsMaximum prefix.v6 prefix.length max },
}

/// A file that a manifest lists (RFC 9286 section 4.2.1).
#[derive(Debug, Drop)]
pub struct ListedFile {
    /// Letters, digits, `-` and `_`, and then a dot and three letters (RFC 9286 section 4.2.2).
    pub name: String,
    /// The SHA-256 of what it holds.
    pub hash: [u8; 32],
    ghost hash_size: { length hash ≡ 32 },
}
