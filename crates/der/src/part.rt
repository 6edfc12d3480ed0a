//! Where a reading stands.

ghost use Rattle.std.specs.Prelude.{◌≤◌, ◌+◌, ◌<◌, ◌^◌, length};
ghost use Rattle.der.specs.Grammar.{AreBytes};

/// A part of an object that is to be read: its bytes, and where they stand in the object. All three
/// numbers are offsets in bytes.
#[derive(Clone, Copy, Debug)]
pub struct Part<'a> {
    /// How many bytes of the object lie before the part.
    pub at: u64,
    pub bytes: &'a [u8],
    /// The place that a fault names which no earlier byte tells: within an element its last byte, and
    /// else the object's length.
    pub last: u64,
    pub ghost ends: { at + length bytes.now ≤ last + 1 },
    pub ghost fits: { last < 2 ^ 63 },
    pub ghost short: { length bytes.now < 2 ^ 32 },
    pub ghost are_bytes: { AreBytes bytes.now },
}
