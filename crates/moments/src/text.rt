//! The text of a time (RFC 5280 section 4.1.2.5, X.690 sections 11.7 and 11.8).

ghost use Rattle.std.specs.Prelude.{◌≡◌, Bool, true, false, ℕ, take, if◌then◌else◌};

/// The text of a time, in the first `len` of the bytes; the others are zero.
#[derive(Clone, Copy, Debug)]
pub struct TimeText {
    /// Whether it is a GeneralizedTime, of 15 bytes, and no UTCTime, of 13.
    pub general: bool,
    pub bytes: [u8; 15],
    /// In bytes, 13 or 15.
    pub len: u8,
    pub ghost len_is: { len ≡ (if general then 15 else 13) },
}

impl TimeText {
    /// The text's bytes.
    pub fn as_bytes(&self) -> &[u8]
        ensures { result.now ≡ take self.now.len self.now.bytes }
    {
        &self.bytes[..usize::from(self.len)]
    }
}
