//! Identifiers of keys (RFC 6487 section 4.8.2).

ghost use Rattle.std.specs.Prelude.{◌≡◌};
ghost use Rattle.sha1.specs.Sha1.{sha1};
ghost use Rattle.hex.specs.Hex.{encode_lower};

use sha1::Sha1;

/// The identifier of a public key: the SHA-1 of its bits (RFC 6487 section 4.8.2, RFC 5280
/// section 4.2.1.2).
#[derive(Clone, Copy, Debug, PartialEq, Eq, PartialOrd, Ord)]
pub struct KeyId {
    pub bytes: [u8; 20],
}

impl KeyId {
    /// The identifier of a key, which is given by the bits of its BIT STRING, without the byte that
    /// counts the unused ones.
    pub fn of(key: &[u8]) -> KeyId
        ensures { result.bytes ≡ sha1 key.now }
    {
        KeyId {
            bytes: Sha1::digest(key),
        }
    }

    /// The 40 hex digits of the identifier, in lower case.
    pub fn hex(&self) -> [u8; 40]
        ensures { result ≡ encode_lower self.now.bytes }
    {
        let mut digits = [0; 40];
        let _fits = hex::encode_to_slice(self.bytes, &mut digits);
        digits
    }
}
