// Keys, digests and signatures, as bytes of fixed lengths.
ghost use Rattle.std.specs.Prelude.{◌≡◌, ◌↔◌, IsSome, IfSome, length};
ghost use Rattle.sha2.specs.Sha256.{sha256};
ghost use Rattle.signer_api.specs.PublicKey.{IsPublicKey};

use sha2::{Digest as Hasher, Sha256};

// A SEQUENCE of 266 bytes, an INTEGER of 257 bytes, and the zero in front of the modulus.
pub(crate) const HEADER: [u8; 9] = [0x30, 0x82, 0x01, 0x0a, 0x02, 0x82, 0x01, 0x01, 0x00];

// The INTEGER 65,537.
pub(crate) const EXPONENT: [u8; 5] = [0x02, 0x03, 0x01, 0x00, 0x01];

/// An RSA public key with a modulus of 2,048 bits and the exponent 65,537, spelled as RFC 8017,
/// appendix A.1.1, says and RFC 7935, section 3, allows.
#[derive(Clone, Copy, Debug, PartialEq, Eq)]
pub struct PublicKey {
    pub bytes: [u8; 270],
    pub ghost spelled: { IsPublicKey bytes },
}

impl PublicKey {
    /// The key that is spelled by the bytes, if there is one.
    pub fn read(bytes: &[u8]) -> Option<PublicKey>
        ensures found { IsSome result ↔ IsPublicKey bytes.now }
        ensures value { IfSome result (λ key. key.bytes ≡ bytes.now) }
    {
        let bytes = <[u8; 270]>::try_from(bytes).ok()?;
        let (header, rest) = bytes.split_at(9);
        let (modulus, exponent) = rest.split_at(256);
        if header == HEADER.as_slice() && modulus[0] >= 0x80 && exponent == EXPONENT.as_slice() {
            Some(PublicKey { bytes })
        } else {
            None
        }
    }
}

/// A signature by such a key (RSASSA-PKCS1-v1_5 over SHA-256, RFC 7935 section 2).
#[derive(Clone, Copy, Debug, PartialEq, Eq)]
pub struct Signature {
    pub bytes: [u8; 256],
}

/// The SHA-256 of what is signed (RFC 7935 section 2).
#[derive(Clone, Copy, Debug, PartialEq, Eq)]
pub struct Digest {
    pub bytes: [u8; 32],
}

impl Digest {
    /// The digest of bytes that are signed: their SHA-256.
    pub fn of(bytes: &[u8]) -> Digest
        ensures { result.bytes ≡ sha256 bytes.now }
    {
        Digest {
            bytes: Sha256::digest(bytes),
        }
    }
}

/// A key that signed once and is gone, with its one signature.
#[derive(Clone, Copy, Debug, PartialEq, Eq)]
pub struct OneUse {
    pub key: PublicKey,
    pub signature: Signature,
}
