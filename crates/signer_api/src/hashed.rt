// Keys and signatures made of hashes, for signers without RSA.
ghost use Rattle.std.specs.Prelude.{◌≡◌, ◌+◌, ◌++◌, ◌≤◌, slice_index, length, take};
ghost use Rattle.signer_api.specs.Hashed as rule;
ghost use Rattle.signer_api.specs.PublicKey.{key_header, key_exponent};

use crate::values::{EXPONENT, HEADER};
use crate::{Digest, PublicKey, Signature};
use sha2::{Digest as Hasher, Sha256};

// Writes a part behind what stands before it.
fn put(bytes: &mut [u8], at: usize, part: &[u8])
    requires { at + length part.now ≤ length bytes.old }
    ensures { take (at + length part.now) bytes.new ≡ take at bytes.old ++ part.now }
{
    bytes[at..at + part.len()].copy_from_slice(part);
}

// Eight digests in a row. Each is of the two parts of the seed and of its own number.
fn eight_blocks(first: &[u8], second: &[u8]) -> [u8; 256]
    ensures { result ≡ rule.blocks (first.now ++ second.now) 8 }
{
    let mut seed = Sha256::new();
    seed.update(first);
    seed.update(second);
    let mut blocks = [0u8; 256];
    for i in 0..8u8 {
        let mut hasher = seed.clone().unwrap();
        hasher.update([i]);
        put(&mut blocks, 32 * usize::from(i), &hasher.finalize());
    }
    blocks
}

// A modulus of these bytes that has its full length and is odd.
fn modulus(mut bytes: [u8; 256]) -> [u8; 256]
    ensures value { result ≡ rule.with_end_bits bytes }
    ensures full { 0x80 ≤ slice_index result 0 }
{
    bytes[0] |= 0x80;
    bytes[255] |= 0x01;
    bytes
}

// A public key's bytes.
fn spelled(modulus: &[u8; 256]) -> [u8; 270]
    ensures { result ≡ key_header ++ modulus.now ++ key_exponent }
{
    let mut bytes = [0u8; 270];
    put(&mut bytes, 0, &HEADER);
    put(&mut bytes, 9, modulus);
    put(&mut bytes, 265, &EXPONENT);
    bytes
}

/// The key of that number.
pub(crate) fn hashed_key(start: &[u8; 32], number: u64) -> PublicKey
    ensures { result.bytes ≡ rule.hashed_key start.now number }
{
    let modulus = modulus(eight_blocks(start, &number.to_be_bytes()));
    PublicKey {
        bytes: spelled(&modulus),
    }
}

/// A key's signature of a digest.
pub(crate) fn hashed_signature(key: &PublicKey, digest: &Digest) -> Signature
    ensures { result.bytes ≡ rule.hashed_signature key.now.bytes digest.now.bytes }
{
    Signature {
        bytes: eight_blocks(&key.bytes, &digest.bytes),
    }
}
