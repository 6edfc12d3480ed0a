//! The hashes that the audit's time is held against.

use crate::maker::{Check, Made};
use pub_set::ObjectSet;
use sha2::{Digest, Sha256};

/// Hashes all objects of the set. The hashes are put together, so that none is left out.
pub fn hash_set(set: &ObjectSet) -> [u8; 32] {
    let mut all = Sha256::new();
    for object in set.as_slice() {
        all.update(Sha256::digest(object.bytes.as_slice()));
    }
    all.finalize()
}

/// Hashes all that is signed.
pub fn hash_signed(made: &Made) -> [u8; 32] {
    let mut all = Sha256::new();
    for part in &made.signed {
        all.update(Sha256::digest(part));
    }
    all.finalize()
}

/// Hashes what the signer hashes to check all signatures.
pub fn hash_checks(made: &Made) -> [u8; 32] {
    let mut all = Sha256::new();
    for check in &made.checks {
        hash_check(&mut all, check);
    }
    all.finalize()
}

// Eight blocks, each of the key, the digest and its own number.
fn hash_check(all: &mut Sha256, check: &Check) {
    let mut seed = Sha256::new();
    seed.update(check.key.bytes);
    seed.update(check.digest.bytes);
    for number in 0..8u8 {
        let mut block = seed.clone().unwrap();
        block.update([number]);
        all.update(block.finalize());
    }
}
