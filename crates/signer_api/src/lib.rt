//! What signs for the authorities, and the keys, digests and signatures that it deals in (RFC 7935
//! sections 2 and 3).
//!
//! The signers here are for tests and rehearsals: their keys and signatures are made of hashes.
#![tactic(auto)]

mod hashed;
mod memory;
mod rehearsal;
mod signer;
mod values;

pub use memory::MemorySigner;
pub use rehearsal::Rehearsal;
pub use signer::{Signer, SignerStop};
pub use values::{Digest, OneUse, PublicKey, Signature};
