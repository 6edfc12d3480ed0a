//! Jobs for signers that work side by side, and their answers.

ghost use Rattle.std.specs.Prelude.{◌≡◌};
ghost use Rattle.signer_ring.specs.Jobs.{asked};

use signer_api::{Digest, OneUse, PublicKey, Signature};

/// What one signer is to sign. Signers are numbered from 0.
#[derive(Clone, Copy, Debug, PartialEq, Eq)]
pub enum SignJob {
    /// A digest, with a key that the signer holds.
    Sign {
        signer: u32,
        key: PublicKey,
        digest: Digest,
    },
    /// A digest, with a new key, which the signer doesn't keep.
    Once {
        signer: u32,
        digest: Digest,
    },
}

impl SignJob {
    /// The number of the signer.
    pub fn signer(&self) -> u32
        ensures { result ≡ asked self.now }
    {
        match self {
            SignJob::Sign { signer, .. } | SignJob::Once { signer, .. } => *signer,
        }
    }
}

/// What a signer answered to a job.
#[derive(Clone, Copy, Debug, PartialEq, Eq)]
pub enum Signed {
    Signature { signature: Signature },
    Once { once: OneUse },
}
