//! What is signed next for the objects of an edition, and what comes of it (RFC 5280 sections 4.1.1.3 and 5.1.1.3,
//! RFC 6488 section 2).

ghost use Rattle.std.specs.Prelude.{◌≡◌, None, Some, IfOk};
ghost use Rattle.std.specs.List.{filter_map};
ghost use Rattle.moments.specs.Civil.{IsMoment};
ghost use Rattle.issue_sign.specs.inner.Steps.{asks, signing, job_of};

use crate::object::{Object, SignedContent};
use cms_obj::{HashedContent, ObjectKind};
use key_roll::KeyRow;
use signer_api::Digest;
use signer_ring::SignJob;
use std::alloc::{AllocError, Global};

/// What is signed next for an object, or the object itself, once it is made.
#[derive(Drop)]
pub enum Pending {
    Whole {
        object: Object,
    },
    /// What is signed of a certificate.
    Certificate {
        tbs: Vec<u8>,
    },
    /// What is signed of a CRL.
    Revocations {
        tbs: Vec<u8>,
    },
    /// A content, of which a new key signs the attributes.
    Content {
        kind: ObjectKind,
        content: HashedContent,
    },
    /// A content that was signed, and what is signed of the certificate of its key.
    Entity {
        kind: ObjectKind,
        content: SignedContent,
        tbs: Vec<u8>,
    },
}

/// What is signed next for an object, and the key that issues it.
#[derive(Drop)]
pub struct Step<'a> {
    pub issuer: &'a KeyRow,
    pub pending: Pending,
}

/// What came of it: the object, or a content that waits for the certificate of its key.
#[derive(Drop)]
pub enum Half {
    Made { object: Object },
    Begun { content: SignedContent },
}

impl Pending {
    /// Whether a signer is asked.
    pub fn is_asked(&self) -> bool
        ensures { result ≡ asks self.now }
    {
        !matches!(self, Pending::Whole { .. })
    }
}

impl Step<'_> {
    // A signature of bytes with the issuer's key.
    fn by_issuer(&self, bytes: &[u8]) -> SignJob
        ensures { result ≡ signing self.now.issuer.now bytes.now }
    {
        let (signer, key) = (self.issuer.signer, self.issuer.key);
        let digest = Digest::of(bytes);
        SignJob::Sign {
            signer,
            key,
            digest,
        }
    }

    /// The job of the issuer's signer, if there is one. `moment` is the edition's, in seconds since 1970.
    pub fn job(&self, alloc: Global, moment: u64) -> Result<Option<SignJob>, AllocError>
        requires { IsMoment moment }
        ensures { IfOk result (λ job. job ≡ job_of moment self.now) }
    {
        match &self.pending {
            Pending::Whole { .. } => Ok(None),
            Pending::Certificate { tbs } => Ok(Some(self.by_issuer(tbs))),
            Pending::Revocations { tbs } => Ok(Some(self.by_issuer(tbs))),
            Pending::Entity { tbs, .. } => Ok(Some(self.by_issuer(tbs))),
            Pending::Content { kind, content } => {
                let attributes = cms_obj::hashed_attributes(alloc, *kind, content, moment)?;
                let signer = self.issuer.signer;
                let digest = Digest::of(&attributes);
                Ok(Some(SignJob::Once { signer, digest }))
            }
        }
    }
}

/// The jobs of all signers, in the order of the objects.
pub fn jobs(alloc: Global, moment: u64, steps: &[Step<'_>]) -> Result<Vec<SignJob>, AllocError>
    requires { IsMoment moment }
    ensures { IfOk result (λ jobs. jobs.items ≡ filter_map (job_of moment) steps.now) }
{
    let mut jobs = Vec::with_capacity(alloc, steps.len())?;
    for step in steps {
        if let Some(job) = step.job(alloc, moment)? {
            jobs.push(job)?;
        }
    }
    Ok(jobs)
}
