//! What signs, and keeps what is made.

use anyhow::{Result, bail};
use cert_obj::Cert;
use pub_set::{Change, Content, ObjectSet, Uri};
use sha2::{Digest as Hasher, Sha256};
use signer_api::{Digest, PublicKey, Rehearsal, Signature, Signer};
use std::alloc::Global;

/// A key and the digest that it signed.
#[derive(Clone, Copy)]
pub struct Check {
    pub key: PublicKey,
    pub digest: Digest,
}

/// A signer, the objects so far, and what was signed in them.
#[derive(Drop)]
pub struct Maker {
    rehearsal: Rehearsal,
    serial: u64,
    changes: Vec<Change>,
    signed: Vec<Vec<u8>>,
    checks: Vec<Check>,
}

impl Maker {
    pub fn new(alloc: Global) -> Maker {
        Maker {
            rehearsal: Rehearsal::new([0; 32]),
            serial: 0,
            changes: Vec::new(alloc),
            signed: Vec::new(alloc),
            checks: Vec::new(alloc),
        }
    }

    /// A key that no other object has.
    pub fn key(&mut self, alloc: Global) -> Result<PublicKey> {
        Ok(self.rehearsal.make_key(alloc)?)
    }

    /// A serial that no other certificate has.
    pub fn serial(&mut self) -> u64 {
        self.serial = self.serial.saturating_add(1);
        self.serial
    }

    /// Signs the bytes, and notes them.
    pub fn sign(&mut self, alloc: Global, key: &PublicKey, bytes: &[u8]) -> Result<Signature> {
        let digest = Digest {
            bytes: Sha256::digest(bytes),
        };
        let signature = self.rehearsal.sign(alloc, key, &digest)?;
        self.checks.push(Check { key: *key, digest })?;
        self.note(alloc, bytes)?;
        Ok(signature)
    }

    /// Notes that the bytes, or their hash, are signed.
    pub fn note(&mut self, alloc: Global, bytes: &[u8]) -> Result<()> {
        let mut copy = Vec::with_capacity(alloc, bytes.len())?;
        copy.extend_from_slice(bytes)?;
        self.signed.push(copy)?;
        Ok(())
    }

    /// The certificate's bytes, signed with the key.
    pub fn certify(&mut self, alloc: Global, key: &PublicKey, cert: &Cert) -> Result<Vec<u8>> {
        if !cert.has_spelling() {
            bail!("no certificate");
        }
        let signed = cert.tbs(alloc)?;
        let signature = self.sign(alloc, key, &signed)?;
        Ok(cert_obj::write(alloc, &signed, &signature)?)
    }

    /// Puts an object there. Its hash.
    pub fn put(&mut self, alloc: Global, uri: String, bytes: Vec<u8>) -> Result<[u8; 32]> {
        let hash = Sha256::digest(&bytes);
        self.changes.push(Change::Put {
            uri: Uri::new(uri),
            bytes: Content::new(alloc, bytes)?,
            replaces: None,
        })?;
        Ok(hash)
    }

    /// The set of all that was put, and what was signed in it.
    pub fn into_made(self, alloc: Global, anchor: PublicKey) -> Result<Made> {
        let mut set = ObjectSet::new(alloc);
        set.query(alloc, "", self.changes)?;
        Ok(Made {
            set,
            anchor,
            signed: self.signed,
            checks: self.checks,
        })
    }
}

/// A set, its anchor's key, what is signed in it, and under which keys.
#[derive(Drop)]
pub struct Made {
    pub set: ObjectSet,
    pub anchor: PublicKey,
    pub signed: Vec<Vec<u8>>,
    pub checks: Vec<Check>,
}
