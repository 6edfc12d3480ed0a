//! Authorities, and the points that they publish.

use crate::given::{FROM, TO};
use crate::maker::Maker;
use crate::objects::{entity_of, signed_object};
use anyhow::{Result, bail};
use cert_obj::Held;
use cms_obj::ObjectKind;
use crl_obj::{Crl, CrlEntry};
use key_ids::{KeyId, Site};
use payloads::{ListedFile, ManifestBody};
use signer_api::PublicKey;
use std::alloc::Global;
use std::collections::BTreeMap;

/// An authority, and the files of its folder so far with their hashes.
#[derive(Drop)]
pub struct Authority {
    pub name: String,
    pub key: PublicKey,
    pub id: KeyId,
    /// The URI of its certificate.
    pub uri: String,
    files: BTreeMap<String, [u8; 32]>,
}

impl Authority {
    pub fn new(alloc: Global, name: &str, key: PublicKey, uri: String) -> Result<Authority> {
        Ok(Authority {
            name: String::from_str(alloc, name)?,
            key,
            id: KeyId::of(&key.bytes),
            uri,
            files: BTreeMap::new(alloc),
        })
    }

    /// Puts a file into its folder.
    pub fn put(
        &mut self,
        alloc: Global,
        site: &Site,
        maker: &mut Maker,
        name: String,
        bytes: Vec<u8>,
    ) -> Result<()> {
        let uri = site.file_uri(alloc, self.name.as_str(), name.as_str())?;
        let hash = maker.put(alloc, uri, bytes)?;
        self.files.insert(name, hash)?;
        Ok(())
    }

    /// Puts its CRL with so many entries, and its manifest of all files.
    pub fn publish(
        mut self,
        alloc: Global,
        site: &Site,
        maker: &mut Maker,
        revoked: u32,
    ) -> Result<()> {
        let crl = self.crl(alloc, maker, revoked)?;
        let id = hex::encode(alloc, self.id.bytes)?;
        self.put(alloc, site, maker, format!(in alloc; "{id}.crl")?, crl)?;
        let uri = site.manifest_uri(alloc, self.name.as_str(), &self.id)?;
        let cert = entity_of(alloc, site, maker, &self, uri.as_str(), Held::Inherit)?;
        let content = self.manifest(alloc)?;
        let bytes = signed_object(alloc, maker, &self, ObjectKind::Manifest, &cert, &content)?;
        maker.put(alloc, uri, bytes)?;
        Ok(())
    }

    // Its CRL. The serials that it has are no certificate's.
    fn crl(&self, alloc: Global, maker: &mut Maker, revoked: u32) -> Result<Vec<u8>> {
        let mut entries = Vec::new(alloc);
        for number in 0..revoked {
            entries.push(CrlEntry {
                serial: u64::from(number) + (1 << 32),
                revoked_at: FROM,
            })?;
        }
        let crl = Crl {
            issuer: self.id,
            this_update: FROM,
            next_update: TO,
            number: 1,
            entries,
        };
        if !crl.has_spelling() {
            bail!("no CRL");
        }
        let signed = crl.tbs(alloc)?;
        let signature = maker.sign(alloc, &self.key, &signed)?;
        Ok(crl_obj::write(alloc, &signed, &signature)?)
    }

    // What its manifest says.
    fn manifest(&self, alloc: Global) -> Result<Vec<u8>> {
        let mut files = Vec::new(alloc);
        for (name, hash) in &self.files {
            files.push(listed(alloc, name.as_str(), *hash)?)?;
        }
        let body = ManifestBody {
            number: 1,
            this_update: FROM,
            next_update: TO,
            files,
        };
        if !body.has_spelling() {
            bail!("no manifest");
        }
        Ok(body.write(alloc)?)
    }
}

fn listed(alloc: Global, name: &str, hash: [u8; 32]) -> Result<ListedFile> {
    let name = String::from_str(alloc, name)?;
    Ok(ListedFile { name, hash })
}
