//! Where a repository's objects stand (RFC 6481 section 2).

ghost use Rattle.std.specs.Prelude.{◌≡◌, ◌↔◌, ◌⊎◌, ◌++◌, IfOk, IfErr, IsTrue, string_bytes, codes};
ghost use Rattle.hex.specs.Hex.{encode_lower};
ghost use Rattle.key_ids.specs.Base.{IsBase, is_base_byte, rsync_scheme, https_scheme};
ghost use Rattle.key_ids.specs.Refusal.{IsRefusal};
ghost use Rattle.key_ids.specs.Uris.{Bases, folder_of, file_uri, anchor_uri, cert_uri};
ghost use Rattle.key_ids.specs.Uris.{crl_uri, manifest_uri, notify_uri};

use crate::identifier::KeyId;
use std::alloc::{AllocError, Global};
use std::marker::Model;
use thiserror::Error;

/// The bases of a repository: the rsync folder below which its objects stand, and the https folder
/// of its RRDP files. Below the first is an authority's publication point (RFC 6481 section 2.2),
/// and in the second the notification file (RFC 8182 section 3.2).
#[derive(Drop)]
pub struct Site {
    rsync: String,
    rrdp: String,
}

impl Model for Site {
    ghost Value = { Bases };

    ghost view = { λ site. record { rsync = string_bytes site.rsync; rrdp = string_bytes site.rrdp } };

    ghost invariant = { λ site.
        IsBase rsync_scheme (string_bytes site.rsync) × IsBase https_scheme (string_bytes site.rrdp) };
}

/// Why two texts are not the bases of a repository, in the order in which they are tested.
#[derive(Clone, Copy, Debug, PartialEq, Eq, Error)]
pub enum SiteFault {
    #[error("not an rsync base")]
    BadRsync,
    #[error("not an https base")]
    BadRrdp,
    #[error("out of memory")]
    Memory,
}

ghost use Rattle.key_ids.specs.declared.site.SiteFault.TheVariants.{Memory};

impl From<AllocError> for SiteFault {
    ghost from_gives = { λ _ fault. fault ≡ Memory };

    fn from(_: AllocError) -> Self {
        SiteFault::Memory
    }
}

fn is_base_byte(c: u8) -> bool
    ensures { result ≡ is_base_byte c }
{
    c.is_ascii_alphanumeric()
        || c == b'-'
        || c == b'.'
        || c == b'_'
        || c == b'~'
        || c == b'/'
        || c == b':'
}

fn is_base(text: &str, scheme: &str) -> bool
    ensures { IsTrue result ↔ IsBase scheme.now text.now }
{
    let bytes = text.as_bytes();
    12 <= bytes.len()
        && bytes.len() <= 200
        && bytes.starts_with(scheme.as_bytes())
        && bytes.ends_with(b"/")
        && bytes.iter().all(|c| is_base_byte(*c))
}

/// The pieces, one after the other.
fn joined(
    alloc: Global,
    base: &str,
    name: &str,
    middle: &str,
    end: &str,
) -> Result<String, AllocError>
    ensures { IfOk result (λ text. string_bytes text ≡ base.now ++ name.now ++ middle.now ++ end.now) }
{
    let mut text = String::new(alloc);
    text.push_str(base)?;
    text.push_str(name)?;
    text.push_str(middle)?;
    text.push_str(end)?;
    Ok(text)
}

impl Site {
    /// Reads the two bases. Each has 12 to 200 letters, digits and `-._~/:`, begins with `rsync://`
    /// or `https://`, and ends with `/`. Lengths are in bytes. The rsync base is tested first.
    pub fn read(alloc: Global, rsync: &str, rrdp: &str) -> Result<Site, SiteFault>
        ensures site { IfOk result (λ site. site ≡ record { rsync = rsync.now; rrdp = rrdp.now }) }
        ensures bases { IfOk result (λ _. IsBase rsync_scheme rsync.now × IsBase https_scheme rrdp.now) }
        ensures refused { IfErr result (λ fault. IsRefusal rsync.now rrdp.now fault) }
    {
        if !is_base(rsync, "rsync://") {
            return Err(SiteFault::BadRsync);
        }
        if !is_base(rrdp, "https://") {
            return Err(SiteFault::BadRrdp);
        }
        Ok(Site {
            rsync: joined(alloc, rsync, "", "", "")?,
            rrdp: joined(alloc, rrdp, "", "", "")?,
        })
    }

    /// The rsync base.
    pub fn rsync(&self) -> &str
        ensures base { result.now ≡ self.now.rsync }
        ensures form { IsBase rsync_scheme result.now }
    {
        self.rsync.as_str()
    }

    /// The https base.
    pub fn rrdp(&self) -> &str
        ensures base { result.now ≡ self.now.rrdp }
        ensures form { IsBase https_scheme result.now }
    {
        self.rrdp.as_str()
    }

    /// The URI of the trust anchor's certificate (RFC 8630 section 2.2).
    pub fn anchor_uri(&self, alloc: Global) -> Result<String, AllocError>
        ensures { IfOk result (λ uri. string_bytes uri ≡ anchor_uri self.now) }
    {
        joined(alloc, self.rsync.as_str(), "ta.cer", "", "")
    }

    /// The URI of an authority's folder, which ends with `/` (RFC 6487 section 4.8.8.1).
    pub fn folder(&self, alloc: Global, name: &str) -> Result<String, AllocError>
        ensures { IfOk result (λ uri. string_bytes uri ≡ folder_of self.now name.now) }
    {
        joined(alloc, self.rsync.as_str(), name, "/0/", "")
    }

    /// The URI of a file in an authority's folder.
    pub fn file_uri(&self, alloc: Global, name: &str, file: &str) -> Result<String, AllocError>
        ensures { IfOk result (λ uri. string_bytes uri ≡ file_uri self.now name.now file.now) }
    {
        joined(alloc, self.rsync.as_str(), name, "/0/", file)
    }

    /// The URI of a key's file of that extension.
    fn key_uri(
        &self,
        alloc: Global,
        name: &str,
        key: &KeyId,
        extension: &str,
    ) -> Result<String, AllocError>
        ensures { IfOk result (λ uri. string_bytes uri
            ≡ file_uri self.now name.now (encode_lower key.now.bytes ++ extension.now)) }
    {
        let mut uri = self.folder(alloc, name)?;
        uri.push_str(hex::encode(alloc, key.bytes)?.as_str())?;
        uri.push_str(extension)?;
        Ok(uri)
    }

    /// The URI of the certificate of an authority's key, in the folder of its parent (RFC 6487
    /// section 4.8.7).
    pub fn cert_uri(&self, alloc: Global, parent: &str, key: &KeyId) -> Result<String, AllocError>
        ensures { IfOk result (λ uri. string_bytes uri ≡ cert_uri self.now parent.now key.now.bytes) }
    {
        self.key_uri(alloc, parent, key, ".cer")
    }

    /// The URI of a key's CRL (RFC 6487 section 4.8.6).
    pub fn crl_uri(&self, alloc: Global, name: &str, key: &KeyId) -> Result<String, AllocError>
        ensures { IfOk result (λ uri. string_bytes uri ≡ crl_uri self.now name.now key.now.bytes) }
    {
        self.key_uri(alloc, name, key, ".crl")
    }

    /// The URI of a key's manifest (RFC 6487 section 4.8.8.1).
    pub fn manifest_uri(&self, alloc: Global, name: &str, key: &KeyId) -> Result<String, AllocError>
        ensures { IfOk result (λ uri. string_bytes uri ≡ manifest_uri self.now name.now key.now.bytes) }
    {
        self.key_uri(alloc, name, key, ".mft")
    }

    /// The URI of the notification file (RFC 8182 section 3.2).
    pub fn notify_uri(&self, alloc: Global) -> Result<String, AllocError>
        ensures { IfOk result (λ uri. string_bytes uri ≡ notify_uri self.now) }
    {
        joined(alloc, self.rrdp.as_str(), "notification.xml", "", "")
    }
}
