//! What an audit looks at.

ghost use Rattle.std.specs.Prelude.{◌≡◌};
ghost use Rattle.rp_rules.specs.declared.rules.Rule.TheVariants as rule;
ghost use Rattle.rp_rules.specs.Checks.{found};
ghost use Rattle.rp_rules.specs.Certificates.{lies_in, listed_bytes};
ghost use Rattle.payloads.specs.ManifestFormats.{file_view};
ghost use Rattle.rp_audit.specs.inner.Told.{Tells};
ghost use Rattle.rp_audit.specs.inner.Views.{held_in};

use crate::bytes::are_same;
use crate::refusal::{AuditRefused, refusal};
use key_ids::Site;
use payloads::ListedFile;
use pub_set::ObjectSet;
use rp_rules::Rule;
use sha2::{Digest as Hasher, Sha256};
use signer_api::PublicKey;
use std::alloc::Global;

/// A set, the site that it is of, the anchor's key, and the moment.
#[derive(Clone, Copy)]
pub struct Scene<'a> {
    pub set: &'a ObjectSet,
    pub site: &'a Site,
    pub anchor: &'a PublicKey,
    /// In seconds since 1970.
    pub moment: u64,
}

/// The bytes of the object at the URI.
pub fn bytes_at<'a>(alloc: Global, scene: &Scene<'a>, uri: &str) -> Result<&'a [u8], AuditRefused>
    ensures { Tells (λ bytes. bytes.now) (found uri.now rule.Missing (held_in scene.now uri.now)) result }
{
    match scene.set.get(uri) {
        Some(bytes) => Ok(bytes),
        None => Err(refusal(alloc, uri, Rule::Missing)),
    }
}

/// The bytes of a listed file, which have the listed hash (RFC 9286 sections 6.4 and 6.5).
pub fn listed_bytes<'a>(
    alloc: Global,
    scene: &Scene<'a>,
    uri: &str,
    file: &ListedFile,
) -> Result<&'a [u8], AuditRefused>
    ensures { Tells (λ bytes. bytes.now) (listed_bytes (held_in scene.now) uri.now (file_view file.now)) result }
{
    let bytes = bytes_at(alloc, scene, uri)?;
    let hash = Sha256::digest(bytes);
    if !are_same(&hash, &file.hash) {
        return Err(refusal(alloc, uri, Rule::Hash));
    }
    Ok(bytes)
}

/// The moment is neither before the first second nor after the last. All three are in seconds since
/// 1970 (RFC 5280 section 4.1.2.5).
pub fn lies_in(moment: u64, first: u64, last: u64) -> bool
    ensures { result ≡ lies_in moment first last }
{
    first <= moment && moment <= last
}
