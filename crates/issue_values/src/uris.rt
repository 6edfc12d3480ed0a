//! The URIs of certificates (RFC 6487 sections 4.8.6 to 4.8.8).

ghost use Rattle.std.specs.Prelude.{◌≡◌, ℕ, true, IfOk, string_bytes, List, [], length};
ghost use Rattle.der.specs.Grammar.{AreBytes};
ghost use Rattle.cert_obj.specs.Values.{is_uri, uris_value};
ghost use Rattle.key_ids.specs.Base.{IsBase, rsync_scheme, https_scheme};
ghost use Rattle.key_ids.specs.Uris.{anchor_uri, cert_uri, folder_of, notify_uri};
ghost use Rattle.names.specs.Name.{IsName};
ghost use Rattle.issue_values.specs.Publishers.{CanPublish, publishing, crl_of, manifest_of, roa_uri};
ghost use Rattle.origins.specs.declared.Origin.{Origin};

use crate::publishers::Publisher;
use cert_obj::CertUris;
use key_ids::Site;
use names::Name;
use std::alloc::{AllocError, Global};

/// What the type says: the bases of a site.
fn are_bases(site: &Site)
    ensures rsync { IsBase rsync_scheme site.now.rsync }
    ensures rrdp { IsBase https_scheme site.now.rrdp }
{
    let _rsync = site.rsync();
    let _rrdp = site.rrdp();
}

/// What the type says: a name.
fn is_name(name: &Name)
    ensures { IsName name.now }
{
    let _bytes = name.as_bytes();
}

/// What the type says: bytes are below 2 ^ 8.
fn are_bytes(bytes: &[u8])
    ensures { AreBytes bytes.now }
{}

/// What the type says: an identifier is 20 bytes.
pub fn is_identifier(id: &[u8; 20])
    ensures length { length id.now ≡ 20 }
    ensures bytes { AreBytes id.now }
{
    are_bytes(id)
}

/// What the types say of a key, and of the site at which it publishes. It does nothing.
pub fn can_publish(site: &Site, publisher: &Publisher)
    ensures { CanPublish site.now (publishing publisher.now) }
{
    are_bases(site);
    is_name(&publisher.name);
    is_identifier(&publisher.id.bytes);
}

/// What the type of a site says: certificates can name the anchor's certificate there, and the
/// certificates and the ROAs in the folder of each name that an authority can have. It does nothing.
pub fn can_be_named(site: &Site)
    ensures anchor { is_uri (anchor_uri site.now) ≡ true }
    ensures certificate { (name key : List ℕ) → IsName name → is_uri (cert_uri site.now name key) ≡ true }
    ensures roa { (name : List ℕ) (origin : Origin) → IsName name → is_uri (roa_uri site.now name origin) ≡ true }
{
    are_bases(site);
}

/// The URIs of the trust anchor's certificate (RFC 6487 section 4.8.8.1).
pub fn anchor_uris(alloc: Global, site: &Site, anchor: &Publisher) -> Result<CertUris, AllocError>
    ensures { IfOk result (λ uris. uris_value uris ≡ record {
      crl = [];
      issuer = [];
      folder = folder_of site.now anchor.now.name;
      manifest = manifest_of site.now (publishing anchor.now);
      notify = notify_uri site.now;
      object = [];
    }) }
{
    Ok(CertUris {
        crl: String::new(alloc),
        issuer: String::new(alloc),
        folder: site.folder(alloc, anchor.name.as_str())?,
        manifest: site.manifest_uri(alloc, anchor.name.as_str(), &anchor.id)?,
        notify: site.notify_uri(alloc)?,
        object: String::new(alloc),
    })
}

/// The URIs of another authority's certificate (RFC 6487 sections 4.8.6 to 4.8.8).
pub fn authority_uris(
    alloc: Global,
    site: &Site,
    issuer: &Publisher,
    subject: &Publisher,
) -> Result<CertUris, AllocError>
    ensures { IfOk result (λ uris. uris_value uris ≡ record {
      crl = crl_of site.now (publishing issuer.now);
      issuer = issuer.now.certificate;
      folder = folder_of site.now subject.now.name;
      manifest = manifest_of site.now (publishing subject.now);
      notify = notify_uri site.now;
      object = [];
    }) }
{
    Ok(CertUris {
        crl: site.crl_uri(alloc, issuer.name.as_str(), &issuer.id)?,
        issuer: String::from_str(alloc, issuer.certificate.as_str())?,
        folder: site.folder(alloc, subject.name.as_str())?,
        manifest: site.manifest_uri(alloc, subject.name.as_str(), &subject.id)?,
        notify: site.notify_uri(alloc)?,
        object: String::new(alloc),
    })
}

/// The URIs of the certificate of a key that signs the one object there (RFC 6487 section 4.8.8.2).
pub fn entity_uris(
    alloc: Global,
    site: &Site,
    issuer: &Publisher,
    object: String,
) -> Result<CertUris, AllocError>
    ensures { IfOk result (λ uris. uris_value uris ≡ record {
      crl = crl_of site.now (publishing issuer.now);
      issuer = issuer.now.certificate;
      folder = [];
      manifest = [];
      notify = [];
      object = string_bytes object;
    }) }
{
    Ok(CertUris {
        crl: site.crl_uri(alloc, issuer.name.as_str(), &issuer.id)?,
        issuer: String::from_str(alloc, issuer.certificate.as_str())?,
        folder: String::new(alloc),
        manifest: String::new(alloc),
        notify: String::new(alloc),
        object,
    })
}
