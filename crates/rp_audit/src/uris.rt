//! The places of what an authority publishes (RFC 6481 section 2, RFC 6487 sections 4.8.6 to
//! 4.8.8).

ghost use Rattle.std.specs.Prelude.{◌≡◌, ◌++◌, ◌≤◌, length, IfOk};
ghost use Rattle.std.specs.List.{list_all};
ghost use Rattle.std.specs.String.{string_bytes};
ghost use Rattle.hex.specs.Hex.{encode_lower};
ghost use Rattle.names.specs.Name.{is_name_byte};
ghost use Rattle.cert_obj.specs.Values.{cert_value};
ghost use Rattle.rp_rules.specs.Authorities.{listed_uri, crl_uri_of, certificate_uri_of, manifest_in_folder, is_authority_name, between, is_folder};
ghost use Rattle.rp_rules.specs.Certificates.{has_issuer_uris, has_anchor_uris, has_authority_uris};
ghost use Rattle.rp_audit.specs.inner.Views.{authority_value};

use crate::authority::Authority;
use crate::bytes::{is_same, joined};
use cert_obj::Cert;
use key_ids::{KeyId, Site};
use names::ANCHOR;
use std::alloc::{AllocError, Global};

/// A file of that name in an authority's folder.
pub fn listed_uri(alloc: Global, authority: &Authority, name: &str) -> Result<String, AllocError>
    ensures { IfOk result (λ uri. string_bytes uri ≡ listed_uri (authority_value authority.now) name.now) }
{
    joined(alloc, authority.cert.uris.folder.as_str(), name)
}

/// A key's file of that extension in a folder.
fn key_file(alloc: Global, folder: &str, id: &KeyId, extension: &str) -> Result<String, AllocError>
    ensures { IfOk result (λ uri. string_bytes uri ≡ folder.now ++ encode_lower id.now.bytes ++ extension.now) }
{
    let mut text = String::new(alloc);
    text.push_str(folder)?;
    text.push_str(hex::encode(alloc, id.bytes)?.as_str())?;
    text.push_str(extension)?;
    Ok(text)
}

/// The place of an authority's CRL.
pub fn crl_uri_of(alloc: Global, authority: &Authority) -> Result<String, AllocError>
    ensures { IfOk result (λ uri. string_bytes uri ≡ crl_uri_of (authority_value authority.now)) }
{
    key_file(
        alloc,
        authority.cert.uris.folder.as_str(),
        &authority.id,
        ".crl",
    )
}

/// The place of the certificate of a key that an authority issues.
fn certificate_uri_of(
    alloc: Global,
    authority: &Authority,
    cert: &Cert,
) -> Result<String, AllocError>
    ensures { IfOk result (λ uri. string_bytes uri
        ≡ certificate_uri_of (authority_value authority.now) (cert_value cert.now)) }
{
    let id = KeyId::of(&cert.key.bytes);
    key_file(alloc, authority.cert.uris.folder.as_str(), &id, ".cer")
}

/// The place of a key's manifest in a folder.
fn manifest_in_folder(alloc: Global, folder: &str, cert: &Cert) -> Result<String, AllocError>
    ensures { IfOk result (λ uri. string_bytes uri ≡ manifest_in_folder folder.now (cert_value cert.now)) }
{
    let id = KeyId::of(&cert.key.bytes);
    key_file(alloc, folder, &id, ".mft")
}

/// The places of the issuer's CRL and certificate (RFC 6487 sections 4.8.6 and 4.8.7).
pub fn has_issuer_uris(alloc: Global, issuer: &Authority, cert: &Cert) -> Result<bool, AllocError>
    ensures { IfOk result (λ yes. yes ≡ has_issuer_uris (authority_value issuer.now) (cert_value cert.now)) }
{
    let crl = crl_uri_of(alloc, issuer)?;
    Ok(
        is_same(cert.uris.crl.as_str(), crl.as_str())
            && is_same(cert.uris.issuer.as_str(), issuer.uri.as_str()),
    )
}

/// What is left without so many bytes in front and so many at the end.
fn between(front: usize, back: usize, text: &[u8]) -> &[u8]
    requires { front ≤ length text.now }
    ensures { result.now ≡ between front back text.now }
{
    let rest = &text[front..];
    &rest[..rest.len().saturating_sub(back)]
}

fn is_authority_name(text: &[u8]) -> bool
    ensures { result ≡ is_authority_name text.now }
{
    0 < text.len() && text.len() <= 64 && are_name_bytes(text)
}

fn are_name_bytes(text: &[u8]) -> bool
    ensures { result ≡ list_all is_name_byte text.now }
{
    text.iter().all(|byte| is_name_byte(*byte))
}

fn is_name_byte(byte: u8) -> bool
    ensures { result ≡ is_name_byte byte }
{
    byte.is_ascii_alphanumeric() || byte == b'-' || byte == b'_'
}

/// The base, a name, and `/0/`.
fn is_folder(site: &Site, uri: &str) -> bool
    ensures { result ≡ is_folder site.now uri.now }
{
    let text = uri.as_bytes();
    let base = site.rsync().as_bytes();
    text.starts_with(base)
        && text.ends_with(b"/0/")
        && is_authority_name(between(base.len(), 3, text))
}

/// The places that the anchor's certificate names (RFC 6487 section 4.8.8.1).
pub fn has_anchor_uris(alloc: Global, site: &Site, cert: &Cert) -> Result<bool, AllocError>
    ensures { IfOk result (λ yes. yes ≡ has_anchor_uris site.now (cert_value cert.now)) }
{
    let folder = site.folder(alloc, ANCHOR)?;
    let manifest = manifest_in_folder(alloc, folder.as_str(), cert)?;
    let notify = site.notify_uri(alloc)?;
    Ok(
        is_same(cert.uris.folder.as_str(), folder.as_str())
            && is_same(cert.uris.manifest.as_str(), manifest.as_str())
            && is_same(cert.uris.notify.as_str(), notify.as_str()),
    )
}

/// The place of an authority's certificate, and those that it names (RFC 6487 section 4.8.8.1).
pub fn has_authority_uris(
    alloc: Global,
    site: &Site,
    issuer: &Authority,
    uri: &str,
    cert: &Cert,
) -> Result<bool, AllocError>
    ensures { IfOk result (λ yes. yes
        ≡ has_authority_uris site.now (authority_value issuer.now) uri.now (cert_value cert.now)) }
{
    let issued = has_issuer_uris(alloc, issuer, cert)?;
    let own = certificate_uri_of(alloc, issuer, cert)?;
    let manifest = manifest_in_folder(alloc, cert.uris.folder.as_str(), cert)?;
    let notify = site.notify_uri(alloc)?;
    Ok(
        issued
            && is_same(uri, own.as_str())
            && is_folder(site, cert.uris.folder.as_str())
            && is_same(cert.uris.manifest.as_str(), manifest.as_str())
            && is_same(cert.uris.notify.as_str(), notify.as_str()),
    )
}
