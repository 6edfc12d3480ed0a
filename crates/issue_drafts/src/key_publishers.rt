//! Where the keys of an edition publish (RFC 6481 section 2).

ghost use Rattle.std.specs.Prelude.{◌≡◌, ◌<◌, ◌++◌, ◌∷◌, [], length, map, All, Some, None, IfOk, OnOk, option_map, option_copied, string_bytes};
ghost use Rattle.issue_keys.specs.Indexes.{IsIndex, key_positions};
ghost use Rattle.issue_values.specs.Publishers.{publishing};
ghost use Rattle.issue_drafts.specs.WorkKeys.{key_of, key_named, keys_at, Finds};
ghost use Rattle.issue_drafts.specs.IssueInput.{input_of};
ghost use Rattle.issue_drafts.specs.Publishers.{name_at, made_uri, subject_key, issuer_for, certified_key, standing_for, certificate_of, publishing_of};

use crate::draft::KeyAt;
use crate::issue_parts::IssueParts;
use crate::key_finder::KeyFinder;
use crate::placed_keys::{key_named, key_there};
use authority_book::NameRow;
use issue_keys::{KeyIndex, KeyPosition, index_of};
use issue_values::Publisher;
use key_ids::{KeyId, Site};
use key_roll::{CertWork, IssuedRow, KeyName, KeyRow, What};
use names::Name;
use pub_set::Uri;
use std::alloc::{AllocError, Global};

/// The name of a desk's authority. Desks are numbered from 0.
pub fn name_of(names: &[NameRow], desk: u32) -> Name
    requires { desk < length names.now }
    ensures { result ≡ name_at names.now desk }
{
    names[desk as usize].name
}

/// The URI of a certificate that the work makes.
pub fn made_uri(
    alloc: Global,
    site: &Site,
    names: &[NameRow],
    issuer: &KeyAt<'_>,
    subject: &KeyAt<'_>,
) -> Result<String, AllocError>
    requires { issuer.now.row.now.desk < length names.now }
    ensures { IfOk result (λ uri. string_bytes uri
        ≡ made_uri site.now names.now issuer.now.row.now subject.now.row.now) }
{
    let (by, id) = (issuer.id(), subject.id());
    if by.bytes == id.bytes {
        site.anchor_uri(alloc)
    } else {
        site.cert_uri(alloc, name_of(names, issuer.row.desk).as_str(), &id)
    }
}

/// The identifier of the key that a name stands for.
fn id_named(rows: &[KeyRow], finder: &KeyFinder, name: &KeyName) -> Option<KeyId>
    requires { Finds (keys_at rows.now finder.now.first_fresh) finder.now }
    ensures { result ≡ option_map key_of (key_named (keys_at rows.now finder.now.first_fresh) name.now) }
{
    match key_named(rows, finder, name) {
        Some(key) => Some(key.id()),
        None => None,
    }
}

/// The identifiers of the subjects of certificates that the work makes.
fn subject_keys(
    alloc: Global,
    certs: &[CertWork],
    rows: &[KeyRow],
    finder: &KeyFinder,
) -> Result<Vec<Option<KeyId>>, AllocError>
    requires { Finds (keys_at rows.now finder.now.first_fresh) finder.now }
    ensures { IfOk result (λ keys. keys.items
        ≡ map (subject_key (keys_at rows.now finder.now.first_fresh)) certs.now) }
{
    let mut keys = Vec::with_capacity(alloc, certs.len())?;
    for cert in certs {
        keys.push(id_named(rows, finder, &cert.subject))?;
    }
    Ok(keys)
}

/// The positions of these certificates, by their subjects.
fn made_certificates(
    alloc: Global,
    certs: &[CertWork],
    rows: &[KeyRow],
    finder: &KeyFinder,
) -> Result<KeyIndex, AllocError>
    requires { Finds (keys_at rows.now finder.now.first_fresh) finder.now }
    ensures { IfOk result
        (IsIndex (map (subject_key (keys_at rows.now finder.now.first_fresh)) certs.now)) }
{
    let keys = subject_keys(alloc, certs, rows, finder)?;
    let index = index_of(alloc, &keys)?;
    Ok(index)
}

/// Appends the position of an object under the key that it certifies, if it certifies one.
fn push_certified(
    certified: &mut Vec<KeyPosition>,
    what: &What,
    position: usize,
) -> Result<(), AllocError>
    ensures { OnOk result (certified.new.items
        ≡ certified.old.items ++ key_positions position (certified_key what.now ∷ [])) }
{
    match what {
        What::Authority { key, .. } => certified.push(KeyPosition {
            key: *key,
            position,
        })?,
        What::Route { .. } | What::Point => {}
    }
    Ok(())
}

/// The positions of the certificates that stand, in their order: a few for each authority.
fn certified_positions(alloc: Global, issued: &[IssuedRow]) -> Result<Vec<KeyPosition>, AllocError>
    ensures { IfOk result (λ certified.
        key_positions 0 (map (λ row. certified_key row.what) issued.now) ≡ certified.items) }
{
    let mut certified = Vec::new(alloc);
    for (position, row) in issued.iter().enumerate() {
        push_certified(&mut certified, &row.what, position)?;
    }
    Ok(certified)
}

/// The positions of the certificates that stand, by their subjects.
fn standing_certificates(alloc: Global, issued: &[IssuedRow]) -> Result<KeyIndex, AllocError>
    ensures { IfOk result (IsIndex (map (λ row. certified_key row.what) issued.now)) }
{
    let certified = certified_positions(alloc, issued)?;
    let index = KeyIndex::new(certified)?;
    Ok(index)
}

/// The certificate that stands for a key.
fn standing_for<'a>(issued: &'a [IssuedRow], index: &KeyIndex, key: &KeyAt<'_>) -> Option<&'a str>
    requires { IsIndex (map (λ r. certified_key r.what) issued.now) index.now }
    ensures { option_copied result ≡ standing_for issued.now key.now.row.now }
{
    match index.first(&key.id) {
        Some(position) => Some(issued[position].uri.as_str()),
        None => None,
    }
}

/// The issuer of the certificate that the work makes for a key.
fn issuer_for<'a>(
    certs: &[CertWork],
    rows: &'a [KeyRow],
    finder: &KeyFinder,
    index: &KeyIndex,
    key: &KeyAt<'_>,
) -> Option<KeyAt<'a>>
    requires finds { Finds (keys_at rows.now finder.now.first_fresh) finder.now }
    requires index { IsIndex
        (map (subject_key (keys_at rows.now finder.now.first_fresh)) certs.now) index.now }
    ensures { option_map (λ k. k.row.now) result
        ≡ issuer_for (keys_at rows.now finder.now.first_fresh) certs.now key.now.row.now }
{
    match index.first(&key.id) {
        Some(position) => key_named(rows, finder, &certs[position].issuer),
        None => None,
    }
}

/// Where the certificates of keys stand.
#[derive(Debug, Drop)]
struct Certificates {
    made: KeyIndex,
    standing: KeyIndex,
}

/// The URI of a key's certificate: the trust anchor's, the one that the work makes, or the one that stands.
fn certificate_uri(
    alloc: Global,
    at: &IssueParts<'_>,
    rows: &[KeyRow],
    finder: &KeyFinder,
    certificates: &Certificates,
    key: &KeyAt<'_>,
) -> Result<String, AllocError>
    requires names { All (λ row. row.desk < length at.now.names.now) rows.now }
    requires finds { Finds (keys_at rows.now finder.now.first_fresh) finder.now }
    requires made { IsIndex (map (subject_key (keys_at rows.now finder.now.first_fresh))
        at.now.work.now.certs) certificates.now.made }
    requires standing { IsIndex (map (λ r. certified_key r.what) at.now.issued.now) certificates.now.standing }
    ensures { IfOk result (λ uri. string_bytes uri
        ≡ certificate_of (input_of at.now) (keys_at rows.now finder.now.first_fresh) key.now.row.now) }
{
    if key.row.desk == 0 {
        return at.site.anchor_uri(alloc);
    }
    let certs = at.work.certs.as_slice();
    if let Some(issuer) = issuer_for(certs, rows, finder, &certificates.made, key) {
        return made_uri(alloc, at.site, at.names, &issuer, key);
    }
    match standing_for(at.issued, &certificates.standing, key) {
        Some(uri) => String::from_str(alloc, uri),
        None => at.site.anchor_uri(alloc),
    }
}

/// A key, and where it publishes.
fn publisher(
    alloc: Global,
    at: &IssueParts<'_>,
    rows: &[KeyRow],
    finder: &KeyFinder,
    certificates: &Certificates,
    key: &KeyAt<'_>,
) -> Result<Publisher, AllocError>
    requires names { All (λ row. row.desk < length at.now.names.now) rows.now }
    requires own { key.now.row.now.desk < length at.now.names.now }
    requires finds { Finds (keys_at rows.now finder.now.first_fresh) finder.now }
    requires made { IsIndex (map (subject_key (keys_at rows.now finder.now.first_fresh))
        at.now.work.now.certs) certificates.now.made }
    requires standing { IsIndex (map (λ r. certified_key r.what) at.now.issued.now) certificates.now.standing }
    ensures { IfOk result (λ p. publishing p
        ≡ publishing_of (input_of at.now) (keys_at rows.now finder.now.first_fresh) key.now.row.now) }
{
    let uri = certificate_uri(alloc, at, rows, finder, certificates, key)?;
    let name = name_of(at.names, key.row.desk);
    Ok(Publisher {
        key: key.row.key,
        id: key.id,
        name,
        certificate: Uri::new(uri),
    })
}

/// The keys of an edition, and where they publish.
pub fn publishers(
    alloc: Global,
    at: &IssueParts<'_>,
    rows: &[KeyRow],
    finder: &KeyFinder,
) -> Result<Vec<Publisher>, AllocError>
    requires names { All (λ row. row.desk < length at.now.names.now) rows.now }
    requires finds { Finds (keys_at rows.now finder.now.first_fresh) finder.now }
    ensures { IfOk result (λ publishers. map publishing publishers.items
        ≡ map (publishing_of (input_of at.now) (keys_at rows.now finder.now.first_fresh)) rows.now) }
{
    let certificates = Certificates {
        made: made_certificates(alloc, at.work.certs.as_slice(), rows, finder)?,
        standing: standing_certificates(alloc, at.issued)?,
    };
    let mut publishers = Vec::with_capacity(alloc, rows.len())?;
    for position in 0..rows.len() {
        let key = key_there(rows, finder, position);
        let publisher = publisher(alloc, at, rows, finder, &certificates, &key)?;
        publishers.push(publisher)?;
    }
    Ok(publishers)
}
