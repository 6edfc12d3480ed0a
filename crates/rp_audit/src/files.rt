//! Files that a manifest lists (RFC 9286 section 4.2).

ghost use Rattle.std.specs.Prelude.{◌≡◌, ◌&&◌, true, length, map, IfOk};
ghost use Rattle.std.specs.List.{filter, list_all};
ghost use Rattle.std.specs.Option.{option_map};
ghost use Rattle.payloads.specs.ManifestFormats.{name_of, file_view, is_rising_manifest};
ghost use Rattle.payloads.specs.ManifestReading.{manifest_view};
ghost use Rattle.rp_rules.specs.Authorities.{listed_uri, manifest_place};
ghost use Rattle.rp_rules.specs.Certificates.{is_among};
ghost use Rattle.rp_rules.specs.Points.{is_certificate_file, is_roa_file, is_crl_file, is_file_in_use, first_of, is_list};
ghost use Rattle.rp_audit.specs.inner.Views.{authority_value};

use crate::authority::Authority;
use crate::bytes::is_same;
use crate::uris::listed_uri;
use payloads::{ListedFile, ManifestBody};
use std::alloc::{AllocError, Global};

pub fn is_certificate_file(file: &ListedFile) -> bool
    ensures { result ≡ is_certificate_file (file_view file.now) }
{
    file.name.as_bytes().ends_with(b".cer")
}

fn is_roa_file(file: &ListedFile) -> bool
    ensures { result ≡ is_roa_file (file_view file.now) }
{
    file.name.as_bytes().ends_with(b".roa")
}

pub fn is_crl_file(file: &ListedFile) -> bool
    ensures { result ≡ is_crl_file (file_view file.now) }
{
    file.name.as_bytes().ends_with(b".crl")
}

fn is_file_in_use(file: &ListedFile) -> bool
    ensures { result ≡ is_file_in_use (file_view file.now) }
{
    is_certificate_file(file) || is_roa_file(file) || is_crl_file(file)
}

/// The CRL that is listed.
pub fn first_crl(files: &[ListedFile]) -> Option<&ListedFile>
    ensures { option_map (λ file. file_view file.now) result ≡ first_of (filter is_crl_file (map file_view files.now)) }
{
    for file in files {
        if is_crl_file(file) {
            return Some(file);
        }
    }
    None
}

fn count_crls(files: &[ListedFile]) -> usize
    ensures { result ≡ length (filter (λ file. is_crl_file (file_view file)) files.now) }
{
    files.iter().filter(|file| is_crl_file(*file)).count()
}

fn are_in_use(files: &[ListedFile]) -> bool
    ensures { result ≡ list_all (λ file. is_file_in_use (file_view file)) files.now }
{
    files.iter().all(|file| is_file_in_use(file))
}

/// Whether an authority's manifest is among the files.
fn lists_itself(
    alloc: Global,
    authority: &Authority,
    files: &[ListedFile],
) -> Result<bool, AllocError>
    ensures { IfOk result (λ yes. yes ≡ is_among
        (map (listed_uri (authority_value authority.now)) (map name_of files.now))
        (manifest_place (authority_value authority.now))) }
{
    for file in files {
        let place = listed_uri(alloc, authority, file.name.as_str())?;
        if is_same(place.as_str(), authority.cert.uris.manifest.as_str()) {
            return Ok(true);
        }
    }
    Ok(false)
}

/// One CRL, each name once, no name of the manifest's own, and files of the three kinds alone (RFC
/// 9286 sections 2 and 4.2.2).
pub fn is_list(
    alloc: Global,
    authority: &Authority,
    body: &ManifestBody,
) -> Result<bool, AllocError>
    // No name of names that rise stands twice.
    requires { is_rising_manifest (manifest_view body.now) ≡ true }
    ensures { IfOk result (λ yes. yes ≡ is_list (authority_value authority.now) (manifest_view body.now)) }
{
    let files = body.files.as_slice();
    let own = lists_itself(alloc, authority, files)?;
    let one = count_crls(files) == 1;
    let used = are_in_use(files);
    Ok(are_all(one, !own, used))
}

fn are_all(one: bool, other: bool, third: bool) -> bool
    ensures { result ≡ (one && other && third) }
{
    one && other && third
}
