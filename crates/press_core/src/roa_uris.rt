//! The URIs of the ROAs that are owed, and of those that an audit yielded (RFC 6481 section 2.2).

ghost use Rattle.std.specs.Prelude.{◌≡◌, IfOk, OnOk, string_bytes};
ghost use Rattle.std.specs.Option.{option_map};
ghost use Rattle.issue_drafts.specs.Publishers.{name_at};
ghost use Rattle.press_core.specs.inner.Resumed.{RoaPlace, HasUris, AddsUri, IsFirstInOne, IsOtherPlace, owed_place, yielded_place, owed_places, yielded_places};

use authority_book::NameRow;
use entitle::Owed;
use key_ids::Site;
use rp_rules::YieldedOrigin;
use std::alloc::{AllocError, Global};
use std::collections::BTreeSet;

/// The name of a desk's authority, and no text where there is none.
pub fn name_of(names: &[NameRow], desk: u32) -> &str
    ensures { result.now ≡ name_at names.now desk }
{
    match names.get(desk as usize) {
        Some(row) => row.name.as_str(),
        None => "",
    }
}

// Adds the place of what is owed.
fn add_owed(
    alloc: Global,
    uris: &mut BTreeSet<String>,
    site: &Site,
    names: &[NameRow],
    owed: &Owed,
) -> Result<(), AllocError>
    ensures { OnOk result (AddsUri (owed_place site.now names.now owed.now) uris.old uris.new) }
{
    let mut uri = site.folder(alloc, name_of(names, owed.desk))?;
    let file = owed.origin.file_name(alloc)?;
    uri.push_str(file.as_str())?;
    uris.insert(uri)?;
    Ok(())
}

// Adds the place of what is yielded.
fn add_yielded(
    alloc: Global,
    uris: &mut BTreeSet<String>,
    yielded: &YieldedOrigin,
) -> Result<(), AllocError>
    ensures { OnOk result (AddsUri (yielded_place yielded.now) uris.old uris.new) }
{
    let mut uri = String::from_str(alloc, yielded.folder.as_str())?;
    let file = yielded.origin.file_name(alloc)?;
    uri.push_str(file.as_str())?;
    uris.insert(uri)?;
    Ok(())
}

fn owed_uris(
    alloc: Global,
    site: &Site,
    names: &[NameRow],
    owed: &[Owed],
) -> Result<BTreeSet<String>, AllocError>
    ensures { IfOk result (HasUris (owed_places site.now names.now owed.now)) }
{
    let mut uris = BTreeSet::new(alloc);
    for one in owed {
        add_owed(alloc, &mut uris, site, names, one)?;
    }
    Ok(uris)
}

fn yielded_uris(alloc: Global, found: &[YieldedOrigin]) -> Result<BTreeSet<String>, AllocError>
    ensures { IfOk result (HasUris (yielded_places found.now)) }
{
    let mut uris = BTreeSet::new(alloc);
    for one in found {
        add_yielded(alloc, &mut uris, one)?;
    }
    Ok(uris)
}

// The least URI that is in one of the sets alone.
fn first_in_one(
    owed: &BTreeSet<String>,
    yielded: &BTreeSet<String>,
) -> Result<Option<String>, AllocError>
    ensures { IfOk result (λ uri. IsFirstInOne owed.now yielded.now (option_map string_bytes uri)) }
{
    match owed.symmetric_difference(yielded).next() {
        Some(uri) => Ok(Some(uri.clone()?)),
        None => Ok(None),
    }
}

/// The least URI of a ROA that is owed and not yielded, or yielded and not owed. It takes the time of sorting both.
pub fn other_origin(
    alloc: Global,
    site: &Site,
    names: &[NameRow],
    owed: &[Owed],
    yielded: &[YieldedOrigin],
) -> Result<Option<String>, AllocError>
    ensures { IfOk result (λ uri. IsOtherPlace
        (owed_places site.now names.now owed.now) (yielded_places yielded.now) (option_map string_bytes uri)) }
{
    let owed = owed_uris(alloc, site, names, owed)?;
    let yielded = yielded_uris(alloc, yielded)?;
    first_in_one(&owed, &yielded)
}
