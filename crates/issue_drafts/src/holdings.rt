//! The objects of keys: those that stay, and those that are made, under the keys that issue them.

ghost use Rattle.std.specs.Prelude.{◌≡◌, true, map, filter, All, IfOk};
ghost use Rattle.std.specs.Ordering.{is_lt};
ghost use Rattle.pub_set.specs.Objects.{uri_cmp, Rise};
ghost use Rattle.issue_keys.specs.Indexes.{IsIndex};
ghost use Rattle.issue_drafts.specs.Views.{draft_of};
ghost use Rattle.key_ids.specs.Uris.{anchor_uri};
ghost use Rattle.issue_drafts.specs.inner.Holdings.{stays, is_kept_under, is_inside, made_key};

use crate::draft::Draft;
use crate::touching::Touched;
use issue_keys::{KeyIndex, index_of};
use key_ids::{KeyId, Site};
use key_roll::IssuedRow;
use std::alloc::{AllocError, Global};

/// Whether an object stays: it is neither put nor withdrawn, and another one than the trust anchor's certificate.
fn stays(row: &IssuedRow, touched: &Touched, anchor: &str) -> bool
    ensures { result ≡ stays anchor.now touched.now row.now }
{
    row.uri.as_str() != anchor && !touched.has(row.uri.as_str())
}

/// Whether the key issued the object, and that stays.
fn is_kept(row: &IssuedRow, id: &KeyId, touched: &Touched, anchor: &str) -> bool
    ensures { result ≡ is_kept_under id.now.bytes anchor.now touched.now row.now }
{
    row.issuer.bytes == id.bytes && stays(row, touched, anchor)
}

/// Whether the object's URI comes before that of the folder.
fn is_before(row: &IssuedRow, folder: &str) -> bool
    ensures { result ≡ is_lt (uri_cmp row.now.uri folder.now) }
{
    row.uri.as_str().cmp(folder).is_lt()
}

/// Whether the object lies in the folder.
fn is_inside(row: &IssuedRow, folder: &str) -> bool
    ensures { result ≡ is_inside folder.now row.now }
{
    row.uri.as_str().as_bytes().starts_with(folder.as_bytes())
}

/// The objects in the folder, which stand one behind the other, found by halving.
fn in_folder<'a>(issued: &'a [IssuedRow], folder: &str) -> &'a [IssuedRow]
    requires { Rise (λ row. row.uri) issued.now }
    ensures { result.now ≡ filter (is_inside folder.now) issued.now }
{
    let from = issued.partition_point(|row| is_before(row, folder));
    let rest = &issued[from..];
    let count = rest.partition_point(|row| is_inside(row, folder));
    &rest[..count]
}

/// Those objects that the key issued and that stay.
fn kept_among<'a>(
    alloc: Global,
    rows: &'a [IssuedRow],
    id: &KeyId,
    touched: &Touched,
    anchor: &str,
) -> Result<Vec<&'a IssuedRow>, AllocError>
    ensures { IfOk result (λ kept. map (λ row. row.now) kept.items
        ≡ filter (is_kept_under id.now.bytes anchor.now touched.now) rows.now) }
{
    let mut kept = Vec::new(alloc);
    for row in rows {
        if is_kept(row, id, touched, anchor) {
            kept.push(row)?;
        }
    }
    Ok(kept)
}

/// The objects of the key that stay. They lie in the folder, and only what lies there is looked at.
pub fn kept_rows<'a>(
    alloc: Global,
    issued: &'a [IssuedRow],
    folder: &str,
    id: &KeyId,
    touched: &Touched,
    site: &Site,
) -> Result<Vec<&'a IssuedRow>, AllocError>
    requires standing { Rise (λ row. row.uri) issued.now }
    requires inside { All (λ row. is_kept_under id.now.bytes (anchor_uri site.now) touched.now row ≡ true
        → is_inside folder.now row ≡ true) issued.now }
    ensures { IfOk result (λ kept. map (λ row. row.now) kept.items
        ≡ filter (is_kept_under id.now.bytes (anchor_uri site.now) touched.now) issued.now) }
{
    let anchor = site.anchor_uri(alloc)?;
    let inside = in_folder(issued, folder);
    kept_among(alloc, inside, id, touched, anchor.as_str())
}

/// The key that issues an object, but of the trust anchor's certificate.
fn made_key(draft: &Draft<'_>, anchor: &str) -> Option<KeyId>
    ensures { result ≡ made_key anchor.now (draft_of draft.now) }
{
    if draft.uri.as_str() == anchor {
        None
    } else {
        Some(draft.issuer.id())
    }
}

/// The keys of objects that are made.
fn made_keys(
    alloc: Global,
    drafts: &[Draft<'_>],
    anchor: &str,
) -> Result<Vec<Option<KeyId>>, AllocError>
    ensures { IfOk result (λ keys. keys.items ≡ map (made_key anchor.now) (map draft_of drafts.now)) }
{
    let mut keys = Vec::with_capacity(alloc, drafts.len())?;
    for draft in drafts {
        keys.push(made_key(draft, anchor))?;
    }
    Ok(keys)
}

/// The positions of the objects that are made, under the keys that issue them.
pub fn made_index(alloc: Global, drafts: &[Draft<'_>], site: &Site) -> Result<KeyIndex, AllocError>
    ensures { IfOk result (IsIndex (map (made_key (anchor_uri site.now)) (map draft_of drafts.now))) }
{
    let anchor = site.anchor_uri(alloc)?;
    let keys = made_keys(alloc, drafts, anchor.as_str())?;
    let index = index_of(alloc, &keys)?;
    Ok(index)
}
