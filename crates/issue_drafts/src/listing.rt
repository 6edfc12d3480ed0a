//! What the manifests of an edition list (RFC 9286 section 4.2.1).

ghost use Rattle.std.specs.Prelude.{◌≡◌, ◌<◌, ◌++◌, ◌∷◌, [], List, true, length, map, All, IsPermutation, IfOk, OnOk, Some, slice_get, string_bytes};
ghost use Rattle.std.specs.List.{zip, IsDistinct};
ghost use Rattle.std.specs.Str.{bytes_eq};
ghost use Rattle.der.specs.Forms.{AreAll};
ghost use Rattle.pub_set.specs.Objects.{Rise};
ghost use Rattle.payloads.specs.Order.{rises};
ghost use Rattle.payloads.specs.ManifestFormats.{IsFile, is_name_below, file_view};
ghost use Rattle.issue_values.specs.Bodies.{AreListed};
ghost use Rattle.issue_drafts.specs.IssueInput.{input_of};
ghost use Rattle.issue_drafts.specs.Drafts.{Draft as Put};
ghost use Rattle.issue_drafts.specs.Views.{draft_of, manifest_of};
ghost use Rattle.issue_drafts.specs.Touching.{AreTouched};
ghost use Rattle.issue_drafts.specs.Tables.{IsTable};
ghost use Rattle.issue_drafts.specs.inner.Positions.{items_at, AreInside};
ghost use Rattle.issue_drafts.specs.Files.{name_in, names_of, folder_at, kept_file, made_file, kept_files, made_files, AreMerged, IsListable, AreListable};

use crate::draft::{Draft, ManifestDraft};
use crate::holdings::{kept_rows, made_index};
use crate::issue_parts::IssueParts;
use crate::key_publishers::name_of;
use crate::touching::Touched;
use issue_keys::KeyPosition;
use items::Items;
use key_roll::{IssuedRow, KeyRow};
use payloads::ListedFile;
use std::alloc::{AllocError, Global};

/// The name of a file of the folder.
fn name_in<'a>(folder: &str, uri: &'a str) -> &'a str
    requires { IsListable folder.now uri.now }
    ensures { result.now ≡ name_in folder.now uri.now }
{
    uri.strip_prefix(folder).unwrap()
}

/// Appends a file of the folder.
fn push_file(
    alloc: Global,
    files: &mut Vec<ListedFile>,
    folder: &str,
    uri: &str,
    hash: &[u8; 32],
) -> Result<(), AllocError>
    requires { IsListable folder.now uri.now }
    ensures files { OnOk result (map file_view files.new.items
        ≡ map file_view files.old.items ++ (name_in folder.now uri.now, hash.now) ∷ []) }
    ensures is { OnOk result (IsFile (name_in folder.now uri.now, hash.now)) }
{
    files.push(ListedFile {
        name: String::from_str(alloc, name_in(folder, uri))?,
        hash: *hash,
    })?;
    Ok(())
}

/// Appends files that stay.
fn push_kept(
    alloc: Global,
    files: &mut Vec<ListedFile>,
    folder: &str,
    rows: &[&IssuedRow],
) -> Result<(), AllocError>
    requires { All (λ row. IsListable folder.now row.uri) (map (λ row. row.now) rows.now) }
    ensures files { OnOk result (map file_view files.new.items ≡ map file_view files.old.items
        ++ map (kept_file folder.now) (map (λ row. row.now) rows.now)) }
    ensures are { OnOk result (AreAll IsFile (map (kept_file folder.now) (map (λ row. row.now) rows.now))) }
{
    for row in rows {
        push_file(alloc, files, folder, row.uri.as_str(), &row.hash)?;
    }
    Ok(())
}

/// The hash at a position.
fn hash_at(hashes: &[[u8; 32]], position: usize) -> &[u8; 32]
    requires { position < length hashes.now }
    ensures { slice_get hashes.now position ≡ Some result.now }
{
    &hashes[position]
}

/// Appends files that are made.
fn push_made(
    alloc: Global,
    files: &mut Vec<ListedFile>,
    folder: &str,
    drafts: &[Draft<'_>],
    hashes: &[[u8; 32]],
    positions: &[KeyPosition],
) -> Result<(), AllocError>
    requires each { length hashes.now ≡ length drafts.now }
    requires inside { AreInside (zip (map draft_of drafts.now) hashes.now) positions.now }
    requires listable { All (λ m. IsListable folder.now m.0.uri)
        (items_at (zip (map draft_of drafts.now) hashes.now) positions.now) }
    ensures files { OnOk result (map file_view files.new.items ≡ map file_view files.old.items
        ++ map (made_file folder.now) (items_at (zip (map draft_of drafts.now) hashes.now) positions.now)) }
    ensures are { OnOk result (AreAll IsFile (map (made_file folder.now)
        (items_at (zip (map draft_of drafts.now) hashes.now) positions.now))) }
{
    for entry in positions {
        let draft = &drafts[entry.position];
        let hash = hash_at(hashes, entry.position);
        push_file(alloc, files, folder, draft.uri.as_str(), hash)?;
    }
    Ok(())
}

/// Files by their names, which are apart.
fn by_name(files: Vec<ListedFile>) -> Result<Vec<ListedFile>, AllocError>
    requires { IsDistinct bytes_eq (names_of (map file_view files.items)) }
    ensures permutation { IfOk result (λ sorted. IsPermutation (map file_view files.items) (map file_view sorted.items)) }
    ensures rising { IfOk result (λ sorted. rises is_name_below (names_of (map file_view sorted.items)) ≡ true) }
{
    let mut sorted = files;
    sorted.sort_by(|a, b| a.name.as_str().cmp(b.name.as_str()))?;
    Ok(sorted)
}

/// The files of a folder: those that stay and those that are made, by rising name.
fn merged(
    alloc: Global,
    folder: &str,
    kept: &[&IssuedRow],
    drafts: &[Draft<'_>],
    hashes: &[[u8; 32]],
    made: &[KeyPosition],
) -> Result<Vec<ListedFile>, AllocError>
    requires each { length hashes.now ≡ length drafts.now }
    requires kept_listable { All (λ row. IsListable folder.now row.uri) (map (λ row. row.now) kept.now) }
    requires made_inside { AreInside (zip (map draft_of drafts.now) hashes.now) made.now }
    requires made_listable { All (λ m. IsListable folder.now m.0.uri)
        (items_at (zip (map draft_of drafts.now) hashes.now) made.now) }
    requires apart { IsDistinct bytes_eq (names_of (map (kept_file folder.now) (map (λ row. row.now) kept.now)
        ++ map (made_file folder.now) (items_at (zip (map draft_of drafts.now) hashes.now) made.now))) }
    ensures merged { IfOk result (λ files. AreMerged (map (kept_file folder.now) (map (λ row. row.now) kept.now))
        (map (made_file folder.now) (items_at (zip (map draft_of drafts.now) hashes.now) made.now))
        (map file_view files.items)) }
    ensures are { IfOk result (λ files. AreAll IsFile (map file_view files.items)) }
{
    let mut files = Vec::new(alloc);
    push_kept(alloc, &mut files, folder, kept)?;
    push_made(alloc, &mut files, folder, drafts, hashes, made)?;
    by_name(files)
}

/// The folder of a key's authority.
fn folder_of(alloc: Global, at: &IssueParts<'_>, key: &KeyRow) -> Result<String, AllocError>
    requires { key.now.desk < length at.now.names.now }
    ensures { IfOk result (λ folder. string_bytes folder ≡ folder_at (input_of at.now) key.now) }
{
    let name = name_of(at.names, key.desk);
    at.site.folder(alloc, name.as_str())
}

/// The files of each manifest, in the order of the manifests: the objects of its key that stay and those that are
/// made, by rising name. The hashes are those of the objects that are made, in the order of their drafts.
pub fn files(
    alloc: Global,
    at: &IssueParts<'_>,
    drafts: &[Draft<'_>],
    hashes: &[[u8; 32]],
    manifests: &[ManifestDraft<'_>],
    touched: &Touched,
) -> Result<Vec<Items<ListedFile>>, AllocError>
    requires each { length hashes.now ≡ length drafts.now }
    requires names { All (λ m. m.issuer.row.now.desk < length at.now.names.now) manifests.now }
    requires standing { Rise (λ row. row.uri) at.now.issued.now }
    requires rising { Rise (λ d. d.uri) (map draft_of drafts.now) }
    requires touched { AreTouched (input_of at.now)
        (map draft_of drafts.now ++ map manifest_of manifests.now) touched.now }
    requires listable { All (λ m. AreListable (input_of at.now)
        (map draft_of drafts.now ++ map manifest_of manifests.now) (map draft_of drafts.now) m.issuer.row.now)
        manifests.now }
    ensures lists { IfOk result (λ lists. (puts : List Put) → AreTouched (input_of at.now) puts touched.now
        → IsTable (λ key list. AreMerged (kept_files (input_of at.now) puts key)
        (made_files (input_of at.now) key (zip (map draft_of drafts.now) hashes.now)) list)
        (map (λ m. m.issuer.row.now) manifests.now) (map (map file_view) lists.items)) }
    ensures listed { IfOk result (λ lists. All (λ list. AreListed (map file_view list)) lists.items) }
{
    let made = made_index(alloc, drafts, at.site)?;
    let mut lists = Vec::with_capacity(alloc, manifests.len())?;
    for manifest in manifests {
        let id = &manifest.issuer.id;
        let folder = folder_of(alloc, at, manifest.issuer.row)?;
        let path = folder.as_str();
        let stay = kept_rows(alloc, at.issued, path, id, touched, at.site)?;
        let come = made.positions(id);
        let list = merged(alloc, path, &stay, drafts, hashes, come)?;
        lists.push(Items::new(list))?;
    }
    Ok(lists)
}
