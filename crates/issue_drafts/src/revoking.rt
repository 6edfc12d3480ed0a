//! What the CRLs of an edition list (RFC 5280 section 5.1.2.6).

ghost use Rattle.std.specs.Prelude.{◌≡◌, ◌≤◌, ◌++◌, ◌∷◌, [], List, length, map, filter, All, IfOk, OnOk};
ghost use Rattle.std.specs.List.Sorted.{IsBinarySearchResult, IsSearchInRange};
ghost use Rattle.pub_set.specs.Objects.{uri_cmp, Rise};
ghost use Rattle.issue_keys.specs.Indexes.{IsIndex, key_positions};
ghost use Rattle.issue_drafts.specs.WorkKeys.{Keys, keys_at, Finds};
ghost use Rattle.issue_drafts.specs.IssueInput.{input_of};
ghost use Rattle.issue_drafts.specs.Drafts.{Draft as Put};
ghost use Rattle.key_ids.specs.Uris.{anchor_uri};
ghost use Rattle.issue_values.specs.Bodies.{AreRevoked};
ghost use Rattle.issue_drafts.specs.Firsts.{AreFirsts};
ghost use Rattle.issue_drafts.specs.Revoking.{revoked_row, has_point, candidates};
ghost use Rattle.issue_drafts.specs.Touching.{AreByUri, AreTouched};
ghost use Rattle.issue_drafts.specs.Tables.{IsTable};
ghost use Rattle.issue_drafts.specs.inner.Positions.{items_at, AreInside};
ghost use Rattle.issue_drafts.specs.inner.Entries.{is_counted, counted_key, ended_key, IsLook, cutoff_of, lasts, listed};

use crate::first_entries::first_of_each;
use crate::issue_parts::IssueParts;
use crate::key_finder::KeyFinder;
use crate::placed_keys::key_there;
use crate::touching::Touched;
use issue_keys::{KeyIndex, KeyPosition};
use items::Items;
use key_ids::Site;
use key_roll::{IssuedRow, KeyRow, RevokedRow};
use pub_set::Uri;
use std::alloc::{AllocError, Global};

/// Whether a row is of a certificate that ends where its object is put anew or withdrawn. A CRL has none, and the
/// trust anchor's own isn't counted.
fn is_counted(row: &IssuedRow, anchor: &str) -> bool
    ensures { result ≡ is_counted anchor.now row.now }
{
    row.serial != 0 && row.uri.as_str() != anchor
}

/// Appends the position of a row under the key that issued it, if it is of a certificate that ends.
fn push_counted(
    ended: &mut Vec<KeyPosition>,
    row: &IssuedRow,
    position: usize,
    anchor: &str,
) -> Result<(), AllocError>
    ensures { OnOk result (ended.new.items
        ≡ ended.old.items ++ key_positions position (counted_key anchor.now row.now ∷ [])) }
{
    if is_counted(row, anchor) {
        ended.push(KeyPosition {
            key: row.issuer,
            position,
        })?;
    }
    Ok(())
}

/// Where a URI stands among rows, or else where it would stand.
fn search(rows: &[IssuedRow], uri: &str) -> Result<usize, usize>
    ensures bound { IsSearchInRange result (length rows.now) }
    ensures found { IsBinarySearchResult (λ row. uri_cmp row.uri uri.now) rows.now result }
{
    rows.binary_search_by(|row| row.uri.as_str().cmp(uri))
}

/// Looks for a URI that is touched among the rows from that position on, and appends the position of its row, if
/// that is of a certificate that ends. Answers from where the next URI is looked for.
fn push_at(
    ended: &mut Vec<KeyPosition>,
    issued: &[IssuedRow],
    from: usize,
    uri: &str,
    anchor: &str,
) -> Result<usize, AllocError>
    requires { from ≤ length issued.now }
    ensures { IfOk result (λ next.
        IsLook anchor.now uri.now issued.now from next ended.old.items ended.new.items) }
{
    let rest = &issued[from..];
    match search(rest, uri) {
        Ok(at) => {
            push_counted(ended, &rest[at], from + at, anchor)?;
            Ok(from + at + 1)
        }
        Err(at) => Ok(from + at),
    }
}

/// The positions of the certificates that end, under the keys that issued them. Each URI that is touched is looked
/// for by halving.
fn ended_positions(
    alloc: Global,
    issued: &[IssuedRow],
    uris: &[Uri],
    anchor: &str,
) -> Result<Vec<KeyPosition>, AllocError>
    requires standing { Rise (λ row. row.uri) issued.now }
    requires rising { AreByUri uris.now }
    ensures { IfOk result (λ ended. key_positions 0 (map (ended_key anchor.now uris.now) issued.now) ≡ ended.items) }
{
    let mut ended = Vec::new(alloc);
    let mut from = 0;
    for uri in uris {
        from = push_at(&mut ended, issued, from, uri.as_str(), anchor)?;
    }
    Ok(ended)
}

/// The positions of the certificates that end, under the keys that issued them.
fn superseded(
    alloc: Global,
    issued: &[IssuedRow],
    touched: &Touched,
    site: &Site,
) -> Result<KeyIndex, AllocError>
    requires { Rise (λ row. row.uri) issued.now }
    ensures { IfOk result (IsIndex (map (ended_key (anchor_uri site.now) touched.now) issued.now)) }
{
    let anchor = site.anchor_uri(alloc)?;
    let ended = ended_positions(alloc, issued, touched.uris(), anchor.as_str())?;
    let index = KeyIndex::new(ended)?;
    Ok(index)
}

/// Appends an entry, unless its certificate ended before that moment.
fn push_lasting(all: &mut Vec<RevokedRow>, row: RevokedRow, cutoff: u64) -> Result<(), AllocError>
    ensures { OnOk result (all.new.items ≡ all.old.items ++ filter (lasts cutoff) (row ∷ [])) }
{
    if row.not_after >= cutoff {
        all.push(row)?;
    }
    Ok(())
}

/// Appends those entries that stand.
fn push_standing(
    all: &mut Vec<RevokedRow>,
    revoked: &[RevokedRow],
    cutoff: u64,
) -> Result<(), AllocError>
    ensures { OnOk result (all.new.items ≡ all.old.items ++ filter (lasts cutoff) revoked.now) }
{
    for row in revoked {
        push_lasting(all, *row, cutoff)?;
    }
    Ok(())
}

/// The entry of a certificate that ends at that moment.
fn entry_of(row: &IssuedRow, moment: u64) -> RevokedRow
    ensures { result ≡ revoked_row moment row.now }
{
    RevokedRow {
        serial: row.serial,
        not_after: row.not_after,
        revoked_at: moment,
    }
}

/// Appends the entries of certificates that end.
fn push_ended(
    all: &mut Vec<RevokedRow>,
    issued: &[IssuedRow],
    ended: &[KeyPosition],
    cutoff: u64,
    moment: u64,
) -> Result<(), AllocError>
    requires { AreInside issued.now ended.now }
    ensures { OnOk result (all.new.items ≡ all.old.items
        ++ filter (lasts cutoff) (map (revoked_row moment) (items_at issued.now ended.now))) }
{
    for entry in ended {
        push_lasting(all, entry_of(&issued[entry.position], moment), cutoff)?;
    }
    Ok(())
}

/// The moment before which a certificate has to have ended so that its entry is left out: that of the key's previous
/// CRL, if it gets a new one.
fn cutoff_of(key: &KeyRow, has_point: bool) -> u64
    ensures { result ≡ cutoff_of key.now has_point }
{
    if has_point { key.this_update } else { 0 }
}

/// The entries of a key after the edition, by rising serial: those that stand, and the certificates that end,
/// without those that ended before the key's previous CRL, if it gets a new one. Of two with one serial the first
/// stays.
fn key_entries(
    alloc: Global,
    key: &KeyRow,
    has_point: bool,
    issued: &[IssuedRow],
    ended: &[KeyPosition],
    moment: u64,
) -> Result<Vec<RevokedRow>, AllocError>
    requires { AreInside issued.now ended.now }
    ensures { IfOk result (λ entries.
        AreFirsts (listed moment key.now has_point (items_at issued.now ended.now)) entries.items) }
{
    let cutoff = cutoff_of(key, has_point);
    let mut all = Vec::new(alloc);
    push_standing(&mut all, key.revoked.as_slice(), cutoff)?;
    push_ended(&mut all, issued, ended, cutoff, moment)?;
    first_of_each(all)
}

/// The entries of each key's CRL after the edition, in the order of the keys. Each list is as long as the CRL, or
/// as what a CRL would have had.
pub fn entries(
    alloc: Global,
    at: &IssueParts<'_>,
    rows: &[KeyRow],
    finder: &KeyFinder,
    points: &[bool],
    touched: &Touched,
) -> Result<Vec<Items<RevokedRow>>, AllocError>
    requires finds { Finds (keys_at rows.now finder.now.first_fresh) finder.now }
    requires standing { Rise (λ row. row.uri) at.now.issued.now }
    requires points { length points.now ≡ length rows.now }
    ensures firsts { IfOk result (λ lists. (keys : Keys) (puts : List Put)
        → AreTouched (input_of at.now) puts touched.now
        → points.now ≡ map (has_point (input_of at.now) keys) rows.now
        → IsTable (λ key entries. AreFirsts (candidates (input_of at.now) keys puts key) entries)
        rows.now lists.items) }
    ensures revoked { IfOk result (λ lists. 946_684_800 ≤ at.now.work.now.moment
        → All (λ row. AreRevoked at.now.work.now.moment row.revoked) rows.now
        → All (AreRevoked at.now.work.now.moment) lists.items) }
{
    let ended = superseded(alloc, at.issued, touched, at.site)?;
    let moment = at.work.moment;
    let mut lists = Vec::with_capacity(alloc, rows.len())?;
    for (position, row) in rows.iter().enumerate() {
        let key = key_there(rows, finder, position);
        let positions = ended.positions(&key.id);
        let entries = key_entries(alloc, row, points[position], at.issued, positions, moment)?;
        lists.push(Items::new(entries))?;
    }
    Ok(lists)
}
