//! The changes of an edition, and the rows of what it puts (RFC 8181 section 2.2).

ghost use Rattle.std.specs.Prelude.{◌≡◌, ◌≢◌, ◌+◌, ◌++◌, ℕ, List, map, length, All, AllPairs, Any, IfOk, OnOk, Some, None};
ghost use Rattle.std.specs.List.{filter_map};
ghost use Rattle.issue_values.specs.Certificates.{IsEditionMoment};
ghost use Rattle.pub_set.specs.Changes.{uri_of, change_at};
ghost use Rattle.pub_set.specs.Objects.{Rise};
ghost use Rattle.issue_drafts.specs.IssueInput.{input_of};
ghost use Rattle.issue_make.specs.Trace.{IssuingTrace, made_of, wanted_at, IsIssued};
ghost use Rattle.issue_make.specs.inner.Putting.{put_by, withdrawal_by, puts_by, contents_of, rows_of, uris_of, IsWhole, IsOf};

use crate::issued::{push_draft_rows, push_manifest_rows};
use crate::standing::{compare, hash_at};
use issue_drafts::{Draft, IssueParts, ManifestDraft};
use issue_sign::Object;
use items::Items;
use key_roll::IssuedRow;
use pub_set::{Change, Content, Uri};
use std::alloc::{AllocError, Global};

/// The drafts of an edition with the serials that they take.
#[derive(Clone, Copy)]
pub struct Numbered<'a> {
    /// By rising URI.
    pub drafts: &'a [Draft<'a>],
    /// One for each of them. A CRL has 0.
    pub given: &'a [u64],
    /// By rising URI.
    pub manifests: &'a [ManifestDraft<'a>],
    /// The serial that comes next under each key.
    pub next: &'a [u64],
}

/// What an edition publishes.
#[derive(Debug, Drop)]
pub struct ChangesWithRows {
    /// By rising URI.
    pub changes: Items<Change>,
    /// The rows of the objects that are put, by rising URI.
    pub issued: Items<IssuedRow>,
}

/// Puts an object at its row's URI, in place of what stands there.
fn put(
    alloc: Global,
    standing: &[IssuedRow],
    row: &IssuedRow,
    bytes: Content,
) -> Result<Change, AllocError>
    requires { Rise (λ row. row.uri) standing.now }
    ensures { IfOk result (λ change. change ≡ put_by standing.now row.now bytes) }
{
    Ok(Change::Put {
        uri: row.uri.copy(alloc)?,
        bytes,
        replaces: hash_at(standing, &row.uri),
    })
}

/// Puts objects at the URIs of their rows.
fn puts(
    alloc: Global,
    standing: &[IssuedRow],
    rows: &[IssuedRow],
    objects: Vec<Object>,
) -> Result<Vec<Change>, AllocError>
    requires standing { Rise (λ row. row.uri) standing.now }
    requires each { length objects.items ≡ length rows.now }
    ensures { IfOk result (λ changes. changes.items ≡ puts_by standing.now rows.now (contents_of objects.items)) }
{
    let mut changes = Vec::with_capacity(alloc, rows.len())?;
    for object in objects {
        let row = &rows[changes.len()];
        changes.push(put(alloc, standing, row, object.bytes)?)?;
    }
    Ok(changes)
}

/// Appends the withdrawal of what stands at each of the URIs.
fn push_withdrawals(
    alloc: Global,
    standing: &[IssuedRow],
    withdrawn: &[Uri],
    changes: &mut Vec<Change>,
) -> Result<(), AllocError>
    requires { Rise (λ row. row.uri) standing.now }
    ensures { OnOk result (changes.new.items ≡ changes.old.items
        ++ filter_map (withdrawal_by standing.now) withdrawn.now) }
{
    for uri in withdrawn {
        if let Some(hash) = hash_at(standing, uri) {
            changes.push(Change::Withdraw {
                uri: uri.copy(alloc)?,
                hash,
            })?;
        }
    }
    Ok(())
}

/// The rows of what is put, in the order of the drafts.
fn rows_of(
    alloc: Global,
    moment: u64,
    numbered: &Numbered<'_>,
    objects: &[Object],
    listed: &[Object],
) -> Result<Vec<IssuedRow>, AllocError>
    requires moment { IsEditionMoment moment }
    requires whole { IsWhole numbered.now (length objects.now) (length listed.now) }
    ensures { IfOk result (λ rows. rows.items ≡ rows_of moment numbered.now objects.now listed.now) }
{
    let mut rows = Vec::with_capacity(alloc, objects.len())?;
    push_draft_rows(
        alloc,
        moment,
        numbered.drafts,
        numbered.given,
        objects,
        &mut rows,
    )?;
    push_manifest_rows(
        alloc,
        moment,
        numbered.manifests,
        numbered.next,
        listed,
        &mut rows,
    )?;
    Ok(rows)
}

/// The changes, puts before withdrawals.
fn changes_of(
    alloc: Global,
    at: &IssueParts<'_>,
    rows: &[IssuedRow],
    objects: Vec<Object>,
) -> Result<Vec<Change>, AllocError>
    requires standing { Rise (λ row. row.uri) at.now.issued.now }
    requires each { length objects.items ≡ length rows.now }
    ensures { IfOk result (λ changes. changes.items
        ≡ puts_by at.now.issued.now rows.now (contents_of objects.items)
        ++ filter_map (withdrawal_by at.now.issued.now) at.now.work.now.withdrawn) }
{
    let mut changes = puts(alloc, at.issued, rows, objects)?;
    push_withdrawals(alloc, at.issued, at.work.withdrawn.as_slice(), &mut changes)?;
    Ok(changes)
}

/// The manifests behind the others, in room for just so many.
fn joined(objects: Vec<Object>, listed: Vec<Object>) -> Result<Vec<Object>, AllocError>
    ensures { IfOk result (λ all. all.items ≡ objects.items ++ listed.items) }
{
    let (mut all, mut listed) = (objects, listed);
    all.reserve_exact(listed.len())?;
    all.append(&mut listed)?;
    Ok(all)
}

/// What an edition publishes: its changes, and the rows of what it puts.
pub fn publish(
    alloc: Global,
    at: &IssueParts<'_>,
    numbered: &Numbered<'_>,
    objects: Vec<Object>,
    listed: Vec<Object>,
) -> Result<ChangesWithRows, AllocError>
    requires moment { IsEditionMoment at.now.work.now.moment }
    requires standing { Rise (λ row. row.uri) at.now.issued.now }
    requires whole { IsWhole numbered.now (length objects.items) (length listed.items) }
    requires once { AllPairs (λ a b. a ≢ b) (uris_of numbered.now ++ at.now.work.now.withdrawn) }

    // By rising URI, at each URI the change that is wanted, of whichever trace these are the objects.
    ensures rising { IfOk result (λ p. Rise uri_of p.changes) }
    ensures changes { IfOk result (λ p. (trace : IssuingTrace)
        → IsOf (input_of at.now) numbered.now objects.items listed.items trace
        → (uri : List ℕ) → change_at p.changes uri ≡ wanted_at (input_of at.now) trace uri) }

    // By rising URI, a row for each object.
    ensures listed { IfOk result (λ p. Rise (λ row. row.uri) p.issued) }
    ensures count { IfOk result (λ p. (trace : IssuingTrace)
        → IsOf (input_of at.now) numbered.now objects.items listed.items trace
        → length p.issued ≡ length (made_of trace)) }
    ensures issued { IfOk result (λ p. (trace : IssuingTrace)
        → IsOf (input_of at.now) numbered.now objects.items listed.items trace
        → All (λ x. Any (IsIssued (input_of at.now) trace x) p.issued) (made_of trace)) }
{
    let mut rows = rows_of(alloc, at.work.moment, numbered, &objects, &listed)?;
    let all = joined(objects, listed)?;
    let mut changes = changes_of(alloc, at, &rows, all)?;
    changes.sort_by(|a, b| compare(a.uri(), b.uri()))?;
    rows.sort_by(|a, b| compare(&a.uri, &b.uri))?;
    Ok(ChangesWithRows {
        changes: Items::new(changes),
        issued: Items::new(rows),
    })
}
