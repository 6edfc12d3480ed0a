//! The certificates, CRLs, ROAs and manifests of an edition before they are signed. Objects are of
//! RFC 6487, RFC 5280 section 5, RFC 9582 and RFC 9286.

ghost use Rattle.std.specs.Prelude.{◌≡◌, ◌≢◌, ◌++◌, [], map, All, AllPairs, IfOk, OnOk, IsPermutation};
ghost use Rattle.std.specs.List.{filter_map, cons_option};
ghost use Rattle.pub_set.specs.Objects.{uri_cmp};
ghost use Rattle.issue_drafts.specs.Drafts.{drafts, manifest_draft, manifests, AreOrdered};
ghost use Rattle.issue_drafts.specs.Views.{draft_of, manifest_of, IsPositioned, IsSubjectPositioned, IsDraftPositioned};
ghost use Rattle.issue_drafts.specs.DraftInput.{setting_in, keys_in, CanDraft};

use crate::draft::{Draft, ManifestDraft};
use crate::draft_input::DraftInput;
use crate::work_drafts::{DraftedWork, manifest_draft};
use pub_set::Uri;
use std::alloc::{AllocError, Global};
use std::cmp::Ordering;

/// How two URIs compare.
fn compare(a: &Uri, b: &Uri) -> Ordering
    ensures { result ≡ uri_cmp a.now b.now }
{
    a.as_str().cmp(b.as_str())
}

/// Appends an item, if there is one.
fn push_some<T: Drop>(items: &mut Vec<T>, item: Option<T>) -> Result<(), AllocError>
    ensures { OnOk result (items.new.items ≡ items.old.items ++ cons_option item []) }
{
    if let Some(item) = item {
        items.push(item)?;
    }
    Ok(())
}

/// Appends what is drafted for the work.
fn push_drafts<'a, W: DraftedWork>(
    alloc: Global,
    at: &DraftInput<'a>,
    work: &'a [W],
    drafts: &mut Vec<Draft<'a>>,
) -> Result<(), AllocError>
    requires { CanDraft at.now }
    ensures drafts { OnOk result (map draft_of drafts.new.items
        ≡ map draft_of drafts.old.items ++ filter_map (W.drafted (setting_in at.now) (keys_in at.now)) work.now) }
    ensures positioned { OnOk result (All (IsDraftPositioned at.now.rows.now) drafts.old.items
        → All (IsDraftPositioned at.now.rows.now) drafts.new.items) }
{
    for one in work {
        let draft = one.draft(alloc, at)?;
        push_some(drafts, draft)?;
    }
    Ok(())
}

/// The certificates, CRLs and ROAs of the work.
fn unordered<'a>(alloc: Global, at: &DraftInput<'a>) -> Result<Vec<Draft<'a>>, AllocError>
    requires { CanDraft at.now }
    ensures drafts { IfOk result (λ ds. map draft_of ds.items ≡ drafts (setting_in at.now) (keys_in at.now)) }
    ensures positioned { IfOk result (λ ds. All (IsDraftPositioned at.now.rows.now) ds.items) }
{
    let work = at.input.work;
    let mut drafts = Vec::new(alloc);
    push_drafts(alloc, at, work.certs.as_slice(), &mut drafts)?;
    push_drafts(alloc, at, work.roas.as_slice(), &mut drafts)?;
    push_drafts(alloc, at, work.points.as_slice(), &mut drafts)?;
    Ok(drafts)
}

/// The certificates, CRLs and ROAs of the work, by rising URI.
pub fn drafts<'a>(alloc: Global, at: &DraftInput<'a>) -> Result<Vec<Draft<'a>>, AllocError>
    requires can { CanDraft at.now }
    requires once { AllPairs (λ a b. a ≢ b) (map (λ d. d.uri) (drafts (setting_in at.now) (keys_in at.now))) }
    ensures ordered { IfOk result (λ ds.
        AreOrdered (drafts (setting_in at.now) (keys_in at.now)) (map draft_of ds.items)) }
    ensures issuers { IfOk result (λ ds. All (λ d. IsPositioned at.now.rows.now d.issuer) ds.items) }
    ensures subjects { IfOk result (λ ds. All (λ d. IsSubjectPositioned at.now.rows.now d.kind) ds.items) }
{
    let mut drafts = unordered(alloc, at)?;
    drafts.sort_by(|a, b| compare(&a.uri, &b.uri))?;
    Ok(drafts)
}

/// The manifests of the work.
fn unordered_manifests<'a>(
    alloc: Global,
    at: &DraftInput<'a>,
) -> Result<Vec<ManifestDraft<'a>>, AllocError>
    requires { CanDraft at.now }
    ensures drafts { IfOk result (λ ds. map manifest_of ds.items ≡ manifests (setting_in at.now) (keys_in at.now)) }
    ensures positioned { IfOk result (λ ds. All (λ d. IsPositioned at.now.rows.now d.issuer) ds.items) }
{
    let points = at.input.work.points.as_slice();
    let mut drafts = Vec::with_capacity(alloc, points.len())?;
    for point in points {
        let draft = manifest_draft(alloc, at, point)?;
        push_some(&mut drafts, draft)?;
    }
    Ok(drafts)
}

/// The manifests of the work, by rising URI.
pub fn manifest_drafts<'a>(
    alloc: Global,
    at: &DraftInput<'a>,
) -> Result<Vec<ManifestDraft<'a>>, AllocError>
    requires can { CanDraft at.now }
    requires once { AllPairs (λ a b. a ≢ b) (map (λ d. d.uri) (manifests (setting_in at.now) (keys_in at.now))) }
    ensures ordered { IfOk result (λ ds.
        AreOrdered (manifests (setting_in at.now) (keys_in at.now)) (map manifest_of ds.items)) }
    ensures issuers { IfOk result (λ ds. All (λ d. IsPositioned at.now.rows.now d.issuer) ds.items) }
{
    let mut drafts = unordered_manifests(alloc, at)?;
    drafts.sort_by(|a, b| compare(&a.uri, &b.uri))?;
    Ok(drafts)
}
