//! The URIs that an edition puts or withdraws.

ghost use Rattle.std.specs.Prelude.{◌≡◌, ◌++◌, List, map, IsPermutation, IfOk, OnOk};
ghost use Rattle.issue_drafts.specs.IssueInput.{input_of};
ghost use Rattle.issue_drafts.specs.Drafts.{Draft as Put};
ghost use Rattle.issue_drafts.specs.Views.{draft_of, manifest_of};

use crate::draft::{Draft, ManifestDraft};
use crate::issue_parts::IssueParts;
use pub_set::Uri;
use std::alloc::{AllocError, Global};
use std::marker::Model;

/// The URIs that an edition puts or withdraws, found in logarithmic time.
///
/// Contracts see the list of them, by rising URI.
#[derive(Debug, Drop)]
pub struct Touched {
    uris: Vec<Uri>,
}

impl Model for Touched {
    ghost use Rattle.std.specs.Prelude.{ℕ, List};

    ghost Value = { List (List ℕ) };

    ghost use Rattle.issue_drafts.specs.Touching.{AreByUri};

    ghost view = { λ touched. touched.uris.items };

    ghost invariant = { λ touched. AreByUri touched.uris.items };
}

/// Appends the URIs of objects that are put.
fn push_drafts(alloc: Global, uris: &mut Vec<Uri>, drafts: &[Draft<'_>]) -> Result<(), AllocError>
    ensures { OnOk result (uris.new.items ≡ uris.old.items ++ map (λ d. d.uri) (map draft_of drafts.now)) }
{
    for draft in drafts {
        uris.push(draft.uri.copy(alloc)?)?;
    }
    Ok(())
}

/// Appends the URIs of manifests that are put.
fn push_manifests(
    alloc: Global,
    uris: &mut Vec<Uri>,
    manifests: &[ManifestDraft<'_>],
) -> Result<(), AllocError>
    ensures { OnOk result (uris.new.items ≡ uris.old.items ++ map (λ d. d.uri) (map manifest_of manifests.now)) }
{
    for manifest in manifests {
        uris.push(manifest.uri.copy(alloc)?)?;
    }
    Ok(())
}

/// Appends URIs.
fn push_uris(alloc: Global, uris: &mut Vec<Uri>, more: &[Uri]) -> Result<(), AllocError>
    ensures { OnOk result (uris.new.items ≡ uris.old.items ++ more.now) }
{
    for uri in more {
        uris.push(uri.copy(alloc)?)?;
    }
    Ok(())
}

impl Touched {
    ghost use Rattle.std.specs.Prelude.{◌≡◌, ℕ, List, ◌++◌, map, IsPermutation, IfOk};
    ghost use Rattle.issue_drafts.specs.IssueInput.{input_of};
    ghost use Rattle.issue_drafts.specs.Drafts.{Draft as Put};
    ghost use Rattle.issue_drafts.specs.Views.{draft_of, manifest_of};
    ghost use Rattle.issue_drafts.specs.Touching.{AreByUri, AreTouched, has_uri};

    /// Those of an edition that puts these objects.
    pub fn new(
        alloc: Global,
        at: &IssueParts<'_>,
        drafts: &[Draft<'_>],
        manifests: &[ManifestDraft<'_>],
    ) -> Result<Touched, AllocError>
        ensures { IfOk result (λ touched. (puts : List Put)
            → IsPermutation (map draft_of drafts.now ++ map manifest_of manifests.now) puts
            → AreTouched (input_of at.now) puts touched) }
    {
        let mut uris = Vec::with_capacity(alloc, drafts.len())?;
        push_drafts(alloc, &mut uris, drafts)?;
        push_manifests(alloc, &mut uris, manifests)?;
        push_uris(alloc, &mut uris, at.work.withdrawn.as_slice())?;
        uris.sort_by(|a, b| a.as_str().cmp(b.as_str()))?;
        Ok(Touched { uris })
    }

    /// The URIs themselves.
    pub fn uris(&self) -> &[Uri]
        ensures are { result.now ≡ self.now }
        ensures rising { AreByUri result.now }
    {
        &self.uris
    }

    /// Whether a URI is one of them.
    pub fn has(&self, uri: &str) -> bool
        ensures { result ≡ has_uri uri.now self.now }
    {
        self.uris
            .binary_search_by(|other| other.as_str().cmp(uri))
            .is_ok()
    }
}
