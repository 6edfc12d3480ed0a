//! Which keys get a new CRL and manifest (RFC 9286 section 5.1).

ghost use Rattle.std.specs.Prelude.{◌≡◌, ◌≢◌, All, AllPairs, map, IsPermutation, IfOk};
ghost use Rattle.issue_keys.specs.Keys.{id_of};
ghost use Rattle.issue_drafts.specs.WorkKeys.{Keys};
ghost use Rattle.issue_drafts.specs.IssueInput.{IssueInput as Edition};
ghost use Rattle.issue_drafts.specs.Drafts.{manifests as manifests_of};
ghost use Rattle.issue_drafts.specs.Views.{manifest_of, IsPositioned};
ghost use Rattle.issue_drafts.specs.Revoking.{has_point};

use crate::draft::ManifestDraft;
use key_roll::KeyRow;
use std::alloc::{AllocError, Global};

/// Which keys get a new CRL and manifest: those whose manifests are made.
pub fn points(
    alloc: Global,
    rows: &[KeyRow],
    manifests: &[ManifestDraft<'_>],
) -> Result<Vec<bool>, AllocError>
    requires positioned { All (λ m. IsPositioned rows.now m.issuer) manifests.now }
    requires apart { AllPairs (λ a b. id_of a ≢ id_of b) rows.now }
    ensures { IfOk result (λ points. (s : Edition) (keys : Keys)
        → IsPermutation (manifests_of s keys) (map manifest_of manifests.now)
        → points.items ≡ map (has_point s keys) rows.now) }
{
    let mut points = vec![in alloc; false; rows.len()]?;
    for manifest in manifests {
        points[manifest.issuer.position] = true;
    }
    Ok(points)
}
