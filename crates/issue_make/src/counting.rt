//! How many signatures an edition takes.

ghost use Rattle.std.specs.Prelude.{◌≡◌, ◌≤◌, map, sum_by};
ghost use Rattle.issue_drafts.specs.Views.{kind_of, draft_of, manifest_of};
ghost use Rattle.issue_make.specs.Trace.{IssuingTrace, made_of, signatures_of};

use issue_drafts::{Draft, DraftKind, ManifestDraft};

/// The signatures of an object: a certificate and a CRL take one, a ROA two.
fn signatures_of(kind: &DraftKind<'_>) -> u64
    ensures value { result ≡ signatures_of (kind_of kind.now) }
    ensures few { result ≤ 2 }
{
    match kind {
        DraftKind::Route { .. } => 2,
        DraftKind::Authority { .. } | DraftKind::Crl => 1,
    }
}

/// The signatures of an edition's objects. A manifest takes two.
pub fn signatures(drafts: &[Draft<'_>], manifests: &[ManifestDraft<'_>]) -> u64
    ensures { (trace : IssuingTrace) → map (λ x. x.draft) trace.objects ≡ map draft_of drafts.now
        → map (λ x. x.draft) trace.listed ≡ map manifest_of manifests.now
        → result ≡ sum_by (λ x. signatures_of x.draft.kind) (made_of trace) }
{
    let mut count = 2 * manifests.len() as u64;
    for draft in drafts {
        count += signatures_of(&draft.kind);
    }
    count
}
