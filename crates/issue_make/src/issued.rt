//! The rows of what an edition puts.

ghost use Rattle.std.specs.Prelude.{◌≡◌, ◌≤◌, ◌++◌, map, length, slice_index, IfOk, OnOk};
ghost use Rattle.issue_values.specs.Certificates.{IsEditionMoment};
ghost use Rattle.issue_drafts.specs.Views.{kind_of, draft_of, manifest_of};
ghost use Rattle.issue_make.specs.Trace.{life_of};
ghost use Rattle.issue_make.specs.inner.Putting.{what_of, row_of, draft_rows, next_serials, hashes_of, HavePositions};

use issue_drafts::{Draft, DraftKind, ManifestDraft};
use issue_sign::Object;
use issue_values::{CERTIFICATE_LIFE, POINT_LIFE};
use key_roll::{IssuedRow, What};
use std::alloc::{AllocError, Global};

/// What a row says that the object is.
fn what_of(alloc: Global, kind: &DraftKind<'_>) -> Result<What, AllocError>
    ensures { IfOk result (λ what. what ≡ what_of (kind_of kind.now)) }
{
    match kind {
        DraftKind::Authority { subject, held } => Ok(What::Authority {
            key: subject.id(),
            held: held.copy(alloc)?,
        }),
        DraftKind::Route { origin } => Ok(What::Route { origin: *origin }),
        DraftKind::Crl => Ok(What::Point),
    }
}

/// How long an object is valid, in seconds.
fn life_of(kind: &DraftKind<'_>) -> u64
    ensures { result ≡ life_of (kind_of kind.now) }
{
    match kind {
        DraftKind::Authority { .. } | DraftKind::Route { .. } => CERTIFICATE_LIFE,
        DraftKind::Crl => POINT_LIFE,
    }
}

/// The row of an object that is no manifest.
fn draft_row(
    alloc: Global,
    moment: u64,
    draft: &Draft<'_>,
    serial: u64,
    hash: [u8; 32],
) -> Result<IssuedRow, AllocError>
    requires { IsEditionMoment moment }
    ensures { IfOk result (λ row. row ≡ row_of moment (draft_of draft.now) serial hash) }
{
    Ok(IssuedRow {
        uri: draft.uri.copy(alloc)?,
        issuer: draft.issuer.id(),
        serial,
        not_after: moment + life_of(&draft.kind),
        hash,
        what: what_of(alloc, &draft.kind)?,
    })
}

/// The row of a manifest.
fn manifest_row(
    alloc: Global,
    moment: u64,
    draft: &ManifestDraft<'_>,
    serial: u64,
    hash: [u8; 32],
) -> Result<IssuedRow, AllocError>
    requires { IsEditionMoment moment }
    ensures { IfOk result (λ row. row ≡ row_of moment (manifest_of draft.now) serial hash) }
{
    Ok(IssuedRow {
        uri: draft.uri.copy(alloc)?,
        issuer: draft.issuer.id(),
        serial,
        not_after: moment + POINT_LIFE,
        hash,
        what: What::Point,
    })
}

/// Appends the rows of all objects but the manifests. `moment` is that of the edition, in seconds
/// since 1970; `given` has a serial for each draft.
pub fn push_draft_rows(
    alloc: Global,
    moment: u64,
    drafts: &[Draft<'_>],
    given: &[u64],
    objects: &[Object],
    rows: &mut Vec<IssuedRow>,
) -> Result<(), AllocError>
    requires moment { IsEditionMoment moment }
    requires given { length given.now ≡ length drafts.now }
    requires objects { length objects.now ≡ length drafts.now }
    ensures { OnOk result (rows.new.items ≡ rows.old.items
        ++ draft_rows moment (map draft_of drafts.now) given.now (hashes_of objects.now)) }
{
    for (position, draft) in drafts.iter().enumerate() {
        let (serial, hash) = (given[position], objects[position].hash);
        let row = draft_row(alloc, moment, draft, serial, hash)?;
        rows.push(row)?;
    }
    Ok(())
}

/// Appends the rows of manifests. Each has the serial that comes next under its key. `moment` is
/// that of the edition, in seconds since 1970.
pub fn push_manifest_rows(
    alloc: Global,
    moment: u64,
    drafts: &[ManifestDraft<'_>],
    next: &[u64],
    objects: &[Object],
    rows: &mut Vec<IssuedRow>,
) -> Result<(), AllocError>
    requires moment { IsEditionMoment moment }
    requires positions { HavePositions drafts.now next.now }
    requires objects { length objects.now ≡ length drafts.now }
    ensures { OnOk result (rows.new.items ≡ rows.old.items
        ++ draft_rows moment (map manifest_of drafts.now) (next_serials next.now drafts.now) (hashes_of objects.now)) }
{
    for (position, draft) in drafts.iter().enumerate() {
        let serial = next[draft.issuer.position];
        let row = manifest_row(alloc, moment, draft, serial, objects[position].hash)?;
        rows.push(row)?;
    }
    Ok(())
}
