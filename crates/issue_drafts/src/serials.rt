//! The serials of an edition's certificates and ROAs (RFC 5280 section 4.1.2.2).

ghost use Rattle.std.specs.Prelude.{◌≡◌, ◌≢◌, ◌+◌, ◌<◌, ◌^◌, map, length, slice_get, slice_index, slice_set, All, AllPairs, IfOk, if◌then◌else◌};
ghost use Rattle.pub_set.specs.Objects.{Rise};
ghost use Rattle.issue_keys.specs.Keys.{id_of};
ghost use Rattle.issue_drafts.specs.Drafts.{has_serial, serial_behind};
ghost use Rattle.issue_drafts.specs.Views.{kind_of, draft_of, IsPositioned};
ghost use Rattle.issue_drafts.specs.Serials.{given_serial};

use crate::draft::{Draft, DraftKind};
use key_roll::KeyRow;
use std::alloc::{AllocError, Global};

/// Serials of objects, and those that come next under the keys.
#[derive(Debug, Drop)]
pub struct Serials {
    /// One for each draft. A CRL has 0.
    pub given: Vec<u64>,
    /// One for each key.
    pub next: Vec<u64>,
}

/// The serials that come next under the keys.
fn first_serials(alloc: Global, rows: &[KeyRow]) -> Result<Vec<u64>, AllocError>
    ensures { IfOk result (λ next. next.items ≡ map (λ row. row.next_serial) rows.now) }
{
    rows.iter().map(|row| row.next_serial).collect(alloc)
}

/// Whether an object of that kind takes a serial.
fn has_serial(kind: &DraftKind<'_>) -> bool
    ensures { result ≡ has_serial (kind_of kind.now) }
{
    match kind {
        DraftKind::Authority { .. } | DraftKind::Route { .. } => true,
        DraftKind::Crl => false,
    }
}

/// The serial of a draft, which its key gives.
fn take_serial(next: &mut [u64], draft: &Draft<'_>) -> u64
    requires position { draft.now.issuer.position < length next.old }
    requires room { slice_index next.old draft.now.issuer.position + 1 < 2 ^ 64 }
    ensures given { result ≡ (if has_serial (kind_of draft.now.kind) then slice_index next.old draft.now.issuer.position else 0) }
    ensures next { next.new ≡ (if has_serial (kind_of draft.now.kind)
        then slice_set next.old draft.now.issuer.position (slice_index next.old draft.now.issuer.position + 1) else next.old) }
{
    if !has_serial(&draft.kind) {
        return 0;
    }
    let position = draft.issuer.position;
    let serial = next[position];
    next[position] = serial + 1;
    serial
}

/// Serials for the drafts: for each key from its next one on, by rising URI.
pub fn give_serials(
    alloc: Global,
    rows: &[KeyRow],
    drafts: &[Draft<'_>],
) -> Result<Serials, AllocError>
    requires apart { AllPairs (λ a b. id_of a ≢ id_of b) rows.now }
    requires serials { All (λ row. row.next_serial < 2 ^ 62) rows.now }
    requires positioned { All (λ d. IsPositioned rows.now d.issuer) drafts.now }
    requires rising { Rise (λ d. d.uri) drafts.now }

    // One for each certificate and ROA.
    ensures given { IfOk result (λ serials. serials.given.items
        ≡ map (λ d. given_serial (map draft_of drafts.now) (draft_of d)) drafts.now) }

    // Those behind them, one for each key.
    ensures next { IfOk result (λ serials. serials.next.items ≡ map (serial_behind (map draft_of drafts.now)) rows.now) }
{
    let mut next = first_serials(alloc, rows)?;
    let mut given = Vec::with_capacity(alloc, drafts.len())?;
    for draft in drafts {
        given.push(take_serial(&mut next, draft))?;
    }
    Ok(Serials { given, next })
}
