//! When an object is to be issued again.

ghost use Rattle.std.specs.Prelude.{◌≡◌};
ghost use Rattle.issue_plan.specs.Due as spec;

use key_roll::{IssuedRow, What};

// How long before its end a certificate or a ROA is issued again: four weeks, in seconds.
const CERTIFICATE_MARGIN: u64 = 2_419_200;

// The same of a CRL or a manifest: eight hours.
const POINT_MARGIN: u64 = 28_800;

fn margin_of(what: &What) -> u64
    ensures { result ≡ spec.margin_of what.now }
{
    match what {
        What::Authority { .. } | What::Route { .. } => CERTIFICATE_MARGIN,
        What::Point => POINT_MARGIN,
    }
}

/// Whether what is left of the object's time at the moment is at most its margin: four weeks for
/// certificates and ROAs, eight hours for CRLs and manifests. `moment` is in seconds since 1970.
pub fn is_due(moment: u64, row: &IssuedRow) -> bool
    ensures { result ≡ spec.is_due moment row.now }
{
    row.not_after.saturating_sub(moment) <= margin_of(&row.what)
}
