//! The objects that stand beside the ROAs: certificates, CRLs and manifests, a few for each key.

ghost use Rattle.std.specs.Prelude.{◌≡◌, map, IfOk};
ghost use Rattle.issue_plan.specs.inner.Beside as spec;

use key_roll::{IssuedRow, What};
use std::alloc::{AllocError, Global};

fn is_roa(what: &What) -> bool
    ensures { result ≡ spec.is_roa what.now }
{
    matches!(what, What::Route { .. })
}

/// The objects that are no ROAs, in their order.
pub fn beside_roas(alloc: Global, issued: &[IssuedRow]) -> Result<Vec<&IssuedRow>, AllocError>
    ensures { IfOk result (λ beside. map (λ row. row.now) beside.items ≡ spec.beside_roas issued.now) }
{
    let mut beside = Vec::new(alloc);
    for row in issued {
        if !is_roa(&row.what) {
            beside.push(row)?;
        }
    }
    Ok(beside)
}
