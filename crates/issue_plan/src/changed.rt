//! The keys whose files change, but for their CRLs and manifests.

ghost use Rattle.std.specs.Prelude.{◌≡◌, ◌++◌, ◌∷◌, [], length, IfOk, OnOk};
ghost use Rattle.std.specs.List.{filter_map};
ghost use Rattle.issue_plan.specs.inner.Positions.{unmarked};
ghost use Rattle.issue_plan.specs.inner.Changed as spec;

use crate::keys::is_same_id;
use crate::positions::marks;
use crate::serving::is_point;
use key_ids::KeyId;
use key_roll::{CertWork, IssuedRow, KeyName, RoaWork};
use std::alloc::{AllocError, Global};

// Puts the issuer of a file behind the others, if the file has no mark.
fn push_issuer(changed: &mut Vec<KeyId>, mark: bool, row: &IssuedRow) -> Result<(), AllocError>
    ensures { OnOk result (changed.new.items
        ≡ changed.old.items ++ spec.issuers_of_gone (unmarked (mark ∷ []) (row.now ∷ []))) }
{
    if !mark && !is_point(&row.what) {
        changed.push(row.issuer)?;
    }
    Ok(())
}

// Puts the issuers of the files without a mark behind the others.
fn push_issuers_of_gone(
    changed: &mut Vec<KeyId>,
    issued: &[IssuedRow],
    marks: &[bool],
) -> Result<(), AllocError>
    requires { length marks.now ≡ length issued.now }
    ensures { OnOk result (changed.new.items
        ≡ changed.old.items ++ spec.issuers_of_gone (unmarked marks.now issued.now)) }
{
    for position in 0..issued.len() {
        push_issuer(changed, marks[position], &issued[position])?;
    }
    Ok(())
}

fn live_id(name: &KeyName) -> Option<KeyId>
    ensures { result ≡ spec.live_id name.now }
{
    match name {
        KeyName::Live { id } => Some(*id),
        KeyName::Fresh { .. } => None,
    }
}

// Puts the live keys that issue certificates behind the others.
fn push_issuers_of_certificates(
    changed: &mut Vec<KeyId>,
    certs: &[CertWork],
) -> Result<(), AllocError>
    ensures { OnOk result (changed.new.items
        ≡ changed.old.items ++ filter_map (λ cert. spec.live_id cert.issuer) certs.now) }
{
    for cert in certs {
        if let Some(id) = live_id(&cert.issuer) {
            changed.push(id)?;
        }
    }
    Ok(())
}

// Puts the live keys that issue ROAs behind the others.
fn push_issuers_of_roas(changed: &mut Vec<KeyId>, roas: &[RoaWork]) -> Result<(), AllocError>
    ensures { OnOk result (changed.new.items
        ≡ changed.old.items ++ filter_map (λ roa. spec.live_id roa.issuer) roas.now) }
{
    for roa in roas {
        if let Some(id) = live_id(&roa.issuer) {
            changed.push(id)?;
        }
    }
    Ok(())
}

/// The live keys whose files change: of those a file goes, or is made. `kept` has the positions of
/// the files that stay, `certs` and `roas` are made. A key may be there more than once.
pub fn changed_keys(
    alloc: Global,
    issued: &[IssuedRow],
    kept: &[usize],
    certs: &[CertWork],
    roas: &[RoaWork],
) -> Result<Vec<KeyId>, AllocError>
    ensures { IfOk result (λ changed. spec.AreChanged issued.now kept.now certs.now roas.now changed.items) }
{
    let marks = marks(alloc, issued.len(), kept)?;
    let mut changed = Vec::new(alloc);
    push_issuers_of_gone(&mut changed, issued, &marks)?;
    push_issuers_of_certificates(&mut changed, certs)?;
    push_issuers_of_roas(&mut changed, roas)?;
    Ok(changed)
}

/// Whether the key is one of these.
pub fn has_changed(changed: &[KeyId], id: &KeyId) -> bool
    ensures { result ≡ spec.has_changed changed.now id.now }
{
    changed.iter().any(|other| is_same_id(other, id))
}
