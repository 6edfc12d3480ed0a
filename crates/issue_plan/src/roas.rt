//! The ROAs of owed origins (RFC 9582 section 4), and which of them have to be made.

ghost use Rattle.std.specs.Prelude.{◌≡◌, ◌++◌, ◌∷◌, [], true, filter, is_none, slice_get, option_map, option_and_then, IfOk, OnOk};
ghost use Rattle.std.specs.List.{filter_map, cons_option};
ghost use Rattle.pub_set.specs.Objects.{Rise};
ghost use Rattle.issue_plan.specs.Wanted.{roa_by, wanted_roas};
ghost use Rattle.issue_plan.specs.Serves.{serves_roa};
ghost use Rattle.issue_plan.specs.inner.Live.{live_at};
ghost use Rattle.issue_plan.specs.inner.Positions.{serving_at};
ghost use Rattle.issue_plan.specs.inner.Anew as spec;
ghost use Rattle.issue_plan.specs.inner.OwedPlaces.{owed_position, owed_positions, IsIssuer, IsServing, AreStaying};

use crate::anew::{Standing, kept_roa};
use crate::keys::NextKey;
use crate::live::{LiveKey, live_at};
use crate::lookups::name_at;
use crate::serving::serves_roa;
use crate::wanted::current_of;
use entitle::Owed;
use key_roll::{IssuedRow, KeyName, RoaWork};
use std::alloc::{AllocError, Global};

/// The current key of a desk, and the settled key that it is.
#[derive(Clone, Copy)]
pub struct Issuer<'a> {
    /// Numbered from 0.
    pub desk: u32,
    pub name: Option<KeyName>,
    pub key: Option<&'a LiveKey>,
}

// The settled key of a name that there may be.
fn key_named<'a>(settled: &'a [LiveKey], name: &Option<KeyName>) -> Option<&'a LiveKey>
    ensures { option_map (λ key. key.now) result ≡ option_and_then (live_at settled.now) name.now }
{
    match name {
        Some(name) => live_at(settled, name),
        None => None,
    }
}

/// Who issues the ROAs of a desk's authority.
pub fn issuer_at<'a>(keys: &[NextKey], settled: &'a [LiveKey], desk: u32) -> Issuer<'a>
    ensures issuer { IsIssuer keys.now settled.now result }
    ensures desk { result.desk ≡ desk }
{
    let name = current_of(keys, desk as usize);
    let key = key_named(settled, &name);
    Issuer { desk, name, key }
}

// The same issuer, if it is that of the desk, or else the one that is.
fn issuer_for<'a>(
    keys: &[NextKey],
    settled: &'a [LiveKey],
    issuer: Issuer<'a>,
    desk: u32,
) -> Issuer<'a>
    requires { IsIssuer keys.now settled.now issuer }
    ensures issuer { IsIssuer keys.now settled.now result }
    ensures desk { result.desk ≡ desk }
{
    if issuer.desk == desk {
        issuer
    } else {
        issuer_at(keys, settled, desk)
    }
}

/// Whether the row is known to serve for the ROA of an owed origin, which its own desk's settled key issues.
pub fn serves_owed(moment: u64, issuer: &Issuer<'_>, owed: &Owed, row: &IssuedRow) -> bool
    ensures { result ≡ true → IsServing moment issuer.now owed.now row.now }
{
    let Some(name) = issuer.name else {
        return false;
    };
    let Some(key) = issuer.key else {
        return false;
    };
    let roa = RoaWork {
        issuer: name,
        origin: owed.origin,
    };
    key.desk == owed.desk && serves_roa(moment, &roa, row)
}

// The position, if what stands there serves for the ROA.
fn serving_at(standing: &Standing<'_>, roa: &RoaWork, position: Option<usize>) -> Option<usize>
    ensures { result ≡ option_and_then (λ p. serving_at (serves_roa standing.now.moment roa.now) p
        (slice_get standing.now.issued.now p)) position }
{
    let position = position?;
    match standing.issued.get(position) {
        Some(row) if serves_roa(standing.moment, roa, row) => Some(position),
        _ => None,
    }
}

// The position of what fits the owed origin's ROA, where it is found what stands at its place.
fn kept_owed(
    alloc: Global,
    standing: &Standing<'_>,
    settled: &[LiveKey],
    key: Option<&LiveKey>,
    roa: &RoaWork,
    owed: &Owed,
    found: Option<usize>,
) -> Result<Option<usize>, AllocError>
    requires rising { Rise (λ row. row.uri) standing.now.issued.now }
    requires key { option_map (λ key. key.now) key ≡ live_at settled.now roa.now.issuer }
    requires origin { roa.now.origin ≡ owed.now.origin }
    requires found { found ≡ owed_position standing.now owed.now }
    ensures { IfOk result (λ kept. kept ≡ spec.kept_roa standing.now settled.now roa.now) }
{
    let Some(key) = key else {
        return Ok(None);
    };
    if key.desk != owed.desk {
        return kept_roa(alloc, standing, settled, roa);
    }
    match name_at(standing.names, owed.desk) {
        Some(_) => Ok(serving_at(standing, roa, found)),
        None => kept_roa(alloc, standing, settled, roa),
    }
}

// The ROA that is wanted of an owed origin, if its desk has a current key.
fn wanted_of(issuer: &Issuer<'_>, owed: &Owed) -> Option<RoaWork>
    ensures { result ≡ roa_by owed.now issuer.now.name }
{
    Some(RoaWork {
        issuer: issuer.name?,
        origin: owed.origin,
    })
}

// Puts a ROA behind those that are made, or the position of what fits it behind those of what stays.
fn sort_roa(
    roa: RoaWork,
    position: Option<usize>,
    anew: &mut Vec<RoaWork>,
    kept: &mut Vec<usize>,
) -> Result<(), AllocError>
    ensures anew { OnOk result (anew.new.items
        ≡ anew.old.items ++ filter (λ _. is_none position) (roa ∷ [])) }
    ensures kept { OnOk result (kept.new.items ≡ kept.old.items ++ cons_option position []) }
{
    match position {
        Some(position) => Ok(kept.push(position)?),
        None => Ok(anew.push(roa)?),
    }
}

// Sorts the ROA that is wanted of an owed origin.
fn sort_owed(
    alloc: Global,
    standing: &Standing<'_>,
    settled: &[LiveKey],
    issuer: &Issuer<'_>,
    owed: &Owed,
    found: Option<usize>,
    anew: &mut Vec<RoaWork>,
    kept: &mut Vec<usize>,
) -> Result<(), AllocError>
    requires rising { Rise (λ row. row.uri) standing.now.issued.now }
    requires key { option_map (λ key. key.now) issuer.now.key ≡ option_and_then (live_at settled.now) issuer.now.name }
    requires found { found ≡ owed_position standing.now owed.now }
    ensures anew { OnOk result (anew.new.items ≡ anew.old.items
        ++ filter (λ roa. is_none (spec.kept_roa standing.now settled.now roa))
        (cons_option (roa_by owed.now issuer.now.name) [])) }
    ensures kept { OnOk result (kept.new.items ≡ kept.old.items
        ++ filter_map (spec.kept_roa standing.now settled.now) (cons_option (roa_by owed.now issuer.now.name) [])) }
{
    let Some(roa) = wanted_of(issuer, owed) else {
        return Ok(());
    };
    let position = kept_owed(alloc, standing, settled, issuer.key, &roa, owed, found)?;
    sort_roa(roa, position, anew, kept)
}

// Puts the position that there may be behind the others.
fn push_kept(position: Option<usize>, kept: &mut Vec<usize>) -> Result<(), AllocError>
    ensures { OnOk result (kept.new.items ≡ kept.old.items ++ cons_option position []) }
{
    match position {
        Some(position) => Ok(kept.push(position)?),
        None => Ok(()),
    }
}

/// The ROAs of owed origins that nothing fits. The positions of what fits the others go behind `kept`. `settled` has the
/// keys that are settled, `found` for each owed origin the position of what stands at its place, and `stay` a mark where
/// that is known to fit: then it isn't looked at.
pub fn roas_anew(
    alloc: Global,
    standing: &Standing<'_>,
    settled: &[LiveKey],
    keys: &[NextKey],
    owed: &[Owed],
    found: &[Option<usize>],
    stay: &[bool],
    kept: &mut Vec<usize>,
) -> Result<Vec<RoaWork>, AllocError>
    requires rising { Rise (λ row. row.uri) standing.now.issued.now }
    requires found { found.now ≡ owed_positions standing.now owed.now }
    requires stay { AreStaying standing.now keys.now settled.now owed.now stay.now }
    ensures anew { IfOk result (λ anew. anew.items
        ≡ filter (λ roa. is_none (spec.kept_roa standing.now settled.now roa)) (wanted_roas keys.now owed.now)) }
    ensures kept { OnOk result (kept.new.items
        ≡ kept.old.items ++ filter_map (spec.kept_roa standing.now settled.now) (wanted_roas keys.now owed.now)) }
{
    let mut anew = Vec::new(alloc);
    let mut issuer = issuer_at(keys, settled, 0);
    for index in 0..owed.len() {
        if stay[index] {
            push_kept(found[index], kept)?;
            continue;
        }
        let each = &owed[index];
        issuer = issuer_for(keys, settled, issuer, each.desk);
        sort_owed(
            alloc,
            standing,
            settled,
            &issuer,
            each,
            found[index],
            &mut anew,
            kept,
        )?;
    }
    Ok(anew)
}
