//! The work of an edition (RFC 6481 section 2, RFC 6489 section 2).

ghost use Rattle.std.specs.Prelude.{◌≡◌, ◌++◌, ◌∷◌, [], filter, not, true, IfOk, OnOk};
ghost use Rattle.std.specs.List.{filter_map, flat_map};
ghost use Rattle.entitle.specs.Certified.{settings_of};
ghost use Rattle.entitle.specs.Owed.{AreOwed};
ghost use Rattle.pub_set.specs.Objects.{Rise};
ghost use Rattle.issue_plan.specs.Work as spec;
ghost use Rattle.issue_plan.specs.Work.{IsPlan};
ghost use Rattle.issue_plan.specs.Wanted.{PlanInput, wanted_roas};
ghost use Rattle.issue_plan.specs.inner.OwedPlaces.{owed_positions};
ghost use Rattle.issue_plan.specs.ByName.{StandByName};
ghost use Rattle.issue_plan.specs.Fits.{all_certificates, all_roas};
ghost use Rattle.issue_plan.specs.inner.Anew.{IsOver};
ghost use Rattle.issue_plan.specs.inner.Works.{IsAnew};

use crate::anew::{Standing, certificates_anew, points_anew};
use crate::beside::beside_roas;
use crate::changed::changed_keys;
use crate::keys::{NextKey, is_live, next_keys};
use crate::live::{LiveKey, live_keys};
use crate::lookups::set_at;
use crate::owed_places::owed_positions;
use crate::requests::revoked;
use crate::roas::roas_anew;
use crate::settled::settled_keys;
use crate::uris::{key_places, withdrawn};
use crate::wanted::{certificates, points};
use authority_book::Config;
use entitle::{Owed, Tree, names_of};
use items::Items;
use key_ids::{KeyId, Site};
use key_roll::{
    CertWork, Issued, IssuedRow, KeyName, KeyRow, NewKey, PointWork, RoaWork, RoleWork, Work,
};
use std::alloc::{AllocError, Global};

fn new_key_of(key: &NextKey) -> Option<NewKey>
    ensures { result ≡ spec.new_key_of key.now }
{
    match key.name {
        KeyName::Fresh { desk } => Some(NewKey {
            desk,
            signer: key.signer,
            role: key.role,
            since: key.since,
            done: key.done,
        }),
        KeyName::Live { .. } => None,
    }
}

// The keys to make.
fn new_keys(alloc: Global, keys: &[NextKey]) -> Result<Vec<NewKey>, AllocError>
    ensures { IfOk result (λ new. new.items ≡ filter_map spec.new_key_of keys.now) }
{
    keys.iter().filter_map(|key| new_key_of(key)).collect(alloc)
}

fn role_of(key: &NextKey) -> Option<RoleWork>
    ensures { result ≡ spec.role_of key.now }
{
    match key.name {
        KeyName::Live { id } if key.is_changed => Some(RoleWork {
            key: id,
            role: key.role,
            since: key.since,
            done: key.done,
        }),
        _ => None,
    }
}

// The live keys that go on otherwise than before.
fn roles(alloc: Global, keys: &[NextKey]) -> Result<Vec<RoleWork>, AllocError>
    ensures { IfOk result (λ roles. roles.items ≡ filter_map spec.role_of keys.now) }
{
    keys.iter().filter_map(|key| role_of(key)).collect(alloc)
}

fn goes_on(keys: &[NextKey], id: &KeyId) -> bool
    ensures { result ≡ spec.goes_on keys.now id.now }
{
    keys.iter().any(|key| is_live(id, &key.name))
}

// The live key, which ends. An authority of the tree asks its parent to revoke its certificate.
fn ended(alloc: Global, live: &[LiveKey], tree: &Tree, key: &LiveKey) -> Result<KeyId, AllocError>
    ensures { IfOk result (λ id. id ≡ key.now.id) }
{
    match set_at(tree, key.desk) {
        Some(set) => revoked(alloc, live, set, key),
        None => Ok(key.id),
    }
}

// Puts the live key behind the others, if it ends.
fn push_ended(
    alloc: Global,
    keys: &[NextKey],
    live: &[LiveKey],
    tree: &Tree,
    key: &LiveKey,
    dropped: &mut Vec<KeyId>,
) -> Result<(), AllocError>
    ensures { OnOk result (dropped.new.items
        ≡ dropped.old.items ++ filter (λ id. not (spec.goes_on keys.now id)) (key.now.id ∷ [])) }
{
    if !goes_on(keys, &key.id) {
        dropped.push(ended(alloc, live, tree, key)?)?;
    }
    Ok(())
}

// The live keys that end.
fn dropped(
    alloc: Global,
    keys: &[NextKey],
    live: &[LiveKey],
    tree: &Tree,
) -> Result<Vec<KeyId>, AllocError>
    ensures { IfOk result (λ dropped. dropped.items
        ≡ flat_map (λ key. filter (λ id. not (spec.goes_on keys.now id)) (key.id ∷ [])) live.now) }
{
    let mut dropped = Vec::new(alloc);
    for key in live {
        push_ended(alloc, keys, live, tree, key, &mut dropped)?;
    }
    Ok(dropped)
}

// The certificates, ROAs and points that nothing fits.
#[derive(Drop)]
struct Unfit {
    certs: Vec<CertWork>,
    roas: Vec<RoaWork>,
    points: Vec<PointWork>,
    // For each owed origin the position of what stands at its place.
    found: Vec<Option<usize>>,
}

// Of what is wanted, that which nothing fits.
fn anew(
    alloc: Global,
    standing: &Standing<'_>,
    certs: Vec<CertWork>,
    keys: &[NextKey],
    owed: &[Owed],
    by_name: bool,
    points: &[PointWork],
) -> Result<Unfit, AllocError>
    requires rising { Rise (λ row. row.uri) standing.now.issued.now }
    requires stand { by_name ≡ true → StandByName standing.now.site.now standing.now.issued.now }
    ensures found { IfOk result (λ anew. anew.found.items ≡ owed_positions standing.now owed.now) }
    ensures anew { IfOk result (λ anew. (plan_input : PlanInput) → IsOver plan_input standing.now
        → certs.items ≡ all_certificates plan_input → wanted_roas keys.now owed.now ≡ all_roas plan_input
        → IsAnew plan_input points.now anew) }
{
    let mut kept = Vec::with_capacity(alloc, owed.len())?;
    let settled = settled_keys(alloc, standing, &certs)?;
    let settled: &[LiveKey] = &settled;
    let certs = certificates_anew(alloc, standing, settled, certs, &mut kept)?;
    let found = owed_positions(alloc, standing, keys, settled, owed, by_name)?;
    let roas = roas_anew(
        alloc,
        standing,
        settled,
        keys,
        owed,
        &found.positions,
        &found.stay,
        &mut kept,
    )?;
    let changed = changed_keys(alloc, standing.issued, &kept, &certs, &roas)?;
    let points = points_anew(alloc, standing, settled, &changed, points)?;
    Ok(Unfit {
        certs,
        roas,
        points,
        found: found.positions,
    })
}

/// What an edition at the moment makes and withdraws: all that is wanted of these configurations,
/// which stand at the places of their names, and that nothing which stands fits; and what stands and
/// isn't wanted. The tree is what these
/// configurations are certified for, and the origins are those that they are owed.
///
/// Keys and points are in the order of the desks and of the roles, ROAs in that of the desks and of
/// the origins, what is withdrawn and the keys that end in that in which they are given.
///
/// Of what stands before the edition `rows` has the live keys, and `issued` the objects by rising URI. `configs` has
/// the desks' configurations in the order of the desks, the trust anchor's first, `tree` a set for
/// each name, and `owed` the origins with their desks. `site` is where all of it is published, and
/// `moment` is in seconds since 1970. `by_name` tells whether it is known that each ROA that stands is
/// at the place of its origin in the folder of some name: then no URI of a ROA is looked at.
pub fn plan(
    alloc: Global,
    rows: &[KeyRow],
    configs: &[Config],
    tree: &Tree,
    owed: &[Owed],
    issued: &Issued,
    site: &Site,
    moment: u64,
    by_name: bool,
) -> Result<Work, AllocError>
    requires owed { AreOwed (settings_of configs.now) owed.now }
    requires rising { Rise (λ row. row.uri) issued.now.rows }
    requires stand { by_name ≡ true → StandByName site.now issued.now.rows }
    ensures { IfOk result (IsPlan
        (record { rows = rows.now; configs = settings_of configs.now; sets = tree.now.sets.items; moment = moment })
        issued.now.rows site.now) }
{
    let names = names_of(configs);
    let keys = next_keys(alloc, rows, names, configs, tree, moment)?;
    let live = live_keys(alloc, rows)?;
    let beside = beside_roas(alloc, issued.rows.as_slice())?;
    let beside: &[&IssuedRow] = &beside;
    let standing = Standing {
        live: &live,
        names,
        issued: issued.rows.as_slice(),
        beside,
        site,
        moment,
    };
    let certs = certificates(alloc, standing.live, configs, tree, &keys)?;
    let anew = anew(
        alloc,
        &standing,
        certs,
        &keys,
        owed,
        by_name,
        &points(alloc, &keys)?,
    )?;
    let wanted = key_places(alloc, site, names, configs, &keys)?;
    Ok(Work {
        moment,
        new_keys: Items::new(new_keys(alloc, &keys)?),
        roles: Items::new(roles(alloc, &keys)?),
        certs: Items::new(anew.certs),
        roas: Items::new(anew.roas),
        points: Items::new(anew.points),
        withdrawn: Items::new(withdrawn(alloc, &wanted, &anew.found, standing.issued)?),
        dropped: Items::new(dropped(alloc, &keys, standing.live, tree)?),
    })
}
