//! The trust anchor's edition: a new key, its certificate of all resources, its ROAs, its CRL and manifest.

ghost use Rattle.std.specs.Prelude.{◌≡◌, ◌≢◌, ◌<◌, ◌∷◌, [], All, length, map, AllPairs, IfOk};
ghost use Rattle.names.specs.Name.{IsName};
ghost use Rattle.issue_values.specs.Certificates.{IsEditionMoment};
ghost use Rattle.issue_values.specs.Publishers.{roa_uri};
ghost use Rattle.issue_drafts.specs.Publishers.{name_at};
ghost use Rattle.test_press.specs.Anchor.{anchor_name, anchor_key, anchor_work, roa_under, unused_row, unused_rows};

use authority_book::NameRow;
use issue_make::{Made, MakeFault, make};
use items::Items;
use key_ids::Site;
use key_roll::{CertWork, Issued, KeyName, KeyRow, NewKey, PointWork, RoaWork, Role, Work};
use origins::Origin;
use res_sets::Resources;
use signer_api::{PublicKey, Signer};
use signer_ring::Ring;
use std::alloc::{AllocError, Global};
use std::thread::Threads;

fn none<T>(alloc: Global) -> Items<T>
    ensures { result ≡ [] }
{
    Items::new(Vec::new(alloc))
}

fn one<T: Drop>(alloc: Global, item: T) -> Result<Items<T>, AllocError>
    ensures { IfOk result (λ items. items ≡ item ∷ []) }
{
    let mut items = Vec::new(alloc);
    items.push(item)?;
    Ok(Items::new(items))
}

/// The key that is made.
fn fresh() -> KeyName
    ensures { result ≡ anchor_name }
{
    KeyName::Fresh { desk: 0 }
}

fn new_key() -> NewKey
    ensures { result ≡ anchor_key }
{
    NewKey {
        desk: 0,
        signer: 0,
        role: Role::Current,
        since: 0,
        done: 0,
    }
}

fn roas(alloc: Global, origins: &[Origin]) -> Result<Items<RoaWork>, AllocError>
    ensures { IfOk result (λ roas. roas ≡ map roa_under origins.now) }
{
    let mut roas = Vec::with_capacity(alloc, origins.len())?;
    for origin in origins {
        roas.push(RoaWork {
            issuer: fresh(),
            origin: *origin,
        })?;
    }
    Ok(Items::new(roas))
}

/// The work of the edition with these ROAs.
fn anchor_work(
    alloc: Global,
    moment: u64,
    held: Resources,
    origins: &[Origin],
) -> Result<Work, AllocError>
    ensures { IfOk result (λ work. work ≡ anchor_work moment held origins.now) }
{
    Ok(Work {
        moment,
        new_keys: one(alloc, new_key())?,
        roles: none(alloc),
        certs: one(
            alloc,
            CertWork {
                subject: fresh(),
                issuer: fresh(),
                held,
            },
        )?,
        roas: roas(alloc, origins)?,
        points: one(alloc, PointWork { key: fresh() })?,
        withdrawn: none(alloc),
        dropped: none(alloc),
    })
}

/// The row of a live key that signed nothing yet.
fn unused_row(alloc: Global, key: PublicKey) -> KeyRow
    ensures { result ≡ unused_row key }
{
    KeyRow {
        desk: 0,
        signer: 0,
        role: Role::Current,
        key,
        next_serial: 1,
        number: 0,
        this_update: 0,
        since: 0,
        done: 0,
        revoked: none(alloc),
    }
}

fn unused_rows(alloc: Global, live: Option<PublicKey>) -> Result<Vec<KeyRow>, AllocError>
    ensures { IfOk result (λ rows. rows.items ≡ unused_rows live) }
{
    let mut rows = Vec::new(alloc);
    if let Some(key) = live {
        rows.push(unused_row(alloc, key))?;
    }
    Ok(rows)
}

/// Makes the edition, where nothing stands, beside a live key that signed nothing, if there is one.
pub fn make_anchor<S: Signer + Send, R: Threads + Sync>(
    rt: &R,
    alloc: Global,
    moment: u64,
    origins: &[Origin],
    live: Option<PublicKey>,
    names: &[NameRow],
    site: &Site,
    ring: &mut Ring<S>,
) -> Result<Made, MakeFault>
    requires moment { IsEditionMoment moment }
    requires apart { AllPairs (λ a b. a ≢ b) (map (roa_uri site.now (name_at names.now 0)) origins.now) }
    requires names { 0 < length names.now }
    requires plain { All (λ row. IsName row.name) names.now }
    requires signers { 0 < length ring.old }
{
    let held = Resources::whole(alloc)?;
    let work = anchor_work(alloc, moment, held, origins)?;
    let rows = unused_rows(alloc, live)?;
    let issued = Issued { rows: none(alloc) };
    make(rt, alloc, &work, &rows, names, &issued, site, ring)
}
