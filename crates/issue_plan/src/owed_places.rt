//! Where the ROAs of owed origins stand, found by one pass over what stands.

ghost use Rattle.std.specs.Prelude.{◌≡◌, ◌<◌, ◌++◌, List, Some, None, length, get_or, slice_get, IfOk, IfSome, OnOk, true};
ghost use Rattle.entitle.specs.declared.trees.Owed.{Owed};
ghost use Rattle.pub_set.specs.Objects.{Rise};
ghost use Rattle.issue_plan.specs.declared.anew.Standing.{Standing};
ghost use Rattle.issue_plan.specs.Uris.{roa_file};
ghost use Rattle.issue_plan.specs.inner.Positions.{position_in};
ghost use Rattle.issue_plan.specs.inner.OwedPlaces as spec;
ghost use Rattle.issue_plan.specs.declared.keys.NextKey.{NextKey};
ghost use Rattle.issue_plan.specs.declared.live.LiveKey.{LiveKey};
ghost use Rattle.issue_plan.specs.inner.OwedPlaces.{IsIssuer, IsServing, IsStaying, AreStaying};
ghost use Rattle.issue_plan.specs.inner.OwedPlaces.{owed_place, owed_position, IsFolder, IsPlaceIn, IsNoted, AreNoted};
ghost use Rattle.issue_plan.specs.ByName.{StandByName};

use crate::anew::Standing;
use crate::groups::group_of;
use crate::guesses::Guesses;
use crate::keys::{NextKey, is_same_id};
use crate::live::{LiveKey, live_at};
use crate::lookups::name_at;
use crate::positions::position_of;
use crate::roas::{Issuer, issuer_at, serves_owed};
use crate::spellings::is_roa_in;
use authority_book::NameRow;
use entitle::Owed;
use key_ids::KeyId;
use key_roll::{IssuedRow, KeyName, What};
use pub_set::Uri;
use std::alloc::{AllocError, Global};

/// The folder of the authority whose key issued the rows that are looked at.
#[derive(Drop)]
pub struct Folder {
    pub issuer: KeyId,
    /// The authority's desk, numbered from 0.
    pub desk: u32,
    /// Nothing where the desk has no name.
    pub uri: Option<String>,
}

/// Where ROAs of owed origins stand.
#[derive(Drop)]
pub struct Found {
    /// For each owed origin the position of what stands at its place.
    pub positions: Vec<Option<usize>>,
    /// For each owed origin whether that is known to fit its ROA.
    pub stay: Vec<bool>,
}

// The desk of a live key, and whichever for another.
fn desk_of(live: &[LiveKey], issuer: &KeyId) -> u32 {
    match live_at(live, &KeyName::Live { id: *issuer }) {
        Some(key) => key.desk,
        None => 0,
    }
}

// The folder of the key's authority.
fn folder_of(alloc: Global, standing: &Standing<'_>, issuer: &KeyId) -> Result<Folder, AllocError>
    ensures { IfOk result (IsFolder standing.now) }
{
    let desk = desk_of(standing.live, issuer);
    let Some(row) = name_at(standing.names, desk) else {
        return Ok(Folder {
            issuer: *issuer,
            desk,
            uri: None,
        });
    };
    Ok(Folder {
        issuer: *issuer,
        desk,
        uri: Some(standing.site.folder(alloc, row.name.as_str())?),
    })
}

// Makes the folder that of the key's authority, if the key isn't its issuer.
fn move_to(
    alloc: Global,
    standing: &Standing<'_>,
    folder: &mut Folder,
    issuer: &KeyId,
) -> Result<(), AllocError>
    requires { IsFolder standing.now folder.old }
    ensures { OnOk result (IsFolder standing.now folder.new) }
{
    if !is_same_id(&folder.issuer, issuer) {
        *folder = folder_of(alloc, standing, issuer)?;
    }
    Ok(())
}

// Whether the owed origin's place is known to be the row's.
fn is_place_of(
    alloc: Global,
    folder: &Folder,
    owed: &Owed,
    row: &IssuedRow,
) -> Result<bool, AllocError>
    ensures { IfOk result (λ is. is ≡ true → (s : Standing) → IsFolder s folder.now
        → owed_place s.site.now s.names.now owed.now ≡ Some row.now.uri) }
{
    let Some(uri) = &folder.uri else {
        return Ok(false);
    };
    if owed.desk != folder.desk {
        return Ok(false);
    }
    is_roa_in(alloc, uri.as_str(), &owed.origin, row.uri.as_str())
}

// The index of the owed origin whose place is known to be the row's.
fn index_at(
    alloc: Global,
    folder: &Folder,
    owed: &[Owed],
    guesses: &Guesses,
    row: &IssuedRow,
) -> Result<Option<usize>, AllocError>
    ensures { IfOk result (λ index. IfSome index (λ index. (index < length owed.now)
        × ((s : Standing) (d : Owed) → IsFolder s folder.now
        → owed_place s.site.now s.names.now (get_or owed.now index d) ≡ Some row.now.uri))) }
{
    let What::Route { origin } = &row.what else {
        return Ok(None);
    };
    let Some(index) = guesses.index_of(owed, folder.desk, origin) else {
        return Ok(None);
    };
    if index >= owed.len() {
        return Ok(None);
    }
    if is_place_of(alloc, folder, &owed[index], row)? {
        Ok(Some(index))
    } else {
        Ok(None)
    }
}

// Notes at which position the row stands, for the owed origin whose place that is known to be.
fn note(
    alloc: Global,
    folder: &Folder,
    owed: &[Owed],
    guesses: &Guesses,
    row: &IssuedRow,
    position: usize,
    noted: &mut Vec<Option<usize>>,
) -> Result<(), AllocError>
    requires { length noted.old.items ≡ length owed.now }
    ensures { OnOk result ((s : Standing) → IsFolder s folder.now
        → position_in s.issued.now row.now.uri ≡ Some position
        → AreNoted s owed.now noted.old.items → AreNoted s owed.now noted.new.items) }
{
    let Some(index) = index_at(alloc, folder, owed, guesses, row)? else {
        return Ok(());
    };
    noted[index] = Some(position);
    Ok(())
}

// The positions of what stands at the places of owed origins, as far as they are known from the rows.
fn noted(
    alloc: Global,
    standing: &Standing<'_>,
    owed: &[Owed],
) -> Result<Vec<Option<usize>>, AllocError>
    requires { Rise (λ row. row.uri) standing.now.issued.now }
    ensures { IfOk result (λ noted. AreNoted standing.now owed.now noted.items) }
{
    let guesses = Guesses::of(alloc, owed)?;
    let mut noted = vec![in alloc; None; owed.len()]?;
    let mut folder = Folder {
        issuer: KeyId { bytes: [0; 20] },
        desk: 0,
        uri: None,
    };
    for position in 0..standing.issued.len() {
        let row = &standing.issued[position];
        move_to(alloc, standing, &mut folder, &row.issuer)?;
        note(alloc, &folder, owed, &guesses, row, position, &mut noted)?;
    }
    Ok(noted)
}

// ---- where each ROA stands in the folder of a name

// Notes whether the row, which stands at the place of the owed origin with that index, is known to stay.
fn note_staying(
    moment: u64,
    issuer: &Issuer<'_>,
    owed: &[Owed],
    index: usize,
    row: &IssuedRow,
    stay: &mut Vec<bool>,
)
    ensures { (s : Standing) (keys : List NextKey) (settled : List LiveKey)
        → ((d : Owed) → IsServing moment issuer.now (get_or owed.now index d) row.now
        → IsStaying s keys settled (get_or owed.now index d))
        → AreStaying s keys settled owed.now stay.old.items → AreStaying s keys settled owed.now stay.new.items }
{
    if index < owed.len() && index < stay.len() {
        stay[index] = serves_owed(moment, issuer, &owed[index], row);
    }
}

// Notes the position for the owed origin with that index.
fn note_position(index: usize, position: usize, positions: &mut Vec<Option<usize>>)
    ensures { (s : Standing) (owed : List Owed) → index < length owed
        → ((d : Owed) → owed_position s (get_or owed index d) ≡ Some position)
        → AreNoted s owed positions.old.items → AreNoted s owed positions.new.items }
{
    if index < positions.len() {
        positions[index] = Some(position);
    }
}

// Notes at which position the row stands, for the origin of the issuer's desk that it is a ROA of.
fn note_named(
    moment: u64,
    issuer: &Issuer<'_>,
    owed: &[Owed],
    guesses: &Guesses,
    row: &IssuedRow,
    position: usize,
    found: &mut Found,
)
    ensures positions { (s : Standing) → IsPlaceIn s issuer.now.desk row.now
        → position_in s.issued.now row.now.uri ≡ Some position
        → AreNoted s owed.now found.old.positions.items → AreNoted s owed.now found.new.positions.items }
    ensures stay { (s : Standing) (keys : List NextKey) (settled : List LiveKey) → s.moment ≡ moment
        → IsIssuer keys settled issuer.now → IsPlaceIn s issuer.now.desk row.now
        → position_in s.issued.now row.now.uri ≡ Some position → slice_get s.issued.now position ≡ Some row.now
        → AreStaying s keys settled owed.now found.old.stay.items
        → AreStaying s keys settled owed.now found.new.stay.items }
{
    let What::Route { origin } = &row.what else {
        return;
    };
    let Some(index) = guesses.index_of(owed, issuer.desk, origin) else {
        return;
    };
    note_position(index, position, &mut found.positions);
    note_staying(moment, issuer, owed, index, row, &mut found.stay);
}

// Notes the positions of all that stands in the desk's folder, and what of it stays. Each row is looked at once.
fn note_desk(
    alloc: Global,
    standing: &Standing<'_>,
    keys: &[NextKey],
    settled: &[LiveKey],
    owed: &[Owed],
    desk: u32,
    found: &mut Found,
) -> Result<(), AllocError>
    requires rising { Rise (λ row. row.uri) standing.now.issued.now }
    requires stand { StandByName standing.now.site.now standing.now.issued.now }
    requires positions { AreNoted standing.now owed.now found.old.positions.items }
    requires stay { AreStaying standing.now keys.now settled.now owed.now found.old.stay.items }
    ensures positions { OnOk result (AreNoted standing.now owed.now found.new.positions.items) }
    ensures stay { OnOk result (AreStaying standing.now keys.now settled.now owed.now found.new.stay.items) }
{
    let group = group_of(alloc, standing, desk)?;
    let guesses = Guesses::of_desk(alloc, owed, desk)?;
    let issuer = issuer_at(keys, settled, desk);
    for position in group.first..group.end {
        let row = &standing.issued[position];
        note_named(
            standing.moment,
            &issuer,
            owed,
            &guesses,
            row,
            position,
            found,
        );
    }
    Ok(())
}

// How many desks have names. Desks are numbered from 0.
fn desks_of(names: &[NameRow]) -> u32 {
    u32::try_from(names.len()).unwrap_or(u32::MAX)
}

// Nothing is known to stay.
fn unknown(alloc: Global, owed: &[Owed]) -> Result<Vec<bool>, AllocError>
    ensures { IfOk result (λ stay. (s : Standing) (keys : List NextKey) (settled : List LiveKey)
        → AreStaying s keys settled owed.now stay.items) }
{
    Ok(vec![in alloc; false; owed.len()]?)
}

// The positions of what stands at the places of owed origins, as far as they are known from the rows, and what of it
// stays. No URI is looked at but those of the ends of each folder.
fn noted_by_name(
    alloc: Global,
    standing: &Standing<'_>,
    keys: &[NextKey],
    settled: &[LiveKey],
    owed: &[Owed],
) -> Result<Found, AllocError>
    requires rising { Rise (λ row. row.uri) standing.now.issued.now }
    requires stand { StandByName standing.now.site.now standing.now.issued.now }
    ensures positions { IfOk result (λ found. AreNoted standing.now owed.now found.positions.items) }
    ensures stay { IfOk result (λ found. AreStaying standing.now keys.now settled.now owed.now found.stay.items) }
{
    let positions = vec![in alloc; None; owed.len()]?;
    let stay = unknown(alloc, owed)?;
    let mut found = Found { positions, stay };
    for desk in 0..desks_of(standing.names) {
        note_desk(alloc, standing, keys, settled, owed, desk, &mut found)?;
    }
    Ok(found)
}

// The same, by whichever is known of the rows.
fn noted_from(
    alloc: Global,
    standing: &Standing<'_>,
    keys: &[NextKey],
    settled: &[LiveKey],
    owed: &[Owed],
    by_name: bool,
) -> Result<Found, AllocError>
    requires rising { Rise (λ row. row.uri) standing.now.issued.now }
    requires stand { by_name ≡ true → StandByName standing.now.site.now standing.now.issued.now }
    ensures positions { IfOk result (λ found. AreNoted standing.now owed.now found.positions.items) }
    ensures stay { IfOk result (λ found. AreStaying standing.now keys.now settled.now owed.now found.stay.items) }
{
    if by_name {
        return noted_by_name(alloc, standing, keys, settled, owed);
    }
    let positions = noted(alloc, standing, owed)?;
    let stay = unknown(alloc, owed)?;
    Ok(Found { positions, stay })
}

// ---- what is noted, and what isn't

// The position of what stands at the owed origin's place, whose URI is spelled and looked for.
fn spelled_position(
    alloc: Global,
    standing: &Standing<'_>,
    owed: &Owed,
) -> Result<Option<usize>, AllocError>
    requires { Rise (λ row. row.uri) standing.now.issued.now }
    ensures { IfOk result (λ position. position ≡ spec.owed_position standing.now owed.now) }
{
    let Some(row) = name_at(standing.names, owed.desk) else {
        return Ok(None);
    };
    let file = owed.origin.file_name(alloc)?;
    let uri = standing
        .site
        .file_uri(alloc, row.name.as_str(), file.as_str())?;
    Ok(position_of(standing.issued, &Uri::new(uri)))
}

// The same, where it may be noted.
fn owed_position(
    alloc: Global,
    standing: &Standing<'_>,
    owed: &Owed,
    noted: Option<usize>,
) -> Result<Option<usize>, AllocError>
    requires rising { Rise (λ row. row.uri) standing.now.issued.now }
    requires noted { IsNoted standing.now owed.now noted }
    ensures { IfOk result (λ position. position ≡ spec.owed_position standing.now owed.now) }
{
    match noted {
        Some(position) => Ok(Some(position)),
        None => spelled_position(alloc, standing, owed),
    }
}

// Puts what isn't noted of owed origins beside what is.
fn fill(
    alloc: Global,
    standing: &Standing<'_>,
    owed: &[Owed],
    positions: &mut Vec<Option<usize>>,
) -> Result<(), AllocError>
    requires rising { Rise (λ row. row.uri) standing.now.issued.now }
    requires noted { AreNoted standing.now owed.now positions.old.items }
    ensures { OnOk result (positions.new.items ≡ spec.owed_positions standing.now owed.now) }
{
    for index in 0..owed.len() {
        let position = owed_position(alloc, standing, &owed[index], positions[index])?;
        positions[index] = position;
    }
    Ok(())
}

/// For each owed origin the position of what stands at its place, and of which of it it is known that it stays, where
/// these keys are settled. A URI is spelled and looked for only
/// where no ROA of the origin stands there by a live key of its authority, or none at all where `by_name` says that
/// each ROA stands in the folder of a name.
pub fn owed_positions(
    alloc: Global,
    standing: &Standing<'_>,
    keys: &[NextKey],
    settled: &[LiveKey],
    owed: &[Owed],
    by_name: bool,
) -> Result<Found, AllocError>
    requires rising { Rise (λ row. row.uri) standing.now.issued.now }
    requires stand { by_name ≡ true → StandByName standing.now.site.now standing.now.issued.now }
    ensures positions { IfOk result (λ found. found.positions.items ≡ spec.owed_positions standing.now owed.now) }
    ensures stay { IfOk result (λ found. AreStaying standing.now keys.now settled.now owed.now found.stay.items) }
{
    let mut found = noted_from(alloc, standing, keys, settled, owed, by_name)?;
    fill(alloc, standing, owed, &mut found.positions)?;
    Ok(found)
}
