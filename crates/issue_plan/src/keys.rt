//! The keys of the next edition (RFC 6489 section 2).

ghost use Rattle.std.specs.Prelude.{◌≡◌, ◌++◌, ◌∷◌, [], Some, None, length, option_map, slice_get, IfOk, OnOk};
ghost use Rattle.std.specs.Str.{bytes_eq};
ghost use Rattle.key_roll.specs.declared.rows.Role.TheVariants.{New, Current, Old};
ghost use Rattle.issue_plan.specs.declared.keys.Asked.{Asked};
ghost use Rattle.entitle.specs.Certified.{settings_of, names_of};
ghost use Rattle.issue_plan.specs.Keys as spec;
ghost use Rattle.issue_plan.specs.Keys.{Basis, keys_at_end, keys_after, keys_at, list_of};

use crate::lookups::{name_at, set_at};
use authority_book::{Config, NameRow};
use entitle::Tree;
use key_ids::KeyId;
use key_roll::{KeyName, KeyRow, Role, Stage, StepEnd, is_role, step};
use res_sets::Resources;
use std::alloc::{AllocError, Global};

/// A key that an authority has in the next edition.
#[derive(Clone, Copy)]
pub struct NextKey {
    /// The authority's desk, numbered from 0.
    pub desk: u32,
    /// The signer that holds the key, or is to make it, numbered from 0.
    pub signer: u32,
    pub name: KeyName,
    pub role: Role,
    /// As in the key's row, in seconds since 1970.
    pub since: u64,
    /// As in the key's row: how many rollovers are done.
    pub done: u32,
    /// Whether a live key has another role, `since` or `done` than before.
    pub is_changed: bool,
}

/// What an authority asks of its keys: its desk and its signer, numbered from 0, how many rollovers it
/// was told to begin and to activate, and the moment.
#[derive(Clone, Copy)]
pub struct Asked {
    pub desk: u32,
    pub signer: u32,
    pub inits: u32,
    pub activates: u32,
    /// In seconds since 1970.
    pub moment: u64,
}

/// The identifier of a live key.
pub fn id_of(row: &KeyRow) -> KeyId
    ensures { result ≡ spec.id_of row.now }
{
    KeyId::of(&row.key.bytes)
}

/// Whether the two are one identifier. They are compared as arrays: their length is known, so that this
/// takes a few comparisons of words and no call.
pub fn is_same_id(a: &KeyId, b: &KeyId) -> bool
    ensures { result ≡ bytes_eq a.now.bytes b.now.bytes }
{
    a.bytes == b.bytes
}

/// Whether the key's name is that identifier.
pub fn is_live(id: &KeyId, name: &KeyName) -> bool
    ensures { result ≡ spec.is_live id.now name.now }
{
    match name {
        KeyName::Live { id: other } => is_same_id(other, id),
        KeyName::Fresh { .. } => false,
    }
}

// The live key of a desk in a role.
fn row_of<'a>(rows: &'a [KeyRow], desk: u32, role: Role) -> Option<&'a KeyRow>
    ensures { option_map (λ row. row.now) result ≡ spec.row_of rows.now desk role }
{
    rows.iter()
        .find(|row| row.desk == desk && is_role(row.role, role))
}

fn kept(row: &KeyRow) -> NextKey
    ensures { result ≡ spec.kept row.now }
{
    NextKey {
        desk: row.desk,
        signer: row.signer,
        name: KeyName::Live { id: id_of(row) },
        role: row.role,
        since: row.since,
        done: row.done,
        is_changed: false,
    }
}

fn turned(row: &KeyRow, role: Role, since: u64, done: u32) -> NextKey
    ensures { result ≡ spec.turned row.now role since done }
{
    NextKey {
        desk: row.desk,
        signer: row.signer,
        name: KeyName::Live { id: id_of(row) },
        role,
        since,
        done,
        is_changed: true,
    }
}

fn made(asked: &Asked, role: Role, since: u64, done: u32) -> NextKey
    ensures { result ≡ spec.made asked.now.desk asked.now.signer role since done }
{
    NextKey {
        desk: asked.desk,
        signer: asked.signer,
        name: KeyName::Fresh { desk: asked.desk },
        role,
        since,
        done,
        is_changed: false,
    }
}

// The stage of an authority that has a current key.
fn stage_of(new: Option<&KeyRow>, current: &KeyRow, old: Option<&KeyRow>) -> Stage
    ensures { result ≡ spec.stage_of (option_map (λ row. row.now) new.entry) current.now (option_map (λ row. row.now) old.entry) }
{
    match (new, old) {
        (Some(_), _) => Stage::Staged {
            since: current.since,
        },
        (None, Some(_)) => Stage::Retiring,
        (None, None) => Stage::Steady,
    }
}

// The keys with which a step ends, where a new one waited beside the current one.
fn staged(new: &KeyRow, current: &KeyRow, end: &StepEnd) -> (NextKey, Option<NextKey>)
    ensures { (asked : Asked) → result.0 ∷ list_of result.1 ≡ keys_at_end asked (Some new.now) current.now end.now }
{
    if end.activated {
        let since = end.stage.since();
        (
            turned(new, Role::Current, since, end.done),
            Some(turned(current, Role::Old, since, end.done)),
        )
    } else {
        (kept(new), Some(kept(current)))
    }
}

// The same where none waited.
fn unstaged(asked: &Asked, current: &KeyRow, end: &StepEnd) -> (NextKey, Option<NextKey>)
    ensures { result.0 ∷ list_of result.1 ≡ keys_at_end asked.now None current.now end.now }
{
    if end.made {
        let since = end.stage.since();
        (
            made(asked, Role::New, since, end.done),
            Some(turned(current, Role::Current, since, end.done)),
        )
    } else {
        (kept(current), None)
    }
}

// The keys of an authority that holds something: there are one or two.
fn keys_after(rows: &[KeyRow], asked: &Asked) -> (NextKey, Option<NextKey>)
    ensures { result.0 ∷ list_of result.1 ≡ keys_after asked.now
        (spec.row_of rows.now asked.now.desk New) (spec.row_of rows.now asked.now.desk Current) (spec.row_of rows.now asked.now.desk Old) }
{
    let Some(current) = row_of(rows, asked.desk, Role::Current) else {
        return (made(asked, Role::Current, 0, asked.inits), None);
    };
    let new = row_of(rows, asked.desk, Role::New);
    let old = row_of(rows, asked.desk, Role::Old);
    let stage = stage_of(new, current, old);
    let end = step(
        stage,
        asked.inits,
        asked.activates,
        current.done,
        asked.moment,
    );
    match new {
        Some(new) => staged(new, current, &end),
        None => unstaged(asked, current, &end),
    }
}

// Whether the set has no number.
fn holds_nothing(set: &Resources) -> bool
    ensures { result ≡ spec.holds_nothing set.now }
{
    set.asn.as_slice().is_empty() && set.v4.as_slice().is_empty() && set.v6.as_slice().is_empty()
}

fn inits_at(configs: &[Config], desk: u32) -> u32
    ensures { result ≡ spec.inits_of (slice_get (settings_of configs.now) desk) }
{
    match configs.get(desk as usize) {
        Some(config) => config.inits(),
        None => 0,
    }
}

fn activates_at(configs: &[Config], desk: u32) -> u32
    ensures { result ≡ spec.activates_of (slice_get (settings_of configs.now) desk) }
{
    match configs.get(desk as usize) {
        Some(config) => config.activates(),
        None => 0,
    }
}

/// How many authorities the tree has. Desks are numbered from 0 on.
pub fn desks_of(configs: &[Config]) -> u32
    ensures { result ≡ length (names_of (settings_of configs.now)) }
{
    match configs.first() {
        Some(anchor) => anchor.names().len() as u32,
        None => 0,
    }
}

// Puts the keys of the desk's authority behind the others.
fn push_keys(
    keys: &mut Vec<NextKey>,
    rows: &[KeyRow],
    names: &[NameRow],
    configs: &[Config],
    tree: &Tree,
    desk: u32,
    moment: u64,
) -> Result<(), AllocError>
    requires { names.now ≡ names_of (settings_of configs.now) }
    ensures { OnOk result (keys.new.items ≡ keys.old.items ++ keys_at
        (record { rows = rows.now; configs = settings_of configs.now; sets = tree.now.sets.items; moment = moment }) desk) }
{
    let Some(name) = name_at(names, desk) else {
        return Ok(());
    };
    let Some(set) = set_at(tree, desk) else {
        return Ok(());
    };
    if holds_nothing(set) {
        return Ok(());
    }
    let asked = Asked {
        desk,
        signer: name.signer,
        inits: inits_at(configs, desk),
        activates: activates_at(configs, desk),
        moment,
    };
    let (first, second) = keys_after(rows, &asked);
    keys.push(first)?;
    if let Some(second) = second {
        keys.push(second)?;
    }
    Ok(())
}

/// The keys of the next edition, by desk and role. `moment` is in seconds since 1970 (RFC 6489
/// section 2).
pub fn next_keys(
    alloc: Global,
    rows: &[KeyRow],
    names: &[NameRow],
    configs: &[Config],
    tree: &Tree,
    moment: u64,
) -> Result<Vec<NextKey>, AllocError>
    requires { names.now ≡ names_of (settings_of configs.now) }
    ensures { IfOk result (λ keys. keys.items ≡ spec.next_keys
        (record { rows = rows.now; configs = settings_of configs.now; sets = tree.now.sets.items; moment = moment })) }
{
    let mut keys = Vec::new(alloc);
    for desk in 0..desks_of(configs) {
        push_keys(&mut keys, rows, names, configs, tree, desk, moment)?;
    }
    Ok(keys)
}
