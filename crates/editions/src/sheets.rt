//! What readers are shown of an edition.

ghost use Rattle.std.specs.Prelude.{◌≡◌, ◌<◌, ◌≤◌, ◌==◌, ◌++◌, ◌∷◌, ℕ, [], map, length, get_or, IfOk, OnOk, if◌then◌else◌};
ghost use Rattle.authority_book.specs.Verdict.{most_authorities};
ghost use Rattle.entitle.specs.Certified.{settings_of, names_of};
ghost use Rattle.editions.specs.PublishedState.{value_of};
ghost use Rattle.editions.specs.Sheets as spec;
ghost use Rattle.editions.specs.Sheets.{has_role, origins_at, shown_from, sheet_of};

use crate::published_state::{PublishedState, StateParts};
use authority_book::Config;
use entitle::Owed;
use items::Items;
use key_roll::{KeyRow, Role, is_role};
use notice_board::{Sheet, SheetRow, ShownStage};
use origins::Origin;
use std::alloc::{AllocError, Global};

// Whether the desk has a live key in the role.
fn has_role(rows: &[KeyRow], desk: u32, role: Role) -> bool
    ensures { result ≡ has_role rows.now desk role }
{
    rows.iter()
        .any(|row| row.desk == desk && is_role(row.role, role))
}

// How far the rollover of the desk's authority is.
fn stage_of(rows: &[KeyRow], desk: u32) -> ShownStage
    ensures { result ≡ spec.stage_of rows.now desk }
{
    if has_role(rows, desk, Role::New) {
        ShownStage::Staged
    } else if has_role(rows, desk, Role::Old) {
        ShownStage::Retiring
    } else if has_role(rows, desk, Role::Current) {
        ShownStage::Steady
    } else {
        ShownStage::Absent
    }
}

// An empty list for each of so many desks.
fn no_origins(alloc: Global, desks: usize) -> Result<Vec<Vec<Origin>>, AllocError>
    ensures count { IfOk result (λ lists. length lists.items ≡ desks) }
    ensures none { IfOk result (λ lists. (desk : ℕ) → get_or (map (λ list. list.items) lists.items) desk [] ≡ []) }
{
    let mut lists = Vec::with_capacity(alloc, desks)?;
    for _ in 0..desks {
        lists.push(Vec::new(alloc))?;
    }
    Ok(lists)
}

// Puts an origin behind the others of its desk, if there is that desk.
fn push_at(lists: &mut Vec<Vec<Origin>>, desk: usize, origin: Origin) -> Result<(), AllocError>
    ensures count { OnOk result (length lists.new.items ≡ length lists.old.items) }
    ensures each { OnOk result ((other : ℕ) → other < length lists.old.items
        → get_or (map (λ list. list.items) lists.new.items) other []
        ≡ get_or (map (λ list. list.items) lists.old.items) other [] ++ (if desk == other then origin ∷ [] else [])) }
{
    if desk < lists.len() {
        lists[desk].push(origin)?;
    }
    Ok(())
}

// The owed origins of each of so many desks, in their order.
fn by_desk(alloc: Global, owed: &[Owed], desks: usize) -> Result<Vec<Vec<Origin>>, AllocError>
    ensures count { IfOk result (λ lists. length lists.items ≡ desks) }
    ensures each { IfOk result (λ lists. (desk : ℕ) → desk < desks
        → get_or (map (λ list. list.items) lists.items) desk [] ≡ origins_at owed.now desk) }
{
    let mut lists = no_origins(alloc, desks)?;
    for each in owed {
        push_at(&mut lists, each.desk as usize, each.origin)?;
    }
    Ok(lists)
}

// How many authorities there are.
fn authorities(configs: &[Config]) -> usize
    ensures count { result ≡ length (names_of (settings_of configs.now)) }
    ensures few { result ≤ most_authorities }
{
    match configs.first() {
        Some(anchor) => anchor.names().len(),
        None => 0,
    }
}

// What is shown of each authority.
fn shown(alloc: Global, parts: &StateParts) -> Result<Vec<SheetRow>, AllocError>
    requires { length parts.now.tree.sets.items ≡ length (names_of (settings_of parts.now.configs)) }
    ensures { IfOk result (λ rows. rows.items
        ≡ shown_from (value_of parts.now) 0 parts.now.tree.sets.items) }
{
    let desks = authorities(parts.configs.as_slice());
    let lists = by_desk(alloc, parts.owed.as_slice(), desks)?;
    let mut rows = Vec::with_capacity(alloc, desks)?;
    for list in lists {
        let desk = rows.len() as u32;
        rows.push(SheetRow {
            desk,
            certified: parts.tree.sets[desk as usize].copy(alloc)?,
            stage: stage_of(parts.rows.as_slice(), desk),
            published: Items::new(list),
        })?;
    }
    Ok(rows)
}

impl PublishedState {
    /// What readers are shown of the edition. Linear in the owed origins.
    pub fn sheet(&self, alloc: Global) -> Result<Sheet, AllocError>
        ensures { IfOk result (λ sheet. sheet ≡ sheet_of self.now) }
    {
        let parts = self.parts();
        let rows = if parts.serial == 0 {
            Vec::new(alloc)
        } else {
            shown(alloc, parts)?
        };
        Ok(Sheet {
            serial: parts.serial,
            moment: parts.moment,
            rows: Items::new(rows),
        })
    }
}
