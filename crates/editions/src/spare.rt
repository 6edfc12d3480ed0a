//! What stands, and what stood before the last edition, of which the set and the table of the next one are made.

ghost use Rattle.std.specs.Prelude.{◌≡◌, IfOk, IfSome};
ghost use Rattle.std.specs.Arc.{arc_value};
ghost use Rattle.pub_set.specs.Objects.{Rise};
ghost use Rattle.pub_set.specs.Changes.{uri_of, IsApplied};
ghost use Rattle.editions.specs.Standing.{IsTableAfter};
ghost use Rattle.editions.specs.PublishedState.{PublishedStateValue};
ghost use Rattle.editions.specs.Spares.{LeadTo, IsSpareOf};

use crate::in_place::{changed_set, changed_table, copied_changes};
use crate::published_state::{PublishedState, StateParts};
use crate::standing::{next_set, next_table};
use items::Items;
use key_roll::IssuedRow;
use pub_set::{Change, ObjectSet};
use std::alloc::{AllocError, Global};
use std::marker::Model;
use std::sync::Arc;

/// What stood before the last edition, with what that changed, by rising URI, and the rows of what it issued.
#[derive(Drop)]
pub struct Spare {
    pub state: Arc<PublishedState>,
    pub changes: Items<Change>,
    pub issued: Items<IssuedRow>,
}

/// The set and the table after an edition.
#[derive(Drop)]
pub struct SetWithTable {
    pub set: ObjectSet,
    pub table: Items<IssuedRow>,
}

/// What stands; and what stood before, which nobody needs any more. Its objects and rows are moved on to the next set
/// and table, where those that stand would have to be copied.
///
/// A clause sees what stands.
#[derive(Drop)]
pub struct CurrentState {
    state: Arc<PublishedState>,
    spare: Option<Spare>,
}

impl Model for CurrentState {
    ghost use Rattle.std.specs.Prelude.{IfSome};
    ghost use Rattle.std.specs.Arc.{arc_value};
    ghost use Rattle.editions.specs.PublishedState.{PublishedStateValue};
    ghost use Rattle.editions.specs.Spares.{IsSpareOf};

    ghost Value = { PublishedStateValue };

    ghost view = { λ current. arc_value current.state };

    ghost invariant = { λ current. IfSome current.spare (IsSpareOf (arc_value current.state)) };
}

impl CurrentState {
    /// That state, of which nothing is known that stood before.
    pub fn new(alloc: Global, state: PublishedState) -> Result<CurrentState, AllocError>
        ensures { IfOk result (λ current. current ≡ state) }
    {
        Ok(CurrentState {
            state: Arc::new(alloc, state)?,
            spare: None,
        })
    }

    /// What stands.
    pub fn state(&self) -> &PublishedState
        ensures { result.now ≡ self.now }
    {
        &self.state
    }

    /// The same, held once more. It takes no memory; refused is a count of owners that is full.
    pub fn share(&self) -> Result<Arc<PublishedState>, AllocError>
        ensures { IfOk result (λ state. arc_value state ≡ self.now) }
    {
        Arc::try_clone(&self.state)
    }

    /// The set and the table after these changes, of which these rows tell what was issued.
    ///
    /// The first call behind an edition takes what stood before where both change little of what stands, and copies
    /// nothing of what stays. Each later one copies what stands.
    pub fn standing_after(
        &mut self,
        alloc: Global,
        changes: &[Change],
        issued: &[IssuedRow],
    ) -> Result<SetWithTable, AllocError>
        requires changes { Rise uri_of changes.now }
        requires issued { Rise (λ row. row.uri) issued.now }
        ensures set { IfOk result (λ next. IsApplied self.old.set changes.now next.set) }
        ensures table { IfOk result (λ next. IsTableAfter self.old.issued changes.now issued.now next.table) }
        ensures kept { self.new ≡ self.old }
    {
        let spare = self.spare.take();
        standing_of(alloc, spare, &self.state, changes, issued)
    }

    /// That state, to which these changes lead from what stands, and of which these rows tell what was issued. What
    /// stands is kept for the edition after it where little of what stands then was changed.
    pub fn followed_by(
        &self,
        alloc: Global,
        next: PublishedState,
        changes: &[Change],
        issued: Items<IssuedRow>,
    ) -> Result<CurrentState, AllocError>
        requires { LeadTo self.now.set self.now.issued changes.now issued next }
        ensures { IfOk result (λ current. current ≡ next) }
    {
        if !are_little_of(&next, changes) {
            return CurrentState::new(alloc, next);
        }
        let spare = Spare {
            state: self.share()?,
            changes: Items::new(copied_changes(alloc, changes)?),
            issued,
        };
        Ok(CurrentState {
            state: Arc::new(alloc, next)?,
            spare: Some(spare),
        })
    }
}

// Whether the changes are little beside what stands: at most an eighth as many as it has rows. What stood before comes to
// what stands by carrying out the last changes once more, for which their URIs and rows are copied. Of more changes, as
// those of the first edition, that would take as long as a copy of what stands, and keeping them much memory.
fn are_little_of(at: &PublishedState, changes: &[Change]) -> bool {
    changes.len() <= at.parts().issued.rows.len() / 8
}

// Made of copies of what stands.
fn copied(
    alloc: Global,
    at: &PublishedState,
    changes: &[Change],
    issued: &[IssuedRow],
) -> Result<SetWithTable, AllocError>
    requires changes { Rise uri_of changes.now }
    requires issued { Rise (λ row. row.uri) issued.now }
    ensures set { IfOk result (λ next. IsApplied at.now.set changes.now next.set) }
    ensures table { IfOk result (λ next. IsTableAfter at.now.issued changes.now issued.now next.table) }
{
    let parts = at.parts();
    let set = next_set(alloc, &parts.set, changes)?;
    let table = next_table(alloc, parts.issued.rows.as_slice(), changes, issued)?;
    Ok(SetWithTable {
        set,
        table: Items::new(table),
    })
}

// Made of a state that is given up, for any to which the last changes lead from it.
fn moved_on(
    alloc: Global,
    old: StateParts,
    last: Items<Change>,
    told: Items<IssuedRow>,
    changes: &[Change],
    issued: &[IssuedRow],
) -> Result<SetWithTable, AllocError>
    requires old { Rise (λ row. row.uri) old.issued.rows }
    requires last { Rise uri_of last }
    requires told { Rise (λ row. row.uri) told }
    requires changes { Rise uri_of changes.now }
    requires issued { Rise (λ row. row.uri) issued.now }
    ensures set { IfOk result (λ next. (at : PublishedStateValue)
        → LeadTo old.set old.issued.rows last told at → IsApplied at.set changes.now next.set) }
    ensures table { IfOk result (λ next. (at : PublishedStateValue)
        → LeadTo old.set old.issued.rows last told at
        → IsTableAfter at.issued changes.now issued.now next.table) }
{
    let rows = old.issued.rows.into_vec();
    let same = changed_table(alloc, rows, last.as_slice(), told.as_slice())?;
    let table = changed_table(alloc, same, changes, issued)?;
    let set = changed_set(alloc, old.set, last.into_vec(), changes)?;
    Ok(SetWithTable {
        set,
        table: Items::new(table),
    })
}

// Made of the spare, if it is worth that and nobody else has it.
fn standing_of(
    alloc: Global,
    spare: Option<Spare>,
    at: &PublishedState,
    changes: &[Change],
    issued: &[IssuedRow],
) -> Result<SetWithTable, AllocError>
    requires spare { IfSome spare (IsSpareOf at.now) }
    requires changes { Rise uri_of changes.now }
    requires issued { Rise (λ row. row.uri) issued.now }
    ensures set { IfOk result (λ next. IsApplied at.now.set changes.now next.set) }
    ensures table { IfOk result (λ next. IsTableAfter at.now.issued changes.now issued.now next.table) }
{
    if let Some(spare) = spare {
        if are_little_of(at, changes) {
            if let Ok(state) = Arc::try_unwrap(spare.state) {
                let old = state.into_parts();
                return moved_on(alloc, old, spare.changes, spare.issued, changes, issued);
            }
        }
    }
    copied(alloc, at, changes, issued)
}
