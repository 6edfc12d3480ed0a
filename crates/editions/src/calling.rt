//! Whether there is something to publish.

ghost use Rattle.std.specs.Prelude.{◌≡◌, ◌||◌, List, get_or};
ghost use Rattle.std.specs.List.{list_any};
ghost use Rattle.key_roll.specs.declared.rows.KeyRow.{KeyRow};
ghost use Rattle.issue_plan.specs.declared.keys.NextKey.{NextKey};
ghost use Rattle.issue_plan.specs.Due.{is_due};
ghost use Rattle.editions.specs.Due as due;
ghost use Rattle.editions.specs.Edition.{cut_at};
ghost use Rattle.editions.specs.Calling as spec;
ghost use Rattle.editions.specs.Calling.{has_some, LeadsTo};

use crate::published_state::PublishedState;
use issue_plan::is_due;
use items::Items;
use key_roll::{IssuedRow, Work};

// Whether one of the objects is due.
fn any_due(moment: u64, issued: &[IssuedRow]) -> bool
    ensures { result ≡ list_any (is_due moment) issued.now }
{
    issued.iter().any(|row| is_due(moment, row))
}

// How many commands of a desk are taken in.
fn cut_at(cut: &[u64], desk: usize) -> u64
    ensures { result ≡ cut_at cut.now desk }
{
    match cut.get(desk) {
        Some(count) => *count,
        None => 0,
    }
}

// Whether a desk has commands behind the cut.
#[tactic(auto, using(crate::proofs::StateLemmas::Dues::grows_none, crate::proofs::StateLemmas::Dues::grows_some))]
fn grows(before: &[u64], cut: &[u64]) -> bool
    ensures { result ≡ due.grows before.now cut.now }
{
    for desk in 0..cut.len() {
        if cut_at(before, desk) < cut_at(cut, desk) {
            return true;
        }
    }
    false
}

// Whether there is one.
#[tactic(auto, using(crate::proofs::StateLemmas::Dues::some_of))]
fn has_some<T>(items: &Items<T>) -> bool
    ensures { result ≡ has_some items.now }
{
    !items.is_empty()
}

fn either(one: bool, other: bool) -> bool
    ensures { result ≡ (one || other) }
{
    one || other
}

// Whether a key is made, turns, or ends.
fn steps(work: &Work) -> bool
    ensures { (rows : List KeyRow) (nexts : List NextKey) → LeadsTo rows nexts work.now
        → result ≡ due.steps_next rows nexts }
{
    either(
        either(has_some(&work.new_keys), has_some(&work.roles)),
        has_some(&work.dropped),
    )
}

impl PublishedState {
    /// Whether an edition with that cut and of this work is called for. The cut has a number for
    /// each desk: how many of its commands are taken in.
    pub fn is_called_for(&self, cut: &[u64], work: &Work) -> bool
        ensures { (nexts : List NextKey) → LeadsTo self.now.rows nexts work.now
            → result ≡ spec.is_called_for self.now cut.now work.now.moment nexts }
    {
        let parts = self.parts();
        // Objects are looked at only where nothing else calls for an edition.
        if either(parts.serial == 0, grows(parts.cut.as_slice(), cut)) {
            return true;
        }
        let due = any_due(work.moment, parts.issued.rows.as_slice());
        either(due, steps(work))
    }
}
