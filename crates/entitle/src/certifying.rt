//! Sets that come down from the trust anchor (RFC 6487 section 7.2, RFC 6492 section 3.3).

ghost use Rattle.std.specs.Prelude.{◌≡◌, ◌≤◌, ◌<◌, ◌-◌, ℕ, List, length, IfOk, OnOk};
ghost use Rattle.res_sets.specs.declared.numbers.Family.{Family};
ghost use Rattle.res_sets.specs.Triples.{has};
ghost use Rattle.authority_book.specs.Settings.{Settings};
ghost use Rattle.entitle.specs.Certified as certified;
ghost use Rattle.entitle.specs.Certified.{settings_of, names_of, grant_of, passed_on, most_parents, AreCertified};
ghost use Rattle.entitle.specs.inner.Steps.{IsSteps, AreSteps, AreAfter, has_at};

use crate::links::{grant_of, is_anchor, names_of, parent_of, place_of};
use crate::trees::Tree;
use authority_book::{Config, NameRow};
use names::Name;
use res_sets::Resources;
use std::alloc::{AllocError, Global};

// How many parents are followed.
const MOST_PARENTS: usize = 64;

/// What the authorities of a tree are certified for. The first configuration is the anchor's, and
/// the others stand at the places of their names.
///
/// Each set is made once, from its parent's.
pub fn certified(alloc: Global, configs: &[Config]) -> Result<Tree, AllocError>
    ensures { IfOk result (λ tree. AreCertified (settings_of configs.now) tree.sets.items) }
{
    let names = names_of(configs);
    let steps = all_steps(alloc, configs, names)?;
    let mut sets = first_sets(alloc, names)?;
    for parents in 1..=MOST_PARENTS {
        pass_on(alloc, configs, &steps, parents, &mut sets)?;
    }
    Ok(Tree { sets })
}

// How many parents lie above each name.
fn all_steps(
    alloc: Global,
    configs: &[Config],
    names: &[NameRow],
) -> Result<Vec<Option<usize>>, AllocError>
    ensures { IfOk result (λ steps. AreSteps (settings_of configs.now) names.now steps.items) }
{
    let mut steps = Vec::new(alloc);
    for row in names {
        steps.push(steps_of(configs, &row.name))?;
    }
    Ok(steps)
}

// How many parents lie above the name, the anchor being the last. None where that is none, or too
// far.
fn steps_of(configs: &[Config], name: &Name) -> Option<usize>
    ensures { IsSteps (settings_of configs.now) name.now result }
{
    let mut at = *name;
    for steps in 0..=MOST_PARENTS {
        if is_anchor(&at) {
            return Some(steps);
        }
        at = parent_of(configs, &at)?;
    }
    None
}

// The anchor has everything, and the others have nothing yet.
fn first_sets(alloc: Global, names: &[NameRow]) -> Result<Vec<Resources>, AllocError>
    ensures { (configs : List Settings) → IfOk result (λ sets. AreAfter configs names.now 0 sets.items) }
{
    let mut sets = Vec::new(alloc);
    for row in names {
        sets.push(first_set(alloc, &row.name)?)?;
    }
    Ok(sets)
}

fn first_set(alloc: Global, name: &Name) -> Result<Resources, AllocError>
    ensures { (configs : List Settings) → IfOk result (λ set. (family : Family) (number : ℕ) → has set family number ≡ certified.certified configs 0 name.now family number) }
{
    if is_anchor(name) {
        Resources::whole(alloc)
    } else {
        Ok(Resources::empty(alloc))
    }
}

// Passes sets on to the names with so many parents above them.
fn pass_on(
    alloc: Global,
    configs: &[Config],
    steps: &[Option<usize>],
    parents: usize,
    sets: &mut Vec<Resources>,
) -> Result<(), AllocError>
    requires steps { AreSteps (settings_of configs.now) (names_of (settings_of configs.now)) steps.now }
    requires some { 0 < parents }
    requires within { parents ≤ most_parents }
    requires before { AreAfter (settings_of configs.now) (names_of (settings_of configs.now)) (parents - 1) sets.old.items }
    ensures { OnOk result (AreAfter (settings_of configs.now) (names_of (settings_of configs.now)) parents sets.new.items) }
{
    let names = names_of(configs);
    for place in 0..names.len() {
        if steps[place] == Some(parents) {
            sets[place] = set_from_parent(alloc, configs, &names[place].name, sets)?;
        }
    }
    Ok(())
}

// What comes down to the name from its parent's set.
fn set_from_parent(
    alloc: Global,
    configs: &[Config],
    name: &Name,
    sets: &[Resources],
) -> Result<Resources, AllocError>
    requires { length sets.now ≡ length (names_of (settings_of configs.now)) }
    ensures { IfOk result (λ set. (family : Family) (number : ℕ) → has set family number
        ≡ passed_on (has_at (names_of (settings_of configs.now)) sets.now) (grant_of (settings_of configs.now) name.now) family number) }
{
    let Some(link) = grant_of(configs, name) else {
        return Ok(Resources::empty(alloc));
    };
    let Some(place) = place_of(configs, &link.parent) else {
        return Ok(Resources::empty(alloc));
    };
    sets[place].meet(alloc, link.grant)
}
