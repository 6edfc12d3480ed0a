//! What configurations and sets say of a desk: its name, its parent, what it is certified for.

ghost use Rattle.std.specs.Prelude.{◌≡◌, option_map, slice_get};
ghost use Rattle.entitle.specs.Certified as tree;
ghost use Rattle.entitle.specs.Certified.{settings_of};
ghost use Rattle.issue_plan.specs.Wanted as spec;

use authority_book::{Config, NameRow};
use entitle::Tree;
use names::Name;
use res_sets::Resources;

/// The name of the desk's authority. Desks are numbered from 0.
pub fn name_at(names: &[NameRow], desk: u32) -> Option<&NameRow>
    ensures { option_map (λ row. row.now) result ≡ slice_get names.now desk }
{
    names.get(desk as usize)
}

/// What the desk's authority is certified for. Desks are numbered from 0.
pub fn set_at(tree: &Tree, desk: u32) -> Option<&Resources>
    ensures { option_map (λ set. set.now) result ≡ slice_get tree.now.sets.items desk }
{
    tree.sets.get(desk as usize)
}

/// The name of the parent of the desk's authority. Desks are numbered from 0.
pub fn parent_at(configs: &[Config], desk: u32) -> Option<Name>
    ensures { result ≡ spec.parent_of (slice_get (settings_of configs.now) desk) }
{
    configs.get(desk as usize)?.parent()
}
