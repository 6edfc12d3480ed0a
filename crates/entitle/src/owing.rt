//! Origins whose prefixes are held (RFC 9582 section 5).

ghost use Rattle.std.specs.Prelude.{◌≡◌, ◌↔◌, ◌++◌, ℕ, List, slice_get, IsTrue, IfOk, OnOk};
ghost use Rattle.origins.specs.declared.Origin.{Origin};
ghost use Rattle.res_sets.specs.Triples.{has};
ghost use Rattle.entitle.specs.Certified.{settings_of, AreCertified};
ghost use Rattle.entitle.specs.Owed.{HasEach, AreThose, AreOwed, origins_of, at_desk};

use crate::links::names_of;
use crate::trees::{Owed, Tree};
use authority_book::Config;
use origins::{Origin, Prefix};
use res_sets::{Range, Resources};
use std::alloc::{AllocError, Global};

/// The configured origins whose whole prefix is certified to their authority, in the order of the
/// desks and of the origins. The tree is what these configurations are certified for.
pub fn owed(alloc: Global, configs: &[Config], tree: &Tree) -> Result<Vec<Owed>, AllocError>
    requires { AreCertified (settings_of configs.now) tree.now.sets.items }
    ensures { IfOk result (λ owed. AreOwed (settings_of configs.now) owed.items) }
{
    let mut owed = Vec::new(alloc);
    for desk in 0..names_of(configs).len() {
        push_owed(
            &mut owed,
            desk as u32,
            origins_at(configs, desk),
            &tree.sets[desk],
        )?;
    }
    Ok(owed)
}

// The configured origins of the desk.
fn origins_at(configs: &[Config], desk: usize) -> &[Origin]
    ensures { result.now ≡ origins_of (slice_get (settings_of configs.now) desk) }
{
    match configs.get(desk) {
        Some(config) => config.origins(),
        None => &[],
    }
}

// Puts those of the desk's origins behind the others whose prefix is in the set.
fn push_owed(
    owed: &mut Vec<Owed>,
    desk: u32,
    origins: &[Origin],
    set: &Resources,
) -> Result<(), AllocError>
    ensures { OnOk result ((own : List Origin) × AreThose (λ origin. HasEach (has set.now) origin.prefix) origins.now own
        × (owed.new.items ≡ owed.old.items ++ at_desk desk own)) }
{
    for origin in origins {
        if is_certified(set, &origin.prefix) {
            owed.push(Owed {
                desk,
                origin: *origin,
            })?;
        }
    }
    Ok(())
}

/// Whether each address of the prefix is in the set.
pub fn is_certified(set: &Resources, prefix: &Prefix) -> bool
    ensures { IsTrue result ↔ HasEach (has set.now) prefix.now }
{
    let range = Range {
        first: prefix.first(),
        last: prefix.last(),
    };
    if prefix.v6 {
        set.v6.holds_range(&range)
    } else {
        set.v4.holds_range(&range)
    }
}
