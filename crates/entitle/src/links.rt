//! Who gets number resources from whom (RFC 6492 section 3.3).

ghost use Rattle.std.specs.Prelude.{◌≡◌, ◌≤◌, All, length, option_map};
ghost use Rattle.names.specs.Name.{IsName};
ghost use Rattle.authority_book.specs.Listed as listed;
ghost use Rattle.authority_book.specs.Verdict.{most_authorities};
ghost use Rattle.entitle.specs.Certified as certified;

use authority_book::{Config, NameRow};
use names::{ANCHOR, Name};
use res_sets::Resources;

/// A parent, and what it grants.
#[derive(Clone, Copy)]
pub struct Link<'a> {
    pub parent: Name,
    pub grant: &'a Resources,
}

/// Whether the name is the trust anchor's.
pub fn is_anchor(name: &Name) -> bool
    ensures { result ≡ certified.is_anchor name.now }
{
    name.as_str() == ANCHOR
}

/// The names of the tree.
pub fn names_of(configs: &[Config]) -> &[NameRow]
    ensures names { result.now ≡ certified.names_of (certified.settings_of configs.now) }
    ensures limit { length result.now ≤ most_authorities }
    ensures plain { All (λ row. IsName row.name) result.now }
{
    match configs.first() {
        Some(anchor) => anchor.names(),
        None => &[],
    }
}

/// The place of the name in the tree. An index from 0, which is the number of its desk.
pub fn place_of(configs: &[Config], name: &Name) -> Option<usize>
    ensures { result ≡ listed.place_of (certified.names_of (certified.settings_of configs.now)) name.now }
{
    configs.first()?.place_of(name)
}

/// The configuration of the name.
pub fn config_of<'a>(configs: &'a [Config], name: &Name) -> Option<&'a Config>
    ensures { option_map (λ config. config.now.settings) result ≡ certified.config_of (certified.settings_of configs.now) name.now }
{
    configs.get(place_of(configs, name)?)
}

/// What the name gets from the parent that it names.
pub fn grant_of<'a>(configs: &'a [Config], name: &Name) -> Option<Link<'a>>
    ensures { option_map (λ link. record { parent = link.parent; resources = link.grant.now }) result ≡ certified.grant_of (certified.settings_of configs.now) name.now }
{
    let config = config_of(configs, name)?;
    if config.is_deleted() {
        return None;
    }
    let parent = config.parent()?;
    let above = config_of(configs, &parent)?;
    if above.is_deleted() {
        return None;
    }
    let child = above.child(name)?;
    if child.suspended {
        return None;
    }
    Some(Link {
        parent,
        grant: &child.grant,
    })
}

/// The parent that grants the name something.
pub fn parent_of(configs: &[Config], name: &Name) -> Option<Name>
    ensures { result ≡ option_map (λ grant. grant.parent) (certified.grant_of (certified.settings_of configs.now) name.now) }
{
    match grant_of(configs, name) {
        Some(link) => Some(link.parent),
        None => None,
    }
}
