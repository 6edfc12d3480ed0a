//! Where what is wanted stands, and what stands elsewhere (RFC 6481 section 2).

ghost use Rattle.std.specs.Prelude.{◌≡◌, ◌++◌, ℕ, List, IfOk, OnOk, slice_get};
ghost use Rattle.std.specs.List.{flat_map, filter_map};
ghost use Rattle.pub_set.specs.Objects.{Rise};
ghost use Rattle.entitle.specs.Certified.{settings_of, names_of};
ghost use Rattle.issue_plan.specs.Uris as spec;
ghost use Rattle.issue_plan.specs.Uris.{key_uris};
ghost use Rattle.issue_plan.specs.inner.Positions.{position_in};

use crate::keys::NextKey;
use crate::lookups::{name_at, parent_at};
use crate::positions::{mark_found, marks, positions_of, unmarked_uris};
use authority_book::{Config, NameRow};
use key_ids::Site;
use key_roll::{IssuedRow, KeyName};
use pub_set::Uri;
use std::alloc::{AllocError, Global};

// Puts the place of a key's certificate behind the others, if it is known.
fn push_certificate_uri(
    alloc: Global,
    uris: &mut Vec<Uri>,
    site: &Site,
    configs: &[Config],
    key: &NextKey,
) -> Result<(), AllocError>
    ensures { OnOk result (uris.new.items
        ≡ uris.old.items ++ spec.certificate_uris site.now (settings_of configs.now) key.now) }
{
    if key.desk == 0 {
        uris.push(Uri::new(site.anchor_uri(alloc)?))?;
        return Ok(());
    }
    let Some(parent) = parent_at(configs, key.desk) else {
        return Ok(());
    };
    if let KeyName::Live { id } = key.name {
        uris.push(Uri::new(site.cert_uri(alloc, parent.as_str(), &id)?))?;
    }
    Ok(())
}

// Puts the places of a key's point behind the others, if they are known.
fn push_point_uris(
    alloc: Global,
    uris: &mut Vec<Uri>,
    site: &Site,
    names: &[NameRow],
    key: &NextKey,
) -> Result<(), AllocError>
    ensures { OnOk result (uris.new.items
        ≡ uris.old.items ++ spec.point_uris site.now (slice_get names.now key.now.desk) key.now.name) }
{
    let Some(row) = name_at(names, key.desk) else {
        return Ok(());
    };
    if let KeyName::Live { id } = key.name {
        uris.push(Uri::new(site.crl_uri(alloc, row.name.as_str(), &id)?))?;
        uris.push(Uri::new(site.manifest_uri(alloc, row.name.as_str(), &id)?))?;
    }
    Ok(())
}

fn push_key_uris(
    alloc: Global,
    uris: &mut Vec<Uri>,
    site: &Site,
    names: &[NameRow],
    configs: &[Config],
    key: &NextKey,
) -> Result<(), AllocError>
    requires { names.now ≡ names_of (settings_of configs.now) }
    ensures { OnOk result (uris.new.items
        ≡ uris.old.items ++ key_uris site.now (settings_of configs.now) key.now) }
{
    push_certificate_uri(alloc, uris, site, configs, key)?;
    push_point_uris(alloc, uris, site, names, key)
}

fn push_all_key_uris(
    alloc: Global,
    uris: &mut Vec<Uri>,
    site: &Site,
    names: &[NameRow],
    configs: &[Config],
    keys: &[NextKey],
) -> Result<(), AllocError>
    requires { names.now ≡ names_of (settings_of configs.now) }
    ensures { OnOk result (uris.new.items
        ≡ uris.old.items ++ flat_map (key_uris site.now (settings_of configs.now)) keys.now) }
{
    for key in keys {
        push_key_uris(alloc, uris, site, names, configs, key)?;
    }
    Ok(())
}

/// The places of keys' certificates and points that are wanted and known.
pub fn key_places(
    alloc: Global,
    site: &Site,
    names: &[NameRow],
    configs: &[Config],
    keys: &[NextKey],
) -> Result<Vec<Uri>, AllocError>
    requires { names.now ≡ names_of (settings_of configs.now) }
    ensures { IfOk result (λ uris. uris.items
        ≡ flat_map (key_uris site.now (settings_of configs.now)) keys.now) }
{
    let mut uris = Vec::new(alloc);
    push_all_key_uris(alloc, &mut uris, site, names, configs, keys)?;
    Ok(uris)
}

/// The places of what stands and isn't wanted, where these places are wanted, and others of which it was found at
/// which positions something stands there.
pub fn withdrawn(
    alloc: Global,
    wanted: &[Uri],
    found: &[Option<usize>],
    issued: &[IssuedRow],
) -> Result<Vec<Uri>, AllocError>
    requires { Rise (λ row. row.uri) issued.now }
    ensures { IfOk result (λ withdrawn. (others : List (List ℕ))
        → filter_map (λ p. p) found.now ≡ filter_map (position_in issued.now) others
        → withdrawn.items ≡ spec.withdrawn (wanted.now ++ others) issued.now) }
{
    let positions = positions_of(alloc, issued, wanted)?;
    let mut marks = marks(alloc, issued.len(), &positions)?;
    mark_found(&mut marks, found);
    let uris = unmarked_uris(alloc, issued, &marks)?;
    Ok(uris)
}
