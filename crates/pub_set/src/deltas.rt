//! The changes from one set to another (RFC 8181 section 2.2, RFC 8182 section 3.5.3).

ghost use Rattle.std.specs.Prelude.{◌≡◌, ◌++◌, option_copied, OnOk, IfOk};
ghost use Rattle.std.specs.Option.{option_to_list};
ghost use Rattle.sha2.specs.Sha256.{sha256};
ghost use Rattle.pub_set.specs.Objects.{IsAscending};
ghost use Rattle.pub_set.specs.Changes.{IsChanges};
ghost use Rattle.pub_set.specs.inner.Pairs.{first_pair, rest_of, pair_difference};

use crate::objects::{Object, ObjectSet, compare};
use crate::parts::Content;
use crate::steps::Change;
use sha2::{Digest, Sha256};
use std::alloc::{AllocError, Global};
use std::cmp::Ordering;

/// The changes that make the new set of the old one, by rising URI.
///
/// Linear in the sets' sizes. Only what is replaced or withdrawn is hashed.
pub fn changes(alloc: Global, old: &ObjectSet, new: &ObjectSet) -> Result<Vec<Change>, AllocError>
    ensures { IfOk result (λ changes. IsChanges old.now new.now changes.items) }
{
    let (mut held, mut wanted) = (old.as_slice(), new.as_slice());
    let mut changes = Vec::new(alloc);
    'pairs: while !(held.is_empty() && wanted.is_empty()) {
        let (gone, come) = first_pair(held, wanted);
        push_difference(alloc, &mut changes, gone, come)?;
        held = rest_of(held, gone);
        wanted = rest_of(wanted, come);
    }
    Ok(changes)
}

// The objects at the least URI of both lists.
fn first_pair<'a>(old: &'a [Object], new: &'a [Object]) -> (Option<&'a Object>, Option<&'a Object>)
    ensures gone { option_copied result.0 ≡ (first_pair old.now new.now).0 }
    ensures come { option_copied result.1 ≡ (first_pair old.now new.now).1 }
{
    match (old.first(), new.first()) {
        (Some(gone), Some(come)) => match compare(gone, come.uri.as_str()) {
            Ordering::Less => (Some(gone), None),
            Ordering::Equal => (Some(gone), Some(come)),
            Ordering::Greater => (None, Some(come)),
        },
        firsts => firsts,
    }
}

// What is left without the first object, if it is taken.
fn rest_of<'a>(objects: &'a [Object], first: Option<&Object>) -> &'a [Object]
    ensures { result.now ≡ rest_of (option_copied first.entry) objects.now }
{
    match (first, objects.split_first()) {
        (Some(_), Some((_, rest))) => rest,
        _ => objects,
    }
}

// Puts the change that makes the one object of the other behind those so far.
fn push_difference(
    alloc: Global,
    changes: &mut Vec<Change>,
    gone: Option<&Object>,
    come: Option<&Object>,
) -> Result<(), AllocError>
    ensures { OnOk result (changes.new.items ≡ changes.old.items
        ++ option_to_list (pair_difference (option_copied gone.entry) (option_copied come.entry))) }
{
    if let Some(change) = difference(alloc, gone, come)? {
        changes.push(change)?;
    }
    Ok(())
}

// The change that makes the one object of the other, if they aren't the same.
fn difference(
    alloc: Global,
    gone: Option<&Object>,
    come: Option<&Object>,
) -> Result<Option<Change>, AllocError>
    ensures { IfOk result (λ change.
        change ≡ pair_difference (option_copied gone.entry) (option_copied come.entry)) }
{
    let (uri, bytes, replaces) = match (gone, come) {
        (Some(gone), Some(come)) if gone.bytes.as_slice() != come.bytes.as_slice() => {
            (
                come.uri.copy(alloc)?,
                come.bytes.share()?,
                Some(digest(&gone.bytes)),
            )
        }
        (None, Some(come)) => (come.uri.copy(alloc)?, come.bytes.share()?, None),
        (Some(gone), None) => {
            return Ok(Some(Change::Withdraw {
                uri: gone.uri.copy(alloc)?,
                hash: digest(&gone.bytes),
            }));
        }
        _ => return Ok(None),
    };
    Ok(Some(Change::Put {
        uri,
        bytes,
        replaces,
    }))
}

fn digest(content: &Content) -> [u8; 32]
    ensures { result ≡ sha256 content.now }
{
    Sha256::digest(content.as_slice())
}
