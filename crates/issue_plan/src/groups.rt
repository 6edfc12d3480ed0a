//! The objects that stand in a desk's folder, one behind the other (RFC 6481 section 2.2).

ghost use Rattle.std.specs.Prelude.{◌≡◌, ◌++◌, ℕ, List, true, IfOk};
ghost use Rattle.pub_set.specs.Objects.{Rise};
ghost use Rattle.issue_plan.specs.inner.Groups.{AreInFolder, IsGroup};

use crate::anew::Standing;
use crate::lookups::name_at;
use key_roll::IssuedRow;
use std::alloc::{AllocError, Global};

/// Positions of objects: from the first one on, up to the end.
#[derive(Clone, Copy)]
pub struct Group {
    pub first: usize,
    pub end: usize,
}

const NOTHING: Group = Group { first: 0, end: 0 };

// Whether the object is known to be in the folder.
fn is_in(row: &IssuedRow, folder: &str) -> bool
    ensures { result ≡ true → (rest : List ℕ) × (row.now.uri ≡ folder.now ++ rest) }
{
    let uri = row.uri.as_str().as_bytes();
    match uri.strip_prefix(folder.as_bytes()) {
        Some(_) => true,
        None => false,
    }
}

// Where the objects of a folder are likely to be: behind those below it.
fn guess(issued: &[IssuedRow], folder: &str) -> Group {
    let first = issued.partition_point(|row| row.uri.as_str().cmp(folder).is_lt());
    let count = issued[first..].partition_point(|row| is_in(row, folder));
    Group {
        first,
        end: first.saturating_add(count),
    }
}

// The objects of the folder. All between two of them are in it, too.
fn group_in(issued: &[IssuedRow], folder: &str) -> Group
    requires { Rise (λ row. row.uri) issued.now }
    ensures { AreInFolder issued.now folder.now result.first result.end }
{
    let group = guess(issued, folder);
    if group.first >= group.end || group.end > issued.len() {
        return NOTHING;
    }
    if is_in(&issued[group.first], folder) && is_in(&issued[group.end - 1], folder) {
        group
    } else {
        NOTHING
    }
}

/// The objects in the folder of the desk's authority.
pub fn group_of(alloc: Global, standing: &Standing<'_>, desk: u32) -> Result<Group, AllocError>
    requires { Rise (λ row. row.uri) standing.now.issued.now }
    ensures { IfOk result (λ group. IsGroup standing.now desk group.first group.end) }
{
    let Some(row) = name_at(standing.names, desk) else {
        return Ok(NOTHING);
    };
    let _named = row.name.as_bytes();
    let folder = standing.site.folder(alloc, row.name.as_str())?;
    Ok(group_in(standing.issued, folder.as_str()))
}
