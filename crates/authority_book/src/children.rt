//! Children, changed in place and without memory.

ghost use Rattle.std.specs.Prelude.{◌≡◌, ◌-◌, ◌+◌, ◌<◌, ◌≤◌, ◌++◌, ◌∷◌, [], false, position, IfOk};
ghost use Rattle.std.specs.Str.{bytes_eq};
ghost use Rattle.std.specs.Vec.{vec_capacity, vec_len};
ghost use Rattle.authority_book.specs.Listed.{without_child, with_changed, granted, suspended_as};

use crate::rows::Child;
use names::Name;
use res_sets::Resources;
use std::alloc::{AllocError, Global};

/// The same children once more.
pub fn copy_children(alloc: Global, children: &[Child]) -> Result<Vec<Child>, AllocError>
    ensures { IfOk result (λ copy. copy.items ≡ children.now) }
{
    let mut copy = Vec::new(alloc);
    copy.reserve(children.len())?;
    for child in children {
        copy.push(child.copy(alloc)?)?;
    }
    Ok(copy)
}

// The place of the child of that name.
fn place_of_child(children: &[Child], name: &Name) -> Option<usize>
    ensures { result ≡ position (λ child. bytes_eq child.name name.now) children.now }
{
    children
        .iter()
        .position(|child| child.name.as_bytes() == name.as_bytes())
}

/// Takes a child in, behind the others.
pub fn push_child(children: &mut Vec<Child>, name: Name, grant: Resources)
    requires room { vec_len children.old < vec_capacity children.old }
    ensures items { children.new.items ≡ children.old.items ++ record { name = name; grant = grant; suspended = false } ∷ [] }
    ensures len { vec_len children.new ≡ vec_len children.old + 1 }
    ensures capacity { vec_capacity children.old ≤ vec_capacity children.new }
{
    children
        .push(Child {
            name,
            grant,
            suspended: false,
        })
        .unwrap();
}

/// Grants the child of that name something else.
pub fn set_grant(children: &mut Vec<Child>, name: &Name, grant: Resources)
    ensures items { children.new.items ≡ with_changed children.old.items name.now (granted grant) }
    ensures len { vec_len children.new ≡ vec_len children.old }
    ensures capacity { vec_capacity children.new ≡ vec_capacity children.old }
{
    if let Some(place) = place_of_child(children, name) {
        children[place].grant = grant;
    }
}

/// Suspends the child of that name, or lifts its suspension.
pub fn set_suspended(children: &mut Vec<Child>, name: &Name, suspended: bool)
    ensures items { children.new.items ≡ with_changed children.old.items name.now (suspended_as suspended) }
    ensures len { vec_len children.new ≡ vec_len children.old }
    ensures capacity { vec_capacity children.new ≡ vec_capacity children.old }
{
    if let Some(place) = place_of_child(children, name) {
        children[place].suspended = suspended;
    }
}

/// Lets the child of that name go.
pub fn remove_child(children: &mut Vec<Child>, name: &Name)
    ensures items { children.new.items ≡ without_child children.old.items name.now }
    ensures len { vec_len children.new ≤ vec_len children.old }
    ensures capacity { vec_capacity children.new ≡ vec_capacity children.old }
{
    children.retain(|child| child.name.as_bytes() != name.as_bytes());
}
