//! What a configuration lists: names and children.

ghost use Rattle.std.specs.Prelude.{◌≡◌, IfOk};

use names::Name;
use res_sets::Resources;
use std::alloc::{AllocError, Global};

/// A name of the tree, and the number of the signer that its authority's keys are made with.
#[derive(Clone, Copy, Debug, PartialEq, Eq)]
pub struct NameRow {
    pub name: Name,
    /// The signer of its keys, numbered from 0.
    pub signer: u32,
}

/// A child of an authority: what the authority grants it, and whether it is suspended.
#[derive(Debug, Drop)]
pub struct Child {
    pub name: Name,
    pub grant: Resources,
    pub suspended: bool,
}

impl Child {
    /// The same child once more.
    pub fn copy(&self, alloc: Global) -> Result<Child, AllocError>
        ensures { IfOk result (λ copy. copy ≡ self.now) }
    {
        Ok(Child {
            name: self.name,
            grant: self.grant.copy(alloc)?,
            suspended: self.suspended,
        })
    }
}
