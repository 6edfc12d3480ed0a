//! Objects that are made.

ghost use Rattle.std.specs.Prelude.{◌≡◌, false, map, All, IfOk};
ghost use Rattle.issue_sign.specs.declared.steps.Half.TheVariants.{Made};
ghost use Rattle.issue_sign.specs.inner.Steps.{is_begun};

use crate::object::Object;
use crate::steps::Half;
use std::alloc::{AllocError, Global};

/// The objects, once all of them are made.
pub fn objects(alloc: Global, halves: Vec<Half>) -> Result<Vec<Object>, AllocError>
    requires { All (λ h. is_begun h ≡ false) halves.items }
    ensures { IfOk result (λ objects. map (λ o. Made o) objects.items ≡ halves.items) }
{
    let mut objects = Vec::with_capacity(alloc, halves.len())?;
    for half in halves {
        let Half::Made { object } = half else {
            unreachable!()
        };
        objects.push(object)?;
    }
    Ok(objects)
}
