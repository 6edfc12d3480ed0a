//! Lists that rise, and the first value of a list that isn't above the one before it. Entries of a
//! ROA stand so (RFC 9582 section 4.3.3), and so do the names of a manifest here.

ghost use Rattle.std.specs.Prelude.{◌≡◌, Bool, map, IfOk};
ghost use Rattle.payloads.specs.Order.{rises, first_unordered};

use std::alloc::{AllocError, Global};

/// Values that a list of a body has in rising order.
pub trait Ranked {
    /// What contracts see of a value.
    ghost Meaning: { Type 0 };

    ghost view: { Self → Meaning };

    ghost below: { Meaning → Meaning → Bool };

    fn is_below(&self, other: &Self) -> bool
        ensures { result ≡ below (view self.now) (view other.now) };
}

/// The place of the first value that isn't above the one before it. Each value has its place, an
/// offset in bytes.
pub fn first_unordered<T: Ranked>(items: &[(u64, T)]) -> Option<u64>
    ensures { result ≡ first_unordered T.below (map (λ x. (x.0, T.view x.1)) items.now) }
{
    for i in 1..items.len() {
        if !items[i - 1].1.is_below(&items[i].1) {
            return Some(items[i].0);
        }
    }
    None
}

/// Whether each value is above the one before it.
pub fn are_rising<T: Ranked>(items: &[T]) -> bool
    ensures { result ≡ rises T.below (map T.view items.now) }
{
    for i in 1..items.len() {
        if !items[i - 1].is_below(&items[i]) {
            return false;
        }
    }
    true
}

/// The values without their places.
pub fn without_places<T: Drop>(alloc: Global, items: Vec<(u64, T)>) -> Result<Vec<T>, AllocError>
    ensures { IfOk result (λ out. out.items ≡ map (λ x. x.1) items.items) }
{
    let mut out = Vec::with_capacity(alloc, items.len())?;
    for (_, item) in items {
        out.push(item)?;
    }
    Ok(out)
}
