//! Two lists of things by rising URI, gone through together.

ghost use Rattle.std.specs.Prelude.{◌≡◌, ◌++◌, ℕ, List, Option, None, option_copied, option_to_list, IfOk, OnOk};
ghost use Rattle.pub_set.specs.Objects.{Rise};
ghost use Rattle.editions.specs.Joining.{first_pair, rest_of, IsAt, IsJoined};

use pub_set::Uri;
use std::alloc::{AllocError, Global};
use std::cmp::Ordering;

/// Something at a URI.
pub trait AtUri {
    ghost place: { Self → List ℕ };

    fn uri(&self) -> &Uri
        ensures { result.now ≡ place self.now };
}

/// What comes of what stands at a URI, and of what comes there.
pub trait Joins<A: AtUri, B: AtUri>: AtUri + Drop {
    ghost joined: { Option A → Option B → Option Self };

    fn join(
        alloc: Global,
        stands: Option<&A>,
        comes: Option<&B>,
    ) -> Result<Option<Self>, AllocError>
        ensures { IfOk result (λ x. x ≡ joined (option_copied stands.entry) (option_copied comes.entry)) };

    // Nothing comes of nothing.
    ghost nothing: { joined None None ≡ None };

    // What comes of them is where they are.
    ghost stays: { (stands : Option A) (comes : Option B) (uri : List ℕ)
        → IsAt A.place uri stands → IsAt B.place uri comes → IsAt Self.place uri (joined stands comes) };
}

// The things at the least URI of both lists.
fn first_pair<'a, A: AtUri, B: AtUri>(
    left: &'a [A],
    right: &'a [B],
) -> (Option<&'a A>, Option<&'a B>)
    ensures left { option_copied result.0 ≡ (first_pair A.place B.place left.now right.now).0 }
    ensures right { option_copied result.1 ≡ (first_pair A.place B.place left.now right.now).1 }
{
    match (left.first(), right.first()) {
        (Some(stands), Some(comes)) => {
            match stands.uri().as_str().cmp(comes.uri().as_str()) {
                Ordering::Less => (Some(stands), None),
                Ordering::Equal => (Some(stands), Some(comes)),
                Ordering::Greater => (None, Some(comes)),
            }
        }
        firsts => firsts,
    }
}

// What is left without the first thing, if it is taken.
fn rest_of<'a, T>(things: &'a [T], first: Option<&T>) -> &'a [T]
    ensures { result.now ≡ rest_of (option_copied first.entry) things.now }
{
    match (first, things.split_first()) {
        (Some(_), Some((_, rest))) => rest,
        _ => things,
    }
}

// Puts what comes of the two behind the others.
fn push_joined<A: AtUri, B: AtUri, C: Joins<A, B>>(
    alloc: Global,
    all: &mut Vec<C>,
    stands: Option<&A>,
    comes: Option<&B>,
) -> Result<(), AllocError>
    ensures { OnOk result (all.new.items ≡ all.old.items
        ++ option_to_list (C.joined (option_copied stands.entry) (option_copied comes.entry))) }
{
    if let Some(joined) = C::join(alloc, stands, comes)? {
        all.push(joined)?;
    }
    Ok(())
}

/// At each URI what comes of what the two lists have there. Linear in their lengths.
pub fn join_all<A: AtUri, B: AtUri, C: Joins<A, B>>(
    alloc: Global,
    left: &[A],
    right: &[B],
) -> Result<Vec<C>, AllocError>
    requires left { Rise A.place left.now }
    requires right { Rise B.place right.now }
    ensures { IfOk result (λ all. IsJoined A.place B.place C.place C.joined left.now right.now all.items) }
{
    let (mut stands, mut comes) = (left, right);
    let mut all = Vec::with_capacity(alloc, left.len().saturating_add(right.len()))?;
    'pairs: while !(stands.is_empty() && comes.is_empty()) {
        let (one, other) = first_pair(stands, comes);
        push_joined(alloc, &mut all, one, other)?;
        stands = rest_of(stands, one);
        comes = rest_of(comes, other);
    }
    Ok(all)
}
