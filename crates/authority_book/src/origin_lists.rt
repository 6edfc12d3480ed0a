//! Lists of route origins, as a command gives them.

ghost use Rattle.std.specs.Prelude.{◌≡◌, ◌↔◌, ◌<◌, ◌^◌, [], length, IfOk, IfSome, List, IsTrue};
ghost use Rattle.origins.specs.declared.Origin.{Origin};
ghost use Rattle.std.specs.List.Sorted.{IsSorted};
ghost use Rattle.authority_book.specs.Origins.{origin_cmp, is_there, first_repeated, IsAscending};
ghost use Rattle.authority_book.specs.inner.Index.{IsIndexed};

use origins::Origin;
use std::alloc::{AllocError, Global};
use std::collections::BTreeSet;
use std::marker::Model;

/// Route origins in the order in which they were given, repetitions and all.
///
/// Beside a list that isn't short stands the same list in order, so that look-ups take logarithmic
/// time and a verdict on a command takes no memory. A clause sees the list alone.
#[derive(Drop)]
pub struct OriginList {
    items: Vec<Origin>,
    index: Option<Box<Index>>,
}

// The origins of a list in order, and the first that stands earlier in the list.
#[derive(Drop)]
struct Index {
    sorted: Vec<Origin>,
    repeated: Option<Origin>,
}

// A list of so many origins at most is looked through as it stands.
const SHORT_LEN: usize = 8;

// A list has fewer than 2^32 origins, so that a count of 4 bytes holds their number.
const MOST_LEN: usize = u32::MAX as usize;

impl Model for OriginList {
    ghost Value = { List Origin };

    ghost view = { λ list. list.items.items };

    ghost invariant = { λ list. (length list.items.items < 2 ^ 32) × IfSome list.index (λ index. IsIndexed list.items.items index.value) };
}

impl OriginList {
    /// The list of these origins. There is no room for 2^32 or more.
    pub fn new(alloc: Global, items: Vec<Origin>) -> Result<OriginList, AllocError>
        ensures { IfOk result (λ list. list ≡ items.items) }
    {
        if items.len() > MOST_LEN {
            return Err(AllocError);
        }
        if items.len() <= SHORT_LEN {
            return Ok(OriginList { items, index: None });
        }
        let index = Box::new(alloc, index_many(alloc, items.as_slice())?)?;
        Ok(OriginList {
            items,
            index: Some(index),
        })
    }

    /// The origins in their order.
    pub fn as_slice(&self) -> &[Origin]
        ensures { result.now ≡ self.now }
    {
        self.items.as_slice()
    }

    /// How many origins the list has, counting each repetition.
    pub fn len(&self) -> usize
        ensures len { result ≡ length self.now }
        ensures small { result < 2 ^ 32 }
    {
        self.items.len()
    }

    /// Whether the list has no origin.
    pub fn is_empty(&self) -> bool
        ensures { IsTrue result ↔ (self.now ≡ []) }
    {
        self.items.is_empty()
    }

    /// The origins in their order, as they were given.
    pub fn into_vec(self) -> Vec<Origin>
        ensures { result.items ≡ self }
    {
        self.items
    }

    /// The same list once more.
    pub fn copy(&self, alloc: Global) -> Result<OriginList, AllocError>
        ensures { IfOk result (λ copy. copy ≡ self.now) }
    {
        let index = match &self.index {
            Some(index) => Some(Box::new(alloc, copy_index(alloc, index)?)?),
            None => None,
        };
        Ok(OriginList {
            items: self.items.as_slice().to_vec(alloc)?,
            index,
        })
    }

    /// Whether the list has the origin, found in logarithmic time.
    pub fn contains(&self, origin: &Origin) -> bool
        ensures { result ≡ is_there self.now origin.now }
    {
        match &self.index {
            Some(index) => index.sorted.binary_search(origin).is_ok(),
            None => is_in(self.items.as_slice(), origin),
        }
    }

    /// The first origin that stands earlier in the list, if an origin stands there twice.
    pub fn first_repeated(&self) -> Option<Origin>
        ensures { result ≡ first_repeated self.now }
    {
        match &self.index {
            Some(index) => index.repeated,
            None => repeated_of_few(self.items.as_slice()),
        }
    }
}

// The first origin that stands earlier in the list, which is short.
fn repeated_of_few(items: &[Origin]) -> Option<Origin>
    ensures { result ≡ first_repeated items.now }
{
    for place in 0..items.len() {
        let origin = &items[place];
        if is_in(&items[..place], origin) {
            return Some(*origin);
        }
    }
    None
}

// What stands beside a list that isn't short.
fn index_many(alloc: Global, items: &[Origin]) -> Result<Index, AllocError>
    ensures { IfOk result (IsIndexed items.now) }
{
    let mut sorted = items.to_vec(alloc)?;
    if is_rising(items) {
        return Ok(Index {
            sorted,
            repeated: None,
        });
    }
    sorted.sort_unstable();
    let repeated = if is_ascending(&sorted) {
        None
    } else {
        repeated_of_many(alloc, items)?
    };
    Ok(Index { sorted, repeated })
}

fn copy_index(alloc: Global, index: &Index) -> Result<Index, AllocError>
    ensures { IfOk result (λ copy. (copy.sorted.items ≡ index.now.sorted.items) × (copy.repeated ≡ index.now.repeated)) }
{
    Ok(Index {
        sorted: index.sorted.as_slice().to_vec(alloc)?,
        repeated: index.repeated,
    })
}

// Whether each origin of a list is above the one before it, as most callers give them.
fn is_rising(items: &[Origin]) -> bool
    ensures { IsTrue result → IsAscending items.now }
{
    for place in 1..items.len() {
        if !items[place - 1].cmp(&items[place]).is_lt() {
            return false;
        }
    }
    true
}

// Whether each origin of a sorted list is above the one before it.
fn is_ascending(sorted: &[Origin]) -> bool
    requires { IsSorted origin_cmp sorted.now }
    ensures { IsTrue result → IsAscending sorted.now }
{
    for place in 1..sorted.len() {
        if sorted[place - 1].cmp(&sorted[place]).is_eq() {
            return false;
        }
    }
    true
}

// The first origin that stands earlier in the list.
fn repeated_of_many(alloc: Global, items: &[Origin]) -> Result<Option<Origin>, AllocError>
    ensures { IfOk result (λ repeated. repeated ≡ first_repeated items.now) }
{
    let mut members = BTreeSet::new(alloc);
    for origin in items {
        let is_new = members.insert(*origin)?;
        if !is_new {
            return Ok(Some(*origin));
        }
    }
    Ok(None)
}

// Whether the list has the origin, by looking at each.
fn is_in(list: &[Origin], origin: &Origin) -> bool
    ensures { result ≡ is_there list.now origin.now }
{
    list.iter().any(|other| origin.cmp(other).is_eq())
}
