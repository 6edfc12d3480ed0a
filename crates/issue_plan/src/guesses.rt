//! Guesses at which owed origin a ROA is of. Nothing rests on a guess: what it names is looked at.

ghost use Rattle.std.specs.Prelude.{◌≡◌, true, IfSome};
ghost use Rattle.issue_plan.specs.inner.OwedPlaces.{is_that};

use crate::serving::is_same_origin;
use entitle::Owed;
use origins::Origin;
use std::alloc::{AllocError, Global};

/// Owed origins by their hashes.
#[derive(Drop)]
pub struct Guesses {
    // How many places an origin's first one is among, twice as many as there are origins.
    span: usize,
    // At a place one more than the index of an origin, or 0.
    places: Vec<u32>,
}

// How many places an origin may stand at, one behind the other. Where hashes are spread evenly, some 1 in 200 finds none
// of the first eight free, and next to none finds none of these. What isn't guessed is spelled and looked for, which
// takes far longer.
const TURNS: usize = 32;

// One more than the greatest number of 64 bits.
const WORD: u128 = 0x1_0000_0000_0000_0000;

// A hash of 32 bits. Its four products wait for none of each other.
fn hash(desk: u32, origin: &Origin) -> u64 {
    let address = origin.prefix.address;
    let low = ((address % WORD) as u64).wrapping_mul(0x9e37_79b9_7f4a_7c15);
    let high = ((address / WORD) as u64).wrapping_mul(0xc2b2_ae3d_27d4_eb4f);
    let number = (origin.asn as u64)
        .wrapping_mul(256)
        .wrapping_add(origin.prefix.length as u64)
        .wrapping_mul(0xd6e8_feb8_6659_fd93);
    let place = (desk as u64).wrapping_mul(0x1656_67b1_9e37_79f9);
    let mixed = low
        .wrapping_add(high)
        .wrapping_add(number)
        .wrapping_add(place);
    (mixed ^ (mixed >> 29)).wrapping_mul(0x9e37_79b9_7f4a_7c15) >> 32
}

// The first place of an origin.
fn first_place(span: usize, desk: u32, origin: &Origin) -> usize {
    (hash(desk, origin).wrapping_mul(span as u64) >> 32) as usize
}

// Whether the origin with that index is the one.
fn is_at(owed: &[Owed], index: usize, desk: u32, origin: &Origin) -> bool
    ensures { result ≡ is_that owed.now index desk origin.now }
{
    match owed.get(index) {
        Some(each) => each.desk == desk && is_same_origin(&each.origin, origin),
        None => false,
    }
}

impl Guesses {
    /// Guesses at these.
    pub fn of(alloc: Global, owed: &[Owed]) -> Result<Guesses, AllocError> {
        Guesses::between(alloc, owed, 0, owed.len())
    }

    /// Guesses at those of the desk, which stand one behind the other.
    pub fn of_desk(alloc: Global, owed: &[Owed], desk: u32) -> Result<Guesses, AllocError> {
        let first = owed.partition_point(|each| each.desk < desk);
        let end = owed.partition_point(|each| each.desk <= desk);
        Guesses::between(alloc, owed, first, end)
    }

    // Guesses at those from an index up to another.
    fn between(
        alloc: Global,
        owed: &[Owed],
        first: usize,
        end: usize,
    ) -> Result<Guesses, AllocError> {
        let span = end.saturating_sub(first).saturating_mul(2);
        let places = vec![in alloc; 0; span.saturating_add(TURNS)]?;
        let mut guesses = Guesses { span, places };
        for index in first..end {
            if let Some(each) = owed.get(index) {
                guesses.put(each, index);
            }
        }
        Ok(guesses)
    }

    // Puts an origin's index at the first place that is free. Where none is, no guess names it.
    fn put(&mut self, owed: &Owed, index: usize) {
        let Ok(mark) = u32::try_from(index.saturating_add(1)) else {
            return;
        };
        let first = first_place(self.span, owed.desk, &owed.origin);
        for turn in 0..TURNS {
            match self.places.get_mut(first.wrapping_add(turn)) {
                Some(place) if *place == 0 => {
                    *place = mark;
                    return;
                }
                _ => {}
            }
        }
    }

    /// The index that an origin of a desk is likely to have among these.
    pub fn index_of(&self, owed: &[Owed], desk: u32, origin: &Origin) -> Option<usize>
        ensures { IfSome result (λ index. is_that owed.now index desk origin.now ≡ true) }
    {
        let first = first_place(self.span, desk, origin);
        for turn in 0..TURNS {
            let mark = *self.places.get(first.wrapping_add(turn))?;
            let index = mark.checked_sub(1)? as usize;
            if is_at(owed, index, desk, origin) {
                return Some(index);
            }
        }
        None
    }
}
