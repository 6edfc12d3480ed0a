//! Route origins in ascending order, changed in place and without memory.

ghost use Rattle.std.specs.Prelude.{◌≡◌, ◌+◌, ◌-◌, ◌<◌, ◌≤◌, ◌++◌, ◌∷◌, [], false, length, None, drop, insert, remove, IfOk, OnOk, OnErr, IsOk};
ghost use Rattle.std.specs.List.{IsDistinct};
ghost use Rattle.std.specs.Vec.{vec_capacity, vec_len};
ghost use Rattle.authority_book.specs.Origins.{is_same, is_there, without, with_one, with_each, IsAscending};
ghost use Rattle.authority_book.specs.inner.Kept.{KeptOrigins};
ghost use Rattle.authority_book.specs.Verdict.{roas_refusal};

use crate::origin_lists::OriginList;
use origins::Origin;
use std::alloc::{AllocError, Global};
use std::marker::Model;

// So few origins are looked up and moved one by one. Of more, all are gone through.
const FEW: usize = 8;

/// Route origins in ascending order. Before the first stands a gap of origins that no longer
/// count, so that a change moves only what stands on the shorter side of its place.
#[derive(Drop)]
pub struct SortedOrigins {
    items: Vec<Origin>,
    start: usize,
}

impl Model for SortedOrigins {
    ghost Value = { KeptOrigins };

    ghost view = { λ kept. record {
      items = drop kept.start kept.items.items;
      room = vec_capacity kept.items - (vec_len kept.items - kept.start);
      gap = kept.start;
    } };

    ghost invariant = { λ kept. kept.start ≤ vec_len kept.items };
}

impl SortedOrigins {
    /// No origins.
    pub fn new(alloc: Global) -> SortedOrigins
        ensures { result.items ≡ [] }
    {
        SortedOrigins {
            items: Vec::new(alloc),
            start: 0,
        }
    }

    /// The origins in ascending order.
    pub fn as_slice(&self) -> &[Origin]
        ensures { result.now ≡ self.now.items }
    {
        &self.items[self.start..]
    }

    /// The same origins once more, without a gap.
    pub fn copy(&self, alloc: Global) -> Result<SortedOrigins, AllocError>
        ensures { IfOk result (λ copy. copy.items ≡ self.now.items) }
    {
        Ok(SortedOrigins {
            items: self.as_slice().to_vec(alloc)?,
            start: 0,
        })
    }

    /// Takes memory for so many more. A gap that is longer than the list is closed before.
    pub fn reserve(&mut self, count: usize) -> Result<(), AllocError>
        ensures items { self.new.items ≡ self.old.items }
        ensures room { OnOk result (count ≤ self.new.room) }
        ensures err { OnErr result (self.new.room ≡ self.old.room) }
        ensures enough { count ≤ self.old.room → IsOk result }
        ensures never_less { self.old.room ≤ self.new.room }
    {
        if self.as_slice().len() < self.start {
            self.close_gap();
        }
        match self.items.reserve(count) {
            Err(fault) if self.room() < count => Err(fault),
            _ => Ok(()),
        }
    }

    // How many more origins can be taken, the places of the gap among them.
    fn room(&self) -> usize
        ensures { result ≡ self.now.room }
    {
        self.items.capacity() - (self.items.len() - self.start)
    }

    // Moves the origins to the places of the gap.
    fn close_gap(&mut self)
        ensures items { self.new.items ≡ self.old.items }
        ensures room { self.new.room ≡ self.old.room }
        ensures gap { self.new.gap ≡ 0 }
    {
        self.items.drain(..self.start);
        self.start = 0;
    }

    /// Removes first and adds then, within the room that is there.
    pub fn update(&mut self, added: &OriginList, removed: &OriginList)
        requires ascending { IsAscending self.old.items }
        requires accepted { roas_refusal self.old.items added.now removed.now ≡ None }
        requires room { length added.now ≤ self.old.room }
        ensures items { self.new.items ≡ with_each (without self.old.items removed.now) added.now }
        ensures room { self.old.room ≤ self.new.room + length added.now }
    {
        self.remove_all(removed);
        self.add_all(added.as_slice());
    }

    fn remove_all(&mut self, removed: &OriginList)
        requires ascending { IsAscending self.old.items }
        ensures items { self.new.items ≡ without self.old.items removed.now }
        ensures room { self.old.room ≤ self.new.room }
    {
        if removed.len() > FEW {
            self.remove_many(removed);
        } else {
            self.remove_few(removed.as_slice());
        }
    }

    // Removes the origins by going through all.
    fn remove_many(&mut self, removed: &OriginList)
        ensures items { self.new.items ≡ without self.old.items removed.now }
        ensures room { self.old.room ≤ self.new.room }
    {
        self.close_gap();
        self.items.retain(|origin| !removed.contains(origin));
    }

    // Removes the origins one after another.
    fn remove_few(&mut self, removed: &[Origin])
        requires ascending { IsAscending self.old.items }
        ensures items { self.new.items ≡ without self.old.items removed.now }
        ensures room { self.old.room ≤ self.new.room }
    {
        for origin in removed {
            self.remove_one(origin);
        }
    }

    // Removes the origin, if it is there.
    fn remove_one(&mut self, origin: &Origin)
        requires ascending { IsAscending self.old.items }
        ensures items { self.new.items ≡ without self.old.items (origin.now ∷ []) }
        ensures room { self.old.room ≤ self.new.room }
    {
        if let Ok(place) = self.as_slice().binary_search(origin) {
            self.remove_at(place);
        }
    }

    // Removes the origin at the place and moves the shorter side.
    fn remove_at(&mut self, place: usize)
        requires { place < length self.old.items }
        ensures items { self.new.items ≡ remove self.old.items place }
        ensures room { self.old.room ≤ self.new.room }
    {
        let at = self.start + place;
        if place < self.items.len() - at {
            self.items[self.start..at + 1].rotate_right(1);
            self.start += 1;
        } else {
            self.items.remove(at);
        }
    }

    fn add_all(&mut self, added: &[Origin])
        requires ascending { IsAscending self.old.items }
        requires distinct { IsDistinct is_same (self.old.items ++ added.now) }
        requires room { length added.now ≤ self.old.room }
        ensures items { self.new.items ≡ with_each self.old.items added.now }
        ensures room { self.old.room ≤ self.new.room + length added.now }
    {
        if added.len() > FEW {
            self.sort_in(added);
        } else {
            self.insert_each(added);
        }
    }

    // Puts the origins in by sorting all.
    fn sort_in(&mut self, added: &[Origin])
        requires ascending { IsAscending self.old.items }
        requires distinct { IsDistinct is_same (self.old.items ++ added.now) }
        requires room { length added.now ≤ self.old.room }
        ensures items { self.new.items ≡ with_each self.old.items added.now }
        ensures room { self.old.room ≤ self.new.room + length added.now }
    {
        self.close_gap();
        self.items.extend_from_slice(added).unwrap();
        self.items.sort_unstable();
    }

    // Puts the origins in one after another.
    fn insert_each(&mut self, added: &[Origin])
        requires ascending { IsAscending self.old.items }
        requires distinct { IsDistinct is_same (self.old.items ++ added.now) }
        requires room { length added.now ≤ self.old.room }
        ensures items { self.new.items ≡ with_each self.old.items added.now }
        ensures room { self.old.room ≤ self.new.room + length added.now }
    {
        for origin in added {
            self.insert_one(*origin);
        }
    }

    // Puts one origin more at its place.
    fn insert_one(&mut self, origin: Origin)
        requires ascending { IsAscending self.old.items }
        requires absent { is_there self.old.items origin ≡ false }
        requires room { 0 < self.old.room }
        ensures items { self.new.items ≡ with_one self.old.items origin }
        ensures room { self.old.room ≤ self.new.room + 1 }
    {
        match self.as_slice().binary_search(&origin) {
            Ok(_) => unreachable!(),
            Err(place) => self.insert_at(place, origin),
        }
    }

    // Puts the origin at the place and moves the shorter side, if there is room beside it.
    fn insert_at(&mut self, place: usize, origin: Origin)
        requires bound { place ≤ length self.old.items }
        requires room { 0 < self.old.room }
        ensures items { self.new.items ≡ insert self.old.items place origin }
        ensures room { self.old.room ≤ self.new.room + 1 }
    {
        let at = self.start + place;
        let is_full = self.items.len() == self.items.capacity();
        if self.start > 0 && (is_full || place < self.items.len() - at) {
            self.start -= 1;
            self.items[self.start] = origin;
            self.items[self.start..at].rotate_left(1);
        } else {
            self.items.insert(at, origin).unwrap();
        }
    }
}
