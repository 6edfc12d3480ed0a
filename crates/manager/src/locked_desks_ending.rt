//! The desks out of their locks again, once no other thread has them.
ghost use Rattle.std.specs.Prelude.{◌≡◌, ◌≤◌, [], length, vec_capacity, reverse};
ghost use Rattle.authority_book.specs.Verdict.{most_authorities};
ghost use Rattle.manager.specs.inner.AtPlaces.{AreWords};
ghost use Rattle.manager.specs.Passes.{AreSeatsOf};
ghost use Rattle.manager.specs.Ended.{IsEndedDesk, AreEnded, IsLeftDesk, AreLeftDesks};
ghost use Rattle.manager.specs.Risen.{IsRisenDesk, AreRisenDesks};
ghost use Rattle.manager.specs.Limits.{IsWithinLimit, AreWithinLimit};

use crate::{DeskSeat, LockedDesk, LockedDesks, Names, Pass};
use commit_word::Word;
use desk_core::Desk;
use disk_api::Disk;
use std::alloc::Global;
use std::sync::{Mutex, Wait};

impl<N: Names, D: Disk> LockedDesks<N, D> {
    /// Puts the desks into an empty list with room for them, by their numbers. The pass is the one that all
    /// others were joined into: it made each command of each desk behind those that were recovered.
    ///
    /// It waits for ever where a pass is missing that made one of them.
    pub fn close<R: Wait>(self, rt: &R, alloc: Global, pass: Pass<N>, into: &mut Vec<Desk<D>>)
        requires empty { into.old.items ≡ [] }
        requires room { most_authorities ≤ vec_capacity into.old }
        ensures ended { AreEnded pass.seats into.new.items }
        ensures left { AreLeftDesks (length N.named.signers) into.new.items }
        ensures faults { AreRisenDesks D.Disk N.named into.new.items }
        ensures limits { AreWithinLimit N.named into.new.items }
    {
        let (words, locks) = self.into_parts();
        end_all(rt, alloc, words.into_vec(), locks, pass.into_seats(), into);
        into.reverse();
    }
}

// Takes the desks out of their locks, the last first.
fn end_all<N: Names, D: Disk, R: Wait>(
    rt: &R,
    alloc: Global,
    words: Vec<Word>,
    locks: Vec<Mutex<LockedDesk<N, D>>>,
    seats: Vec<DeskSeat>,
    into: &mut Vec<Desk<D>>,
)
    requires words { (length words.items ≡ length seats.items) × AreWords N.words words.items }
    requires locks { length locks.items ≡ length seats.items }
    requires seats { AreSeatsOf N.words N.named seats.items }
    requires empty { into.old.items ≡ [] }
    requires room { length seats.items ≤ vec_capacity into.old }
    ensures ended { AreEnded seats.items (reverse into.new.items) }
    ensures left { AreLeftDesks (length N.named.signers) (reverse into.new.items) }
    ensures faults { AreRisenDesks D.Disk N.named (reverse into.new.items) }
    ensures limits { AreWithinLimit N.named (reverse into.new.items) }
{
    let mut words = words;
    let mut locks = locks;
    let mut seats = seats;
    for _ in 0..seats.len() {
        let Some(word) = words.pop() else {
            unreachable!()
        };
        let Some(lock) = locks.pop() else {
            unreachable!()
        };
        let Some(seat) = seats.pop() else {
            unreachable!()
        };
        let desk = end(rt, alloc, word, lock, seat, seats.len());
        into.push_reserved(desk);
    }
}

// The desk of that number out of its lock. The seat made all of its list behind the recovered commands.
fn end<N: Names, D: Disk, R: Wait>(
    rt: &R,
    alloc: Global,
    word: Word,
    lock: Mutex<LockedDesk<N, D>>,
    seat: DeskSeat,
    number: usize,
) -> Desk<D>
    requires word { word ≡ N.words number }
    requires seat { seat.word ≡ N.words number }
    ensures ended { IsEndedDesk number seat result }
    ensures left { IsLeftDesk (length N.named.signers) result }
    ensures faults { IsRisenDesk D.Disk N.named result }
    ensures limit { IsWithinLimit N.named result }
{
    let mut desk = numbered(rt, lock.into_inner(), number);
    let mut seat = seat;
    seat.end(rt, alloc, &word, &mut desk);
    let counted = desk.into_inner();
    counted.into_desk(word)
}

// The desk, where it is the one of that number. It waits for ever where it isn't, which never comes.
fn numbered<N: Names, D: Disk, R: Wait>(
    rt: &R,
    desk: LockedDesk<N, D>,
    number: usize,
) -> LockedDesk<N, D>
    ensures same { result ≡ desk }
    ensures number { result.desk.number ≡ number }
{
    if desk.number() as usize == number {
        return desk;
    }
    for _ in rt.forever() {}
    unreachable!()
}
