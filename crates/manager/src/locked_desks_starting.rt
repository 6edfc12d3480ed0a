//! The desks are put behind their locks.
ghost use Rattle.std.specs.Prelude.{◌≡◌, ◌<◌, ◌≤◌, ◌+◌, ◌++◌, [], ◌∷◌, None, All, map, length, vec_capacity, IfOk, IfErr, List};
ghost use Rattle.authority_book.specs.Verdict.{most_authorities};
ghost use Rattle.notice_board.specs.declared.shown.ShownEdition.{ShownEdition};
ghost use Rattle.manager.specs.Lists.{IsListed};
ghost use Rattle.manager.specs.Starting.{AreOpenedDesks, IsFirstPass, first_seat, first_places};
ghost use Rattle.manager.specs.Ready.{desk_in};
ghost use Rattle.manager.specs.Risen.{IsRisenDesk, AreRisenDesks};
ghost use Rattle.manager.specs.Limits.{IsWithinLimit};

use crate::{DeskSeat, Followers, LockedDesk, LockedDesks, Names, OpenedDesk, Pass, Words};
use commit_word::{Follower, Word};
use desk_core::CountedDesk;
use disk_api::Disk;
use notice_board::Viewer;
use std::alloc::{AllocError, Global};
use std::sync::Mutex;

/// The desks behind their locks; the first pass; and followers of the desks' words, for the press.
#[derive(Drop)]
pub struct StartedDesks<N: Names, D: Disk> {
    pub desks: LockedDesks<N, D>,
    pub pass: Pass<N>,
    pub followers: Followers<N>,
}

/// The desks as they were, where there was no memory.
#[derive(Drop)]
pub struct UnstartedDesks<D: Disk> {
    pub desks: Vec<OpenedDesk<D>>,
    pub fault: AllocError,
}

// What lies behind the locks and beside them, as far as it was put there.
#[derive(Drop)]
struct Parts<N: Names, D: Disk> {
    words: Vec<Word>,
    locks: Vec<Mutex<LockedDesk<N, D>>>,
    seats: Vec<DeskSeat>,
    followers: Vec<Follower>,
}

impl<N: Names, D: Disk> LockedDesks<N, D> {
    /// Puts the desks behind their locks. The first pass has seen the records that were found, and the editions
    /// that its viewers have seen. One of these is its own, and the others are for passes that are split off.
    pub fn start(
        alloc: Global,
        desks: Vec<OpenedDesk<D>>,
        signers: u32,
        viewers: Vec<Viewer>,
    ) -> Result<StartedDesks<N, D>, UnstartedDesks<D>>
        requires desks { (length desks.items ≡ most_authorities) × AreOpenedDesks N.words N.named 0 desks.items }
        requires faults { AreRisenDesks D.Disk N.named (map desk_in desks.items) }
        requires signers { signers ≡ length N.named.signers }
        requires viewers { (length viewers.items ≡ first_places + 1) × All (λ viewer. viewer.list ≡ N.named.list) viewers.items }
        ensures first { IfOk result (λ started. IsFirstPass N.named started.pass) }
        ensures shown { IfOk result (λ started. (shown : List ShownEdition) → All (λ viewer. viewer.seen ≡ shown) viewers.items → started.pass.shown ≡ shown) }
        ensures followers { IfOk result (λ started. started.followers ≡ map first_seat desks.items) }
        ensures refused { IfErr result (λ refused. refused.desks.items ≡ desks.items) }
    {
        let mut parts = match reserved(alloc, desks.len()) {
            Ok(parts) => parts,
            Err(fault) => return Err(UnstartedDesks { desks, fault }),
        };
        put_all(alloc, desks, &mut parts);
        let mut spare = viewers;
        let Some(viewer) = spare.pop() else {
            unreachable!()
        };
        let Parts {
            words,
            locks,
            seats,
            followers,
        } = parts;
        let words = Words::new(words);
        let pass = Pass::new(seats, viewer, spare);
        let followers = Followers::new(followers);
        Ok(StartedDesks {
            desks: LockedDesks::over(words, locks, signers),
            pass,
            followers,
        })
    }
}

// No parts yet, with room for those of so many desks.
fn reserved<N: Names, D: Disk>(alloc: Global, count: usize) -> Result<Parts<N, D>, AllocError>
    ensures words { IfOk result (λ parts. (parts.words.items ≡ []) × (count ≤ vec_capacity parts.words)) }
    ensures locks { IfOk result (λ parts. (parts.locks.items ≡ []) × (count ≤ vec_capacity parts.locks)) }
    ensures seats { IfOk result (λ parts. (parts.seats.items ≡ []) × (count ≤ vec_capacity parts.seats)) }
    ensures followers { IfOk result (λ parts. (parts.followers.items ≡ []) × (count ≤ vec_capacity parts.followers)) }
{
    Ok(Parts {
        words: Vec::with_capacity(alloc, count)?,
        locks: Vec::with_capacity(alloc, count)?,
        seats: Vec::with_capacity(alloc, count)?,
        followers: Vec::with_capacity(alloc, count)?,
    })
}

// Puts these desks, from the first number on, into empty parts with room for them.
fn put_all<N: Names, D: Disk>(alloc: Global, desks: Vec<OpenedDesk<D>>, parts: &mut Parts<N, D>)
    requires desks { AreOpenedDesks N.words N.named 0 desks.items }
    requires faults { AreRisenDesks D.Disk N.named (map desk_in desks.items) }
    requires words { (parts.old.words.items ≡ []) × (length desks.items ≤ vec_capacity parts.old.words) }
    requires locks { (parts.old.locks.items ≡ []) × (length desks.items ≤ vec_capacity parts.old.locks) }
    requires seats { (parts.old.seats.items ≡ []) × (length desks.items ≤ vec_capacity parts.old.seats) }
    requires followers { (parts.old.followers.items ≡ []) × (length desks.items ≤ vec_capacity parts.old.followers) }
    ensures words { parts.new.words.items ≡ map (λ desk. desk.word) desks.items }
    ensures locks { length parts.new.locks.items ≡ length desks.items }
    ensures seats { parts.new.seats.items ≡ map first_seat desks.items }
    ensures followers { parts.new.followers.items ≡ map first_seat desks.items }
{
    for desk in desks {
        let (counted, word) = desk.into_parts();
        put(alloc, counted, word, parts);
    }
}

// Puts a desk behind its lock, with its word, a seat of the first pass and a follower for the press beside it.
fn put<N: Names, D: Disk>(alloc: Global, desk: CountedDesk<D>, word: Word, parts: &mut Parts<N, D>)
    requires word { (desk.word ≡ word) × (word ≡ N.words desk.desk.number) }
    requires listed { IsListed (length N.named.signers) desk.desk }
    requires is_open { desk.desk.shut ≡ None }
    requires faults { IsRisenDesk D.Disk N.named desk.desk }
    requires limit { IsWithinLimit N.named desk.desk }
    requires recovered { desk.recovered ≡ length desk.desk.records }
    requires words { length parts.old.words.items < vec_capacity parts.old.words }
    requires locks { length parts.old.locks.items < vec_capacity parts.old.locks }
    requires seats { length parts.old.seats.items < vec_capacity parts.old.seats }
    requires followers { length parts.old.followers.items < vec_capacity parts.old.followers }
    ensures words { (parts.new.words.items ≡ parts.old.words.items ++ word ∷ []) × (vec_capacity parts.new.words ≡ vec_capacity parts.old.words) }
    ensures locks { (length parts.new.locks.items ≡ length parts.old.locks.items + 1) × (vec_capacity parts.new.locks ≡ vec_capacity parts.old.locks) }
    ensures seats { (parts.new.seats.items ≡ parts.old.seats.items ++ first_seat desk ∷ []) × (vec_capacity parts.new.seats ≡ vec_capacity parts.old.seats) }
    ensures followers { (parts.new.followers.items ≡ parts.old.followers.items ++ first_seat desk ∷ []) × (vec_capacity parts.new.followers ≡ vec_capacity parts.old.followers) }
{
    let mut desk = desk;
    let own = follower_of(alloc, &mut desk, &word);
    let other = follower_of(alloc, &mut desk, &word);
    let recovered = desk.desk().len();
    parts.words.push_reserved(word);
    parts.locks.push_reserved(Mutex::new(LockedDesk::new(desk)));
    parts.seats.push_reserved(DeskSeat::new(own, recovered));
    parts.followers.push_reserved(other);
}

// A follower of the desk's word, which takes no memory.
fn follower_of<D: Disk>(alloc: Global, desk: &mut CountedDesk<D>, word: &Word) -> Follower
    requires { word.now ≡ desk.old.word }
    ensures same { desk.new ≡ desk.old }
    ensures given { result ≡ first_seat desk.old }
{
    let Ok(follower) = desk.follower(alloc, word) else {
        unreachable!()
    };
    follower
}
