//! What a session knows and has made: it hands its pass to each call.
ghost use Rattle.std.specs.Prelude.{◌≡◌, ◌≢◌, ◌≤◌, ◌<◌, ◌-◌, ◌++◌, [], ◌∷◌, ℕ, true, List, All, map, take, length, vec_capacity, IfOk, IfErr, OnOk, OnErr};
ghost use mathlib.Core.List.{IsPrefix};
ghost use Rattle.authority_book.specs.Verdict.{most_authorities};
ghost use Rattle.notice_board.specs.Lists.{last_serial, rises};
ghost use Rattle.notice_board.specs.Rows.{IsRowShown};
ghost use Rattle.authority_book.specs.declared.commands.Command.{Command};
ghost use Rattle.press_core.specs.PrepareInput.{start_of};
ghost use Rattle.manager.specs.Lists.{AreSeen, seat_at, IsListed};
ghost use Rattle.manager.specs.Gathered.{AreSince};
ghost use Rattle.manager.specs.Answers.{IsAnswered, IsBehind, IsNextShown, IsStill, IsNotPublished, IsMetBy};
ghost use Rattle.manager.specs.Passes.{Knows, ComesTo, KnowsMore, unmade, IsSplitOff, IsJoined, AreJoined, AreSeatsOf};
ghost use Rattle.manager.specs.Commanding.{IsTaken, IsRefusedAt};

use crate::passes_seats::DeskSeat;
use crate::{LockedDesk, LockedPress, MOST_SESSIONS, Names, PublishFault, Words};
use authority_book::Command;
use commit_word::Word;
use desk_core::DeskFault;
use disk_api::Disk;
use editions::{Gathered, PublishedNumbers};
use notice_board::{SheetRow, Viewer};
use outlet_api::Outlet;
use signer_api::Signer;
use std::alloc::{AllocError, Global};
use std::marker::{Model, PhantomData};
use std::sync::Wait;
use std::thread::Threads;

/// A seat at each desk's word, a viewer of the board, and viewers for the passes that can still be split off.
#[derive(Drop)]
pub struct Pass<N: Names> {
    seats: Vec<DeskSeat>,
    viewer: Viewer,
    spare: Vec<Viewer>,
    of: PhantomData<N>,
}

impl<N: Names> Model for Pass<N> {
    ghost use Rattle.std.specs.Prelude.{◌≡◌, All, length};
    ghost use Rattle.authority_book.specs.Verdict.{most_authorities};
    ghost use Rattle.manager.specs.Passes.{PassValue, AreSeatsOf};

    ghost Value = { PassValue };

    ghost view = { λ p. record { seats = p.seats.items; shown = p.viewer.seen; places = length p.spare.items } };

    ghost invariant = { λ p. (length p.seats.items ≡ most_authorities) × AreSeatsOf N.words N.named p.seats.items
        × (p.viewer.list ≡ N.named.list) × All (λ viewer. viewer.list ≡ N.named.list) p.spare.items };
}

impl<N: Names> Pass<N> {
    ghost use Rattle.std.specs.Prelude.{◌≡◌, All, length};
    ghost use Rattle.authority_book.specs.Verdict.{most_authorities};
    ghost use Rattle.manager.specs.Passes.{AreSeatsOf};

    /// A pass of these seats and this viewer, from which as many can be split off as there are others.
    pub fn new(seats: Vec<DeskSeat>, viewer: Viewer, spare: Vec<Viewer>) -> Pass<N>
        requires seats { (length seats.items ≡ most_authorities) × AreSeatsOf N.words N.named seats.items }
        requires viewer { viewer.list ≡ N.named.list }
        requires spare { All (λ other. other.list ≡ N.named.list) spare.items }
        ensures { result ≡ record { seats = seats.items; shown = viewer.seen; places = length spare.items } }
    {
        Pass {
            seats,
            viewer,
            spare,
            of: PhantomData,
        }
    }

    /// How many desks there are. Of each the commands are known whose records were seen.
    pub fn desks(&self) -> usize
        ensures count { result ≡ most_authorities }
        ensures all { length self.now.seats ≡ most_authorities }
        ensures known { (desk : ℕ) → desk < most_authorities → (commands : List Command) × Knows self.now.seats desk commands }
    {
        self.seats.len()
    }

    /// How many passes can still be split off.
    pub fn places(&self) -> usize
        ensures { result ≡ self.now.places }
    {
        self.spare.len()
    }

    /// Looks at the board, and answers the serial of the edition that is shown. It waits for nobody.
    pub fn look(&mut self) -> u64
        ensures rest { self.new ≡ record self.old { shown = self.new.shown } }
        ensures grows { IsPrefix self.old.shown self.new.shown }
        ensures serial { result ≡ last_serial self.new.shown }
        ensures never_falls { last_serial self.old.shown ≤ result }
    {
        self.viewer.serial()
    }

    /// Looks at the board, and answers the row of that desk. It waits for nobody.
    pub fn row(&mut self, alloc: Global, desk: u32) -> Result<SheetRow, AllocError>
        ensures rest { self.new ≡ record self.old { shown = self.new.shown } }
        ensures grows { IsPrefix self.old.shown self.new.shown }
        ensures row { IfOk result (IsRowShown self.new.shown desk) }
    {
        self.viewer.row(alloc, desk)
    }

    /// The serial of the edition that was seen last. It doesn't look. Those that were seen have rising serials.
    pub fn last_seen(&self) -> u64
        ensures serial { result ≡ last_serial self.now.shown }
        ensures rises { rises self.now.shown ≡ true }
    {
        self.viewer.last_seen()
    }

    /// Publishes what was gathered with the press, whose lock is held, and sees all editions that are shown then.
    pub(crate) fn publish<D: Disk, S: Signer + Send, O: Outlet, R: Threads + Wait + Sync>(
        &mut self,
        rt: &R,
        alloc: Global,
        press: &mut LockedPress<N, D, S, O>,
        now: u64,
        gathered: Vec<Gathered>,
    ) -> Result<PublishedNumbers, PublishFault<D, O>>
        requires { (lists : List (List Command)) → AreSeen (length N.named.signers) lists press.old.seats
            → AreSince 0 lists press.old.press.press.at.cut gathered.items }
        ensures rest { self.new ≡ record self.old { shown = self.new.shown } }
        ensures grows { IsPrefix self.old.shown self.new.shown }
        ensures whole { self.new.shown ≡ press.new.board.shown }
        ensures published { IfOk result (λ told. IsAnswered told press.old.seats self.new.shown) }
        ensures behind { IfOk result (IsBehind now press.old.press.press.at) }
        ensures next { IfOk result (λ told. IsNextShown now press.old.board.shown told press.new.board.shown) }
        ensures still { IfErr result (IsStill now press.old.board.shown press.new.board.shown) }
        ensures refused { IfErr result (IsNotPublished press.old.seats self.new.shown) }
        ensures cause { IfErr result (IsMetBy D.Disk (start_of press.old.press.press now gathered.items) press.old.press press.new.press) }
    {
        press.publish(rt, alloc, now, gathered, &mut self.viewer)
    }

    /// Sees all editions that the press has shown, whose lock is held.
    pub(crate) fn tell<D: Disk, S: Signer, O: Outlet, R: Wait>(
        &mut self,
        rt: &R,
        press: &mut LockedPress<N, D, S, O>,
    )
        ensures rest { self.new ≡ record self.old { shown = self.new.shown } }
        ensures grows { IsPrefix self.old.shown self.new.shown }
        ensures whole { self.new.shown ≡ press.old.board.shown }
        ensures not_past { last_serial self.old.shown ≤ press.old.press.press.at.serial }
        ensures same { press.new ≡ press.old }
    {
        press.tell(rt, &mut self.viewer);
    }

    /// The seats, by the desks' numbers.
    pub(crate) fn into_seats(self) -> Vec<DeskSeat>
        ensures seats { result.items ≡ self.seats }
        ensures count { length result.items ≡ most_authorities }
        ensures all { AreSeatsOf N.words N.named result.items }
    {
        self.seats
    }

    /// Sees the whole list of the desk of that place, whose lock is held.
    pub(crate) fn learn<D: Disk>(
        &mut self,
        alloc: Global,
        word: &Word,
        place: usize,
        desk: &mut LockedDesk<N, D>,
    )
        requires place { place < most_authorities }
        requires desk { desk.old.desk.number ≡ place }
        requires word { word.now ≡ N.words place }
        ensures rest { self.new ≡ record self.old { seats = self.new.seats } }
        ensures more { KnowsMore self.old.seats self.new.seats }
        ensures others { (other : ℕ) → other ≢ place → seat_at self.new.seats other ≡ seat_at self.old.seats other }
        ensures known { ComesTo self.new.seats place desk.old.desk.settings }
        ensures whole { (seat_at self.new.seats place).seen ≡ desk.old.desk.records }
        ensures same { desk.new ≡ desk.old }
    {
        self.seats[place].learn(alloc, word, desk);
    }

    /// Gives a command to the desk of that place, whose lock is held.
    pub(crate) fn commit<D: Disk>(
        &mut self,
        alloc: Global,
        word: &Word,
        place: usize,
        desk: &mut LockedDesk<N, D>,
        command: Command,
        signers: u32,
    ) -> Result<u64, DeskFault<D>>
        requires place { place < most_authorities }
        requires desk { desk.old.desk.number ≡ place }
        requires word { word.now ≡ N.words place }
        requires signers { signers ≡ length N.named.signers }
        ensures rest { self.new ≡ record self.old { seats = self.new.seats } }
        ensures count { length self.new.seats ≡ length self.old.seats }
        ensures taken { IfOk result (λ count. IsTaken place command signers count (seat_at self.old.seats place) (seat_at self.new.seats place)) }
        ensures refused { IfErr result (λ fault. IsRefusedAt place command signers fault (seat_at self.old.seats place) (seat_at self.new.seats place)) }
        ensures others { (other : ℕ) → other ≢ place → seat_at self.new.seats other ≡ seat_at self.old.seats other }
    {
        self.seats[place].commit(alloc, word, desk, command, signers)
    }

    /// A pass that has seen no less and made nothing. It takes one of the places, and has none itself, but room for
    /// as many as there are.
    pub fn split(&mut self, alloc: Global, words: &Words<N>) -> Result<Pass<N>, AllocError>
        requires place { 0 < self.old.places }
        requires words { words.now ≡ most_authorities }
        ensures taken { OnOk result (self.new ≡ record self.old { places = self.old.places - 1 }) }
        ensures given { IfOk result (λ other. IsSplitOff self.old other) }
        ensures same { OnErr result (self.new ≡ self.old) }
    {
        let mut seats = Vec::with_capacity(alloc, self.seats.len())?;
        let room = Vec::with_capacity(alloc, MOST_SESSIONS)?;
        let Pass {
            seats: own,
            viewer,
            spare,
            ..
        } = self;
        let next = next_viewer(viewer, spare)?;
        split_seats(alloc, words, own, &mut seats);
        Ok(Pass {
            seats,
            viewer: next,
            spare: room,
            of: PhantomData,
        })
    }

    /// Takes in another pass: what either has seen is seen, what both made is this one's, and the places of both
    /// are left, with the one that the other had itself.
    ///
    /// It would wait for memory where both had more places than the first pass, which never comes: the room for as many
    /// was taken when this pass was made.
    pub fn join<R: Wait>(&mut self, rt: &R, words: &Words<N>, other: Pass<N>)
        requires { words.now ≡ most_authorities }
        ensures { IsJoined self.old other self.new }
    {
        let Pass {
            seats,
            viewer,
            spare,
            ..
        } = other;
        join_seats(words, &mut self.seats, seats);
        let left = self.viewer.join(viewer);
        put(rt, &mut self.spare, left);
        put_all(rt, &mut self.spare, spare);
    }
}

// A seat split off each of these, into an empty list with room for them.
fn split_seats<N: Names>(
    alloc: Global,
    words: &Words<N>,
    own: &mut Vec<DeskSeat>,
    into: &mut Vec<DeskSeat>,
)
    requires words { words.now ≡ length own.old.items }
    requires seats { AreSeatsOf N.words N.named own.old.items }
    requires empty { into.old.items ≡ [] }
    requires room { length own.old.items ≤ vec_capacity into.old }
    ensures same { own.new.items ≡ own.old.items }
    ensures given { into.new.items ≡ map unmade own.old.items }
{
    for place in 0..own.len() {
        let seat = own[place].split(alloc, words.at(place));
        into.push_reserved(seat);
    }
}

// Each seat takes in the other one of its desk.
fn join_seats<N: Names>(words: &Words<N>, own: &mut Vec<DeskSeat>, others: Vec<DeskSeat>)
    requires words { words.now ≡ length own.old.items }
    requires seats { AreSeatsOf N.words N.named own.old.items }
    requires others { AreSeatsOf N.words N.named others.items }
    requires count { length others.items ≡ length own.old.items }
    ensures { AreJoined own.old.items others.items own.new.items }
{
    let mut others = others;
    for _ in 0..own.len() {
        let Some(other) = others.pop() else {
            unreachable!()
        };
        let place = others.len();
        own[place].join(words.at(place), other);
    }
}

// One of the viewers that are left, which has then seen no less than this one.
fn next_viewer(viewer: &Viewer, spare: &mut Vec<Viewer>) -> Result<Viewer, AllocError>
    requires some { 0 < length spare.old.items }
    requires list { All (λ other. other.list ≡ viewer.now.list) spare.old.items }
    ensures next { IfOk result (λ next. (next.list ≡ viewer.now.list) × IsPrefix viewer.now.seen next.seen) }
    ensures taken { OnOk result (spare.new.items ≡ take (length spare.old.items - 1) spare.old.items) }
    ensures same { OnErr result (spare.new.items ≡ spare.old.items) }
{
    let Some(mut next) = spare.pop() else {
        unreachable!()
    };
    match next.meet(viewer) {
        Ok(()) => Ok(next),
        Err(fault) => {
            spare.push_reserved(next);
            Err(fault)
        }
    }
}

// Puts a viewer behind the others. It waits for memory where there is no room.
fn put<R: Wait>(rt: &R, spare: &mut Vec<Viewer>, viewer: Viewer)
    ensures { spare.new.items ≡ spare.old.items ++ viewer ∷ [] }
{
    let mut viewer = viewer;
    for _ in rt.forever() {
        match spare.push(viewer) {
            Ok(()) => return,
            Err(back) => viewer = back.value,
        }
    }
    unreachable!()
}

// Puts more of them behind the others.
fn put_all<R: Wait>(rt: &R, spare: &mut Vec<Viewer>, more: Vec<Viewer>)
    ensures { spare.new.items ≡ spare.old.items ++ more.items }
{
    let mut more = more;
    for _ in rt.forever() {
        if spare.append(&mut more).is_ok() {
            return;
        }
    }
    unreachable!()
}
