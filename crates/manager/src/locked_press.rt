//! The press, as it lies behind its lock.

ghost use Rattle.std.specs.Prelude.{◌≡◌, ◌≢◌, ◌<◌, ◌≤◌, ◌&&◌, ℕ, List, length, slice_set, is_some, not, IfOk, IfErr, IfSome, OnOk, OnErr};
ghost use Rattle.authority_book.specs.declared.commands.Command.{Command};
ghost use Rattle.authority_book.specs.Verdict.{most_authorities};
ghost use mathlib.Core.List.{IsPrefix};
ghost use Rattle.manager.specs.Lists.{AreSeen, seat_at};
ghost use Rattle.desk_core.specs.Commands.{HasCommands};
ghost use Rattle.editions.specs.Edition.{cut_at};
ghost use Rattle.notice_board.specs.Lists.{last_serial};
ghost use Rattle.manager.specs.Gathered.{IsSince, AreSince};
ghost use Rattle.manager.specs.Answers.{IsAnswered, IsShownTo, IsNotPublished, IsUnexported, nothing_behind, is_of, is_exported};
ghost use Rattle.manager.specs.Answers.{IsBehind, IsNextShown, IsStill, IsUnmadeFor, IsMetBy, IsFaultOf, IsExportLeft, IsRepeated};
ghost use Rattle.press_core.specs.PrepareInput.{start_of};
ghost use Rattle.manager.specs.Locked.{IsLocked};
ghost use Rattle.manager.specs.Pressing.{exported_as};
ghost use Rattle.manager.specs.Made.{HasMade, HasMadeNone, MayHaveMade};
ghost use Rattle.manager.specs.Closing.{IsClosed};
ghost use Rattle.press_core.specs.Exports.{ended_by};
ghost use Rattle.outlet_api.specs.Faults.{IsCauseOf};
ghost use Rattle.manager.specs.Risen.{IsRisenPress, IsExportRise};
ghost use Rattle.press_core.specs.declared.last_export.LastExport.TheVariants.{Done, Failed};

use crate::pressing::{commit_shown, make_ready};
use crate::{Followers, LockedDesk, Names, PublishFault, Unmade};
use commit_word::Word;
use desk_core::commands_are_determined;
use disk_api::Disk;
use editions::{Gathered, PublishedNumbers, gathered_commands_go_on};
use items::Items;
use notice_board::{Board, Viewer};
use outlet_api::{ExportFault, Outlet};
use press_core::{
    LastExport, StoredPress, edition_records_go_on, more_commands_stand,
    more_commands_stay_published, more_editions_stay_shown, vouching_signers_vouch_for_editions,
};
use signer_api::Signer;
use signer_ring::Ring;
use std::alloc::{AllocError, Global};
use std::marker::Model;
use std::sync::Wait;
use std::thread::Threads;

/// What is left of a press behind a lock.
#[derive(Drop)]
pub struct Closed<N: Names, D: Disk, S: Signer, O: Outlet> {
    pub disk: D,
    pub ring: Ring<S>,
    pub followers: Followers<N>,
    pub outlet: O,
}

/// The press over its journal, a follower of each desk's word, the board on which editions are shown, and
/// the outlet.
pub struct LockedPress<N: Names, D: Disk, S: Signer, O: Outlet> {
    press: StoredPress<D, S>,
    followers: Followers<N>,
    board: Board,
    outlet: O,
}

impl<N: Names, D: Disk, S: Signer, O: Outlet> Model for LockedPress<N, D, S, O> {
    ghost use Rattle.manager.specs.Locked.{LockedValue, IsLocked};
    ghost use Rattle.manager.specs.Risen.{IsRisenPress};

    ghost Value = { LockedValue D O };

    ghost view = { λ l. record { press = l.press; seats = l.followers; board = l.board; outlet = l.outlet } };

    ghost invariant = { λ l. IsLocked O.Outlet N.named (record { press = l.press; seats = l.followers; board = l.board; outlet = l.outlet })
        × IsRisenPress D.Disk O.Outlet N.named l.press.journal l.outlet };
}

impl<N: Names, D: Disk, S: Signer, O: Outlet> LockedPress<N, D, S, O> {
    ghost use Rattle.manager.specs.Opening.{IsOpened};

    /// A press to be put behind a lock, over whatever store was opened.
    pub fn over(
        press: StoredPress<D, S>,
        followers: Followers<N>,
        board: Board,
        outlet: O,
    ) -> LockedPress<N, D, S, O>
        requires opened { IsOpened O.Outlet N.named (record { press = press; seats = followers; board = board; outlet = outlet }) }
        requires faults { IsRisenPress D.Disk O.Outlet N.named press.journal outlet }
        ensures { result ≡ record { press = press; seats = followers; board = board; outlet = outlet } }
    {
        LockedPress {
            press,
            followers,
            board,
            outlet,
        }
    }

    /// How many desks there are: each has a follower, and a number in the cut.
    pub fn desks(&self) -> usize
        ensures count { result ≡ most_authorities }
        ensures followers { length self.now.seats ≡ most_authorities }
        ensures cut { length self.now.press.press.at.cut ≡ most_authorities }
    {
        self.followers.len()
    }

    /// Sees the whole list of a desk, whose lock is held.
    pub fn learn(&mut self, alloc: Global, word: &Word, place: usize, desk: &mut LockedDesk<N, D>)
        requires place { place < length self.old.seats }
        requires desk { desk.old.desk.number ≡ place }
        requires word { word.now ≡ N.words place }
        ensures rest { self.new ≡ record self.old { seats = self.new.seats } }
        ensures set { self.new.seats ≡ slice_set self.old.seats place (record (seat_at self.old.seats place) { seen = desk.old.desk.records }) }
        ensures grows { IsPrefix (seat_at self.old.seats place).seen desk.old.desk.records }
        ensures same { desk.new ≡ desk.old }
    {
        more_commands_stand();
        more_commands_stay_published();
        commands_are_determined();
        self.followers.learn(alloc, word, place, desk);
    }

    /// How many commands of a desk the last edition takes in, which is no more than its follower has seen.
    pub fn from(&self, place: usize) -> u64
        requires { place < length self.now.seats }
        ensures cut { result ≡ cut_at self.now.press.press.at.cut place }
        ensures held { result ≤ length (seat_at self.now.seats place).seen }
    {
        self.press.press().cut()[place]
    }

    /// Gathers what a desk has accepted behind the cut, whose lock is held. The follower sees the whole list.
    pub fn gather(
        &mut self,
        alloc: Global,
        word: &Word,
        place: usize,
        desk: &mut LockedDesk<N, D>,
    ) -> Result<Gathered, AllocError>
        requires place { place < length self.old.seats }
        requires desk { desk.old.desk.number ≡ place }
        requires word { word.now ≡ N.words place }
        ensures rest { self.new ≡ record self.old { seats = self.new.seats } }
        ensures set { self.new.seats ≡ slice_set self.old.seats place (record (seat_at self.old.seats place) { seen = desk.old.desk.records }) }
        ensures grows { IsPrefix (seat_at self.old.seats place).seen desk.old.desk.records }
        ensures same { desk.new ≡ desk.old }
        ensures gathered { IfOk result (λ group. (commands : List Command) → HasCommands desk.old.desk commands
            → IsSince place commands (cut_at self.old.press.press.at.cut place) group) }
    {
        self.learn(alloc, word, place, desk);
        let from = self.from(place);
        let commands = desk.since(alloc, from)?;
        Ok(Gathered {
            desk: desk.number(),
            from,
            commands: Items::new(commands),
        })
    }

    /// Tells a viewer of all that was shown.
    pub fn tell<R: Wait>(&mut self, rt: &R, viewer: &mut Viewer)
        requires { viewer.old.list ≡ N.named.list }
        ensures same { self.new ≡ self.old }
        ensures list { viewer.new.list ≡ viewer.old.list }
        ensures grows { IsPrefix viewer.old.seen viewer.new.seen }
        ensures whole { viewer.new.seen ≡ self.old.board.shown }
        ensures not_past { last_serial viewer.old.seen ≤ self.old.press.press.at.serial }
        ensures kept { IsLocked O.Outlet N.named self.new }
    {
        self.board.tell(rt, viewer);
        viewer.last_seen();
    }

    /// The serial of the edition that was shown last, and 0 where there is none.
    pub fn serial(&self) -> u64
        ensures { result ≡ last_serial self.now.board.shown }
    {
        self.board.serial()
    }

    // Brings the edition to the outlet that was made.
    fn export_made(
        &mut self,
        alloc: Global,
        told: PublishedNumbers,
    ) -> Result<PublishedNumbers, PublishFault<D, O>>
        requires { self.old.press.press.at.serial ≢ 0 }
        ensures seats { self.new.seats ≡ self.old.seats }
        ensures board { self.new.board ≡ self.old.board }
        ensures press { self.new.press ≡ exported_as self.new.press.press.last_export self.old.press }
        ensures told { IfOk result (λ answer. answer ≡ told) }
        ensures exported { OnOk result (self.new.press.press.last_export ≡ Done self.new.press.press.at.serial) }
        ensures refused { IfErr result (IsUnexported told.serial) }
        ensures failed { OnErr result (self.new.press.press.last_export ≡ Failed) }
    {
        if let Err(fault) = self.export(alloc) {
            return Err(PublishFault::Unexported {
                serial: told.serial,
                fault,
            });
        }
        Ok(told)
    }

    // Why nothing is published. Where there was nothing to publish, the last edition is exported, if it isn't.
    fn refuse(&mut self, alloc: Global, fault: Unmade<D>) -> PublishFault<D, O>
        requires { IfSome (nothing_behind fault) (λ serial. IsShownTo serial self.old.seats self.old.board.shown) }
        ensures seats { self.new.seats ≡ self.old.seats }
        ensures board { self.new.board ≡ self.old.board }
        ensures press { self.new.press ≡ exported_as self.new.press.press.last_export self.old.press }
        ensures refused { IsNotPublished self.old.seats self.old.board.shown result }
        ensures told { IsFaultOf fault result }
        ensures left { IsExportLeft self.new.press.press.last_export self.old.press.press.at.serial result }
    {
        let serial = self.serial();
        if !self.is_to_repeat(&fault) {
            return PublishFault::Unmade { serial, fault };
        }
        if let Err(fault) = self.export(alloc) {
            return PublishFault::Unexported { serial, fault };
        }
        PublishFault::Repeated { serial, fault }
    }

    // Whether there was nothing to publish, and the last edition isn't at the outlet.
    fn is_to_repeat(&self, fault: &Unmade<D>) -> bool
        ensures { result ≡ (is_some (nothing_behind fault.now) && not (is_exported self.now.press.press.last_export self.now.press.press.at.serial)) }
    {
        fault.is_nothing() && !self.is_exported()
    }

    // Whether the last edition is at the outlet, or there is none.
    fn is_exported(&self) -> bool
        ensures { result ≡ is_exported self.now.press.press.last_export self.now.press.press.at.serial }
    {
        let press = self.press.press();
        press.serial() == 0 || is_of(press.last_export(), press.serial())
    }

    /// Brings the last edition to the outlet, which shows it then.
    pub fn export(&mut self, alloc: Global) -> Result<(), ExportFault<O>>
        requires { self.old.press.press.at.serial ≢ 0 }
        ensures seats { self.new.seats ≡ self.old.seats }
        ensures board { self.new.board ≡ self.old.board }
        ensures ended { self.new.press ≡ exported_as (ended_by result self.old.press.press.at.serial) self.old.press }
        ensures counts { O.fault_count self.old.outlet ≤ O.fault_count self.new.outlet }
        ensures cause { IfErr result (IsCauseOf (O.fault_count self.old.outlet) (O.fault_count self.new.outlet)) }
        ensures since { IfErr result (IsExportRise N.named.faults.outlet (O.fault_count self.new.outlet)) }
    {
        more_editions_stay_shown();
        self.press.export_to(alloc, &mut self.outlet)
    }

    /// Brings the last edition to the outlet, where it isn't there, and answers whether that was so.
    pub fn repeat_export(&mut self, alloc: Global) -> Result<bool, ExportFault<O>>
        ensures seats { self.new.seats ≡ self.old.seats }
        ensures board { self.new.board ≡ self.old.board }
        ensures press { self.new.press ≡ exported_as self.new.press.press.last_export self.old.press }
        ensures repeated { IsRepeated self.new.press.press.last_export self.new.press.press.at.serial result }
        ensures counts { O.fault_count self.old.outlet ≤ O.fault_count self.new.outlet }
        ensures cause { IfErr result (IsCauseOf (O.fault_count self.old.outlet) (O.fault_count self.new.outlet)) }
        ensures since { IfErr result (IsExportRise N.named.faults.outlet (O.fault_count self.new.outlet)) }
    {
        if self.is_exported() {
            return Ok(false);
        }
        match self.export(alloc) {
            Ok(()) => Ok(true),
            Err(fault) => Err(fault),
        }
    }

    /// The parts, once no other thread has the press.
    pub fn close<R: Wait>(self, rt: &R) -> Closed<N, D, S, O>
        ensures closed { IsClosed D.Disk O.Outlet N.named self }
        ensures faults { IsRisenPress D.Disk O.Outlet N.named self.press.journal self.outlet }
        ensures disk { result.disk ≡ self.press.journal.disk }
        ensures ring { result.ring ≡ self.press.press.ring }
        ensures seats { result.followers ≡ self.seats }
        ensures outlet { result.outlet ≡ self.outlet }
    {
        edition_records_go_on();
        let LockedPress {
            press,
            followers,
            board,
            outlet,
        } = self;
        board.close(rt);
        let (disk, ring) = press.close();
        Closed {
            disk,
            ring,
            followers,
            outlet,
        }
    }
}

impl<N: Names, D: Disk, S: Signer + Send, O: Outlet> LockedPress<N, D, S, O> {
    // Makes the next edition of what was gathered of each desk behind the cut, and shows it. It isn't exported
    // yet, so this is nobody else's call.
    fn press<R: Threads + Wait + Sync>(
        &mut self,
        rt: &R,
        alloc: Global,
        now: u64,
        gathered: Vec<Gathered>,
    ) -> Result<PublishedNumbers, Unmade<D>>
        requires { (lists : List (List Command)) → AreSeen (length N.named.signers) lists self.old.seats
            → AreSince 0 lists self.old.press.press.at.cut gathered.items }
        ensures seats { self.new.seats ≡ self.old.seats }
        ensures outlet { self.new.outlet ≡ self.old.outlet }
        ensures answered { IfOk result (λ told. IsAnswered told self.old.seats self.new.board.shown) }
        ensures behind { IfOk result (IsBehind now self.old.press.press.at) }
        ensures next { IfOk result (λ told. IsNextShown now self.old.board.shown told self.new.board.shown) }
        ensures some { OnOk result (self.new.press.press.at.serial ≢ 0) }
        ensures same { OnErr result (self.new.board.shown ≡ self.old.board.shown) }
        ensures nothing { IfErr result (λ unmade. IfSome (nothing_behind unmade) (λ serial. IsShownTo serial self.old.seats self.new.board.shown)) }
        ensures cause { IfErr result (IsUnmadeFor D.Disk (start_of self.old.press.press now gathered.items) self.old.press self.new.press) }
        ensures made { OnOk result (HasMade (start_of self.old.press.press now gathered.items) self.old.press self.new.press) }
        ensures held { OnErr result (HasMadeNone self.old.press self.new.press) }
    {
        gathered_commands_go_on();
        vouching_signers_vouch_for_editions();
        more_editions_stay_shown();
        edition_records_go_on();
        let LockedPress { press, board, .. } = self;
        let prepared = match make_ready(rt, alloc, press, board, now, gathered) {
            Ok(prepared) => prepared,
            Err(fault) => return Err(Unmade::Unprepared { fault }),
        };
        let told = match commit_shown(rt, press, board, prepared) {
            Ok(told) => told,
            Err(fault) => return Err(Unmade::Uncommitted { fault }),
        };
        Ok(told)
    }

    /// Publishes what was gathered of each desk behind the cut, shows it and brings it to the outlet; and tells a
    /// viewer of all that was shown. Where there is nothing to publish, an edition whose export failed is
    /// exported again. `now` is in seconds since 1970.
    pub fn publish<R: Threads + Wait + Sync>(
        &mut self,
        rt: &R,
        alloc: Global,
        now: u64,
        gathered: Vec<Gathered>,
        viewer: &mut Viewer,
    ) -> Result<PublishedNumbers, PublishFault<D, O>>
        requires since { (lists : List (List Command)) → AreSeen (length N.named.signers) lists self.old.seats
            → AreSince 0 lists self.old.press.press.at.cut gathered.items }
        requires viewer { viewer.old.list ≡ N.named.list }
        ensures seats { self.new.seats ≡ self.old.seats }
        ensures list { viewer.new.list ≡ viewer.old.list }
        ensures grows { IsPrefix viewer.old.seen viewer.new.seen }
        ensures whole { viewer.new.seen ≡ self.new.board.shown }
        ensures published { IfOk result (λ told. IsAnswered told self.old.seats viewer.new.seen) }
        ensures behind { IfOk result (IsBehind now self.old.press.press.at) }
        ensures next { IfOk result (λ told. IsNextShown now self.old.board.shown told self.new.board.shown) }
        ensures still { IfErr result (IsStill now self.old.board.shown self.new.board.shown) }
        ensures exported { OnOk result (self.new.press.press.last_export ≡ Done self.new.press.press.at.serial) }
        ensures refused { IfErr result (IsNotPublished self.old.seats viewer.new.seen) }
        ensures cause { IfErr result (IsMetBy D.Disk (start_of self.old.press.press now gathered.items) self.old.press self.new.press) }
        ensures left { IfErr result (IsExportLeft self.new.press.press.last_export self.new.press.press.at.serial) }
        ensures made { OnOk result (HasMade (start_of self.old.press.press now gathered.items) self.old.press self.new.press) }
        ensures held { OnErr result (MayHaveMade (start_of self.old.press.press now gathered.items) self.old.press self.new.press) }
    {
        let published = self.press_and_export(rt, alloc, now, gathered);
        self.tell(rt, viewer);
        published
    }

    // Publishes and exports.
    fn press_and_export<R: Threads + Wait + Sync>(
        &mut self,
        rt: &R,
        alloc: Global,
        now: u64,
        gathered: Vec<Gathered>,
    ) -> Result<PublishedNumbers, PublishFault<D, O>>
        requires { (lists : List (List Command)) → AreSeen (length N.named.signers) lists self.old.seats
            → AreSince 0 lists self.old.press.press.at.cut gathered.items }
        ensures seats { self.new.seats ≡ self.old.seats }
        ensures published { IfOk result (λ told. IsAnswered told self.old.seats self.new.board.shown) }
        ensures behind { IfOk result (IsBehind now self.old.press.press.at) }
        ensures next { IfOk result (λ told. IsNextShown now self.old.board.shown told self.new.board.shown) }
        ensures still { IfErr result (IsStill now self.old.board.shown self.new.board.shown) }
        ensures exported { OnOk result (self.new.press.press.last_export ≡ Done self.new.press.press.at.serial) }
        ensures refused { IfErr result (IsNotPublished self.old.seats self.new.board.shown) }
        ensures cause { IfErr result (IsMetBy D.Disk (start_of self.old.press.press now gathered.items) self.old.press self.new.press) }
        ensures left { IfErr result (IsExportLeft self.new.press.press.last_export self.new.press.press.at.serial) }
        ensures made { OnOk result (HasMade (start_of self.old.press.press now gathered.items) self.old.press self.new.press) }
        ensures held { OnErr result (MayHaveMade (start_of self.old.press.press now gathered.items) self.old.press self.new.press) }
    {
        let told = match self.press(rt, alloc, now, gathered) {
            Ok(told) => told,
            Err(fault) => return Err(self.refuse(alloc, fault)),
        };
        self.export_made(alloc, told)
    }
}

// Whether the last export was of the edition of that serial, and ended well.
fn is_of(last: LastExport, serial: u64) -> bool
    ensures { result ≡ is_of last serial }
{
    match last {
        LastExport::NoExport => false,
        LastExport::Failed => false,
        LastExport::Done { serial: exported } => exported == serial,
    }
}
