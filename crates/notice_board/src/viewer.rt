// Those who look at the board.
ghost use Rattle.std.specs.Prelude.{◌≡◌, ◌⊎◌, ◌≤◌, true, Some, IfOk, OnOk, OnErr};
ghost use mathlib.Core.List.{IsPrefix};
ghost use Rattle.left_right.specs.Sides.{view};
ghost use Rattle.notice_board.specs.Lists.{last_serial, last_sheet, rises};
ghost use Rattle.notice_board.specs.Rows.{IsRowShown};
ghost use Rattle.notice_board.specs.inner.Known.{editions_of, viewer_of};

use crate::notices::Notice;
use crate::views::{Look, Shows, View};
use crate::{Sheet, SheetRow};
use core::mem::{replace_with, swap};
use left_right::reader::Reader;
use std::alloc::{AllocError, Global};
use std::marker::Model;

pub(crate) type NoticeReader = Reader<Notice, View, Shows>;

/// One who looks at the board, from any thread. Contracts see which list of editions it knows, and the
/// editions that it has seen.
///
/// A call looks at the board, and never waits. Once the board is closed there is nothing to look at,
/// and the sheet stays the one that was seen last.
#[derive(Drop)]
pub struct Viewer {
    reader: NoticeReader,
    last: Notice,
}

impl Model for Viewer {
    ghost use Rattle.std.specs.Prelude.{◌≡◌, true};
    ghost use Rattle.notice_board.specs.Seats.{ViewerSeat};
    ghost use Rattle.notice_board.specs.inner.Known.{viewer_of};

    ghost Value = { ViewerSeat };

    ghost view = { λ v. viewer_of v.last };

    ghost invariant = { λ v. (v.reader.place.me.0.client.knows ≡ true)
        × (v.reader.place.me.0.client.list ≡ v.last.list) };
}

impl Viewer {
    // A viewer that has seen what the notice has.
    pub(crate) fn new(reader: NoticeReader, last: Notice) -> Viewer
        requires knows { (view reader.place).knows ≡ true }
        requires list { (view reader.place).list ≡ last.list }
        ensures { result ≡ viewer_of last }
    {
        Viewer { reader, last }
    }

    /// The serial of the sheet that is shown. 0 before the first edition.
    #[tactic(auto, using(crate::proofs::Editions::serial_of_last, crate::proofs::Editions::serial_grows))]
    pub fn serial(&mut self) -> u64
        ensures list { self.new.list ≡ self.old.list }
        ensures seen { IsPrefix self.old.seen self.new.seen }
        ensures serial { result ≡ last_serial self.new.seen }
        ensures never_falls { last_serial self.old.seen ≤ result }
    {
        self.look();
        self.last.sheet().serial
    }

    /// The row of that desk on the sheet that is shown. Desks are numbered from 0.
    #[tactic(auto, using(crate::proofs::Editions::serial_of_last, crate::proofs::Editions::serial_grows))]
    pub fn row(&mut self, alloc: Global, desk: u32) -> Result<SheetRow, AllocError>
        ensures list { self.new.list ≡ self.old.list }
        ensures seen { IsPrefix self.old.seen self.new.seen }
        ensures never_falls { last_serial self.old.seen ≤ last_serial self.new.seen }
        ensures row { IfOk result (IsRowShown self.new.seen desk) }
    {
        self.look();
        self.last.sheet().row(alloc, desk)
    }

    /// The sheet that is shown.
    #[tactic(auto, using(crate::proofs::Editions::serial_of_last, crate::proofs::Editions::serial_grows))]
    pub fn sheet(&mut self, alloc: Global) -> Result<Sheet, AllocError>
        ensures list { self.new.list ≡ self.old.list }
        ensures seen { IsPrefix self.old.seen self.new.seen }
        ensures never_falls { last_serial self.old.seen ≤ last_serial self.new.seen }
        ensures sheet { IfOk result (λ sheet. last_sheet self.new.seen ≡ Some sheet) }
    {
        self.look();
        self.last.sheet().copy(alloc)
    }

    /// The serial of the last sheet that was seen. It doesn't look.
    #[tactic(auto, using(crate::proofs::Editions::serial_of_last))]
    pub fn last_seen(&self) -> u64
        ensures serial { result ≡ last_serial self.now.seen }
        ensures rises { rises self.now.seen ≡ true }
    {
        self.last.sheet().serial
    }

    /// Takes in another viewer of the list: it has seen what either has. What is left is a viewer of the list
    /// to be used anew; where it is dropped, its place is free.
    #[tactic(auto, using(crate::proofs::Editions::prefix_self))]
    pub fn join(&mut self, other: Viewer) -> Viewer
        requires { other.list ≡ self.old.list }
        ensures list { self.new.list ≡ self.old.list }
        ensures seen { IsPrefix self.old.seen self.new.seen }
        ensures begins { IsPrefix other.seen self.new.seen }
        ensures either { (self.new.seen ≡ self.old.seen) ⊎ (self.new.seen ≡ other.seen) }
        ensures left { result.list ≡ self.old.list }
    {
        let mut other = other;
        if self.last.is_before(&other.last) {
            swap(&mut self.last, &mut other.last);
        }
        other
    }

    /// Is told by another viewer of the list what that one has seen. Refused where the count of those who
    /// have its sheet is full.
    #[tactic(auto, using(crate::proofs::Editions::prefix_self))]
    pub fn meet(&mut self, other: &Viewer) -> Result<(), AllocError>
        requires { other.now.list ≡ self.old.list }
        ensures list { self.new.list ≡ self.old.list }
        ensures seen { IsPrefix self.old.seen self.new.seen }
        ensures begins { OnOk result (IsPrefix other.now.seen self.new.seen) }
        ensures either { (self.new.seen ≡ self.old.seen) ⊎ (self.new.seen ≡ other.now.seen) }
        ensures err { OnErr result (self.new ≡ self.old) }
    {
        let told = &other.last;
        if self.last.is_before(told) {
            self.last = told.again()?;
        }
        Ok(())
    }

    // Has seen all that the board has shown from now on.
    pub(crate) fn know(&mut self, last: Notice)
        requires list { last.list ≡ self.old.list }
        ensures { self.new ≡ viewer_of last }
    {
        self.last = last;
    }

    // What was seen last.
    pub(crate) fn last(&self) -> &Notice
        ensures { viewer_of result.now ≡ self.now }
    {
        &self.last
    }

    // Looks at the board.
    fn look(&mut self)
        ensures list { self.new.list ≡ self.old.list }
        ensures seen { IsPrefix self.old.seen self.new.seen }
    {
        replace_with(self, (), |viewer, ()| (viewer.looked(), ()));
    }

    #[tactic(auto, using(crate::proofs::Editions::prefix_self))]
    fn looked(self) -> Viewer
        ensures list { result.list ≡ self.list }
        ensures seen { IsPrefix self.seen result.seen }
    {
        let Viewer { reader, last } = self;
        match reader.enter_as::<Look>() {
            Ok(reading) => {
                let last = later(last, reading.get());
                Viewer {
                    reader: reading.leave(),
                    last,
                }
            }
            Err(reader) => Viewer { reader, last },
        }
    }
}

// The one that was shown later. It is the first one where the count of those who have the other is full.
#[tactic(auto, using(crate::proofs::Editions::prefix_self))]
fn later(last: Notice, found: &Notice) -> Notice
    requires { found.now.list ≡ last.list }
    ensures list { result.list ≡ last.list }
    ensures seen { IsPrefix (editions_of last.log) (editions_of result.log) }
{
    if !last.is_before(found) {
        return last;
    }
    match found.again() {
        Ok(found) => found,
        Err(_) => last,
    }
}
