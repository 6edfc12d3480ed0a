// The one who shows.
ghost use Rattle.std.specs.Prelude.{◌≡◌, ◌<◌, ◌++◌, [], ◌∷◌, None, Some, true, All, IfOk, IfNone, IfSome, OnErr, length, drop};
ghost use mathlib.Core.List.{IsPrefix};
ghost use Rattle.left_right.specs.Sides.{view};
ghost use Rattle.notice_board.specs.Lists.{last_serial, rises, shown_of};
ghost use Rattle.notice_board.specs.Seats.{viewer_seat};
ghost use Rattle.notice_board.specs.inner.Known.{coming, editions_of, viewer_of};

use crate::Sheet;
use crate::lists::ListOwner;
use crate::notices::Notice;
use crate::shown::Numbers;
use crate::viewer::Viewer;
use crate::views::{Look, Shows, Tell, View};
use core::mem::replace_with;
use left_right::writer::Writer;
use std::alloc::{AllocError, Global};
use std::marker::Model;
use std::sync::{Arc, Wait};

pub(crate) type NoticeWriter = Writer<Notice, Notice, View, Shows>;

// How many changes wait in the writer at most: the last one, and the one before it.
const CHANGES: u32 = 2;

/// A board, as its one writer holds it. It isn't dropped: `close` ends it.
pub struct Board {
    writer: NoticeWriter,
    owner: ListOwner,
    ready: Option<Arc<Sheet>>,
}

impl Model for Board {
    ghost use Rattle.std.specs.Prelude.{◌≡◌, ◌<◌, [], true, drop, IfSome};
    ghost use Rattle.std.specs.Arc.{arc_value};
    ghost use Rattle.std.specs.Option.{option_map};
    ghost use Rattle.notice_board.specs.Lists.{last_serial};
    ghost use Rattle.notice_board.specs.Seats.{BoardSeat};
    ghost use Rattle.notice_board.specs.inner.Known.{editions_of};

    ghost Value = { BoardSeat };

    ghost view = { λ b. record {
      list = b.owner.list;
      shown = editions_of b.owner.log;
      ready = option_map arc_value b.ready;
    } };

    ghost invariant = { λ b. (b.writer.desk.shown.value ≡ b.owner)
        × (drop b.writer.behind b.writer.log.items ≡ [])
        × (b.writer.desk.place.me.0.client.knows ≡ true)
        × (b.writer.desk.place.me.0.client.list ≡ b.owner.list)
        × IfSome b.ready (λ sheet. last_serial (editions_of b.owner.log) < (arc_value sheet).serial) };
}

impl Board {
    /// A board on which this sheet is shown, and as many viewers of it. `readers` is how many; it
    /// may be 0.
    pub fn new<E: Numbers, R: Wait>(
        rt: &R,
        alloc: Global,
        sheet: Sheet,
        readers: u32,
    ) -> Result<(Board, Vec<Viewer>), AllocError>
        ensures shown { IfOk result (λ r. r.0.shown ≡ shown_of sheet E.numbers ∷ []) }
        ensures ready { IfOk result (λ r. r.0.ready ≡ None) }
        ensures count { IfOk result (λ r. length r.1.items ≡ readers) }
        ensures viewers { IfOk result (λ r. All (λ viewer. viewer ≡ viewer_seat r.0) r.1.items) }
    {
        let owner = ListOwner::new::<E, R>(rt, &sheet);
        let Ok(sheet) = Arc::new(alloc, sheet) else {
            return Err(AllocError);
        };
        let first = Notice::of(sheet, &owner);
        let second = first.again()?;
        let places = readers.max(1) as usize;
        let mut writer = Writer::new(alloc, first, second, places)?;
        let laid = lay_again(&mut writer, CHANGES);
        let mut writer = publish(rt, publish(rt, writer));
        let viewers = match laid {
            Ok(()) => viewers(rt, alloc, &mut writer, readers),
            Err(fault) => Err(fault),
        };
        let board = Board {
            writer,
            owner,
            ready: None,
        };
        match viewers {
            Ok(viewers) => Ok((board, viewers)),
            Err(fault) => {
                board.close(rt);
                Err(fault)
            }
        }
    }

    /// Makes a sheet ready to be shown, in the place of one that was ready.
    pub fn ready(&mut self, alloc: Global, sheet: Sheet) -> Result<(), AllocError>
        requires { last_serial self.old.shown < sheet.serial }
        ensures ready { IfOk result (λ _. self.new ≡ record self.old { ready = Some sheet }) }
        ensures err { OnErr result (self.new ≡ self.old) }
    {
        match Arc::new(alloc, sheet) {
            Ok(sheet) => {
                self.ready = Some(sheet);
                Ok(())
            }
            Err(_) => Err(AllocError),
        }
    }

    /// The serial of the sheet that was shown last. That of its edition.
    #[tactic(auto, using(crate::proofs::Editions::serial_of_last))]
    pub fn serial(&self) -> u64
        ensures serial { result ≡ last_serial self.now.shown }
        ensures rises { rises self.now.shown ≡ true }
    {
        self.writer.published().sheet().serial
    }

    /// Shows the sheet that was made ready last, as that of the edition with the numbers `E`; without one
    /// it does nothing. It takes no memory, and waits for those who still read the sheet before the one
    /// that is shown.
    pub fn show<E: Numbers, R: Wait>(&mut self, rt: &R)
        ensures shown { IfSome self.old.ready (λ sheet. self.new ≡ record self.old {
          shown = self.old.shown ++ shown_of sheet E.numbers ∷ [];
          ready = None;
        }) }
        ensures none { IfNone self.old.ready (self.new ≡ self.old) }
    {
        // Serials rise so far.
        self.serial();
        let Some(sheet) = self.ready.take() else {
            return;
        };
        self.owner.add::<E>(&sheet);
        let notice = Notice::of(sheet, &self.owner);
        replace_with(
            &mut self.writer,
            (rt, notice),
            |writer, (rt, notice)| (show_next(rt, writer, notice), ()),
        );
    }

    /// Tells a viewer of the list of all that was shown. It takes no memory.
    pub fn tell<R: Wait>(&mut self, rt: &R, viewer: &mut Viewer)
        requires { viewer.old.list ≡ self.old.list }
        ensures same { self.new ≡ self.old }
        ensures whole { viewer.new ≡ viewer_seat self.old }
        ensures seen { IsPrefix viewer.old.seen viewer.new.seen }
    {
        let mut seen = viewer.last().seen();
        self.owner.tell(&mut seen);
        viewer.know(again(rt, self.writer.published()));
    }

    /// Ends the board. It answers the serial of the sheet that was shown last, and waits for those who
    /// still read.
    #[tactic(auto, using(crate::proofs::Editions::serial_of_last))]
    pub fn close<R: Wait>(self, rt: &R) -> u64
        ensures { result ≡ last_serial self.shown }
    {
        let Board {
            writer,
            owner: _owner,
            ready: _ready,
        } = self;
        let last = writer.take(rt);
        last.sheet().serial
    }
}

// The notice once more. An `Err` is one of a count of owners that is full, which never comes.
fn again<R: Wait>(rt: &R, notice: &Notice) -> Notice
    ensures { result ≡ notice.now }
{
    for _ in rt.forever() {
        if let Ok(notice) = notice.again() {
            return notice;
        }
    }
    unreachable!()
}

// Lays what is shown behind itself so many times, so that there is room for as many changes.
#[tactic(auto, using(crate::proofs::Editions::coming_snoc))]
fn lay_again(writer: &mut NoticeWriter, times: u32) -> Result<(), AllocError>
    requires { coming writer.old.desk.shown.value (drop writer.old.behind writer.old.log.items) ≡ writer.old.desk.shown.value }
    ensures desk { writer.new.desk ≡ writer.old.desk }
    ensures coming { coming writer.new.desk.shown.value (drop writer.new.behind writer.new.log.items) ≡ writer.new.desk.shown.value }
{
    for _ in 0..times {
        let notice = writer.published().again()?;
        if writer.append(notice).is_err() {
            return Err(AllocError);
        }
    }
    Ok(())
}

// Lays a notice behind what is shown. `Board::new` has made room for it, so that it isn't refused.
#[tactic(auto, using(crate::proofs::Editions::coming_snoc))]
fn lay<R: Wait>(rt: &R, writer: NoticeWriter, notice: Notice) -> NoticeWriter
    ensures desk { result.desk ≡ writer.desk }
    ensures next { coming writer.desk.shown.value (drop result.behind result.log.items) ≡ notice }
{
    let mut writer = writer;
    let mut notice = notice;
    for _ in rt.forever() {
        match writer.append(notice) {
            Ok(()) => return writer,
            Err(back) => notice = back,
        }
    }
    unreachable!()
}

// Shows a notice of the same list.
fn show_next<R: Wait>(rt: &R, writer: NoticeWriter, notice: Notice) -> NoticeWriter
    requires { notice.list ≡ writer.desk.shown.value.list }
    ensures shown { result.desk.shown.value ≡ notice }
    ensures none { drop result.behind result.log.items ≡ [] }
    ensures knows { (view result.desk.place).knows ≡ true }
    ensures list { (view result.desk.place).list ≡ notice.list }
{
    publish(rt, lay(rt, writer, notice))
}

// Shows what is pending, which is of the same list. At first nothing is, and the writer then knows the
// list. An `Err` is one of a count of owners that is full, which never comes.
fn publish<R: Wait>(rt: &R, writer: NoticeWriter) -> NoticeWriter
    requires { (coming writer.desk.shown.value (drop writer.behind writer.log.items)).list ≡ writer.desk.shown.value.list }
    ensures shown { result.desk.shown.value ≡ coming writer.desk.shown.value (drop writer.behind writer.log.items) }
    ensures none { drop result.behind result.log.items ≡ [] }
    ensures knows { (view result.desk.place).knows ≡ true }
    ensures list { (view result.desk.place).list ≡ result.desk.shown.value.list }
{
    let mut writer = writer;
    for _ in rt.forever() {
        let (next, shown) = writer.publish_as::<Look, R>(rt);
        if shown.is_ok() {
            return next;
        }
        writer = next;
    }
    unreachable!()
}

// As many viewers, each of which has seen what is shown.
fn viewers<R: Wait>(
    rt: &R,
    alloc: Global,
    writer: &mut NoticeWriter,
    readers: u32,
) -> Result<Vec<Viewer>, AllocError>
    requires { ((view writer.old.desk.place).knows ≡ true) × ((view writer.old.desk.place).list ≡ writer.old.desk.shown.value.list) }
    ensures same { (writer.new.desk.shown ≡ writer.old.desk.shown) × (writer.new.log ≡ writer.old.log) × (writer.new.behind ≡ writer.old.behind) × (view writer.new.desk.place ≡ view writer.old.desk.place) }
    ensures count { IfOk result (λ all. length all.items ≡ readers) }
    ensures seen { IfOk result (λ all. All (λ viewer. viewer ≡ viewer_of writer.old.desk.shown.value) all.items) }
{
    let mut all = Vec::with_capacity(alloc, readers as usize)?;
    for _ in 0..readers {
        all.push(viewer(rt, writer)?)?;
    }
    Ok(all)
}

// One more viewer, which has seen what is shown.
fn viewer<R: Wait>(rt: &R, writer: &mut NoticeWriter) -> Result<Viewer, AllocError>
    requires { ((view writer.old.desk.place).knows ≡ true) × ((view writer.old.desk.place).list ≡ writer.old.desk.shown.value.list) }
    ensures same { (writer.new.desk.shown ≡ writer.old.desk.shown) × (writer.new.log ≡ writer.old.log) × (writer.new.behind ≡ writer.old.behind) × (view writer.new.desk.place ≡ view writer.old.desk.place) }
    ensures seen { IfOk result (λ viewer. viewer ≡ viewer_of writer.old.desk.shown.value) }
{
    let mut reader = writer.factory().reader()?;
    reader.learn::<Tell>(writer.tell::<Tell>());
    Ok(Viewer::new(reader, again(rt, writer.published())))
}
