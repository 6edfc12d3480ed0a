//! The desks, and what lines are answered over them.

ghost use Rattle.std.specs.Prelude.{◌≡◌, ℕ, ◌+◌, ◌≤◌, ◌↔◌, List, [], ◌∷◌, ◌++◌, IsTrue, IfOk, OnOk, OnErr, vec_len, vec_capacity};
ghost use Rattle.std.specs.List.{list_all};
ghost use Rattle.krill_top.specs.Exports.{stopped_of};
ghost use Rattle.krill_top.specs.Publishing.{outcome_of};
ghost use Rattle.krill_top.specs.Replies.{is_blank_byte, IsBlank, serial_text, await_text, IsTold, CommandText, PublishText, SaidText, IsToldOr};
ghost use Rattle.krill_top.specs.Statuses.{wanting_fault, outlet_fault};
ghost use Rattle.krill_top.specs.Working.{Gives, PublishesOrNot, IsPublishedOrTold};
ghost use Rattle.krill_top.specs.inner.Instances.{MovesTimed, MayText, MayReply};
ghost use Rattle.krill_top.specs.inner.Handlers.{timed};
ghost use Rattle.session_lines.specs.Keeping.{nothing_kept};
ghost use Rattle.session_lines.specs.LongLines.{IsLongAlone};

use crate::faults::RunFault;
use crate::instance::Instance;
use crate::keeping::{keep_command, keep_publication};
use crate::publication::Publication;
use crate::reply_lines::{
    REPLY_ROOM, append_accepted, append_awaited, append_bad_line, append_fault, append_line_fault,
    append_publication, append_refused, append_serial, append_told, refused_of, unexported_as,
};
use authority_book::Command;
use disk_api::Disk;
use editions::PublishedNumbers;
use json_api::{Line, LineReader};
use line_loop::{Clock, LINE_LIMIT, LineHandler};
use names::Name;
use outlet_api::{ExportFault, Outlet};
use session_lines::{Kept, takes_long_alone};
use signer_api::Signer;
use std::alloc::{AllocError, Global};
use std::thread::Threads;

/// The instance, the clock of its publications, what is kept of refusals, and what reads the lines that are
/// answered over them.
#[derive(Drop)]
pub struct Handler<D: Disk, G: Signer, O: Outlet, C: Clock> {
    instance: Instance<D, G, O>,
    clock: C,
    kept: Kept<D, O>,
    reader: LineReader,
}

impl<D: Disk, G: Signer, O: Outlet, C: Clock> Handler<D, G, O, C> {
    /// Answers over this instance, and publishes by this clock.
    pub fn new(alloc: Global, instance: Instance<D, G, O>, clock: C) -> Handler<D, G, O, C>
        ensures instance { result.instance ≡ instance }
        ensures clock { result.clock ≡ clock }
        ensures kept { result.kept ≡ nothing_kept }
    {
        Handler {
            instance,
            clock,
            kept: Kept::new(),
            reader: LineReader::new(alloc),
        }
    }

    /// The instance, with the commands that were accepted and what was published, the clock, and what was
    /// kept of refusals.
    pub fn into_parts(self) -> (Instance<D, G, O>, C, Kept<D, O>)
        ensures instance { result.0 ≡ self.instance }
        ensures clock { result.1 ≡ self.clock }
        ensures kept { result.2 ≡ self.kept }
    {
        (self.instance, self.clock, self.kept)
    }

    // Answers a command, and says whether it changed a desk. The room for the reply is taken before the
    // desk writes anything.
    fn answer_command(
        &mut self,
        alloc: Global,
        name: &Name,
        command: Command,
        out: &mut Vec<u8>,
    ) -> Result<bool, AllocError>
        ensures ok { IfOk result (λ changed. (text : List ℕ) × (out.new.items ≡ out.old.items ++ text ++ 10 ∷ [])
            × MovesTimed D.Disk O.Outlet (λ b a. IsToldOr (CommandText name.now command) b text changed a) (timed C.Clock self.old) (timed C.Clock self.new)) }
        ensures err { OnErr result ((self.new ≡ self.old) × (out.new.items ≡ out.old.items)) }
    {
        out.reserve(REPLY_ROOM)?;
        match self.instance.command(alloc, name, command) {
            Ok(count) => {
                append_accepted(out, name, count);
                Ok(true)
            }
            Err(fault) => {
                let in_doubt = fault.leaves_doubt();
                append_fault(alloc, name, &fault, out);
                keep_command(&mut self.kept, fault);
                Ok(in_doubt)
            }
        }
    }

    /// Gives a command, as the session's lines do, and appends a reply where it isn't accepted. That is a
    /// fault where memory is wanting.
    pub(crate) fn give(
        &mut self,
        alloc: Global,
        name: &Name,
        command: Command,
        out: &mut Vec<u8>,
    ) -> Result<(), Option<RunFault>>
        requires { out.old.items ≡ [] }
        ensures gives { MovesTimed D.Disk O.Outlet (λ b a. Gives name.now command out.new.items result b a) (timed C.Clock self.old) (timed C.Clock self.new) }
        ensures empty { OnOk result (out.new.items ≡ []) }
    {
        match out.reserve(REPLY_ROOM) {
            Ok(()) => self.give_in_room(alloc, name, command, out),
            Err(_) => Err(Some(RunFault::Memory)),
        }
    }

    // Does so in the room for a reply that is there.
    fn give_in_room(
        &mut self,
        alloc: Global,
        name: &Name,
        command: Command,
        out: &mut Vec<u8>,
    ) -> Result<(), Option<RunFault>>
        requires empty { out.old.items ≡ [] }
        requires room { vec_len out.old + REPLY_ROOM ≤ vec_capacity out.old }
        ensures gives { MovesTimed D.Disk O.Outlet (λ b a. Gives name.now command out.new.items result b a) (timed C.Clock self.old) (timed C.Clock self.new) }
        ensures empty { OnOk result (out.new.items ≡ []) }
    {
        match self.instance.command(alloc, name, command) {
            Ok(_) => Ok(()),
            Err(fault) => {
                let is_wanting = append_fault(alloc, name, &fault, out);
                keep_command(&mut self.kept, fault);
                Err(wanting_fault(is_wanting))
            }
        }
    }

    // Answers with the serial of the last edition.
    fn answer_serial(&self, out: &mut Vec<u8>) -> Result<bool, AllocError>
        ensures ok { IfOk result (λ changed. (text : List ℕ) × (out.new.items ≡ out.old.items ++ text ++ 10 ∷ [])
            × MovesTimed D.Disk O.Outlet (λ b a. IsTold (serial_text b.state) b text changed a) (timed C.Clock self.now) (timed C.Clock self.now)) }
        ensures err { OnErr result (out.new.items ≡ out.old.items) }
    {
        out.reserve(REPLY_ROOM)?;
        append_serial(out, self.instance.serial());
        Ok(false)
    }

    // Answers whether the last edition is the one that is waited for, or a later one. Nobody else publishes,
    // so one look tells.
    fn answer_await(&self, asked: u64, out: &mut Vec<u8>) -> Result<bool, AllocError>
        ensures ok { IfOk result (λ changed. (text : List ℕ) × (out.new.items ≡ out.old.items ++ text ++ 10 ∷ [])
            × MovesTimed D.Disk O.Outlet (λ b a. IsTold (await_text asked b.state) b text changed a) (timed C.Clock self.now) (timed C.Clock self.now)) }
        ensures err { OnErr result (out.new.items ≡ out.old.items) }
    {
        out.reserve(REPLY_ROOM)?;
        append_awaited(out, asked, self.instance.serial());
        Ok(false)
    }
}

impl<D: Disk, G: Signer + Send, O: Outlet, C: Clock> Handler<D, G, O, C> {
    /// Publishes at the clock's next reading, as the session's lines do, and appends a reply where what was
    /// accepted isn't published and exported. That is a fault where memory is wanting, or the outlet failed.
    pub(crate) fn publish<R: Threads + Sync>(
        &mut self,
        rt: &R,
        alloc: Global,
        out: &mut Vec<u8>,
    ) -> Result<PublishedNumbers, Option<RunFault>>
        requires { out.old.items ≡ [] }
        ensures { MovesTimed D.Disk O.Outlet (λ b a. PublishesOrNot out.new.items result b a) (timed C.Clock self.old) (timed C.Clock self.new) }
    {
        match out.reserve(REPLY_ROOM) {
            Ok(()) => self.publish_in_room(rt, alloc, out),
            Err(_) => Err(Some(RunFault::Memory)),
        }
    }

    // Does so in the room for a reply that is there.
    fn publish_in_room<R: Threads + Sync>(
        &mut self,
        rt: &R,
        alloc: Global,
        out: &mut Vec<u8>,
    ) -> Result<PublishedNumbers, Option<RunFault>>
        requires empty { out.old.items ≡ [] }
        requires room { vec_len out.old + REPLY_ROOM ≤ vec_capacity out.old }
        ensures { MovesTimed D.Disk O.Outlet (λ b a. PublishesOrNot out.new.items result b a) (timed C.Clock self.old) (timed C.Clock self.new) }
    {
        let now = self.clock.now();
        let outcome = self.instance.publish(rt, alloc, now);
        let published = published_or_told(&outcome, out);
        keep_publication(&mut self.kept, outcome);
        published
    }

    // Publishes at the clock's next reading, and says whether that changed the editions or their export. The
    // room for the reply is taken before that.
    fn answer_publish<R: Threads + Sync>(
        &mut self,
        rt: &R,
        alloc: Global,
        out: &mut Vec<u8>,
    ) -> Result<bool, AllocError>
        ensures ok { IfOk result (λ changed. (text : List ℕ) × (out.new.items ≡ out.old.items ++ text ++ 10 ∷ [])
            × MovesTimed D.Disk O.Outlet (λ b a. PublishText b text changed a) (timed C.Clock self.old) (timed C.Clock self.new)) }
        ensures err { OnErr result ((self.new ≡ self.old) × (out.new.items ≡ out.old.items)) }
    {
        out.reserve(REPLY_ROOM)?;
        let now = self.clock.now();
        let publication = self.instance.publish(rt, alloc, now);
        let changed = publication.has_changed();
        append_publication(out, &publication);
        keep_publication(&mut self.kept, publication);
        Ok(changed)
    }

    // Answers what a line says, and says whether that changed anything.
    fn answer_said<R: Threads + Sync>(
        &mut self,
        rt: &R,
        alloc: Global,
        said: Line,
        out: &mut Vec<u8>,
    ) -> Result<bool, AllocError>
        ensures ok { IfOk result (λ changed. (text : List ℕ) × (out.new.items ≡ out.old.items ++ text ++ 10 ∷ [])
            × MovesTimed D.Disk O.Outlet (λ b a. IsToldOr (SaidText said) b text changed a) (timed C.Clock self.old) (timed C.Clock self.new)) }
        ensures err { OnErr result ((self.new ≡ self.old) × (out.new.items ≡ out.old.items)) }
    {
        match said {
            Line::Command { name, command } => self.answer_command(alloc, &name, command, out),
            Line::Publish => self.answer_publish(rt, alloc, out),
            Line::Serial => self.answer_serial(out),
            Line::Await { serial, .. } => self.answer_await(serial, out),
            Line::List => append_told(out, self.instance.list(alloc)),
            Line::Show { name } => append_told(out, self.instance.show(alloc, &name)),
            Line::Roas { name } => append_told(out, self.instance.roas(alloc, &name)),
            Line::History { name } => append_told(out, self.instance.history(alloc, &name)),
        }
    }

    // Answers a line that isn't blank, and says whether that changed anything.
    fn answer_text<R: Threads + Sync>(
        &mut self,
        rt: &R,
        alloc: Global,
        line: &[u8],
        out: &mut Vec<u8>,
    ) -> Result<bool, AllocError>
        ensures ok { IfOk result (λ changed. (text : List ℕ) × (out.new.items ≡ out.old.items ++ text ++ 10 ∷ [])
            × MayText D.Disk O.Outlet (timed C.Clock self.old) line.now text changed (timed C.Clock self.new)) }
        ensures err { OnErr result ((self.new ≡ self.old) × (out.new.items ≡ out.old.items)) }
    {
        match self.reader.read(alloc, line) {
            Ok(said) => self.answer_said(rt, alloc, said, out),
            Err(fault) => {
                out.reserve(REPLY_ROOM)?;
                append_line_fault(alloc, &fault, out);
                Ok(false)
            }
        }
    }

    /// Answers a line at the end of `out`, and says whether that changed anything. An `Err` changes nothing. A
    /// publication starts threads by that handle, and takes seconds: a line that is said to take long is to be given
    /// where no other reply waits.
    pub fn answer<R: Threads + Sync>(
        &mut self,
        rt: &R,
        alloc: Global,
        line: &[u8],
        out: &mut Vec<u8>,
    ) -> Result<bool, AllocError>
        requires none_waits { IsLongAlone line.now → out.old.items ≡ [] }
        ensures ok { IfOk result (λ changed. (reply : List ℕ)
            × MayReply D.Disk O.Outlet (timed C.Clock self.old) line.now reply changed (timed C.Clock self.new)
            × (out.new.items ≡ out.old.items ++ reply)) }
        ensures err { OnErr result ((self.new ≡ self.old) × (out.new.items ≡ out.old.items)) }
    {
        if is_blank(line) {
            return Ok(false);
        }
        self.answer_text(rt, alloc, line, out)
    }
}

// What is wrong where memory is wanting.
fn wanting_fault(is_wanting: bool) -> Option<RunFault>
    ensures { result ≡ wanting_fault is_wanting }
{
    if is_wanting {
        Some(RunFault::Memory)
    } else {
        None
    }
}

// What was published, or a reply that says why nothing was, in the room that is there.
fn published_or_told<D: Disk, O: Outlet>(
    publication: &Publication<D, O>,
    out: &mut Vec<u8>,
) -> Result<PublishedNumbers, Option<RunFault>>
    requires { vec_len out.old + REPLY_ROOM ≤ vec_capacity out.old }
    ensures { IsPublishedOrTold (outcome_of publication.now) result out.old.items out.new.items }
{
    match publication {
        Publication::Published { published } => Ok(*published),
        Publication::Unexported { serial, fault } => {
            let stopped = export_fault(fault);
            append_refused(out, &unexported_as(*serial, fault));
            Err(Some(stopped))
        }
        Publication::Repeated { fault } => {
            append_refused(out, &refused_of(fault));
            Err(None)
        }
        Publication::Refused { fault, .. } => {
            let stopped = wanting_fault(fault.is_wanting());
            append_refused(out, &refused_of(fault));
            Err(stopped)
        }
    }
}

// What is wrong where an edition isn't exported.
fn export_fault<O: Outlet>(fault: &ExportFault<O>) -> RunFault
    ensures { result ≡ outlet_fault (stopped_of fault.now) }
{
    match fault {
        ExportFault::OutletFault { .. } => RunFault::Device,
        ExportFault::Memory => RunFault::Memory,
    }
}

// Whether the bytes are blanks alone, and not too many.
fn is_blank(line: &[u8]) -> bool
    ensures { IsTrue result ↔ IsBlank line.now }
{
    line.len() <= LINE_LIMIT && has_blanks_alone(line)
}

fn has_blanks_alone(line: &[u8]) -> bool
    ensures { result ≡ list_all is_blank_byte line.now }
{
    line.iter().all(|b| is_blank_byte(*b))
}

fn is_blank_byte(byte: u8) -> bool
    ensures { result ≡ is_blank_byte byte }
{
    byte == b' ' || byte == b'\t' || byte == b'\r'
}

impl<D: Disk, G: Signer, O: Outlet, C: Clock> LineHandler for Handler<D, G, O, C> {
    ghost use Rattle.session_lines.specs.LongLines.{IsLongAlone};
    ghost use Rattle.krill_top.specs.inner.Instances.{MayReply};

    ghost answers = { λ old line reply changed new. MayReply D.Disk O.Outlet (timed C.Clock old) line reply changed (timed C.Clock new) };

    ghost takes_time = { IsLongAlone };

    fn takes_long(&self, line: &[u8]) -> bool {
        takes_long_alone(line)
    }

    fn refuse_long(&mut self, _alloc: Global, out: &mut Vec<u8>) -> Result<(), AllocError> {
        append_bad_line(out)
    }
}
