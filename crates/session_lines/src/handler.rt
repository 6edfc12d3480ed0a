//! A session's pass, and what lines are answered over it.
ghost use Rattle.std.specs.Prelude.{◌≡◌, ℕ, List, [], ◌∷◌, ◌++◌, length, IfOk, OnErr};
ghost use Rattle.session_lines.specs.Texts.{serial_text, IsListText, IsShowText, IsRoasText, IsHistoryText, leaves_command_in_doubt, fault_changes_editions};
ghost use Rattle.session_lines.specs.Replies.{IsRead, IsToldOr, IsCommandText, IsPublicationText, IsAwaitText, IsSaidText, IsText, IsReply};
ghost use Rattle.session_lines.specs.Sessions.{state_of};
ghost use Rattle.session_lines.specs.Keeping.{nothing_kept};
ghost use Rattle.session_lines.specs.LongLines.{IsLong};

use crate::kept::Kept;
use crate::long_lines::takes_long;
use crate::reads::{read_history, read_list, read_roas, read_show};
use crate::reply_lines::{
    REPLY_ROOM, append_accepted, append_awaited, append_bad_line, append_command_fault,
    append_line_fault, append_published, append_serial, append_told, append_unpublished, is_blank,
};
use authority_book::Command;
use desk_core::DeskFault;
use disk_api::Disk;
use json_api::{Line, LineReader};
use line_loop::{Clock, LineHandler};
use manager::{CommandFault, Manager, Names, Pass, PublishFault, Unmade};
use names::Name;
use outlet_api::Outlet;
use signer_api::Signer;
use std::alloc::{AllocError, Global};
use std::sync::Wait;
use std::thread::Threads;

/// A session's pass, the clock of its publications, what it keeps of its refusals, and what reads its lines.
#[derive(Drop)]
pub struct Handler<N: Names, D: Disk, O: Outlet, C: Clock> {
    pass: Pass<N>,
    clock: C,
    kept: Kept<D, O>,
    reader: LineReader,
}

impl<N: Names, D: Disk, O: Outlet, C: Clock> Handler<N, D, O, C> {
    /// Answers over this pass, and publishes by this clock. Nothing is kept yet.
    pub fn new(alloc: Global, pass: Pass<N>, clock: C) -> Handler<N, D, O, C>
        ensures pass { result.pass ≡ pass }
        ensures clock { result.clock ≡ clock }
        ensures kept { result.kept ≡ nothing_kept }
    {
        Handler {
            pass,
            clock,
            kept: Kept::new(),
            reader: LineReader::new(alloc),
        }
    }

    /// The pass, with what was made, the clock, and what was kept.
    pub fn into_parts(self) -> (Pass<N>, C, Kept<D, O>)
        ensures pass { result.0 ≡ self.pass }
        ensures clock { result.1 ≡ self.clock }
        ensures kept { result.2 ≡ self.kept }
    {
        (self.pass, self.clock, self.kept)
    }

    // Answers a command, and says whether it changed a desk. The room for the reply is taken before the desk writes
    // anything.
    fn answer_command<S: Signer, R: Wait>(
        &mut self,
        rt: &R,
        alloc: Global,
        manager: &Manager<N, D, S, O>,
        name: &Name,
        command: Command,
        out: &mut Vec<u8>,
    ) -> Result<bool, AllocError>
        ensures ok { IfOk result (λ changed. (text : List ℕ) × (out.new.items ≡ out.old.items ++ text ++ 10 ∷ [])
            × IsToldOr (IsCommandText D name.now command (length N.named.signers)) (state_of C.Clock self.old) text changed (state_of C.Clock self.new)) }
        ensures err { OnErr result ((self.new ≡ self.old) × (out.new.items ≡ out.old.items)) }
    {
        out.reserve(REPLY_ROOM)?;
        match manager
            .desks()
            .command(rt, alloc, &mut self.pass, name, command)
        {
            Ok(count) => {
                append_accepted(out, name, count);
                Ok(true)
            }
            Err(fault) => {
                let in_doubt = leaves_command_in_doubt(&fault);
                append_command_fault(alloc, name, &fault, out);
                self.kept.keep_command(fault);
                Ok(in_doubt)
            }
        }
    }

    // Answers with the serial of the edition that is shown.
    fn answer_serial<S: Signer>(
        &mut self,
        manager: &Manager<N, D, S, O>,
        out: &mut Vec<u8>,
    ) -> Result<bool, AllocError>
        ensures ok { IfOk result (λ changed. (text : List ℕ) × (out.new.items ≡ out.old.items ++ text ++ 10 ∷ [])
            × IsRead (λ pass told. told ≡ serial_text pass) (state_of C.Clock self.old) text changed (state_of C.Clock self.new)) }
        ensures err { OnErr result ((self.new ≡ self.old) × (out.new.items ≡ out.old.items)) }
    {
        out.reserve(REPLY_ROOM)?;
        append_serial(out, manager.look(&mut self.pass));
        Ok(false)
    }

    // Looks until the edition of that serial or a later one is shown.
    fn answer_await<S: Signer>(
        &mut self,
        manager: &Manager<N, D, S, O>,
        serial: u64,
        looks: u64,
        out: &mut Vec<u8>,
    ) -> Result<bool, AllocError>
        ensures ok { IfOk result (λ changed. (text : List ℕ) × (out.new.items ≡ out.old.items ++ text ++ 10 ∷ [])
            × IsRead (IsAwaitText serial) (state_of C.Clock self.old) text changed (state_of C.Clock self.new)) }
        ensures err { OnErr result ((self.new ≡ self.old) × (out.new.items ≡ out.old.items)) }
    {
        out.reserve(REPLY_ROOM)?;
        append_awaited(out, manager.await_edition(&mut self.pass, serial, looks));
        Ok(false)
    }

    fn answer_list<S: Signer, R: Wait>(
        &mut self,
        rt: &R,
        alloc: Global,
        manager: &Manager<N, D, S, O>,
        out: &mut Vec<u8>,
    ) -> Result<bool, AllocError>
        ensures ok { IfOk result (λ changed. (text : List ℕ) × (out.new.items ≡ out.old.items ++ text ++ 10 ∷ [])
            × IsToldOr (IsRead IsListText) (state_of C.Clock self.old) text changed (state_of C.Clock self.new)) }
        ensures err { OnErr result ((self.new ≡ self.old) × (out.new.items ≡ out.old.items)) }
    {
        out.reserve(REPLY_ROOM)?;
        let text = read_list(rt, alloc, manager.desks(), &mut self.pass);
        append_told(out, text);
        Ok(false)
    }

    fn answer_show<S: Signer, R: Wait>(
        &mut self,
        rt: &R,
        alloc: Global,
        manager: &Manager<N, D, S, O>,
        name: &Name,
        out: &mut Vec<u8>,
    ) -> Result<bool, AllocError>
        ensures ok { IfOk result (λ changed. (text : List ℕ) × (out.new.items ≡ out.old.items ++ text ++ 10 ∷ [])
            × IsToldOr (IsRead (IsShowText name.now)) (state_of C.Clock self.old) text changed (state_of C.Clock self.new)) }
        ensures err { OnErr result ((self.new ≡ self.old) × (out.new.items ≡ out.old.items)) }
    {
        out.reserve(REPLY_ROOM)?;
        let text = read_show(rt, alloc, manager.desks(), &mut self.pass, name);
        append_told(out, text);
        Ok(false)
    }

    fn answer_roas<S: Signer, R: Wait>(
        &mut self,
        rt: &R,
        alloc: Global,
        manager: &Manager<N, D, S, O>,
        name: &Name,
        out: &mut Vec<u8>,
    ) -> Result<bool, AllocError>
        ensures ok { IfOk result (λ changed. (text : List ℕ) × (out.new.items ≡ out.old.items ++ text ++ 10 ∷ [])
            × IsToldOr (IsRead (IsRoasText name.now)) (state_of C.Clock self.old) text changed (state_of C.Clock self.new)) }
        ensures err { OnErr result ((self.new ≡ self.old) × (out.new.items ≡ out.old.items)) }
    {
        out.reserve(REPLY_ROOM)?;
        let text = read_roas(rt, alloc, manager.desks(), &mut self.pass, name);
        append_told(out, text);
        Ok(false)
    }

    fn answer_history<S: Signer, R: Wait>(
        &mut self,
        rt: &R,
        alloc: Global,
        manager: &Manager<N, D, S, O>,
        name: &Name,
        out: &mut Vec<u8>,
    ) -> Result<bool, AllocError>
        ensures ok { IfOk result (λ changed. (text : List ℕ) × (out.new.items ≡ out.old.items ++ text ++ 10 ∷ [])
            × IsToldOr (IsRead (IsHistoryText name.now)) (state_of C.Clock self.old) text changed (state_of C.Clock self.new)) }
        ensures err { OnErr result ((self.new ≡ self.old) × (out.new.items ≡ out.old.items)) }
    {
        out.reserve(REPLY_ROOM)?;
        let text = read_history(rt, alloc, manager.desks(), &mut self.pass, name);
        append_told(out, text);
        Ok(false)
    }

    // Publishes at the clock's next reading, and says whether that changed the editions or their export. The room
    // for the reply is taken before that.
    fn answer_publish<S: Signer + Send, R: Threads + Wait + Sync>(
        &mut self,
        rt: &R,
        alloc: Global,
        manager: &Manager<N, D, S, O>,
        out: &mut Vec<u8>,
    ) -> Result<bool, AllocError>
        ensures ok { IfOk result (λ changed. (text : List ℕ) × (out.new.items ≡ out.old.items ++ text ++ 10 ∷ [])
            × IsPublicationText O D.Disk (state_of C.Clock self.old) text changed (state_of C.Clock self.new)) }
        ensures err { OnErr result ((self.new ≡ self.old) × (out.new.items ≡ out.old.items)) }
    {
        out.reserve(REPLY_ROOM)?;
        match manager.publish(rt, alloc, &mut self.pass, &mut self.clock) {
            Ok(published) => {
                append_published(out, published);
                Ok(true)
            }
            Err(fault) => {
                let changed = fault_changes_editions(&fault);
                append_unpublished(out, &fault);
                self.kept.keep_publication(fault);
                Ok(changed)
            }
        }
    }

    // Answers what a line says, and says whether that changed anything.
    fn answer_said<S: Signer + Send, R: Threads + Wait + Sync>(
        &mut self,
        rt: &R,
        alloc: Global,
        manager: &Manager<N, D, S, O>,
        said: Line,
        out: &mut Vec<u8>,
    ) -> Result<bool, AllocError>
        ensures ok { IfOk result (λ changed. (text : List ℕ) × (out.new.items ≡ out.old.items ++ text ++ 10 ∷ [])
            × IsToldOr (IsSaidText O D.Disk (length N.named.signers) said) (state_of C.Clock self.old) text changed (state_of C.Clock self.new)) }
        ensures err { OnErr result ((self.new ≡ self.old) × (out.new.items ≡ out.old.items)) }
    {
        match said {
            Line::Command { name, command } => {
                self.answer_command(rt, alloc, manager, &name, command, out)
            }
            Line::Publish => self.answer_publish(rt, alloc, manager, out),
            Line::Serial => self.answer_serial(manager, out),
            Line::Await { serial, looks } => self.answer_await(manager, serial, looks, out),
            Line::List => self.answer_list(rt, alloc, manager, out),
            Line::Show { name } => self.answer_show(rt, alloc, manager, &name, out),
            Line::Roas { name } => self.answer_roas(rt, alloc, manager, &name, out),
            Line::History { name } => self.answer_history(rt, alloc, manager, &name, out),
        }
    }

    // Answers a line that isn't blank, and says whether that changed anything.
    fn answer_text<S: Signer + Send, R: Threads + Wait + Sync>(
        &mut self,
        rt: &R,
        alloc: Global,
        manager: &Manager<N, D, S, O>,
        line: &[u8],
        out: &mut Vec<u8>,
    ) -> Result<bool, AllocError>
        ensures ok { IfOk result (λ changed. (text : List ℕ) × (out.new.items ≡ out.old.items ++ text ++ 10 ∷ [])
            × IsText O D.Disk (length N.named.signers) line.now (state_of C.Clock self.old) text changed (state_of C.Clock self.new)) }
        ensures err { OnErr result ((self.new ≡ self.old) × (out.new.items ≡ out.old.items)) }
    {
        match self.reader.read(alloc, line) {
            Ok(said) => self.answer_said(rt, alloc, manager, said, out),
            Err(fault) => {
                out.reserve(REPLY_ROOM)?;
                append_line_fault(alloc, &fault, out);
                Ok(false)
            }
        }
    }

    /// Answers a line at the end of `out`, and says whether that changed anything. An `Err` changes nothing. A
    /// publication starts threads by that handle; and where a lock is held by another session, it is waited for. So
    /// a line that is said to take long is to be given where no other reply waits.
    pub fn answer<S: Signer + Send, R: Threads + Wait + Sync>(
        &mut self,
        rt: &R,
        alloc: Global,
        manager: &Manager<N, D, S, O>,
        line: &[u8],
        out: &mut Vec<u8>,
    ) -> Result<bool, AllocError>
        requires none_waits { IsLong line.now → out.old.items ≡ [] }
        ensures ok { IfOk result (λ changed. (reply : List ℕ)
            × IsReply O D.Disk (length N.named.signers) (state_of C.Clock self.old) line.now reply changed (state_of C.Clock self.new)
            × (out.new.items ≡ out.old.items ++ reply)) }
        ensures err { OnErr result ((self.new ≡ self.old) × (out.new.items ≡ out.old.items)) }
    {
        if is_blank(line) {
            return Ok(false);
        }
        self.answer_text(rt, alloc, manager, line, out)
    }
}

// Whether the command may be found after a restart, or not.
fn leaves_command_in_doubt<D: Disk>(fault: &CommandFault<D>) -> bool
    ensures { result ≡ leaves_command_in_doubt fault.now }
{
    match fault {
        CommandFault::NoSuchAuthority => false,
        CommandFault::Refused { fault } => matches!(fault, DeskFault::DiskFault { .. }),
    }
}

// Whether an edition is in doubt, or was exported or failed to be.
fn fault_changes_editions<D: Disk, O: Outlet>(fault: &PublishFault<D, O>) -> bool
    ensures { result ≡ fault_changes_editions fault.now }
{
    match fault {
        PublishFault::Unmade { fault, .. } => matches!(fault, Unmade::Uncommitted { .. }),
        PublishFault::Repeated { .. } | PublishFault::Unexported { .. } => true,
    }
}

impl<N: Names, D: Disk, O: Outlet, C: Clock> LineHandler for Handler<N, D, O, C> {
    ghost use Rattle.std.specs.Prelude.{length};
    ghost use Rattle.session_lines.specs.LongLines.{IsLong};
    ghost use Rattle.session_lines.specs.Replies.{IsReply};
    ghost use Rattle.session_lines.specs.Sessions.{state_of};

    ghost answers = { λ old line reply changed new. IsReply O D.Disk (length N.named.signers) (state_of C.Clock old) line reply changed (state_of C.Clock new) };

    ghost takes_time = { IsLong };

    fn takes_long(&self, line: &[u8]) -> bool {
        takes_long(line)
    }

    fn refuse_long(&mut self, _alloc: Global, out: &mut Vec<u8>) -> Result<(), AllocError> {
        append_bad_line(out)
    }
}
