//! Sessions: each one's lines answered over its pass, in a thread of its own.
ghost use Rattle.std.specs.Prelude.{◌≡◌, ◌≤◌, ◌<◌, ℕ, List, [], ◌++◌, length, IfOk, OnErr, slice_index_or};
ghost use Rattle.host_calls.specs.Rise.{HasRisen};
ghost use Rattle.session_lines.specs.LongLines.{IsLong};
ghost use Rattle.session_lines.specs.Replies.{IsReply};
ghost use Rattle.session_lines.specs.Sessions.{state_of, Converses, IsServed};

use crate::{Handler, Kept};
use disk_api::Disk;
use line_loop::{Clock, SessionEnd, Sink, Source, serve_lines};
use manager::{Manager, Names, Pass};
use outlet_api::Outlet;
use signer_api::Signer;
use std::alloc::{AllocError, Global};
use std::sync::Wait;
use std::thread::{Threads, for_each_mut};

/// Serves sessions.
pub struct Session;

impl Session {
    /// Answers the session's lines, each once and in order, until the session ends.
    ///
    /// Before it waits for more input it has given the replies to all lines that have come, and before it answers a
    /// line that takes long, those to the lines before that.
    pub fn serve<
        N: Names,
        D: Disk,
        G: Signer + Send,
        S: Source,
        K: Sink,
        O: Outlet,
        C: Clock,
        R: Threads + Wait + Sync,
    >(
        rt: &R,
        alloc: Global,
        manager: &Manager<N, D, G, O>,
        handler: &mut Handler<N, D, O, C>,
        source: &mut S,
        sink: &mut K,
    ) -> SessionEnd
        ensures session { Converses O D.Disk (length N.named.signers) S.Source K.Sink (record { source = source.old; sink = sink.old })
            (record { source = source.new; sink = sink.new }) result (state_of C.Clock handler.old) (state_of C.Clock handler.new) }
        ensures source_fault { result ≡ SessionEnd.SourceFault →
            HasRisen (S.fault_count source.old) (S.fault_count source.new) }
        ensures sink_fault { result ≡ SessionEnd.SinkFault →
            HasRisen (K.fault_count sink.old) (K.fault_count sink.new) }
        ensures source_later { S.fault_count source.old ≤ S.fault_count source.new }
        ensures sink_later { K.fault_count sink.old ≤ K.fault_count sink.new }
    {
        let answer = |handler: &mut Handler<N, D, O, C>, alloc: Global, line: &[u8], out: &mut Vec<
            u8,
        >| -> Result<bool, AllocError>
            requires none_waits { IsLong line.now → out.old.items ≡ [] }
            ensures ok { IfOk result (λ changed. (reply : List ℕ)
                × IsReply O D.Disk (length N.named.signers) (state_of C.Clock handler.old) line.now reply changed (state_of C.Clock handler.new)
                × (out.new.items ≡ out.old.items ++ reply)) }
            ensures err { OnErr result ((handler.new ≡ handler.old) × (out.new.items ≡ out.old.items)) }
        { handler.answer(rt, alloc, manager, line, out) };
        serve_lines(alloc, handler, &answer, source, sink)
    }
}

/// A session: its handler and its ends, and how it ended, once it was served.
#[derive(Drop)]
pub struct ServedSession<N: Names, D: Disk, O: Outlet, S: Source, K: Sink, C: Clock> {
    handler: Handler<N, D, O, C>,
    source: S,
    sink: K,
    ended: Option<SessionEnd>,
}

/// What is left of a session: its pass, its ends, what it kept of its refusals, and how it ended.
#[derive(Drop)]
pub struct SessionParts<N: Names, D: Disk, O: Outlet, S: Source, K: Sink, C: Clock> {
    pub pass: Pass<N>,
    pub source: S,
    pub sink: K,
    pub clock: C,
    pub kept: Kept<D, O>,
    pub ended: Option<SessionEnd>,
}

impl<N: Names, D: Disk, O: Outlet, S: Source, K: Sink, C: Clock> ServedSession<N, D, O, S, K, C> {
    /// A session that isn't served yet.
    pub fn new(handler: Handler<N, D, O, C>, source: S, sink: K) -> Self
        ensures handler { result.handler ≡ handler }
        ensures ends { (result.source ≡ source) × (result.sink ≡ sink) }
    {
        ServedSession {
            handler,
            source,
            sink,
            ended: None,
        }
    }

    /// Answers its lines, until it ends.
    pub fn serve<G: Signer + Send, R: Threads + Wait + Sync>(
        &mut self,
        rt: &R,
        alloc: Global,
        manager: &Manager<N, D, G, O>,
    )
        ensures { IsServed D.Disk (length N.named.signers) S.Source K.Sink C.Clock self.old self.new }
    {
        let ServedSession {
            handler,
            source,
            sink,
            ended,
        } = self;
        *ended = Some(Session::serve(rt, alloc, manager, handler, source, sink));
    }

    /// Its pass, with what was made, and the rest.
    pub fn into_parts(self) -> SessionParts<N, D, O, S, K, C>
        ensures pass { result.pass ≡ self.handler.pass }
        ensures ends { (result.source ≡ self.source) × (result.sink ≡ self.sink) × (result.clock ≡ self.handler.clock) }
        ensures kept { result.kept ≡ self.handler.kept }
        ensures ended { result.ended ≡ self.ended }
    {
        let ServedSession {
            handler,
            source,
            sink,
            ended,
        } = self;
        let (pass, clock, kept) = handler.into_parts();
        SessionParts {
            pass,
            source,
            sink,
            clock,
            kept,
            ended,
        }
    }
}

/// Serves each session in a thread of its own. Where a thread can't be made, sessions are served in turn.
pub fn serve_all<
    N: Names + Sync + Send,
    D: Disk + Send,
    G: Signer + Send,
    O: Outlet + Send,
    S: Source + Send,
    K: Sink + Send,
    C: Clock + Send,
    R: Threads + Wait + Sync,
>(
    rt: &R,
    alloc: Global,
    manager: &Manager<N, D, G, O>,
    sessions: &mut [ServedSession<N, D, O, S, K, C>],
)
    ensures count { length sessions.new ≡ length sessions.old }
    ensures served { (n : ℕ) (d : _) → n < length sessions.old → IsServed D.Disk (length N.named.signers) S.Source K.Sink C.Clock
        (slice_index_or sessions.old n d) (slice_index_or sessions.new n d) }
{
    let threads = sessions.len().max(1);
    for_each_mut(
        rt,
        sessions,
        threads,
        &|_, session: &mut ServedSession<N, D, O, S, K, C>| { session.serve(rt, alloc, manager) },
    );
}
