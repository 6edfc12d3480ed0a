//! A session: its lines, answered over the instance.

ghost use Rattle.std.specs.Prelude.{◌≡◌, ◌≤◌, ℕ, List, [], ◌++◌, IfOk, OnErr};
ghost use Rattle.host_calls.specs.Rise.{HasRisen};
ghost use Rattle.krill_top.specs.inner.Handlers.{timed};
ghost use Rattle.krill_top.specs.inner.Instances.{MayReply};
ghost use Rattle.krill_top.specs.Sessions.{Served};
ghost use Rattle.session_lines.specs.LongLines.{IsLongAlone};

use crate::handler::Handler;
use disk_api::Disk;
use line_loop::{Clock, SessionEnd, Sink, Source, serve_lines};
use outlet_api::Outlet;
use signer_api::Signer;
use std::alloc::{AllocError, Global};
use std::thread::Threads;

/// Serves sessions.
pub struct Session;

impl Session {
    /// Answers the session's lines, each once and in order, until the session ends. The handler has its
    /// clock.
    ///
    /// Before it waits for more input it has given the replies to all lines that have come, and before it answers a
    /// line that takes long, those to the lines before that.
    pub fn serve<
        R: Threads + Sync,
        D: Disk,
        G: Signer + Send,
        S: Source,
        K: Sink,
        O: Outlet,
        C: Clock,
    >(
        rt: &R,
        alloc: Global,
        handler: &mut Handler<D, G, O, C>,
        source: &mut S,
        sink: &mut K,
    ) -> SessionEnd
        ensures session { Served D.Disk O.Outlet S.Source K.Sink (record { source = source.old; sink = sink.old })
            (record { source = source.new; sink = sink.new }) (timed C.Clock handler.old) (timed C.Clock handler.new) result }
        ensures source_fault { result ≡ SessionEnd.SourceFault →
            HasRisen (S.fault_count source.old) (S.fault_count source.new) }
        ensures sink_fault { result ≡ SessionEnd.SinkFault →
            HasRisen (K.fault_count sink.old) (K.fault_count sink.new) }
        ensures source_later { S.fault_count source.old ≤ S.fault_count source.new }
        ensures sink_later { K.fault_count sink.old ≤ K.fault_count sink.new }
    {
        let answer = |handler: &mut Handler<D, G, O, C>, alloc: Global, line: &[u8], out: &mut Vec<
            u8,
        >| -> Result<bool, AllocError>
            requires none_waits { IsLongAlone line.now → out.old.items ≡ [] }
            ensures ok { IfOk result (λ changed. (reply : List ℕ)
                × MayReply D.Disk O.Outlet (timed C.Clock handler.old) line.now reply changed (timed C.Clock handler.new)
                × (out.new.items ≡ out.old.items ++ reply)) }
            ensures err { OnErr result ((handler.new ≡ handler.old) × (out.new.items ≡ out.old.items)) }
        { handler.answer(rt, alloc, line, out) };
        serve_lines(alloc, handler, &answer, source, sink)
    }
}
