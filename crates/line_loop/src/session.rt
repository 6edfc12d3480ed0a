// The loop over a session's lines, from its source to its sink.
ghost use Rattle.std.specs.Prelude.{◌≡◌, ℕ, ◌<◌, ◌≤◌, Bool, List, [], ◌++◌, Err, length, IfOk, OnOk, OnErr};
ghost use Rattle.std.specs.Bool.{OnTrue, OnFalse};
ghost use Rattle.line_loop.specs.Functions.{TakesLines, GivesAnswers};
ghost use Rattle.line_loop.specs.Replies.{Answers, AnswersAtMostOne};
ghost use Rattle.std.specs.Io.KnownBytes.{Appends, Consumes, IsAtEnd};
ghost use Rattle.host_calls.specs.Rise.{HasRisen};
ghost use Rattle.line_loop.specs.inner.Pending.{NoFeed, IsTail};
ghost use Rattle.line_loop.specs.inner.Progress.{Advances, Interrupts, InterruptsLast};
ghost use Rattle.line_loop.specs.Session.{Serves, end_of};

use crate::answering::{answer_last, answer_next, next_takes_long};
use crate::window::Window;
use crate::{LineHandler, REPLIES_LIMIT, SESSION_LIMIT, Sink, SinkStop, Source, SourceStop};
use std::alloc::{AllocError, Global};

/// How a session ended.
#[derive(Clone, Copy, Debug, PartialEq, Eq)]
pub enum SessionEnd {
    /// The source was read to its end, and every line was answered.
    End,
    /// The source failed. Every line that had come whole was answered.
    SourceFault,
    /// The sink failed, in the midst of the replies.
    SinkFault,
    /// The session took as many bytes as it may. Every line that had come whole was answered.
    Spent {
        /// How many, which is [`SESSION_LIMIT`].
        bytes: u64,
    },
    /// Memory ran out, in the midst of the replies.
    Memory,
}

// Gives the sink all of the replies, and empties them.
fn give_all<K: Sink>(alloc: Global, sink: &mut K, out: &mut Vec<u8>) -> Result<(), SinkStop>
    ensures empty { OnOk result (out.new.items ≡ []) }
    ensures ok { OnOk result (Appends (K.taken sink.old) (K.taken sink.new) out.old.items) }
    ensures err { OnErr result ((written : List ℕ) × (cut_off : List ℕ)
        × Appends (K.taken sink.old) (K.taken sink.new) written
        × (out.old.items ≡ written ++ cut_off)) }
    ensures later { K.fault_count sink.old ≤ K.fault_count sink.new }
    ensures fault { result ≡ Err SinkStop.Fault → HasRisen (K.fault_count sink.old) (K.fault_count sink.new) }
{
    let mut at = 0;
    while at < out.len() {
        at += sink.give(alloc, &out[at..])?;
    }
    out.clear();
    Ok(())
}

// Gives the sink what is there, and then says that memory ran out.
fn give_and_stop<K: Sink>(alloc: Global, sink: &mut K, out: &mut Vec<u8>) -> SinkStop
    ensures written { (written : List ℕ) × (cut_off : List ℕ)
        × Appends (K.taken sink.old) (K.taken sink.new) written
        × (out.old.items ≡ written ++ cut_off) }
    ensures later { K.fault_count sink.old ≤ K.fault_count sink.new }
    ensures fault { result ≡ SinkStop.Fault → HasRisen (K.fault_count sink.old) (K.fault_count sink.new) }
{
    match give_all(alloc, sink, out) {
        Ok(()) => SinkStop::Memory,
        Err(stop) => stop,
    }
}

// Answers pending lines, and says whether more may have ended: it stops after a line that changed
// anything, where the replies are many, and before a line that takes long.
fn answer_batch<
    H: LineHandler,
    F: Fn(&mut H, Global, &[u8], &mut Vec<u8>) -> Result<bool, AllocError>,
>(
    alloc: Global,
    handler: &mut H,
    answer: &F,
    window: &mut Window,
    out: &mut Vec<u8>,
) -> Result<bool, AllocError>
    requires empty { out.old.items ≡ [] }
    requires takes { TakesLines H.takes_time (F.pre answer.now) }
    requires gives { GivesAnswers H.answers (F.post answer.now) }
    ensures batch { Advances (AnswersAtMostOne H.answers) handler.old window.old out.new.items handler.new window.new }
    ensures fewer { IfOk result (λ more. OnTrue more (length window.new.bytes < length window.old.bytes)) }
    ensures none { IfOk result (λ more. OnFalse more (NoFeed window.new.bytes)) }
{
    'lines: loop {
        match answer_next(alloc, handler, answer, window, out)? {
            None => return Ok(false),
            Some(changes) => {
                if changes || out.len() >= REPLIES_LIMIT {
                    return Ok(true);
                }
                if next_takes_long(handler, window) {
                    return Ok(true);
                }
            }
        }
    }
}

// Answers each pending line that has ended, and gives the sink the replies.
fn answer_pending<
    H: LineHandler,
    F: Fn(&mut H, Global, &[u8], &mut Vec<u8>) -> Result<bool, AllocError>,
    K: Sink,
>(
    alloc: Global,
    handler: &mut H,
    answer: &F,
    window: &mut Window,
    sink: &mut K,
    out: &mut Vec<u8>,
) -> Result<(), SinkStop>
    requires empty { out.old.items ≡ [] }
    requires takes { TakesLines H.takes_time (F.pre answer.now) }
    requires gives { GivesAnswers H.answers (F.post answer.now) }
    ensures ok { OnOk result ((replies : List ℕ)
        × Appends (K.taken sink.old) (K.taken sink.new) replies
        × Advances (Answers H.answers) handler.old window.old replies handler.new window.new) }
    ensures none { OnOk result (NoFeed window.new.bytes) }
    ensures empty { OnOk result (out.new.items ≡ []) }
    ensures err { OnErr result ((written : List ℕ)
        × Appends (K.taken sink.old) (K.taken sink.new) written
        × Interrupts H.answers handler.old window.old written handler.new) }
    ensures later { K.fault_count sink.old ≤ K.fault_count sink.new }
    ensures fault { result ≡ Err SinkStop.Fault → HasRisen (K.fault_count sink.old) (K.fault_count sink.new) }
{
    'batches: loop {
        match answer_batch(alloc, handler, answer, window, out) {
            Ok(true) => give_all(alloc, sink, out)?,
            Ok(false) => return give_all(alloc, sink, out),
            Err(_) => return Err(give_and_stop(alloc, sink, out)),
        }
    }
}

// Answers the last line, which the end of the input ends, and gives the sink the reply.
fn finish<
    H: LineHandler,
    F: Fn(&mut H, Global, &[u8], &mut Vec<u8>) -> Result<bool, AllocError>,
    K: Sink,
>(
    alloc: Global,
    handler: &mut H,
    answer: &F,
    window: &Window,
    sink: &mut K,
    out: &mut Vec<u8>,
) -> Result<(), SinkStop>
    requires empty { out.old.items ≡ [] }
    requires takes { TakesLines H.takes_time (F.pre answer.now) }
    requires gives { GivesAnswers H.answers (F.post answer.now) }
    ensures ok { OnOk result ((reply : List ℕ) × (changes : Bool)
        × Appends (K.taken sink.old) (K.taken sink.new) reply
        × ((tail : List ℕ) → IsTail tail window.now →
        H.answers handler.old tail reply changes handler.new)) }
    ensures err { OnErr result ((written : List ℕ)
        × Appends (K.taken sink.old) (K.taken sink.new) written
        × InterruptsLast H.answers handler.old window.now written handler.new) }
    ensures later { K.fault_count sink.old ≤ K.fault_count sink.new }
    ensures fault { result ≡ Err SinkStop.Fault → HasRisen (K.fault_count sink.old) (K.fault_count sink.new) }
{
    match answer_last(alloc, handler, answer, window, out) {
        Ok(()) => give_all(alloc, sink, out),
        Err(_) => Err(give_and_stop(alloc, sink, out)),
    }
}

// How a session ends whose sink stopped.
fn end_after(stop: SinkStop) -> SessionEnd
    ensures { result ≡ end_of stop }
{
    match stop {
        SinkStop::Fault => SessionEnd::SinkFault,
        SinkStop::Memory => SessionEnd::Memory,
    }
}

/// Answers the lines of the source by that function, each once and in order, and gives the replies to
/// the sink. A line ends at a line feed or at the end of the input. All replies to what has come are
/// given before more is asked for.
pub fn serve_lines<
    H: LineHandler,
    F: Fn(&mut H, Global, &[u8], &mut Vec<u8>) -> Result<bool, AllocError>,
    S: Source,
    K: Sink,
>(alloc: Global, handler: &mut H, answer: &F, source: &mut S, sink: &mut K) -> SessionEnd
    requires takes { TakesLines H.takes_time (F.pre answer.now) }
    requires gives { GivesAnswers H.answers (F.post answer.now) }
    // What the source gave and what the sink took, where they are known.
    ensures session { (given : List ℕ) × (written : List ℕ)
        × Consumes (S.left source.old) (S.left source.new) given
        × Appends (K.taken sink.old) (K.taken sink.new) written
        × Serves H.answers handler.old given (IsAtEnd (S.left source.new)) written handler.new result }

    // It doesn't give up by itself.
    ensures source_fault { result ≡ SessionEnd.SourceFault →
        HasRisen (S.fault_count source.old) (S.fault_count source.new) }
    ensures sink_fault { result ≡ SessionEnd.SinkFault →
        HasRisen (K.fault_count sink.old) (K.fault_count sink.new) }
    ensures source_later { S.fault_count source.old ≤ S.fault_count source.new }
    ensures sink_later { K.fault_count sink.old ≤ K.fault_count sink.new }
{
    let Ok(mut window) = Window::new(alloc) else {
        return SessionEnd::Memory;
    };
    let mut out = Vec::new(alloc);
    let mut taken = 0;
    while taken < SESSION_LIMIT {
        match window.fill(alloc, source, SESSION_LIMIT - taken) {
            Ok(0) => {
                if let Err(stop) = finish(alloc, handler, answer, &window, sink, &mut out) {
                    return end_after(stop);
                }
                return SessionEnd::End;
            }
            Ok(n) => taken += n as u64,
            Err(SourceStop::Fault) => return SessionEnd::SourceFault,
            Err(SourceStop::Memory) => return SessionEnd::Memory,
        }
        if let Err(stop) = answer_pending(alloc, handler, answer, &mut window, sink, &mut out) {
            return end_after(stop);
        }
        window.shorten();
    }
    SessionEnd::Spent { bytes: taken }
}
