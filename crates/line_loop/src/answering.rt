// What answers a session's lines, one at a time.
ghost use Rattle.std.specs.Prelude.{◌≡◌, ◌↔◌, ℕ, ◌<◌, ◌≤◌, Bool, false, List, [], ◌++◌, length, take, vec_len, IsTrue, IfOk, OnOk, OnErr, IfSome, IfNone};
ghost use Rattle.std.specs.Bool.{OnFalse};
ghost use Rattle.line_loop.specs.Functions.{TakesLines, GivesAnswers};
ghost use Rattle.line_loop.specs.inner.Pending.{NoFeed, IsTailOf, IsTail, IsLongFirst, NoneWaits};
ghost use Rattle.line_loop.specs.inner.Progress.{AnswersOne, Advances};

use crate::LINE_LIMIT;
use crate::window::Window;
use std::alloc::{AllocError, Global};

/// What lines are answered over, by the function that [`crate::serve_lines`] is lent. It answers a line
/// of at most [`crate::LINE_LIMIT`] bytes, at the end of the replies, of which fewer than
/// [`crate::REPLIES_LIMIT`] bytes wait, and none where the line takes long. It says whether that changed
/// what its reply acknowledges: such a reply is given before the next line is answered. A reply is the
/// bytes that are written, its line feed among them, and none where a line has no reply. An `Err`
/// changes nothing.
pub trait LineHandler {
    /// From the first state the handler may answer this line, which stands without its line feed, with
    /// this reply, and be left in the second state. The flag says whether the line changed what its
    /// reply acknowledges.
    ghost answers: { Self → List ℕ → List ℕ → Bool → Self → Type 0 };

    /// The lines whose answers take long. Before such a line is answered the replies to the lines before
    /// it are given to the sink, so that nobody waits for them so long.
    ghost takes_time: { List ℕ → Type 0 };

    /// Whether this line takes long. It is asked where replies wait, and of no longer line.
    fn takes_long(&self, line: &[u8]) -> bool
        ensures { IsTrue result ↔ takes_time line.now };

    /// Answers a longer line, whose bytes were not kept: with one reply, whichever they were. It
    /// changes nothing that a reply acknowledges.
    fn refuse_long(&mut self, alloc: Global, out: &mut Vec<u8>) -> Result<(), AllocError>
        requires { vec_len out.old < 65536 }
        ensures ok { OnOk result ((reply : List ℕ)
            × ((line : List ℕ) → LINE_LIMIT < length line → answers self.old line reply false self.new)
            × (out.new.items ≡ out.old.items ++ reply)) }
        ensures err { OnErr result ((self.new ≡ self.old) × (out.new.items ≡ out.old.items)) };
}

// Answers the first line of the window, which has so many bytes of those that are kept.
fn answer_line<
    H: LineHandler,
    F: Fn(&mut H, Global, &[u8], &mut Vec<u8>) -> Result<bool, AllocError>,
>(
    alloc: Global,
    handler: &mut H,
    answer: &F,
    window: &Window,
    n: usize,
    out: &mut Vec<u8>,
) -> Result<bool, AllocError>
    requires within { n ≤ length window.now.bytes }
    requires few { vec_len out.old < 65536 }
    requires none_waits { window.now.skips ≡ false → n ≤ LINE_LIMIT
        → H.takes_time (take n window.now.bytes) → out.old.items ≡ [] }
    requires takes { TakesLines H.takes_time (F.pre answer.now) }
    requires gives { GivesAnswers H.answers (F.post answer.now) }
    ensures ok { IfOk result (λ changes. (reply : List ℕ) × (out.new.items ≡ out.old.items ++ reply)
        × ((line : List ℕ) → IsTailOf line (take n window.now.bytes) window.now.skips →
        H.answers handler.old line reply changes handler.new)) }
    ensures err { OnErr result ((handler.new ≡ handler.old) × (out.new.items ≡ out.old.items)) }
{
    if window.skips() || n > LINE_LIMIT {
        handler.refuse_long(alloc, out)?;
        return Ok(false);
    }
    answer(handler, alloc, window.front(n), out)
}

/// Answers the first pending line, where it has ended, and says whether it changed anything. None
/// where no line has ended.
pub(crate) fn answer_next<
    H: LineHandler,
    F: Fn(&mut H, Global, &[u8], &mut Vec<u8>) -> Result<bool, AllocError>,
>(
    alloc: Global,
    handler: &mut H,
    answer: &F,
    window: &mut Window,
    out: &mut Vec<u8>,
) -> Result<Option<bool>, AllocError>
    requires few { vec_len out.old < 65536 }
    requires none_waits { NoneWaits H.takes_time window.old out.old.items }
    requires takes { TakesLines H.takes_time (F.pre answer.now) }
    requires gives { GivesAnswers H.answers (F.post answer.now) }
    ensures answered { IfOk result (λ found. IfSome found (λ changes. (reply : List ℕ)
        × (out.new.items ≡ out.old.items ++ reply)
        × Advances (AnswersOne H.answers changes) handler.old window.old reply handler.new window.new)) }
    ensures fewer { IfOk result (λ found. IfSome found (λ _. length window.new.bytes < length window.old.bytes)) }
    ensures none { IfOk result (λ found. IfNone found (NoFeed window.old.bytes
        × (window.new ≡ window.old) × (handler.new ≡ handler.old)
        × (out.new.items ≡ out.old.items))) }
    ensures err { OnErr result ((window.new ≡ window.old) × (handler.new ≡ handler.old)
        × (out.new.items ≡ out.old.items)) }
{
    let Some(n) = window.find_line() else {
        return Ok(None);
    };
    let changes = answer_line(alloc, handler, answer, window, n, out)?;
    window.drop_line(n);
    Ok(Some(changes))
}

/// Whether the first pending line has ended, and the handler takes long over it. Of a line whose bytes
/// are not kept, it doesn't.
pub(crate) fn next_takes_long<H: LineHandler>(handler: &H, window: &mut Window) -> bool
    ensures same { window.new ≡ window.old }
    ensures quick { OnFalse result ((n : ℕ) → IsLongFirst H.takes_time window.new n → ⊥) }
{
    match window.find_line() {
        Some(n) if n <= LINE_LIMIT && !window.skips() => handler.takes_long(window.front(n)),
        _ => false,
    }
}

/// Answers what is pending as the input's last line.
pub(crate) fn answer_last<
    H: LineHandler,
    F: Fn(&mut H, Global, &[u8], &mut Vec<u8>) -> Result<bool, AllocError>,
>(
    alloc: Global,
    handler: &mut H,
    answer: &F,
    window: &Window,
    out: &mut Vec<u8>,
) -> Result<(), AllocError>
    requires empty { out.old.items ≡ [] }
    requires takes { TakesLines H.takes_time (F.pre answer.now) }
    requires gives { GivesAnswers H.answers (F.post answer.now) }
    ensures ok { OnOk result ((reply : List ℕ) × (changes : Bool) × (out.new.items ≡ out.old.items ++ reply)
        × ((tail : List ℕ) → IsTail tail window.now →
        H.answers handler.old tail reply changes handler.new)) }
    ensures err { OnErr result ((handler.new ≡ handler.old) × (out.new.items ≡ out.old.items)) }
{
    let _last = answer_line(alloc, handler, answer, window, window.len(), out)?;
    Ok(())
}
