// How both ends come into step at the start, where a signer may be none that knows hellos.
ghost use Rattle.std.specs.Prelude.{◌≡◌, ◌++◌, List, ℕ, length, OnOk, IfOk, IfErr, IfSome};
ghost use Rattle.std.specs.Io.KnownBytes.{Consumes};
ghost use Rattle.signer_line.specs.Lines.{fed, NoFeed};
ghost use Rattle.signer_line.specs.Openings.{Ends, PassesLines, NoEnding, NoGreeting, why_unmet};
ghost use Rattle.host_calls.specs.Rise.{HasRisen};
ghost use Rattle.signer_line.specs.Streams.{inbox_left, inbox_from};

use crate::inbox::{Inbox, Stop};
use crate::line::receive;
use line_loop::RawReader;
use thiserror::Error;

// How many lines are passed over at most: more than two pipes hold of answers to hellos.
const MOST_LINES: usize = 1 << 14;

/// Why a signer wasn't met at the start.
#[derive(Clone, Copy, Debug, PartialEq, Eq, Error)]
pub enum Unmet {
    /// A call of a stream failed, or what came ended.
    #[error("the signer has gone")]
    Gone,
    /// Two lines came that are none of a meeting's, or one that is longer than any.
    #[error("the signer answers no `hello`")]
    Stranger,
}

/// What ends the lines that are passed over.
#[derive(Clone, Copy, PartialEq, Eq)]
pub(crate) enum Ending {
    /// The answer to the hello.
    Answer,
    /// A line that is none of a meeting's.
    Strange,
}

// What a line ends: it ends with the hello, maybe behind the rest of a line that was cut off, or it
// doesn't begin as a hello does.
#[tactic(auto, using(crate::proofs::OpeningLemmas::ends_with_it, crate::proofs::OpeningLemmas::is_strange))]
fn ending_of(line: &[u8], hello: &[u8]) -> Option<Ending>
    ensures { IfSome result (λ ending. Ends ending line.now hello.now) }
{
    match line.strip_suffix(hello) {
        Some(_) => Some(Ending::Answer),
        None => match line.strip_prefix(b"hello ") {
            Some(_) => None,
            None => Some(Ending::Strange),
        },
    }
}

// Passes over lines, up to the answer or to a strange one.
#[tactic(auto, using(crate::proofs::OpeningLemmas::passed_to, crate::proofs::OpeningLemmas::one_line_more, crate::proofs::OpeningLemmas::no_ending, crate::proofs::OpeningLemmas::flooded))]
pub(crate) fn pass_lines<R: RawReader>(from: &mut Inbox<R>, hello: &[u8]) -> Result<Ending, Stop>
    ensures heard { IfOk result (λ ending. PassesLines ending hello.now (inbox_left R.left from.old) (inbox_left R.left from.new)) }
    ensures ok { OnOk result (R.fault_count (inbox_from from.new) ≡ R.fault_count (inbox_from from.old)) }
    ensures stop { IfErr result (λ stop. NoEnding stop (R.fault_count (inbox_from from.old)) (R.fault_count (inbox_from from.new))
        (inbox_left R.left from.old) (inbox_left R.left from.new)) }
{
    for passed in 0..MOST_LINES {
        let line = receive(from)?;
        if let Some(ending) = ending_of(line.as_bytes(), hello) {
            return Ok(ending);
        }
    }
    Err(Stop::TooLong)
}

fn unmet_of(stop: Stop) -> Unmet
    ensures { result ≡ why_unmet stop }
{
    match stop {
        Stop::Broken => Unmet::Gone,
        Stop::Ended => Unmet::Gone,
        Stop::TooLong => Unmet::Stranger,
    }
}

/// Passes over lines, and over one strange one among them: what an earlier run left of an answer.
#[tactic(auto, using(crate::proofs::OpeningLemmas::greeted, crate::proofs::OpeningLemmas::not_greeted, crate::proofs::OpeningLemmas::greeted_later, crate::proofs::OpeningLemmas::two_strange, crate::proofs::OpeningLemmas::not_greeted_later))]
pub(crate) fn pass_to_answer<R: RawReader>(from: &mut Inbox<R>, hello: &[u8]) -> Result<(), Unmet>
    ensures heard { OnOk result ((passed : List ℕ)
        × Consumes (inbox_left R.left from.old) (inbox_left R.left from.new) (passed ++ fed hello.now)) }
    ensures ok { OnOk result (R.fault_count (inbox_from from.new) ≡ R.fault_count (inbox_from from.old)) }
    ensures refused { IfErr result (λ unmet. NoGreeting unmet
        (HasRisen (R.fault_count (inbox_from from.old)) (R.fault_count (inbox_from from.new)))
        (inbox_left R.left from.old) (inbox_left R.left from.new)) }
{
    match pass_lines(from, hello) {
        Ok(Ending::Answer) => Ok(()),
        Ok(Ending::Strange) => match pass_lines(from, hello) {
            Ok(Ending::Answer) => Ok(()),
            Ok(Ending::Strange) => Err(Unmet::Stranger),
            Err(stop) => Err(unmet_of(stop)),
        },
        Err(stop) => Err(unmet_of(stop)),
    }
}
