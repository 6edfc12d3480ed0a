// One line of an answer.
ghost use Rattle.std.specs.Prelude.{◌≡◌, ◌≤◌, length, take, OnOk, IfOk, IfErr, ◌∷◌, []};
ghost use Rattle.std.specs.Io.KnownBytes.{Consumes};
ghost use Rattle.signer_line.specs.Lines.{fed, NoFeed};
ghost use Rattle.signer_line.specs.Streams.{inbox_left, inbox_from, NoLine};

use crate::inbox::{Inbox, Stop};
use line_loop::RawReader;
use std::marker::Model;

// The longest line that answers a request: `once`, a key and a signature.
const LONGEST: usize = 1058;

// A line without its line feed.
#[derive(Drop)]
pub(crate) struct Line {
    bytes: [u8; LONGEST],
    len: usize,
}

impl Model for Line {
    ghost use Rattle.std.specs.Prelude.{◌≤◌, List, ℕ, take};

    ghost Value = { List ℕ };

    ghost view = { λ line. take line.len line.bytes };

    ghost invariant = { λ line. line.len ≤ 1058 };
}

impl Line {
    pub(crate) fn as_bytes(&self) -> &[u8]
        ensures { result.now ≡ self.now }
    {
        &self.bytes[..self.len]
    }
}

// The next line. A longer one than any answer is refused as soon as it is.
#[tactic(auto, using(crate::proofs::LineLemmas::no_line, crate::proofs::LineLemmas::too_long, crate::proofs::LineLemmas::whole_kept))]
pub(crate) fn receive<R: RawReader>(from: &mut Inbox<R>) -> Result<Line, Stop>
    ensures heard { IfOk result (λ line. Consumes (inbox_left R.left from.old) (inbox_left R.left from.new) (fed line)) }
    ensures whole { IfOk result (λ line. NoFeed line) }
    ensures ok { OnOk result (R.fault_count (inbox_from from.new) ≡ R.fault_count (inbox_from from.old)) }
    ensures stop { IfErr result (λ stop. NoLine stop (R.fault_count (inbox_from from.old)) (R.fault_count (inbox_from from.new))
        (inbox_left R.left from.old) (inbox_left R.left from.new)) }
{
    let mut bytes = [0u8; LONGEST];
    for len in 0..LONGEST {
        let byte = from.next()?;
        if byte == b'\n' {
            return Ok(Line { bytes, len });
        }
        bytes[len] = byte;
    }
    if from.next()? == b'\n' {
        let len = LONGEST;
        return Ok(Line { bytes, len });
    }
    Err(Stop::TooLong)
}
