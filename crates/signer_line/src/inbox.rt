// What comes from the other end, read in blocks.
ghost use Rattle.std.specs.Prelude.{◌≡◌, ◌∷◌, [], OnOk, IfOk, IfErr};
ghost use Rattle.std.specs.Io.KnownBytes.{Consumes};
ghost use Rattle.signer_line.specs.Streams.{inbox_left, inbox_from, NoByte};

use crate::ahead::Ahead;
use line_loop::RawReader;

/// Why no more was read.
#[derive(Clone, Copy, PartialEq, Eq)]
pub(crate) enum Stop {
    /// A call of a stream failed.
    Broken,
    /// The stream ended.
    Ended,
    /// It is more than is taken.
    TooLong,
}

/// A reader, and what was read of it ahead.
#[derive(Drop)]
pub struct Inbox<R> {
    from: R,
    ahead: Ahead,
}

impl<R: RawReader> Inbox<R> {
    pub(crate) fn new(from: R) -> Self
        ensures from { inbox_from result ≡ from }
        ensures left { inbox_left R.left result ≡ R.left from }
    {
        Inbox {
            from,
            ahead: Ahead::new(),
        }
    }

    /// The next byte.
    pub(crate) fn next(&mut self) -> Result<u8, Stop>
        ensures byte { IfOk result (λ byte. Consumes (inbox_left R.left self.old) (inbox_left R.left self.new) (byte ∷ [])) }
        ensures ok { OnOk result (R.fault_count (inbox_from self.new) ≡ R.fault_count (inbox_from self.old)) }
        ensures stop { IfErr result (λ stop. NoByte stop (R.fault_count (inbox_from self.old)) (R.fault_count (inbox_from self.new))
            (inbox_left R.left self.old) (inbox_left R.left self.new)) }
    {
        if let Some(byte) = self.ahead.take() {
            return Ok(byte);
        }
        if self.ahead.fill(&mut self.from).is_err() {
            return Err(Stop::Broken);
        }
        self.ahead.take().ok_or(Stop::Ended)
    }
}
