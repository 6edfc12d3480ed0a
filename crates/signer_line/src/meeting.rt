// How both ends come into step.
ghost use Rattle.std.specs.Prelude.{◌≡◌, ◌<◌, ◌≤◌, ◌++◌, length, List, ℕ, OnOk, IfErr};
ghost use Rattle.std.specs.Io.KnownBytes.{Appends, Consumes};
ghost use Rattle.signer_line.specs.Meetings.{hello, hello_words, greeting, MatchedAfter};
ghost use Rattle.signer_line.specs.Streams.{inbox_left, inbox_from, NoHello};

use crate::inbox::{Inbox, Stop};
use crate::request::Outgoing;
use line_loop::RawReader;

// How many bytes are passed over at most: what a pipe may hold.
const MOST_PASSED: usize = 1 << 20;

/// The line that opens the meeting of this number, and answers it, without its line feed.
pub(crate) fn hello_text(number: u128) -> Outgoing
    ensures line { result ≡ hello_words number }
    ensures long { length result ≡ 38 }
{
    let word = number.to_be_bytes();
    let mut line = Outgoing::new();
    line.put(b"hello");
    line.put_hex(&word);
    line
}

/// The line that opens the meeting of this number, and answers it.
pub(crate) fn hello_line(number: u128) -> Outgoing
    ensures line { result ≡ hello number }
    ensures long { length result ≡ 39 }
{
    let mut line = hello_text(number);
    line.put(b"\n");
    line
}

/// The lines that open the meetings of this number and of the next one.
pub(crate) fn greeting_lines(number: u128) -> Outgoing
    ensures { result ≡ greeting number }
{
    let mut lines = hello_line(number);
    lines.put(hello_line(number.wrapping_add(1)).as_bytes());
    lines
}

// How much of the line is matched after the next byte, where so much was. The first byte of a hello
// stands nowhere else in it.
fn matched_after(line: &[u8], matched: usize, byte: u8) -> usize
    requires { matched < length line.now }
    ensures { MatchedAfter line.now matched byte result }
{
    if byte == line[matched] {
        matched + 1
    } else if byte == line[0] {
        1
    } else {
        0
    }
}

/// Passes over what comes, up to the end of this line.
#[tactic(auto, using(crate::proofs::LineLemmas::no_hello, crate::proofs::MeetingLemmas::after_byte, crate::proofs::MeetingLemmas::passed_all))]
pub(crate) fn pass_to<R: RawReader>(from: &mut Inbox<R>, line: &[u8]) -> Result<(), Stop>
    requires { 0 < length line.now }
    ensures heard { OnOk result ((passed : List ℕ)
        × Consumes (inbox_left R.left from.old) (inbox_left R.left from.new) (passed ++ line.now)) }
    ensures ok { OnOk result (R.fault_count (inbox_from from.new) ≡ R.fault_count (inbox_from from.old)) }
    ensures stop { IfErr result (λ stop. NoHello stop (R.fault_count (inbox_from from.old)) (R.fault_count (inbox_from from.new))
        (inbox_left R.left from.old) (inbox_left R.left from.new)) }
{
    let mut matched = 0;
    for passed in 0..MOST_PASSED {
        let byte = from.next()?;
        matched = matched_after(line, matched, byte);
        if matched == line.len() {
            return Ok(());
        }
    }
    Err(Stop::TooLong)
}
