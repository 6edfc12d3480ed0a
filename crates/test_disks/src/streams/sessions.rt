//! Sessions that answer each line with itself, and a longer one with an exclamation mark.
ghost use Rattle.std.specs.Prelude.{◌≡◌, ◌⊎◌, ◌<◌, ◌≤◌, [], ◌∷◌, ◌++◌, length, OnOk, OnErr};

use crate::streams::fields::Fields;
use anyhow::Result;
use line_loop::{
    LineHandler, MemorySink, MemorySource, PlayedReader, PlayedWriter, SessionEnd, SinkOver,
    SourceOver, StreamSink, StreamSource, serve_lines,
};
use std::alloc::{AllocError, Global};
use std::io::Cursor;

/// A line that begins with an `a` changes something, and one that begins with a `w` takes long.
#[derive(Drop)]
struct Echo;

impl LineHandler for Echo {
    ghost use Rattle.std.specs.Prelude.{◌≡◌, Some, List, slice_get};
    ghost use Rattle.line_loop.specs.declared.TheConstants.{LINE_LIMIT};

    ghost takes_time = { λ line. slice_get line 0 ≡ Some 119 };

    ghost answers = { λ old line reply changes new. ((length line ≤ LINE_LIMIT) × (reply ≡ line ++ 10 ∷ []))
        ⊎ ((LINE_LIMIT < length line) × (reply ≡ 33 ∷ 10 ∷ [])) };

    fn takes_long(&self, line: &[u8]) -> bool {
        line.first() == Some(&b'w')
    }

    fn refuse_long(&mut self, _alloc: Global, out: &mut Vec<u8>) -> Result<(), AllocError> {
        out.extend_from_slice(b"!\n")
    }
}

// Answers a line with itself.
fn echo_line(
    _echo: &mut Echo,
    _alloc: Global,
    line: &[u8],
    out: &mut Vec<u8>,
) -> Result<bool, AllocError>
    ensures ok { OnOk result (out.new.items ≡ out.old.items ++ line.now ++ 10 ∷ []) }
    ensures err { OnErr result (out.new.items ≡ out.old.items) }
{
    let len = out.len();
    out.extend_from_slice(line)?;
    if out.push(b'\n').is_err() {
        out.truncate(len);
        return Err(AllocError);
    }
    Ok(line.first() == Some(&b'a'))
}

/// An input, the source's piece and the calls of it that fail, and the same of the sink: how the session
/// ends and what the sink took.
pub fn session(alloc: Global, fields: &mut Fields<'_>) -> Result<String> {
    let input = fields.bytes(alloc)?;
    let piece = fields.piece()?;
    let mut source = MemorySource::in_pieces(input, fields.numbers(alloc)?, piece);
    let piece = fields.piece()?;
    let mut sink = MemorySink::in_pieces(alloc, fields.numbers(alloc)?, piece);
    let end = serve_lines(alloc, &mut Echo, &echo_line, &mut source, &mut sink);
    told(alloc, end, sink.bytes())
}

/// The length of a first line, which a second one `ok` follows, and the source's piece: the session's
/// end, how many bytes the sink took, and the first and the last of them.
pub fn long(alloc: Global, fields: &mut Fields<'_>) -> Result<String> {
    let mut input = vec![in alloc; b'x'; fields.number()? as usize]?;
    input.extend_from_slice(b"\nok")?;
    let mut source = MemorySource::in_pieces(input, Vec::new(alloc), fields.piece()?);
    let mut sink = MemorySink::new(alloc, Vec::new(alloc));
    let end = serve_lines(alloc, &mut Echo, &echo_line, &mut source, &mut sink);
    let taken = sink.bytes();
    let len = taken.len();
    let first = hex::encode(alloc, &taken[..len.min(4)])?;
    let last = hex::encode(alloc, &taken[len.saturating_sub(6)..])?;
    Ok(format!(in alloc; "{end:?} {len} {first} {last}")?)
}

/// An input, how the reader's calls go, and how the writer's go.
pub fn streams(alloc: Global, fields: &mut Fields<'_>) -> Result<String> {
    let input = fields.bytes(alloc)?;
    let reader = PlayedReader::new(input, fields.script(alloc)?);
    let mut source = SourceOver::over(reader);
    let mut sink = SinkOver::over(PlayedWriter::new(alloc, fields.script(alloc)?));
    let end = serve_lines(alloc, &mut Echo, &echo_line, &mut source, &mut sink);
    told(alloc, end, sink.calls().bytes())
}

/// An input, over std's own reader and writer in memory.
pub fn std_streams(alloc: Global, fields: &mut Fields<'_>) -> Result<String> {
    let mut source = StreamSource::new(Cursor::new(fields.bytes(alloc)?));
    let mut written = Vec::new(alloc);
    let mut sink = StreamSink::new(&mut written);
    let end = serve_lines(alloc, &mut Echo, &echo_line, &mut source, &mut sink);
    drop(sink);
    told(alloc, end, &written)
}

fn told(alloc: Global, end: SessionEnd, taken: &[u8]) -> Result<String> {
    let taken = hex::encode(alloc, taken)?;
    Ok(format!(in alloc; "{end:?} {taken}")?)
}
