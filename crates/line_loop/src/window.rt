// The bytes of a session that are not answered yet, in a buffer that they move through.
ghost use Rattle.std.specs.Prelude.{◌≡◌, ℕ, ◌+◌, ◌-◌, ◌*◌, ◌<◌, ◌≤◌, Err, false, List, [], ◌++◌, length, take, drop, IfSome, IfNone, IfOk, OnErr};
ghost use Rattle.std.specs.Io.KnownBytes.{Consumes, IsAtEnd, Keeps};
ghost use Rattle.host_calls.specs.Rise.{HasRisen};
ghost use Rattle.line_loop.specs.inner.Pending.{Pending, NoFeed, EndsLine, IsShortened};

use crate::{LINE_LIMIT, Source, SourceStop};
use memchr::memchr;
use std::alloc::{AllocError, Global};
use std::marker::Model;

/// How many bytes the buffer holds. What is moved to its front is at most a line, and half of it, so
/// that a byte is moved about once.
const BUFFER_LEN: usize = 2 * LINE_LIMIT;

/// What has come and is not answered: at most a line that goes on, and the lines behind it.
#[derive(Drop)]
pub(crate) struct Window {
    buffer: Vec<u8>,
    // The pending bytes stand from here to the end,
    start: usize,
    end: usize,
    // and up to here there is no line feed in them.
    seen: usize,
    skips: bool,
}

impl Model for Window {
    ghost use Rattle.std.specs.Prelude.{◌≡◌, ◌-◌, ◌≤◌, take, drop};
    ghost use Rattle.line_loop.specs.inner.Pending.{Pending, NoFeed};
    ghost use Rattle.line_loop.specs.declared.window.TheConstants.{BUFFER_LEN};

    ghost Value = { Pending };

    ghost view = { λ w. record {
      bytes = drop w.start (take w.end w.buffer.items);
      skips = w.skips;
      room = BUFFER_LEN - w.end;
    } };

    ghost invariant = { λ w. (w.start ≤ w.seen) × (w.seen ≤ w.end) × (w.end ≤ BUFFER_LEN)
        × (w.buffer.len ≡ BUFFER_LEN) × NoFeed (drop w.start (take w.seen w.buffer.items)) };
}

// The first line feed, which stands not before `seen`.
fn find_feed(bytes: &[u8], seen: usize) -> Option<usize>
    requires within { seen ≤ length bytes.now }
    requires none_before { NoFeed (take seen bytes.now) }
    ensures found { IfSome result (EndsLine bytes.now) }
    ensures none { IfNone result (NoFeed bytes.now) }
{
    let i = memchr(b'\n', &bytes[seen..])?;
    Some(seen + i)
}

// Takes from the source into the `room` places from `end` on.
fn take_at<S: Source>(
    alloc: Global,
    source: &mut S,
    buffer: &mut [u8],
    end: usize,
    room: usize,
) -> Result<usize, SourceStop>
    requires { end + room ≤ length buffer.old }
    ensures front { take end buffer.new ≡ take end buffer.old }
    ensures ok { IfOk result (λ n. (n ≤ room) × ((chunk : List ℕ) × (length chunk ≡ n)
        × Consumes (S.left source.old) (S.left source.new) chunk
        × (take (end + n) buffer.new ≡ take end buffer.old ++ chunk))) }
    ensures end { IfOk result (λ n. n ≡ 0 → 0 < room → IsAtEnd (S.left source.new)) }
    ensures err { OnErr result (Keeps (S.left source.old) (S.left source.new)) }
    ensures later { S.fault_count source.old ≤ S.fault_count source.new }
    ensures fault { result ≡ Err SourceStop.Fault → HasRisen (S.fault_count source.old) (S.fault_count source.new) }
{
    source.take(alloc, &mut buffer[end..end + room])
}

// Moves the bytes from `start` to `end` to the front.
fn move_to_front(buffer: &mut [u8], start: usize, end: usize)
    requires ordered { start ≤ end }
    requires within { end ≤ length buffer.old }
    ensures { take (end - start) buffer.new ≡ drop start (take end buffer.old) }
{
    buffer.copy_within(start..end, 0);
}

impl Window {
    pub(crate) fn new(alloc: Global) -> Result<Window, AllocError>
        ensures bytes { IfOk result (λ w. w.bytes ≡ []) }
        ensures skips { IfOk result (λ w. w.skips ≡ false) }
    {
        Ok(Window {
            buffer: vec![in alloc; 0; BUFFER_LEN]?,
            start: 0,
            end: 0,
            seen: 0,
            skips: false,
        })
    }

    pub(crate) fn len(&self) -> usize
        ensures { result ≡ length self.now.bytes }
    {
        self.end - self.start
    }

    /// Whether the front of the first line was dropped.
    pub(crate) fn skips(&self) -> bool
        ensures { result ≡ self.now.skips }
    {
        self.skips
    }

    /// The first bytes.
    pub(crate) fn front(&self, n: usize) -> &[u8]
        requires { n ≤ length self.now.bytes }
        ensures { result.now ≡ take n self.now.bytes }
    {
        &self.buffer[self.start..self.start + n]
    }

    /// How many bytes stand before the first line feed. It goes on where it found none before.
    pub(crate) fn find_line(&mut self) -> Option<usize>
        ensures same { self.new ≡ self.old }
        ensures found { IfSome result (EndsLine self.old.bytes) }
        ensures none { IfNone result (NoFeed self.old.bytes) }
    {
        let pending = &self.buffer[self.start..self.end];
        let found = find_feed(pending, self.seen - self.start);
        if found.is_none() {
            self.seen = self.end;
        }
        found
    }

    /// Drops the first line, of so many bytes, and its line feed.
    pub(crate) fn drop_line(&mut self, n: usize)
        requires { n < length self.old.bytes }
        ensures bytes { self.new.bytes ≡ drop (n + 1) self.old.bytes }
        ensures skips { self.new.skips ≡ false }
    {
        self.start = self.start + n + 1;
        self.seen = self.start;
        self.skips = false;
    }

    /// Drops what has come of a line that has not ended and is too long to be kept.
    pub(crate) fn shorten(&mut self)
        ensures { IsShortened self.old self.new }
    {
        if self.skips || self.end - self.start > LINE_LIMIT {
            self.start = self.end;
            self.seen = self.end;
            self.skips = true;
        }
    }

    // Moves the pending bytes to the front where the buffer is full, and where that costs nothing.
    fn make_room(&mut self)
        requires { length self.old.bytes ≤ LINE_LIMIT }
        ensures bytes { self.new.bytes ≡ self.old.bytes }
        ensures skips { self.new.skips ≡ self.old.skips }
        ensures room { 0 < self.new.room }
    {
        if self.start == self.end || self.end == BUFFER_LEN {
            move_to_front(&mut self.buffer, self.start, self.end);
            self.seen -= self.start;
            self.end -= self.start;
            self.start = 0;
        }
    }

    /// Takes more from the source, at most so many bytes, and says how many. It takes none only at the
    /// source's end.
    pub(crate) fn fill<S: Source>(
        &mut self,
        alloc: Global,
        source: &mut S,
        most: u64,
    ) -> Result<usize, SourceStop>
        requires some { 0 < most }
        requires short { length self.old.bytes ≤ LINE_LIMIT }
        ensures skips { self.new.skips ≡ self.old.skips }
        ensures ok { IfOk result (λ n. (n ≤ most) × ((chunk : List ℕ) × (length chunk ≡ n)
            × Consumes (S.left source.old) (S.left source.new) chunk
            × (self.new.bytes ≡ self.old.bytes ++ chunk))) }
        ensures end { IfOk result (λ n. n ≡ 0 → IsAtEnd (S.left source.new)) }
        ensures err { OnErr result ((self.new.bytes ≡ self.old.bytes)
            × Keeps (S.left source.old) (S.left source.new)) }
        ensures later { S.fault_count source.old ≤ S.fault_count source.new }
        ensures fault { result ≡ Err SourceStop.Fault →
            HasRisen (S.fault_count source.old) (S.fault_count source.new) }
    {
        self.make_room();
        let free = BUFFER_LEN - self.end;
        let room = if (free as u64) < most {
            free
        } else {
            most as usize
        };
        let n = take_at(alloc, source, &mut self.buffer, self.end, room)?;
        self.end += n;
        Ok(n)
    }
}
