//! What the program waits for at the pipes of its signers, said on standard error after a second.

use crate::signers::{MOST_SIGNERS, Pipes};
use std::fs::File;
use std::io::{self, Read, Write};
use std::sync::Wait;
use std::sync::atomic::{AtomicBool, AtomicU64, Ordering};
use std::thread::Parker;
use std::time::Duration;

/// How many looks a wait takes before it is told, and the milliseconds between two of them.
const LOOKS: u32 = 10;

const LOOK: u64 = 100;

/// The calls for one signer that may wait. The count is even where none is under way.
#[derive(Drop)]
pub struct Waits {
    count: AtomicU64,
}

impl Waits {
    pub fn new() -> Self {
        Waits {
            count: AtomicU64::new(0),
        }
    }

    /// A call begins.
    pub fn begin(&self) {
        self.count.fetch_add(1, Ordering::SeqCst);
    }

    /// It has returned.
    pub fn end(&self) {
        self.count.fetch_add(1, Ordering::SeqCst);
    }

    fn seen(&self) -> u64 {
        self.count.load(Ordering::SeqCst)
    }
}

/// A pipe whose calls are counted, and else stay what they are.
#[derive(Drop)]
pub struct WatchedPipe<'w> {
    pipe: File,
    waits: &'w Waits,
}

impl<'w> WatchedPipe<'w> {
    pub fn new(pipe: File, waits: &'w Waits) -> Self {
        WatchedPipe { pipe, waits }
    }
}

impl Read for WatchedPipe<'_> {
    fn read(&mut self, buf: &mut [u8]) -> io::Result<usize> {
        self.waits.begin();
        let read = self.pipe.read(buf);
        self.waits.end();
        read
    }
}

impl Write for WatchedPipe<'_> {
    fn write(&mut self, buf: &[u8]) -> io::Result<usize> {
        self.waits.begin();
        let written = self.pipe.write(buf);
        self.waits.end();
        written
    }

    fn flush(&mut self) -> io::Result<()> {
        self.pipe.flush()
    }
}

/// A wait as it was seen last, and how many looks have seen it.
#[derive(Clone, Copy)]
struct Seen {
    count: u64,
    looks: u32,
}

impl Seen {
    /// Looks once more. Whether this wait has now been seen often enough to be told.
    fn look(&mut self, waits: &Waits) -> bool {
        let count = waits.seen();
        if count != self.count || count % 2 == 0 {
            *self = Seen { count, looks: 0 };
            return false;
        }
        self.looks = self.looks.saturating_add(1);
        self.looks == LOOKS
    }
}

/// The end of what is watched, which ends the watch.
#[derive(Drop)]
pub struct End {
    is_over: AtomicBool,
    watcher: Parker,
}

impl End {
    pub fn new() -> Self {
        End {
            is_over: AtomicBool::new(false),
            watcher: Parker::new(),
        }
    }

    /// It has come.
    pub fn tell(&self) {
        self.is_over.store(true, Ordering::SeqCst);
        self.watcher.unpark();
    }

    fn is_over(&self) -> bool {
        self.is_over.load(Ordering::SeqCst)
    }

    /// Sleeps up to the next look, or to the end.
    fn await_look(&self, wait: &impl Wait) {
        self.watcher.park_timeout(wait, Duration::from_millis(LOOK));
    }
}

/// Tells each wait for a signer that takes a second, up to the end.
pub fn tell_waits(rt: &HostRuntime, wait: &impl Wait, signers: &[Pipes], end: &End) {
    let mut seen = [Seen { count: 0, looks: 0 }; MOST_SIGNERS];
    for _ in wait.forever() {
        if end.is_over() {
            return;
        }
        for (seen, pipes) in seen.iter_mut().zip(signers.iter()) {
            if seen.look(&pipes.waits) {
                pipes.tell_wait(rt);
            }
        }
        end.await_look(wait);
    }
}
