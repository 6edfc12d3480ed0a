//! The sessions: standard input and output, and the files in the folder that stand for more of them.
ghost use Rattle.std.specs.Prelude.{◌≡◌, ◌↔◌, ◌≤◌, true, false, length, Some, IfOk, IfErr};
ghost use Rattle.std.specs.Fs.{new_options, with_read, with_write, file_type, IsFile};
ghost use Rattle.std.specs.IoError.{error_kind};

use crate::{FOLDER, stop_of};
use disk_api::DiskStop;
use std::fs::{self, File, Metadata, OpenOptions};
use std::io::{self, ErrorKind, Read, Stdin, Stdout, Write};
use std::os::unix::fs::{FileTypeExt, MetadataExt};

/// The numbers of the sessions that files may stand for. The first session is standard input and output.
const FIRST_FILES: usize = 2;

const LAST_FILES: usize = 8;

/// Where a session's lines come from.
#[derive(Drop)]
pub enum Input {
    Standard(Stdin),
    File(File),
}

impl Read for Input {
    fn read(&mut self, buf: &mut [u8]) -> io::Result<usize> {
        match self {
            Input::Standard(stream) => stream.read(buf),
            Input::File(file) => file.read(buf),
        }
    }
}

/// Where a session's replies go.
#[derive(Drop)]
pub enum Output {
    Standard(Stdout),
    File(File),
}

impl Write for Output {
    fn write(&mut self, buf: &[u8]) -> io::Result<usize> {
        match self {
            Output::Standard(stream) => stream.write(buf),
            Output::File(file) => file.write(buf),
        }
    }

    fn flush(&mut self) -> io::Result<()> {
        match self {
            Output::Standard(stream) => stream.flush(),
            Output::File(file) => file.flush(),
        }
    }
}

/// The streams of a session.
#[derive(Drop)]
pub struct Streams {
    pub input: Input,
    pub output: Output,
}

/// What may stand at a path where a session's lines come from, or its replies go.
#[derive(Clone, Copy, PartialEq, Eq)]
enum Kind {
    Fifo,
    Regular,
}

/// A file as the system tells it from others.
#[derive(Clone, Copy, PartialEq, Eq)]
struct Found {
    kind: Kind,
    device: u64,
    inode: u64,
}

/// An open file, and what stood at its path once it was open.
#[derive(Drop)]
struct Opened {
    file: File,
    found: Found,
    named: Option<Found>,
}

impl Opened {
    /// Cuts off a regular file of which it is known that it stands at its path itself, and no link to it.
    fn cut_off(&self) -> io::Result<()>
        requires regular { self.now.found.kind ≡ Kind.Regular }
        requires named { self.now.named ≡ Some self.now.found }
    {
        self.file.set_len(0)
    }
}

/// The streams of the sessions: the standard ones, and behind them those of the files that stand in the folder, by
/// their numbers, where these are asked for. What is neither a FIFO nor a regular file is named on standard error, and
/// is a fault.
pub fn open_sessions(rt: &HostRuntime, with_files: bool) -> Result<Vec<Streams>, DiskStop>
    ensures some { IfOk result (λ sessions. 1 ≤ length sessions.items) }
    ensures alone { with_files ≡ false → IfOk result (λ sessions. length sessions.items ≡ 1) }
{
    let mut sessions = Vec::with_capacity(rt.alloc(), LAST_FILES)?;
    sessions.push(Streams {
        input: Input::Standard(rt.stdin()),
        output: Output::Standard(rt.stdout()),
    })?;
    if !with_files {
        return Ok(sessions);
    }
    for number in FIRST_FILES..LAST_FILES + 1 {
        let lines = format!(in rt.alloc(); "{FOLDER}/session-{number}.in")?;
        let replies = format!(in rt.alloc(); "{FOLDER}/session-{number}.out")?;
        if look_at(rt, &lines)?.is_some() {
            sessions.push(Streams {
                input: Input::File(open_named(rt, &lines)?.file),
                output: Output::File(open_replies(rt, &replies)?),
            })?;
        }
    }
    Ok(sessions)
}

/// What stands there. A link isn't followed: it is neither a FIFO nor a regular file.
fn look_at(rt: &HostRuntime, path: &str) -> Result<Option<Found>, DiskStop> {
    match fs::symlink_metadata(rt, path) {
        Ok(metadata) => Ok(Some(found_of(rt, path, &metadata)?)),
        Err(error) if error.kind() == ErrorKind::NotFound => Ok(None),
        Err(error) => Err(stop_at(rt, path, error)),
    }
}

fn found_of(rt: &HostRuntime, path: &str, metadata: &Metadata) -> Result<Found, DiskStop>
    ensures regular { IfOk result (λ found. (found.kind ≡ Kind.Regular) ↔ IsFile (file_type metadata.now)) }
    ensures odd { IfErr result (λ stop. stop ≡ DiskStop.Fault) }
{
    let kind = if metadata.is_file() {
        Kind::Regular
    } else if metadata.file_type().is_fifo() {
        Kind::Fifo
    } else {
        let _told = eprintln!(rt; "krillc: {path}: neither a FIFO nor a regular file");
        return Err(DiskStop::Fault);
    };
    Ok(Found {
        kind,
        device: metadata.dev(),
        inode: metadata.ino(),
    })
}

/// Opens what a session's replies go to: a FIFO, or a regular file, which is made where it is missing, and cut off.
fn open_replies(rt: &HostRuntime, path: &str) -> Result<File, DiskStop> {
    if look_at(rt, path)?.is_none() {
        // Nor is a link followed here.
        return File::create_new(rt, path).map_err(|error| stop_at(rt, path, error));
    }
    let opened = open_named(rt, path)?;
    if opened.found.kind == Kind::Regular {
        opened.cut_off().map_err(|error| stop_at(rt, path, error))?;
    }
    Ok(opened.file)
}

/// Opens the FIFO or the regular file there, and gives none but what stands at the path itself. A link that was put there
/// since the look at it is followed by the opening, which leaves what it leads to as it is.
fn open_named(rt: &HostRuntime, path: &str) -> Result<Opened, DiskStop>
    ensures { IfOk result (λ opened. opened.named ≡ Some opened.found) }
{
    let opened = open_and_look(rt, path)?;
    if opened.named == Some(opened.found) {
        return Ok(opened);
    }
    let _told = eprintln!(rt; "krillc: {path}: another file stands there now");
    Err(DiskStop::Fault)
}

/// Opens what is there, and looks at it and at its path: now that it is open, no other file gets its inode.
fn open_and_look(rt: &HostRuntime, path: &str) -> Result<Opened, DiskStop> {
    let file = both_ways()
        .open(rt, path)
        .map_err(|error| stop_at(rt, path, error))?;
    let metadata = file.metadata().map_err(|error| stop_at(rt, path, error))?;
    Ok(Opened {
        file,
        found: found_of(rt, path, &metadata)?,
        named: look_at(rt, path)?,
    })
}

/// For reading and writing: so no opening waits, at a FIFO either, and a client that leaves one doesn't end its session.
/// What is opened stays as it is.
fn both_ways() -> OpenOptions
    ensures { result ≡ with_write (with_read new_options true) true }
{
    let mut options = OpenOptions::new();
    options.read(true).write(true);
    options
}

/// Names the file whose call failed.
fn stop_at(rt: &HostRuntime, path: &str, error: io::Error) -> DiskStop
    ensures { (result ≡ DiskStop.Memory) ↔ (error_kind error ≡ ErrorKind.OutOfMemory) }
{
    let _told = eprintln!(rt; "krillc: {path}: {error}");
    stop_of(error)
}
