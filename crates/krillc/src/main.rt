//! `krillc`: the daemon over standard input and output, and the files of a folder.
//!
//! The folder `krill-data` of the working directory has a file for each desk, `desk-00` to `desk-63`, that of
//! the press, `press`, the files of more sessions, `session-2.in` and `session-2.out` to `session-8.in` and
//! `session-8.out`, the pipes of the signers, `signer-0.in` and `signer-0.out` to `signer-7.in` and `signer-7.out`, and `repo`,
//! the folder of the files that are exported.
#![tactic(auto)]

ghost use Rattle.std.specs.Prelude.{◌≡◌, ◌↔◌};
ghost use Rattle.std.specs.IoError.{error_kind};

mod clock;
mod sessions;
mod signers;
mod waits;

use clock::{ClockBehind, ClockFault, VARIABLE, seconds_behind};
use disk_api::{Disk, DiskStop, FileDisk};
use krill_top::{
    DESKS, Doing, RunEnd, RunFault, SessionEnds, StreamSink, StreamSource, SystemClock, fault_text,
    read_words, run_krill,
};
use outlet_api::FolderOutlet;
use sessions::{Input, Output, Streams, open_sessions};
use signer_api::Signer;
use signers::{Pipes, find_signers, open_signers, rehearsal};
use std::io::{ErrorKind, Write};
use std::os::fd::{AsRawFd, IntoRawFd};
use std::process::ExitCode;
use std::random::RandomSource;
use std::sync::Wait;
use std::thread::{self, Threads};
use std::{env, fs, io};
use waits::{End, tell_waits};

/// The folder of the desks' files, in the working directory.
pub(crate) const FOLDER: &str = "krill-data";

/// The press's file.
const PRESS: &str = "krill-data/press";

/// Where a journal stands that an audit makes, until it is open.
const UNNAMED: &str = "krill-data/.audit";

/// How many bytes a journal without records has at most.
const EMPTY_JOURNAL: u64 = 17;

/// What a journal begins with, and what it begins with where it has a record: its first gate is open then.
const HEADER: &[u8] = b"KRILLJOURNAL0001";

const FIRST_RECORD: &[u8] = b"KRILLJOURNAL0001\x01";

/// A press that is shorter has no edition: it may lack even the record of its store, which opening writes.
const SMALL_PRESS: u64 = 4096;

/// The folder of the files that are exported.
const REPOSITORY: &str = "krill-data/repo";

/// The standard streams have the descriptors below this one.
const STANDARD_STREAMS: i32 = 3;

const HELP: &str = "krillc: a delegated RPKI certificate authority daemon

usage: krillc run [--rsync URI] [--rrdp URI]
       krillc audit [--rsync URI] [--rrdp URI]
       krillc workload --number N [--rsync URI] [--rrdp URI]
       krillc --help | --version

run reads commands from standard input, one line of JSON each, and writes a line of reply to each on
standard output. Accepted commands are kept in the folder krill-data of the working directory. To
announce a prefix:

    echo '{\"command\":\"roas update\",\"ca\":\"ta\",\"add\":[\"10.0.0.0/16-24 => 64496\"]}' | krillc run

The line {\"command\":\"publish\"} publishes what was accepted, and puts the RRDP files, the trust anchor's
certificate and its locator into krill-data/repo. Each edition is kept in krill-data/press before it is
told, and the next run goes on from the last one, with its keys. Keys and signatures are those of the
signers whose pipes stand in that folder, signer-0.in and signer-0.out to signer-7.in and signer-7.out;
where there are none, they are a rehearsal's, which no relying party accepts, and standard error says so.

Where session-2.in to session-8.in stand in that folder, each is a session of its own beside standard input and
output, served at the same time, and writes session-2.out to session-8.out. A session at a FIFO goes on when a client
leaves it, so krillc then ends by a signal alone; one at a regular file ends where the file does.

Before it reads a line, run audits what was published last: by the rules of relying parties, against what the
signers vouch for, and against the accepted commands. audit does so too, and then writes one line on it.

workload is a trial of a new store: it makes a tree of N authorities, 1 to 63, with 64 prefixes each, publishes it,
grants the first of them less and publishes that, and writes a line on each of the two editions.

--rsync URI and --rrdp URI are the bases of what is published, rsync://rpki.example/repo/ and
https://rpki.example/rrdp/ where they aren't given. A store keeps those that it was made with.

KRILL_CLOCK_BEHIND=SECONDS lets its clock run behind by so many, 0 to 3600, so that relying parties whose
clock is behind find each new edition, too.

statuses:
    0  every session was read to its end, every line has its reply, and krill-data/repo has what was
       published last
    2  the words are none of those above, a base is none, or KRILL_CLOCK_BEHIND is no such number
    3  the store is damaged, holds what is no accepted command or no edition, or what it published last
       doesn't stand: standard error says where; or it has other bases, or uses more signers than there are;
       or workload was asked for, and an authority has commands already
    4  a device failed: standard input or output failed or is closed, a file of the store or of a session
       or a pipe of a signer can't be opened, read or written at the start, signers are numbered with a gap, one gives
       no answer to `hello`, another krillc has the store, or what was published last couldn't be put
       into krill-data/repo
    5  a session brought 2^40 bytes, the most that one may
    6  out of memory
";

const VERSION: &str = "krillc 0.1.0\n";

fn main(rt: HostRuntime) -> ExitCode {
    match words_of(&rt) {
        Ok(words) => match asked_text(&words) {
            Some(text) => tell(&rt, text),
            None => open_and_run(&rt, &rt, &words),
        },
        Err(ErrorKind::InvalidData) => refused(&rt, RunFault::Words),
        Err(ErrorKind::OutOfMemory) => refused(&rt, RunFault::Memory),
        Err(_) => refused(&rt, RunFault::Device),
    }
}

/// The words behind the program's name. Words that aren't UTF-8 are `InvalidData`.
fn words_of(rt: &HostRuntime) -> Result<Vec<String>, ErrorKind> {
    let mut words = env::args(rt).map_err(|e| e.kind())?;
    let _program = words.next();
    words
        .collect(rt.alloc())
        .map_err(|_| ErrorKind::OutOfMemory)
}

/// The text on the program itself that the words ask for, alone or behind the command, if that is what
/// they ask.
fn asked_text(words: &[String]) -> Option<&'static str> {
    let asked = match words {
        [word] => word.as_str(),
        [command, word] if is_command(command.as_str()) => word.as_str(),
        _ => return None,
    };
    match asked {
        "--help" => Some(HELP),
        "--version" => Some(VERSION),
        _ => None,
    }
}

fn is_command(word: &str) -> bool {
    word == "run" || word == "audit" || word == "workload"
}

/// Writes the text to standard output, and opens nothing.
fn tell(rt: &HostRuntime, text: &str) -> ExitCode {
    match rt.stdout().write_all(text.as_bytes()) {
        Ok(()) => ExitCode::SUCCESS,
        Err(error) if error.kind() == ErrorKind::OutOfMemory => { refused(rt, RunFault::Memory) }
        Err(_) => refused(rt, RunFault::Device),
    }
}

/// Opens the files, whatever else the words are, and runs over them.
fn open_and_run<R: Threads + Wait + Sync>(
    rt: &HostRuntime,
    handle: &R,
    words: &[String],
) -> ExitCode {
    match open_store(rt, asked_for(words) == Some(Doing::Audit)) {
        Ok(store) => run_over(rt, handle, words, store),
        Err(stop) => refused(rt, fault_of(stop)),
    }
}

/// Runs over the store, with its signers or, where it has none, with one for rehearsals.
fn run_over<R: Threads + Wait + Sync>(
    rt: &HostRuntime,
    handle: &R,
    words: &[String],
    store: Store,
) -> ExitCode {
    let Store {
        folder: _locked,
        mut disks,
        signers,
    } = store;
    if asked_for(words) == Some(Doing::Run) {
        match begins_anew(rt, &mut disks) {
            Ok(false) => {}
            Ok(true) => tell_new_anchor(rt),
            Err(stop) => return refused(rt, fault_of(stop)),
        }
    }
    if !signers.is_empty() {
        return run_watched(rt, handle, words, disks, &signers);
    }
    match rehearsal(rt, asks_to_sign(words)) {
        Ok(signers) => run(rt, handle, words, disks, signers),
        Err(stop) => refused(rt, fault_of(stop)),
    }
}

/// Opens the signers and runs with them, while another thread says what is waited for.
fn run_watched<R: Threads + Wait + Sync>(
    rt: &HostRuntime,
    handle: &R,
    words: &[String],
    disks: Disks,
    found: &[Pipes],
) -> ExitCode {
    let end = End::new();
    let (_watched, code) = thread::join(
        handle,
        || tell_waits(rt, handle, found, &end),
        || {
            let code = match open_signers(rt, found) {
                Ok(signers) => run(rt, handle, words, disks, signers),
                Err(stop) => refused(rt, fault_of(stop)),
            };
            end.tell();
            code
        },
    );
    code
}

/// What the words ask for. A faulty command line asks for nothing.
fn asked_for(words: &[String]) -> Option<Doing> {
    match read_words(words) {
        Some(asked) => Some(asked.doing),
        None => None,
    }
}

/// Whether the words ask for what needs signatures.
fn asks_to_sign(words: &[String]) -> bool {
    match asked_for(words) {
        Some(Doing::Run | Doing::Workload { .. }) => true,
        Some(Doing::Audit) | None => false,
    }
}

/// Whether desks hold commands, and the press has no edition and no store yet.
fn begins_anew(rt: &HostRuntime, disks: &mut Disks) -> Result<bool, DiskStop> {
    if !is_begun_anew(rt, &mut disks.press)? {
        return Ok(false);
    }
    for desk in disks.desks.iter_mut() {
        if holds_records(rt, desk)? {
            return Ok(true);
        }
    }
    Ok(false)
}

/// Whether opening takes the file for a journal without records: it is too short for one, or its first gate is closed,
/// behind which a stop may have left a record half written. What has another header isn't opened.
fn is_begun_anew(rt: &HostRuntime, disk: &mut FileDisk) -> Result<bool, DiskStop> {
    if disk.len(rt.alloc())? <= EMPTY_JOURNAL {
        return Ok(true);
    }
    Ok(begins_with(rt, disk, HEADER)? && !begins_with(rt, disk, FIRST_RECORD)?)
}

/// Whether a record stands in the file's journal.
fn holds_records(rt: &HostRuntime, disk: &mut FileDisk) -> Result<bool, DiskStop> {
    Ok(disk.len(rt.alloc())? > EMPTY_JOURNAL && begins_with(rt, disk, FIRST_RECORD)?)
}

/// Whether the file begins with these bytes, of which there are no more than a journal without records has.
fn begins_with(rt: &HostRuntime, disk: &mut FileDisk, bytes: &[u8]) -> Result<bool, DiskStop> {
    let mut head = [0; EMPTY_JOURNAL as usize];
    let read = disk.read(rt.alloc(), 0, &mut head)?;
    Ok(head[..read].starts_with(bytes))
}

/// Says that relying parties need a new locator.
fn tell_new_anchor(rt: &HostRuntime) {
    let _told = eprintln!(rt;
        "krillc: nothing that was published is kept in {FOLDER}/press: a new trust anchor begins, which relying parties need a new locator for"
    );
}

fn fault_of(stop: DiskStop) -> RunFault {
    match stop {
        DiskStop::Fault => RunFault::Device,
        DiskStop::Memory => RunFault::Memory,
    }
}

/// The files of the desks, in their order, and that of the press.
#[derive(Drop)]
struct Disks {
    desks: Vec<FileDisk>,
    press: FileDisk,
}

/// The files of the store, the pipes of the signers, and their folder, which no other program can lock as long as it's
/// open here.
#[derive(Drop)]
struct Store {
    folder: fs::File,
    disks: Disks,
    signers: Vec<Pipes>,
}

/// Makes the folder, locks it, opens the desks' files and the press's in it, none of them in the place of a standard stream that
/// was closed, and finds the signers' pipes. For an audit, which writes nothing that stays, a file in which opening would
/// write something is a copy without a name.
fn open_store(rt: &HostRuntime, is_audit: bool) -> Result<Store, DiskStop> {
    hold_closed_streams(rt).map_err(stop_of)?;
    let folder = make_folder_locked(rt).map_err(stop_of)?;
    // One that an audit that was killed has left.
    let _removed = fs::remove_file(rt, UNNAMED);
    let mut desks = Vec::with_capacity(rt.alloc(), DESKS)?;
    for number in 0..DESKS {
        let path = format!(in rt.alloc(); "{FOLDER}/desk-{number:02}")?;
        let is_copy = is_audit && is_below(rt, &path, EMPTY_JOURNAL)?;
        desks.push(open_journal(rt, &path, is_copy)?)?;
    }
    let is_copy = is_audit && is_below(rt, PRESS, SMALL_PRESS)?;
    let press = open_journal(rt, PRESS, is_copy)?;
    // The names of all files at once.
    folder.sync_all().map_err(stop_of)?;
    let signers = find_signers(rt)?;
    Ok(Store {
        folder,
        disks: Disks { desks, press },
        signers,
    })
}

/// Whether a file there has less than so many bytes, or none is there.
fn is_below(rt: &HostRuntime, path: &str, len: u64) -> Result<bool, DiskStop> {
    match fs::metadata(rt, path) {
        Ok(found) => Ok(found.is_file() && found.len() < len),
        Err(error) if error.kind() == ErrorKind::NotFound => Ok(true),
        Err(error) => Err(stop_of(error)),
    }
}

/// Opens the journal's file, or a copy of it that has no name and ends with the program.
fn open_journal(rt: &HostRuntime, path: &str, is_copy: bool) -> Result<FileDisk, DiskStop> {
    if !is_copy {
        return FileDisk::open_unnamed(rt, rt.alloc(), path);
    }
    make_copy(rt, path).map_err(stop_of)?;
    let copy = FileDisk::open_unnamed(rt, rt.alloc(), UNNAMED)?;
    fs::remove_file(rt, UNNAMED).map_err(stop_of)?;
    Ok(copy)
}

/// Makes a new file with what the one there has, if there is one. A link in its place isn't followed.
fn make_copy(rt: &HostRuntime, path: &str) -> io::Result<()> {
    let mut copy = fs::File::create_new(rt, UNNAMED)?;
    match fs::read(rt, path) {
        Ok(bytes) => copy.write_all(&bytes),
        Err(error) if error.kind() == ErrorKind::NotFound => Ok(()),
        Err(error) => Err(error),
    }
}

pub(crate) fn stop_of(error: io::Error) -> DiskStop
    ensures { (result ≡ DiskStop.Memory) ↔ (error_kind error ≡ ErrorKind.OutOfMemory) }
{
    if error.kind() == ErrorKind::OutOfMemory {
        DiskStop::Memory
    } else {
        DiskStop::Fault
    }
}

/// Puts the working directory in the place of each standard stream that is closed, for as long as the
/// program runs. Otherwise a desk's file would get that place, and what is meant for the stream would
/// be written over it. A directory can be neither read nor written, so that the stream fails as a closed
/// one does.
fn hold_closed_streams(rt: &HostRuntime) -> io::Result<()> {
    for _ in 0..STANDARD_STREAMS {
        let directory = fs::File::open(rt, ".")?;
        if directory.as_raw_fd() >= STANDARD_STREAMS {
            return Ok(());
        }
        let _held = directory.into_raw_fd();
    }
    Ok(())
}

/// Makes the folder where it is missing, and syncs its own name: without it, a crash could leave the
/// working directory without the folder. The folder comes locked, and it fails at once where another
/// program has it locked.
fn make_folder_locked(rt: &HostRuntime) -> Result<fs::File, io::Error> {
    fs::create_dir_all(rt, FOLDER)?;
    fs::File::open(rt, ".")?.sync_all()?;
    let folder = fs::File::open(rt, FOLDER)?;
    folder.try_lock().map_err(io::Error::from)?;
    Ok(folder)
}

/// The ends of a session, as they are handed in.
type StreamEnds = SessionEnds<
    StreamSource<Input>,
    StreamSink<Output>,
    ClockBehind<SystemClock<HostRuntime>>,
>;

/// The ends of the sessions, whose clocks are so many seconds behind. Files stand for sessions in a run alone.
fn sessions_of(
    rt: &HostRuntime,
    words: &[String],
    behind: u64,
) -> Result<Vec<StreamEnds>, DiskStop> {
    let opened = open_sessions(rt, asked_for(words) == Some(Doing::Run))?;
    let mut sessions = Vec::with_capacity(rt.alloc(), opened.len())?;
    for streams in opened {
        let Streams { input, output } = streams;
        sessions.push(SessionEnds {
            source: StreamSource::new(input),
            sink: StreamSink::new(output),
            clock: ClockBehind::new(SystemClock::new(*rt), behind),
        })?;
    }
    Ok(sessions)
}

/// Runs over the sessions, and tells why it ended otherwise than well.
fn run<G: Signer + Send, R: Threads + Wait + Sync>(
    rt: &HostRuntime,
    handle: &R,
    words: &[String],
    disks: Disks,
    signers: Vec<G>,
) -> ExitCode {
    let behind = match seconds_behind(rt) {
        Ok(seconds) => seconds,
        Err(ClockFault::Value) => return refused_clock(rt),
        Err(ClockFault::Memory) => return refused(rt, RunFault::Memory),
    };
    let sessions = match sessions_of(rt, words, behind) {
        Ok(sessions) => sessions,
        Err(stop) => return refused(rt, fault_of(stop)),
    };
    let (random, outlet) = match open_repository(rt) {
        Ok(opened) => opened,
        Err(stop) => return refused(rt, fault_of(stop)),
    };
    let Disks { desks, press } = disks;
    let end = run_krill(
        handle,
        rt.alloc(),
        words,
        random,
        desks,
        press,
        signers,
        outlet,
        sessions,
    );
    let RunEnd {
        status,
        fault,
        ends: _ends,
        sessions: _sessions,
        kept: _kept,
    } = end;
    match fault {
        None => ExitCode::from(status),
        Some(fault) => refused(rt, fault),
    }
}

/// The random bytes of the session of RRDP files, and the folder of these.
fn open_repository(rt: &HostRuntime) -> Result<([u8; 32], FolderOutlet), DiskStop> {
    let mut random = [0; 32];
    rt.fill_bytes(&mut random).map_err(stop_of)?;
    let folder = String::from_str(rt.alloc(), REPOSITORY)?;
    Ok((random, FolderOutlet::new(*rt, folder)))
}

/// Says what is wrong with the clock's variable, and then the usage, as for other faulty words.
fn refused_clock(rt: &HostRuntime) -> ExitCode {
    let _told = eprintln!(rt; "krillc: {VARIABLE} isn't a number of seconds from 0 to 3600");
    refused(rt, RunFault::Words)
}

/// Writes the fault to standard error, and gives its status.
fn refused(rt: &HostRuntime, fault: RunFault) -> ExitCode {
    // Where standard error is closed there is nobody left to tell.
    let _told = match fault_text(rt.alloc(), &fault) {
        Ok(text) => eprintln!(rt; "krillc: {text}"),
        Err(_) => eprintln!(rt; "krillc: out of memory"),
    };
    ExitCode::from(fault.status())
}
