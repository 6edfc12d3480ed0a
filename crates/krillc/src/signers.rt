//! The signers, at the other ends of pipes in the folder.

use crate::waits::{Waits, WatchedPipe};
use crate::{FOLDER, stop_of};
use disk_api::DiskStop;
use signer_api::Rehearsal;
use signer_line::{LineSigner, Unmet};
use std::fs::{self, File, Metadata, OpenOptions};
use std::io::ErrorKind;
use std::os::unix::fs::FileTypeExt;
use std::random::RandomSource;
use std::thread;
use std::time::Duration;

/// How many signers there are at most.
pub const MOST_SIGNERS: usize = 8;

/// How often a signer that has gone is met at the start before it is refused. One that still leaves an
/// earlier run closes its pipes once more, and then waits at them.
const MEETINGS: u32 = 20;

/// How long a meeting that failed is behind the next one, in milliseconds.
const PAUSE: u64 = 50;

/// A signer that writes its answers into the one pipe and reads its requests from the other.
pub type PipedSigner<'w> = LineSigner<WatchedPipe<'w>, WatchedPipe<'w>>;

/// The paths of a signer's pipes, and the waits there.
#[derive(Drop)]
pub struct Pipes {
    number: usize,
    answers: String,
    requests: String,
    pub waits: Waits,
}

impl Pipes {
    fn of_signer(rt: &HostRuntime, number: usize) -> Result<Self, DiskStop> {
        Ok(Pipes {
            number,
            answers: format!(in rt.alloc(); "{FOLDER}/signer-{number}.in")?,
            requests: format!(in rt.alloc(); "{FOLDER}/signer-{number}.out")?,
            waits: Waits::new(),
        })
    }

    /// Says on standard error what is waited for.
    pub fn tell_wait(&self, rt: &HostRuntime) {
        let _told = eprintln!(rt;
            "krillc: waiting for signer {} to open {} and {} and to answer",
            self.number, self.answers, self.requests
        );
    }
}

/// The pipes of the signers that stand in the folder, by their numbers, which begin at 0 and leave no
/// gap. What stands in their way is named on standard error.
pub fn find_signers(rt: &HostRuntime) -> Result<Vec<Pipes>, DiskStop> {
    let mut found = Vec::with_capacity(rt.alloc(), MOST_SIGNERS)?;
    let mut missing: Option<Pipes> = None;
    for number in 0..MOST_SIGNERS {
        let pipes = Pipes::of_signer(rt, number)?;
        if !stand(rt, &pipes)? {
            if missing.is_none() {
                missing = Some(pipes);
            }
            continue;
        }
        if let Some(gap) = &missing {
            let _told = eprintln!(rt;
                "krillc: {} is missing: there is a signer of a greater number",
                gap.answers
            );
            return Err(DiskStop::Fault);
        }
        found.push(pipes)?;
    }
    Ok(found)
}

/// Opens the signers at these pipes, and meets them.
pub fn open_signers<'w>(
    rt: &HostRuntime,
    found: &'w [Pipes],
) -> Result<Vec<PipedSigner<'w>>, DiskStop> {
    let mut signers = Vec::with_capacity(rt.alloc(), found.len())?;
    for pipes in found {
        signers.push(open_signer(rt, pipes)?)?;
    }
    Ok(signers)
}

/// Whether both pipes stand. One that stands alone and what is no FIFO are faults.
fn stand(rt: &HostRuntime, pipes: &Pipes) -> Result<bool, DiskStop> {
    let answers = stands(rt, &pipes.answers)?;
    let requests = stands(rt, &pipes.requests)?;
    if answers == requests {
        return Ok(answers);
    }
    let alone = if answers {
        &pipes.requests
    } else {
        &pipes.answers
    };
    let _told = eprintln!(rt; "krillc: {alone} is missing: the other pipe of the signer stands");
    Err(DiskStop::Fault)
}

/// Whether a FIFO stands there. Whatever else does, and be it a link to a FIFO, is a fault.
fn stands(rt: &HostRuntime, path: &str) -> Result<bool, DiskStop> {
    match fs::symlink_metadata(rt, path) {
        Ok(found) => {
            require_fifo(rt, path, &found)?;
            Ok(true)
        }
        Err(error) if error.kind() == ErrorKind::NotFound => Ok(false),
        Err(error) => Err(stop_at(rt, path, error)),
    }
}

fn require_fifo(rt: &HostRuntime, path: &str, found: &Metadata) -> Result<(), DiskStop> {
    if found.file_type().is_fifo() {
        return Ok(());
    }
    let _told = eprintln!(rt; "krillc: {path}: no FIFO");
    Err(DiskStop::Fault)
}

/// Names the pipe whose call failed.
fn stop_at(rt: &HostRuntime, path: &str, error: std::io::Error) -> DiskStop {
    let _told = eprintln!(rt; "krillc: {path}: {error}");
    stop_of(error)
}

/// Waits until the signer has opened its pipes too, and meets it.
fn open_signer<'w>(rt: &HostRuntime, pipes: &'w Pipes) -> Result<PipedSigner<'w>, DiskStop> {
    pipes.waits.begin();
    let opened = open_pipes(rt, pipes);
    pipes.waits.end();
    let (from, to) = opened?;
    let mut word = [0; 16];
    rt.fill_bytes(&mut word).map_err(stop_of)?;
    let signer = LineSigner::new(
        WatchedPipe::new(from, &pipes.waits),
        WatchedPipe::new(to, &pipes.waits),
        u128::from_be_bytes(word),
    );
    meet(rt, pipes, signer)
}

/// The pipes of the answers and of the requests.
fn open_pipes(rt: &HostRuntime, pipes: &Pipes) -> Result<(File, File), DiskStop> {
    let from = open_pipe(rt, &pipes.answers, OpenOptions::new().read(true))?;
    let to = open_pipe(rt, &pipes.requests, OpenOptions::new().write(true))?;
    Ok((from, to))
}

/// Meets a signer for the first time. One that doesn't know hellos is refused by its number.
fn meet<'w>(
    rt: &HostRuntime,
    pipes: &Pipes,
    mut signer: PipedSigner<'w>,
) -> Result<PipedSigner<'w>, DiskStop> {
    let number = pipes.number;
    for _ in 0..MEETINGS {
        match signer.greet() {
            Ok(()) => return Ok(signer),
            Err(Unmet::Stranger) => {
                let _told = eprintln!(rt;
                    "krillc: signer {number} answers no `hello`: it doesn't know that line"
                );
                return Err(DiskStop::Fault);
            }
            Err(Unmet::Gone) => thread::sleep(rt, Duration::from_millis(PAUSE)),
        }
    }
    let _told = eprintln!(rt;
        "krillc: signer {number} gave no answer to `hello`: it has ended, or doesn't know that line"
    );
    Err(DiskStop::Fault)
}

/// Opens a pipe, of which nothing is cut off, and looks at what was opened.
fn open_pipe(rt: &HostRuntime, path: &str, options: &OpenOptions) -> Result<File, DiskStop> {
    let file = match options.open(rt, path) {
        Ok(file) => file,
        Err(error) => return Err(stop_at(rt, path, error)),
    };
    match file.metadata() {
        Ok(found) => {
            require_fifo(rt, path, &found)?;
            Ok(file)
        }
        Err(error) => Err(stop_at(rt, path, error)),
    }
}

/// One signer for rehearsals, other than those of earlier runs. Nobody takes its signatures for any, and
/// where there is a run that could use it, standard error says so.
pub fn rehearsal(rt: &HostRuntime, is_run: bool) -> Result<Vec<Rehearsal>, DiskStop> {
    if is_run {
        let _told = eprintln!(rt;
            "krillc: no signer's pipes stand in {FOLDER}: signatures are a rehearsal's, which no relying party accepts"
        );
    }
    let mut start = [0; 32];
    rt.fill_bytes(&mut start).map_err(stop_of)?;
    Ok(vec![in rt.alloc(); Rehearsal::new(start)]?)
}
