// A file of the operating system: the trusted edge. Each call is std's, once.
ghost use Rattle.std.specs.Prelude.{◌≡◌, ◌+◌, ◌^◌, ◌<◌, ◌≤◌, length, None, Ok, Err, IfOk, IfErr, OnOk};
ghost use Rattle.disk_api.specs.laws.FileLaws.{known_is_left};
ghost use Rattle.disk_api.specs.inner.Stops.{stop_of};

use crate::{DiskStop, RawFile};
use host_calls::{CallFault, Tally, called, taken};
use std::os::unix::fs::FileExt;
use std::path::Path;
use std::{fs, io};

/// An open file of the operating system. A contract learns nothing of what it holds.
#[derive(Drop)]
pub struct HostFile {
    file: fs::File,
    tally: Tally,
}

impl HostFile {
    ghost use Rattle.disk_api.specs.Over.{host_faults};

    /// Opens the file at `path`, or makes an empty one, and syncs it and its folder's entry.
    pub fn open(rt: &HostRuntime, path: &str) -> Result<HostFile, DiskStop>
        ensures { IfOk result (λ host. host_faults host ≡ 0) }
    {
        let host = HostFile::open_unnamed(rt, path)?;
        stopped(called(sync_folder(rt, path)))?;
        Ok(host)
    }

    /// The same, but for the folder's entry.
    pub fn open_unnamed(rt: &HostRuntime, path: &str) -> Result<HostFile, DiskStop>
        ensures { IfOk result (λ host. host_faults host ≡ 0) }
    {
        let file = stopped(called(open_synced(rt, path)))?;
        Ok(HostFile {
            file,
            tally: Tally::new(),
        })
    }
}

fn open_synced(rt: &HostRuntime, path: &str) -> io::Result<fs::File> {
    let file = fs::OpenOptions::new()
        .read(true)
        .write(true)
        .create(true)
        .open(rt, path)?;
    file.sync_all()?;
    Ok(file)
}

/// Without it, a crash could leave the folder without the name of a new file.
fn sync_folder(rt: &HostRuntime, path: &str) -> io::Result<()> {
    let folder = match Path::new(path).parent() {
        Some(folder) if !folder.as_str().is_empty() => folder.as_str(),
        _ => ".",
    };
    fs::File::open(rt, folder)?.sync_all()
}

/// Why a call of a file did nothing, as a disk says it.
fn stop_of(fault: CallFault) -> DiskStop
    ensures { result ≡ stop_of fault }
{
    match fault {
        CallFault::Memory => DiskStop::Memory,
        CallFault::Interrupted | CallFault::Failed => DiskStop::Fault,
    }
}

/// What std answered, as a disk says it.
fn stopped<T>(answer: Result<T, CallFault>) -> Result<T, DiskStop>
    ensures ok { IfOk answer (λ value. result ≡ Ok value) }
    ensures err { IfErr answer (λ fault. result ≡ Err (stop_of fault)) }
{
    match answer {
        Ok(value) => Ok(value),
        Err(fault) => Err(stop_of(fault)),
    }
}

fn len_of(file: &fs::File) -> io::Result<u64> {
    Ok(file.metadata()?.len())
}

fn cut_to(file: &fs::File, len: u64) -> io::Result<()> {
    if len < len_of(file)? {
        file.set_len(len)?;
    }
    Ok(())
}

/// Behind the last offset of a `u64` there is no place.
fn write_within(file: &fs::File, at: u64, bytes: &[u8]) -> io::Result<usize>
    ensures within { IfOk result (λ n. n ≤ length bytes.now) }
    ensures end { OnOk result (at + length bytes.now < 2 ^ 64) }
{
    if bytes.len() as u64 > u64::MAX - at {
        return Err(io::ErrorKind::InvalidInput.into());
    }
    file.write_at(bytes, at)
}

impl RawFile for HostFile {
    ghost use Rattle.host_calls.specs.Counts.{fault_count, patience_of};

    ghost content = { λ _. None };

    ghost may_leave = { λ _ _. ⊥ };

    ghost moment = { λ _. 0 };

    ghost left_since = { λ _ _ _. ⊥ };

    ghost fault_count = { λ host. fault_count host.tally };

    ghost patience = { λ host. patience_of host.tally };

    ghost left_as_read = { λ _ bytes is. known_is_left bytes is };

    ghost counts_now = { λ _ _ _ _ left. left };

    ghost only_now = { λ _ _ left. left };

    fn len(&mut self) -> Result<u64, DiskStop> {
        stopped(self.tally.count_whole(called(len_of(&self.file))))
    }

    fn read_at(&mut self, at: u64, into: &mut [u8]) -> Result<usize, CallFault> {
        self.tally.count(called(self.file.read_at(into, at)))
    }

    fn write_at(&mut self, at: u64, bytes: &[u8]) -> Result<usize, CallFault> {
        let answer = called(write_within(&self.file, at, bytes));
        self.tally.count(taken(answer, bytes.len()))
    }

    fn cut(&mut self, len: u64) -> Result<(), DiskStop> {
        stopped(self.tally.count_whole(called(cut_to(&self.file, len))))
    }

    fn sync(&mut self) -> Result<(), DiskStop> {
        stopped(self.tally.count_whole(called(self.file.sync_all())))
    }

    fn faults(&self) -> u64 {
        self.tally.faults()
    }
}
