// A folder of the operating system: the trusted edge. Each call is std's.
ghost use Rattle.std.specs.Prelude.{◌≡◌, ◌≤◌, length, None, Ok, IsErr, IsTrue, IfOk, OnOk, OnErr};
ghost use Rattle.outlet_api.specs.Paths as rule;

use crate::{OutletStop, RawFolder, is_file_path};
use host_calls::{CallFault, Tally, called, taken};
use std::alloc::Global;
use std::io::{ErrorKind, Write};
use std::path::Path;
use std::{fs, io};

/// The name of the draft. No path of a file has a part that begins with a dot.
const DRAFT: &str = ".draft";

/// A folder of the operating system. A contract learns nothing of what it holds.
#[derive(Drop)]
pub struct HostFolder {
    rt: HostRuntime,
    folder: String,
    draft: Option<fs::File>,
    tally: Tally,
}

impl HostFolder {
    ghost use Rattle.outlet_api.specs.Over.{host_faults};

    /// The folder at this place, which needn't be there yet.
    pub fn new(rt: HostRuntime, folder: String) -> HostFolder
        ensures { host_faults result ≡ 0 }
    {
        HostFolder {
            rt,
            folder,
            draft: None,
            tally: Tally::new(),
        }
    }
}

/// What std answered, as an outlet says it.
fn stopped<T>(answer: Result<T, CallFault>) -> Result<T, OutletStop>
    ensures ok { IfOk answer (λ value. result ≡ Ok value) }
    ensures err { OnErr answer (IsErr result) }
{
    match answer {
        Ok(value) => Ok(value),
        Err(CallFault::Memory) => Err(OutletStop::Memory),
        Err(CallFault::Interrupted | CallFault::Failed) => Err(OutletStop::Fault),
    }
}

/// A place below the folder, where the path is one of a file.
fn place_of(alloc: Global, folder: &str, path: &str) -> io::Result<String>
    ensures { OnOk result (IsTrue (rule.is_file_path path.now)) }
{
    if !is_file_path(path) {
        return Err(ErrorKind::InvalidInput.into());
    }
    below(alloc, folder, path)
}

/// The place of a name below the folder. The one of the empty name is the working directory.
fn below(alloc: Global, folder: &str, name: &str) -> io::Result<String> {
    let folder = if folder.is_empty() { "." } else { folder };
    Ok(format!(in alloc; "{folder}/{name}")?)
}

fn open_draft(rt: &HostRuntime, alloc: Global, folder: &str, path: &str) -> io::Result<fs::File>
    ensures { OnOk result (IsTrue (rule.is_file_path path.now)) }
{
    let place = place_of(alloc, folder, path)?;
    if let Some(parent) = Path::new(place.as_str()).parent() {
        fs::create_dir_all(rt, parent)?;
    }
    fs::File::create(rt, below(alloc, folder, DRAFT)?.as_str())
}

fn place_draft(rt: &HostRuntime, alloc: Global, folder: &str, path: &str) -> io::Result<()> {
    let place = place_of(alloc, folder, path)?;
    let draft = below(alloc, folder, DRAFT)?;
    fs::rename(rt, draft.as_str(), place.as_str())?;
    sync_folders(rt, path, place.as_str())
}

/// Syncs the folders from the file's own up to the outlet's. Without it, a crash could leave a later
/// file's name and not this one's.
fn sync_folders(rt: &HostRuntime, path: &str, place: &str) -> io::Result<()> {
    let mut synced = Path::new(place);
    for _part in path.split('/') {
        let Some(parent) = synced.parent() else {
            break;
        };
        fs::File::open(rt, parent)?.sync_all()?;
        synced = parent;
    }
    Ok(())
}

/// Removes the file, if one is there, and its folder, if that is below the outlet's and nothing else is
/// in it.
fn remove_at(rt: &HostRuntime, alloc: Global, folder: &str, path: &str) -> io::Result<()>
    ensures { OnOk result (IsTrue (rule.is_file_path path.now)) }
{
    let place = place_of(alloc, folder, path)?;
    match fs::remove_file(rt, place.as_str()) {
        Ok(()) => {}
        Err(error) if is_no_file(error.kind()) => return Ok(()),
        Err(error) => return Err(error),
    }
    if path.contains('/') {
        if let Some(parent) = Path::new(place.as_str()).parent() {
            let _kept = fs::remove_dir(rt, parent);
        }
    }
    Ok(())
}

/// Nothing stands there, or no file: a folder does, or what were to be its folder is a file.
fn is_no_file(kind: ErrorKind) -> bool {
    matches!(
        kind,
        ErrorKind::NotFound | ErrorKind::NotADirectory | ErrorKind::IsADirectory
    )
}

/// No draft is open before the first.
fn closed() -> io::Error {
    ErrorKind::InvalidInput.into()
}

fn write_to(draft: &mut Option<fs::File>, bytes: &[u8]) -> io::Result<usize>
    ensures { IfOk result (λ n. n ≤ length bytes.now) }
{
    match draft {
        Some(file) => file.write(bytes),
        None => Err(closed()),
    }
}

fn sync_of(draft: &Option<fs::File>) -> io::Result<()> {
    match draft {
        Some(file) => file.sync_all(),
        None => Err(closed()),
    }
}

impl RawFolder for HostFolder {
    ghost use Rattle.host_calls.specs.Counts.{fault_count, patience_of};

    ghost folder = { λ _. None };

    ghost fault_count = { λ host. fault_count host.tally };

    ghost patience = { λ host. patience_of host.tally };

    fn begin(&mut self, alloc: Global, path: &str) -> Result<(), OutletStop> {
        let answer = called(open_draft(&self.rt, alloc, self.folder.as_str(), path));
        self.draft = Some(stopped(self.tally.count_whole(answer))?);
        Ok(())
    }

    fn write(&mut self, bytes: &[u8]) -> Result<usize, CallFault> {
        let answer = called(write_to(&mut self.draft, bytes));
        self.tally.count(taken(answer, bytes.len()))
    }

    fn sync(&mut self) -> Result<(), OutletStop> {
        stopped(self.tally.count_whole(called(sync_of(&self.draft))))
    }

    fn place(&mut self, alloc: Global, path: &str) -> Result<(), OutletStop> {
        let answer = called(place_draft(&self.rt, alloc, self.folder.as_str(), path));
        stopped(self.tally.count_whole(answer))
    }

    fn remove(&mut self, alloc: Global, path: &str) -> Result<(), OutletStop> {
        let answer = called(remove_at(&self.rt, alloc, self.folder.as_str(), path));
        stopped(self.tally.count_whole(answer))
    }

    fn faults(&self) -> u64 {
        self.tally.faults()
    }
}
