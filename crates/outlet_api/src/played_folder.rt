// A folder in memory whose calls go as a script says.
ghost use Rattle.std.specs.Prelude.{◌≡◌, Some, option_copied, IsErr, IsTrue, OnOk, OnErr};
ghost use Rattle.outlet_api.specs.Paths as rule;
ghost use Rattle.outlet_api.specs.Calls.{no_files};
ghost use Rattle.outlet_api.specs.Folders.{CountsStops};

use crate::file_map::FileMap;
use crate::{OutletStop, RawFolder, is_file_path};
use host_calls::{CallFault, Script, Tally};
use std::alloc::Global;
use std::mem;

/// A folder in memory, of which each call goes as the next play of a script says: a write comes short,
/// is interrupted or fails, and another call fails, before it has done anything.
#[derive(Drop)]
pub struct PlayedFolder {
    files: FileMap,
    draft: Vec<u8>,
    is_synced: bool,
    script: Script,
    tally: Tally,
}

impl PlayedFolder {
    ghost use Rattle.host_calls.specs.Counts.{fault_count};
    ghost use Rattle.outlet_api.specs.Over.{played_files, played_folder};

    /// A folder without a file.
    pub fn new(alloc: Global, script: Script) -> PlayedFolder
        ensures { played_files result ≡ no_files }
    {
        PlayedFolder {
            files: FileMap::new(alloc),
            draft: Vec::new(alloc),
            is_synced: false,
            script,
            tally: Tally::new(),
        }
    }

    /// The bytes at a path.
    pub fn file(&self, path: &str) -> Option<&[u8]>
        ensures { option_copied result ≡ played_files self.now path.now }
    {
        self.files.get(path)
    }

    // Whether a call that isn't counted in bytes fails.
    fn whole_call(&mut self) -> Result<(), OutletStop>
        ensures folder { played_folder self.new ≡ played_folder self.old }
        ensures faults { CountsStops (fault_count self.old.tally) (fault_count self.new.tally) result }
    {
        let answer = self.script.next(0);
        self.counted(answer)
    }

    // The same of a call at a path.
    fn call_at(&mut self, path: &str) -> Result<(), OutletStop>
        ensures folder { played_folder self.new ≡ played_folder self.old }
        ensures path { OnOk result (IsTrue (rule.is_file_path path.now)) }
        ensures faults { CountsStops (fault_count self.old.tally) (fault_count self.new.tally) result }
    {
        if !is_file_path(path) {
            return self.counted(Err(CallFault::Failed));
        }
        self.whole_call()
    }

    // Counts a call that may not be interrupted.
    fn counted(&mut self, answer: Result<usize, CallFault>) -> Result<(), OutletStop>
        ensures folder { played_folder self.new ≡ played_folder self.old }
        ensures faults { CountsStops (fault_count self.old.tally) (fault_count self.new.tally) result }
        ensures err { OnErr answer (IsErr result) }
    {
        match self.tally.count_whole(answer) {
            Ok(_) => Ok(()),
            Err(CallFault::Memory) => Err(OutletStop::Memory),
            Err(_) => Err(OutletStop::Fault),
        }
    }
}

impl RawFolder for PlayedFolder {
    ghost use Rattle.host_calls.specs.Counts.{fault_count, patience_of};
    ghost use Rattle.outlet_api.specs.Over.{played_folder};

    ghost folder = { λ played. Some (played_folder played) };

    ghost fault_count = { λ played. fault_count played.tally };

    ghost patience = { λ played. patience_of played.tally };

    fn begin(&mut self, _alloc: Global, path: &str) -> Result<(), OutletStop> {
        self.call_at(path)?;
        self.draft.clear();
        self.is_synced = false;
        Ok(())
    }

    fn write(&mut self, bytes: &[u8]) -> Result<usize, CallFault> {
        match self.script.next(bytes.len()) {
            Ok(n) => match self.draft.extend_from_slice(&bytes[..n]) {
                Ok(()) => {
                    self.is_synced = false;
                    Ok(n)
                }
                Err(_) => self.tally.count(Err(CallFault::Memory)),
            },
            Err(fault) => self.tally.count(Err(fault)),
        }
    }

    fn sync(&mut self) -> Result<(), OutletStop> {
        self.whole_call()?;
        self.is_synced = true;
        Ok(())
    }

    fn place(&mut self, alloc: Global, path: &str) -> Result<(), OutletStop> {
        self.whole_call()?;
        let bytes = mem::replace(&mut self.draft, Vec::new(alloc));
        match self.files.put(alloc, path, bytes) {
            Ok(()) => Ok(()),
            Err(_) => self.counted(Err(CallFault::Memory)),
        }
    }

    fn remove(&mut self, _alloc: Global, path: &str) -> Result<(), OutletStop> {
        self.call_at(path)?;
        self.files.remove(path);
        Ok(())
    }

    fn faults(&self) -> u64 {
        self.tally.faults()
    }
}
