// An outlet in memory, some of whose calls are to fail.
ghost use Rattle.std.specs.Prelude.{◌≡◌, ◌≢◌, ◌↔◌, Err, None, Some, option_copied, option_map, IsTrue, OnOk, OnErr};
ghost use Rattle.host_calls.specs.Schedule.{IsFresh, CountsCall, fails_next, faults_of};
ghost use Rattle.outlet_api.specs.Calls.{no_files, put, removal, after, MayHaveDone};
ghost use Rattle.outlet_api.specs.Faults.{CountsFaults};

use crate::file_map::FileMap;
use crate::{Outlet, OutletStop};
use host_calls::Schedule;
use std::alloc::{AllocError, Global};

/// An outlet in memory, whose calls can be made to fail. A call that fails changes no file.
#[derive(Drop)]
pub struct MemoryOutlet {
    files: FileMap,
    schedule: Schedule,
}

impl MemoryOutlet {
    ghost use Rattle.outlet_api.specs.Memory.{memory_files, memory_schedule};

    /// An outlet without a file. `fails` has the numbers, from 1, of the calls that are to fail: each
    /// put and each removal counts.
    pub fn new(alloc: Global, fails: Vec<u64>) -> Self
        ensures files { memory_files result ≡ no_files }
        ensures fresh { IsFresh (memory_schedule result) fails.items }
    {
        MemoryOutlet {
            files: FileMap::new(alloc),
            schedule: Schedule::new(fails),
        }
    }

    /// The bytes at a path. None exactly where no file stands there.
    pub fn file(&self, path: &str) -> Option<&[u8]>
        ensures { option_copied result ≡ memory_files self.now path.now }
    {
        self.files.get(path)
    }
}

impl Outlet for MemoryOutlet {
    ghost use Rattle.outlet_api.specs.Memory.{memory_files, memory_schedule};

    ghost files = { λ m. Some (memory_files m) };

    ghost fault_count = { λ m. faults_of (memory_schedule m) };

    fn put(&mut self, alloc: Global, path: &str, bytes: &[u8]) -> Result<(), OutletStop>
        ensures done { OnOk result (Some (memory_files self.new) ≡ option_map (after (put path.now bytes.now)) (Some (memory_files self.old))) }
        ensures doubt { OnErr result (MayHaveDone (put path.now bytes.now) (Some (memory_files self.old)) (Some (memory_files self.new))) }
        ensures faults { CountsFaults (faults_of (memory_schedule self.old)) (faults_of (memory_schedule self.new)) result }

        // It fails where it is told to, and a call that fails changes no file.
        ensures fails { (result ≡ Err OutletStop.Fault) ↔ IsTrue (fails_next (memory_schedule self.old)) }
        ensures counts { CountsCall (memory_schedule self.old) (memory_schedule self.new) }
        ensures same { OnErr result (memory_files self.new ≡ memory_files self.old) }
        ensures ok { OnOk result (faults_of (memory_schedule self.new) ≡ faults_of (memory_schedule self.old)) }
    {
        if self.schedule.count_call() {
            return Err(OutletStop::Fault);
        }
        let kept = bytes.to_vec(alloc)?;
        match self.files.put(alloc, path, kept) {
            Ok(()) => Ok(()),
            Err(AllocError) => Err(OutletStop::Memory),
        }
    }

    fn remove(&mut self, _alloc: Global, path: &str) -> Result<(), OutletStop>
        ensures done { OnOk result (Some (memory_files self.new) ≡ option_map (after (removal path.now)) (Some (memory_files self.old))) }
        ensures doubt { OnErr result (MayHaveDone (removal path.now) (Some (memory_files self.old)) (Some (memory_files self.new))) }
        ensures faults { CountsFaults (faults_of (memory_schedule self.old)) (faults_of (memory_schedule self.new)) result }

        // It fails where it is told to, and a call that fails changes no file.
        ensures fails { (result ≡ Err OutletStop.Fault) ↔ IsTrue (fails_next (memory_schedule self.old)) }
        ensures counts { CountsCall (memory_schedule self.old) (memory_schedule self.new) }
        ensures same { OnErr result (memory_files self.new ≡ memory_files self.old) }
        ensures ok { OnOk result (faults_of (memory_schedule self.new) ≡ faults_of (memory_schedule self.old)) }
        ensures memory { result ≢ Err OutletStop.Memory }
    {
        if self.schedule.count_call() {
            return Err(OutletStop::Fault);
        }
        self.files.remove(path);
        Ok(())
    }

    fn faults(&self) -> u64 {
        self.schedule.faults()
    }
}
