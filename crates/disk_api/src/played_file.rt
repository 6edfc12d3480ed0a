// A file in memory whose calls go as a script says.
ghost use Rattle.std.specs.Prelude.{◌≡◌, ◌≢◌, ◌+◌, ◌^◌, ◌<◌, ◌≤◌, length, take, Some, None, option_map, IfOk, IfSome, OnOk, OnErr};
ghost use Rattle.host_calls.specs.Faults.{CountsAnswer};
ghost use Rattle.disk_api.specs.Content.{overwritten, Torn};
ghost use Rattle.disk_api.specs.Images.{Follows, Reaches, Keeps, Elapses};
ghost use Rattle.disk_api.specs.Faults.{CountsStops};

use crate::memory::read_from;
use crate::{Disk, DiskStop, MemoryDisk, RawFile};
use host_calls::{CallFault, Script, Tally};
use std::alloc::Global;

/// A file in memory, of which each call goes as the next play of a script says: a read or a write comes
/// short, is interrupted or fails, and another call fails. The crash images are those of a
/// [`MemoryDisk`].
#[derive(Drop)]
pub struct PlayedFile {
    disk: MemoryDisk,
    script: Script,
    tally: Tally,
    alloc: Global,
}

impl PlayedFile {
    ghost use Rattle.host_calls.specs.Counts.{fault_count, patience_of};
    ghost use Rattle.disk_api.specs.Memory.{memory_bytes, memory_moment, IsImage, IsImageSince};
    ghost use Rattle.disk_api.specs.Played.{played_disk};

    /// A file with the disk's bytes.
    pub fn new(alloc: Global, disk: MemoryDisk, script: Script) -> PlayedFile
        ensures { played_disk result ≡ disk }
    {
        PlayedFile {
            disk,
            script,
            tally: Tally::new(),
            alloc,
        }
    }

    // Whether a call that isn't counted in bytes fails.
    fn whole_call(&mut self) -> Result<(), DiskStop>
        ensures disk { self.new.disk ≡ self.old.disk }
        ensures faults { CountsStops (fault_count self.old.tally) (fault_count self.new.tally) result }
    {
        match self.tally.count_whole(self.script.next(0)) {
            Ok(_) => Ok(()),
            Err(CallFault::Memory) => Err(DiskStop::Memory),
            Err(_) => Err(DiskStop::Fault),
        }
    }

    // Writes so many of the bytes.
    fn write_front(&mut self, at: u64, bytes: &[u8], n: usize) -> Result<usize, CallFault>
        requires place { at ≤ length (memory_bytes self.old.disk) }
        requires within { n ≤ length bytes.now }
        ensures count { IfOk result (λ taken. taken ≡ n) }
        ensures written { OnOk result (memory_bytes self.new.disk ≡ overwritten at (take n bytes.now) (memory_bytes self.old.disk)) }
        ensures torn { OnErr result (Torn at (length bytes.now) (memory_bytes self.old.disk) (memory_bytes self.new.disk)) }
        ensures images { Follows (Torn at (length bytes.now)) (IsImage self.old.disk) (IsImage self.new.disk) }
        ensures each_image { OnOk result (Reaches (Torn at n) (IsImage self.old.disk) (IsImage self.new.disk)) }
        ensures kept_images { OnErr result (Keeps (IsImage self.old.disk) (IsImage self.new.disk)) }
        ensures time { Elapses (memory_moment self.old.disk) (memory_moment self.new.disk)
            (IsImageSince self.old.disk) (IsImageSince self.new.disk) (IsImage self.new.disk) }
        ensures faults { CountsAnswer (fault_count self.old.tally) (fault_count self.new.tally)
            (patience_of self.old.tally) (patience_of self.new.tally) result }
    {
        match self.disk.write_at(self.alloc, at, &bytes[..n]) {
            Ok(()) => Ok(n),
            Err(stop) => self.tally.count(Err(fault_of(stop))),
        }
    }

    // What the disk answered to a call that was to go on.
    fn answered(&mut self, answer: Result<(), DiskStop>) -> Result<(), DiskStop>
        ensures disk { self.new.disk ≡ self.old.disk }
        ensures faults { CountsStops (fault_count self.old.tally) (fault_count self.new.tally) result }
        ensures answer { result ≡ answer }
    {
        match answer {
            Ok(()) => Ok(()),
            Err(stop) => {
                let _counted = self.tally.count_whole::<()>(Err(CallFault::Failed));
                Err(stop)
            }
        }
    }
}

fn fault_of(stop: DiskStop) -> CallFault
    ensures { result ≢ CallFault.Interrupted }
{
    match stop {
        DiskStop::Fault => CallFault::Failed,
        DiskStop::Memory => CallFault::Memory,
    }
}

impl RawFile for PlayedFile {
    ghost use Rattle.host_calls.specs.Counts.{fault_count, patience_of};
    ghost use Rattle.disk_api.specs.Memory.{memory_bytes, memory_moment, IsImage, IsImageSince};
    ghost use Rattle.disk_api.specs.laws.MemoryLaws.{bytes_are_left, counts_now_in_memory, only_now_in_memory};

    ghost content = { λ file. Some (memory_bytes file.disk) };

    ghost may_leave = { λ file. IsImage file.disk };

    ghost moment = { λ file. memory_moment file.disk };

    ghost left_since = { λ file. IsImageSince file.disk };

    ghost fault_count = { λ file. fault_count file.tally };

    ghost patience = { λ file. patience_of file.tally };

    ghost left_as_read = { λ file. bytes_are_left file.disk };

    ghost counts_now = { λ file. counts_now_in_memory file.disk };

    ghost only_now = { λ file. only_now_in_memory file.disk };

    fn len(&mut self) -> Result<u64, DiskStop> {
        self.whole_call()?;
        Ok(self.disk.bytes().len() as u64)
    }

    fn read_at(&mut self, at: u64, into: &mut [u8]) -> Result<usize, CallFault> {
        match self.script.next(into.len()) {
            Ok(most) => Ok(read_from(self.disk.bytes(), at, &mut into[..most])),
            Err(fault) => self.tally.count(Err(fault)),
        }
    }

    fn write_at(&mut self, at: u64, bytes: &[u8]) -> Result<usize, CallFault> {
        if bytes.len() as u64 > u64::MAX - at {
            return self.tally.count(Err(CallFault::Failed));
        }
        match self.script.next(bytes.len()) {
            Ok(most) => self.write_front(at, bytes, most),
            Err(fault) => self.tally.count(Err(fault)),
        }
    }

    fn cut(&mut self, len: u64) -> Result<(), DiskStop> {
        self.whole_call()?;
        let answer = self.disk.cut(self.alloc, len);
        self.answered(answer)
    }

    fn sync(&mut self) -> Result<(), DiskStop> {
        self.whole_call()?;
        let answer = self.disk.sync(self.alloc);
        self.answered(answer)
    }

    fn faults(&self) -> u64 {
        self.tally.faults()
    }
}
