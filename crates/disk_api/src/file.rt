// A disk over a file's calls: a read or a write goes on where a signal interrupts it, and a write until
// all is written.
ghost use Rattle.std.specs.Prelude.{◌≡◌, ◌≤◌, length, option_map, Err, OnOk, OnErr, IfOk, IfSome};
ghost use Rattle.disk_api.specs.Content.{overwritten, Torn, BothKnown, Gives};
ghost use Rattle.disk_api.specs.Images.{Stays, Follows, Reaches, Keeps, Elapses};
ghost use Rattle.disk_api.specs.Faults.{CountsFaults, CountsStops};
ghost use Rattle.host_calls.specs.Rise.{HasRisen};

use crate::{Disk, DiskStop, HostFile, RawFile};
use host_calls::CallFault;
use std::alloc::Global;

/// A disk over a file, by default one of the operating system, of which a contract learns nothing.
#[derive(Drop)]
pub struct FileDisk<F = HostFile> {
    file: F,
}

impl FileDisk<HostFile> {
    ghost use Rattle.disk_api.specs.Over.{file_of, host_faults};

    /// Opens the file at `path`, or makes an empty one, and syncs it and its folder's entry.
    pub fn open(
        rt: &HostRuntime,
        _alloc: Global,
        path: &str,
    ) -> Result<FileDisk<HostFile>, DiskStop>
        ensures { IfOk result (λ disk. host_faults (file_of disk) ≡ 0) }
    {
        let file = HostFile::open(rt, path)?;
        Ok(FileDisk { file })
    }

    /// The same, but for the folder's entry. Until the caller has synced the folder, a crash may leave it
    /// without the name of a new file.
    pub fn open_unnamed(
        rt: &HostRuntime,
        _alloc: Global,
        path: &str,
    ) -> Result<FileDisk<HostFile>, DiskStop>
        ensures { IfOk result (λ disk. host_faults (file_of disk) ≡ 0) }
    {
        let file = HostFile::open_unnamed(rt, path)?;
        Ok(FileDisk { file })
    }
}

impl<F: RawFile> FileDisk<F> {
    ghost use Rattle.disk_api.specs.Over.{file_of};

    /// The disk over this file.
    pub fn over(file: F) -> FileDisk<F>
        ensures { file_of result ≡ file }
    {
        FileDisk { file }
    }
}

// Reads once, and again where a signal interrupts it.
fn read_once<F: RawFile>(file: &mut F, at: u64, into: &mut [u8]) -> Result<usize, DiskStop>
    ensures within { IfOk result (λ n. n ≤ length into.old) }
    ensures bytes { IfOk result (λ n. IfSome (F.content file.old) (λ bytes. Gives bytes at n into.old into.new)) }
    ensures stays { Stays (F.content file.old) (F.content file.new) (F.may_leave file.old) (F.may_leave file.new) }
    ensures time { Elapses (F.moment file.old) (F.moment file.new) (F.left_since file.old) (F.left_since file.new) (F.may_leave file.new) }
    ensures faults { CountsFaults (F.fault_count file.old) (F.fault_count file.new) result }
    ensures ok { OnOk result (F.fault_count file.new ≡ F.fault_count file.old) }
    ensures stop { OnErr result (HasRisen (F.fault_count file.old) (F.fault_count file.new)) }
{
    'tries: loop {
        match file.read_at(at, into) {
            Ok(n) => return Ok(n),
            Err(CallFault::Interrupted) => {}
            Err(CallFault::Memory) => return Err(DiskStop::Memory),
            Err(CallFault::Failed) => return Err(DiskStop::Fault),
        }
    }
}

// Writes all of the bytes, in as many calls as it takes.
fn write_all<F: RawFile>(file: &mut F, at: u64, bytes: &[u8]) -> Result<(), DiskStop>
    requires { IfSome (F.content file.old) (λ old. at ≤ length old) }

    ensures written { OnOk result (F.content file.new ≡ option_map (overwritten at bytes.now) (F.content file.old)) }
    ensures torn { OnErr result (BothKnown (Torn at (length bytes.now)) (F.content file.old) (F.content file.new)) }
    ensures images { Follows (Torn at (length bytes.now)) (F.may_leave file.old) (F.may_leave file.new) }
    ensures each_image { OnOk result (Reaches (Torn at (length bytes.now)) (F.may_leave file.old) (F.may_leave file.new)) }
    ensures kept_images { OnErr result (Keeps (F.may_leave file.old) (F.may_leave file.new)) }
    ensures time { Elapses (F.moment file.old) (F.moment file.new) (F.left_since file.old) (F.left_since file.new) (F.may_leave file.new) }
    ensures faults { CountsStops (F.fault_count file.old) (F.fault_count file.new) result }
{
    let mut done = 0;
    'pieces: while done < bytes.len() {
        match file.write_at(at + done as u64, &bytes[done..]) {
            Ok(n) => done += n,
            Err(CallFault::Interrupted) => {}
            Err(CallFault::Memory) => return Err(DiskStop::Memory),
            Err(CallFault::Failed) => return Err(DiskStop::Fault),
        }
    }
    Ok(())
}

impl<F: RawFile> Disk for FileDisk<F> {
    ghost use Rattle.disk_api.specs.Over.{file_of};

    ghost content = { λ disk. F.content disk.file };

    ghost may_leave = { λ disk. F.may_leave disk.file };

    ghost moment = { λ disk. F.moment disk.file };

    ghost left_since = { λ disk. F.left_since disk.file };

    ghost fault_count = { λ disk. F.fault_count disk.file };

    ghost left_as_read = { λ disk. F.left_as_read disk.file };

    ghost counts_now = { λ disk. F.counts_now disk.file };

    ghost only_now = { λ disk. F.only_now disk.file };

    fn len(&mut self, _alloc: Global) -> Result<u64, DiskStop> {
        self.file.len()
    }

    fn read(&mut self, _alloc: Global, at: u64, into: &mut [u8]) -> Result<usize, DiskStop>
        ensures within { IfOk result (λ n. n ≤ length into.old) }
        ensures bytes { IfOk result (λ n. IfSome (F.content (file_of self.old)) (λ bytes. Gives bytes at n into.old into.new)) }
        ensures stays { Stays (F.content (file_of self.old)) (F.content (file_of self.new)) (F.may_leave (file_of self.old)) (F.may_leave (file_of self.new)) }
        ensures time { Elapses (F.moment (file_of self.old)) (F.moment (file_of self.new)) (F.left_since (file_of self.old)) (F.left_since (file_of self.new)) (F.may_leave (file_of self.new)) }
        ensures faults { CountsFaults (F.fault_count (file_of self.old)) (F.fault_count (file_of self.new)) result }
        // No call that failed is passed over, and it stops only where one failed: an interruption is no stop.
        ensures ok { OnOk result (F.fault_count (file_of self.new) ≡ F.fault_count (file_of self.old)) }
        ensures stop { OnErr result (HasRisen (F.fault_count (file_of self.old)) (F.fault_count (file_of self.new))) }
    {
        read_once(&mut self.file, at, into)
    }

    fn write_at(&mut self, _alloc: Global, at: u64, bytes: &[u8]) -> Result<(), DiskStop> {
        write_all(&mut self.file, at, bytes)
    }

    fn cut(&mut self, _alloc: Global, len: u64) -> Result<(), DiskStop> {
        self.file.cut(len)
    }

    fn sync(&mut self, _alloc: Global) -> Result<(), DiskStop> {
        self.file.sync()
    }

    fn faults(&self) -> u64 {
        self.file.faults()
    }
}
