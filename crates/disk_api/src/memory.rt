// A disk in memory, which keeps each change, so that each moment's images are known and can be made.
ghost use Rattle.std.specs.Prelude.{◌≡◌, ◌+◌, ◌-◌, ◌≤◌, ℕ, min, Some, None, IsTrue, true, cond, length, vec_len, vec_capacity, ◌<◌, IfOk, OnOk, OnErr, ◌↔◌, IsErrOf, [], ◌∷◌, ◌++◌};
ghost use Rattle.disk_api.specs.Content.{overwritten, cut_to, Gives};
ghost use Rattle.std.specs.Bool.{OnTrue, OnFalse};
ghost use Rattle.host_calls.specs.Rise.{HasRisen};
ghost use Rattle.host_calls.specs.Schedule.{IsFresh, IsSameScript};
ghost use Rattle.disk_api.specs.Steps.{content_after, steps_fit};

use crate::image::{replayed, synced, torn};
use crate::step::{Step, overwrite};
use crate::{Disk, DiskStop};
use host_calls::Schedule;
use std::alloc::{AllocError, Global};

/// A file in memory, whose calls can be made to fail and whose crash images can be taken.
///
/// It keeps its bytes at first and each change since, so that it grows with all that is written.
/// A call that fails changes nothing.
#[derive(Drop)]
pub struct MemoryDisk {
    first: Vec<u8>,
    steps: Vec<Step>,
    // What a read gives, from the first change on.
    bytes: Vec<u8>,
    is_copied: bool,
    schedule: Schedule,
    left: Option<u64>,
    ghost held: { cond is_copied bytes.items first.items ≡ content_after first.items steps.items },
    ghost fit: { IsTrue (steps_fit first.items steps.items) },
}

impl MemoryDisk {
    ghost use Rattle.disk_api.specs.Memory.{memory_bytes, memory_schedule, memory_left, memory_faults, IsImage, fails_next, is_stopped, IsSameFile, CountsCall, TakesStep};

    /// A file with these bytes, all of them on the disk. `fails` has the numbers, from 1, of the
    /// calls that are to fail: each call but `faults` counts.
    pub fn new(alloc: Global, bytes: Vec<u8>, fails: Vec<u64>) -> Self
        ensures content { memory_bytes result ≡ bytes.items }
        ensures images { (c : _) → IsImage result c ↔ (c ≡ bytes.items) }
        ensures fresh { IsFresh (memory_schedule result) fails.items }
        ensures unstopped { memory_left result ≡ None }
    {
        MemoryDisk {
            first: bytes,
            steps: Vec::new(alloc),
            bytes: Vec::new(alloc),
            is_copied: false,
            schedule: Schedule::new(fails),
            left: None,
        }
    }

    /// The next `calls` calls go on as before. Each later one fails.
    pub fn stop_after(&mut self, calls: u64)
        ensures left { memory_left self.new ≡ Some calls }
        ensures file { IsSameFile self.old self.new }
        ensures schedule { memory_schedule self.new ≡ memory_schedule self.old }
    {
        self.left = Some(calls);
    }

    /// What a read gives.
    pub fn bytes(&self) -> &[u8]
        ensures { result.now ≡ memory_bytes self.now }
    {
        if self.is_copied {
            &self.bytes
        } else {
            &self.first
        }
    }

    /// One image that a crash now may leave, the same for the same pick. Of the writes since the last
    /// sync, pick 0 leaves none, 1 all, 2 the first half of each, 3 other bytes in the range of each;
    /// 4 to 7 leave other bytes in other ways, and from 8 on each write is left in its own. What a cut
    /// took off is left in the same ways.
    pub fn image(&self, alloc: Global, pick: u64) -> Result<Vec<u8>, AllocError>
        ensures { IfOk result (λ image. IsImage self.now image.items) }
    {
        let (done, rest) = self.steps.split_at(synced(&self.steps));
        let bytes = replayed(alloc, &self.first, done)?;
        torn(alloc, bytes, rest, pick)
    }

    /// Counts a call, and says whether it is one that is to fail. Where it is, its failure is counted
    /// too.
    fn is_failing(&mut self) -> bool
        ensures fails { result ≡ fails_next self.old }
        ensures counts { CountsCall self.old self.new }
        ensures file { IsSameFile self.old self.new }
        ensures risen { OnTrue result (HasRisen (memory_faults self.old) (memory_faults self.new)) }
        ensures same { OnFalse result (memory_faults self.new ≡ memory_faults self.old) }
    {
        let is_listed = self.schedule.count_call();
        let is_stopped = self.left == Some(0);
        if let Some(left) = self.left {
            self.left = Some(left.saturating_sub(1));
        }
        if is_stopped && !is_listed {
            self.schedule.count_fault();
        }
        is_stopped || is_listed
    }

    /// Counts a call that stopped though no number asked for it.
    fn counted(&mut self, stop: DiskStop) -> DiskStop
        ensures stop { result ≡ stop }
        ensures risen { HasRisen (memory_faults self.old) (memory_faults self.new) }
        ensures file { IsSameFile self.old self.new }
        ensures script { IsSameScript (memory_schedule self.old) (memory_schedule self.new) }
        ensures left { memory_left self.new ≡ memory_left self.old }
    {
        self.schedule.count_fault();
        stop
    }

    /// Makes the bytes that are to be changed, where there was no change yet.
    fn copy_first(&mut self, alloc: Global) -> Result<(), AllocError>
        ensures copied { OnOk result (self.new.is_copied ≡ true) }
        ensures file { IsSameFile self.old self.new }
        ensures schedule { memory_schedule self.new ≡ memory_schedule self.old }
        ensures left { memory_left self.new ≡ memory_left self.old }
    {
        if !self.is_copied {
            self.bytes = self.first.to_vec(alloc)?;
            self.is_copied = true;
        }
        Ok(())
    }

    fn put(&mut self, alloc: Global, at: usize, bytes: &[u8]) -> Result<(), AllocError>
        requires { at ≤ length (memory_bytes self.old) }
        ensures done { OnOk result ((kept : _) × (kept.items ≡ bytes.now) × TakesStep self.old self.new (Step.Write at kept)) }
        ensures bytes { OnOk result (memory_bytes self.new ≡ overwritten at bytes.now (memory_bytes self.old)) }
        ensures err { OnErr result (IsSameFile self.old self.new) }
        ensures schedule { memory_schedule self.new ≡ memory_schedule self.old }
        ensures left { memory_left self.new ≡ memory_left self.old }
    {
        let kept = bytes.to_vec(alloc)?;
        self.copy_first(alloc)?;
        self.steps.reserve(1)?;
        overwrite(&mut self.bytes, at, bytes)?;
        self.steps.push(Step::Write { at, bytes: kept }).unwrap();
        Ok(())
    }

    fn shorten(&mut self, alloc: Global, len: usize) -> Result<(), AllocError>
        ensures done { OnOk result (TakesStep self.old self.new (Step.Cut len)) }
        ensures bytes { OnOk result (memory_bytes self.new ≡ cut_to len (memory_bytes self.old)) }
        ensures err { OnErr result (IsSameFile self.old self.new) }
        ensures schedule { memory_schedule self.new ≡ memory_schedule self.old }
        ensures left { memory_left self.new ≡ memory_left self.old }
    {
        self.copy_first(alloc)?;
        self.steps.push(Step::Cut(len))?;
        self.bytes.truncate(len);
        Ok(())
    }

    fn settle(&mut self) -> Result<(), AllocError>
        ensures done { OnOk result (TakesStep self.old self.new Step.Sync) }
        ensures bytes { memory_bytes self.new ≡ memory_bytes self.old }
        ensures err { OnErr result (IsSameFile self.old self.new) }
        ensures schedule { memory_schedule self.new ≡ memory_schedule self.old }
        ensures left { memory_left self.new ≡ memory_left self.old }
    {
        self.steps.push(Step::Sync)?;
        Ok(())
    }
}

impl Disk for MemoryDisk {
    ghost use Rattle.std.specs.Prelude.{◌≢◌, ◌⊎◌, ◌-◌, Err, min, option_map, IfSome};
    ghost use Rattle.disk_api.specs.Content.{Torn, IsCut, BothKnown};
    ghost use Rattle.disk_api.specs.Images.{Stays, Follows, Reaches, Keeps, IsOnly, Elapses};
    ghost use Rattle.disk_api.specs.Faults.{CountsFaults, CountsStops};
    ghost use Rattle.disk_api.specs.Memory.{memory_bytes, memory_moment, memory_faults, IsImage, IsImageSince, fails_next, CountsCall, IsSameFile};
    ghost use Rattle.disk_api.specs.laws.MemoryLaws.{bytes_are_left, counts_now_in_memory, only_now_in_memory};

    ghost content = { λ m. Some (memory_bytes m) };

    ghost may_leave = { IsImage };

    ghost moment = { λ m. length m.steps.items };

    ghost left_since = { IsImageSince };

    ghost fault_count = { memory_faults };

    ghost left_as_read = { bytes_are_left };

    ghost counts_now = { counts_now_in_memory };

    ghost only_now = { only_now_in_memory };

    fn len(&mut self, _alloc: Global) -> Result<u64, DiskStop>
        ensures length { IfOk result (λ n. IfSome (Some (memory_bytes self.old)) (λ bytes. n ≡ length bytes)) }
        ensures stays { Stays (Some (memory_bytes self.old)) (Some (memory_bytes self.new)) (IsImage self.old) (IsImage self.new) }
        ensures time { Elapses (memory_moment self.old) (memory_moment self.new) (IsImageSince self.old) (IsImageSince self.new) (IsImage self.new) }
        ensures faults { CountsFaults (memory_faults self.old) (memory_faults self.new) result }

        // It fails where it is told to, and a call that fails changes nothing.
        ensures fails { (result ≡ Err DiskStop.Fault) ↔ IsTrue (fails_next self.old) }
        ensures counts { CountsCall self.old self.new }
        ensures same { OnErr result (IsSameFile self.old self.new) }
        ensures ok { OnOk result (memory_faults self.new ≡ memory_faults self.old) }
        ensures memory { result ≢ Err DiskStop.Memory }
    {
        if self.is_failing() {
            return Err(DiskStop::Fault);
        }
        Ok(self.bytes().len() as u64)
    }

    fn read(&mut self, _alloc: Global, at: u64, into: &mut [u8]) -> Result<usize, DiskStop>
        ensures within { IfOk result (λ n. n ≤ length into.old) }
        ensures bytes { IfOk result (λ n. IfSome (Some (memory_bytes self.old)) (λ bytes. Gives bytes at n into.old into.new)) }
        ensures stays { Stays (Some (memory_bytes self.old)) (Some (memory_bytes self.new)) (IsImage self.old) (IsImage self.new) }
        ensures time { Elapses (memory_moment self.old) (memory_moment self.new) (IsImageSince self.old) (IsImageSince self.new) (IsImage self.new) }
        ensures faults { CountsFaults (memory_faults self.old) (memory_faults self.new) result }

        // It fails where it is told to, and a call that fails changes nothing.
        ensures fails { (result ≡ Err DiskStop.Fault) ↔ IsTrue (fails_next self.old) }
        ensures counts { CountsCall self.old self.new }
        ensures same { OnErr result (IsSameFile self.old self.new) }
        ensures ok { OnOk result (memory_faults self.new ≡ memory_faults self.old) }
        ensures memory { result ≢ Err DiskStop.Memory }
        ensures most { IfOk result (λ n. n ≡ min (length (memory_bytes self.old) - at) (length into.old)) }
    {
        if self.is_failing() {
            return Err(DiskStop::Fault);
        }
        Ok(read_from(self.bytes(), at, into))
    }

    fn write_at(&mut self, alloc: Global, at: u64, bytes: &[u8]) -> Result<(), DiskStop>
        requires { IfSome (Some (memory_bytes self.old)) (λ old. at ≤ length old) }

        ensures written { OnOk result (Some (memory_bytes self.new) ≡ option_map (overwritten at bytes.now) (Some (memory_bytes self.old))) }
        ensures torn { OnErr result (BothKnown (Torn at (length bytes.now)) (Some (memory_bytes self.old)) (Some (memory_bytes self.new))) }

        // An image after the write is one from before it with any bytes in the range. At `Ok` each
        // of these is one; at `Err` each from before it still is.
        ensures images { Follows (Torn at (length bytes.now)) (IsImage self.old) (IsImage self.new) }
        ensures each_image { OnOk result (Reaches (Torn at (length bytes.now)) (IsImage self.old) (IsImage self.new)) }
        ensures kept_images { OnErr result (Keeps (IsImage self.old) (IsImage self.new)) }

        ensures time { Elapses (memory_moment self.old) (memory_moment self.new) (IsImageSince self.old) (IsImageSince self.new) (IsImage self.new) }
        ensures faults { CountsStops (memory_faults self.old) (memory_faults self.new) result }

        // It fails where it is told to, and a call that fails changes nothing.
        ensures fails { (result ≡ Err DiskStop.Fault) ↔ IsTrue (fails_next self.old) }
        ensures counts { CountsCall self.old self.new }
        ensures same { OnErr result (IsSameFile self.old self.new) }
        ensures ok { OnOk result (memory_faults self.new ≡ memory_faults self.old) }
    {
        if self.is_failing() {
            return Err(DiskStop::Fault);
        }
        match self.put(alloc, at as usize, bytes) {
            Ok(()) => Ok(()),
            Err(AllocError) => Err(self.counted(DiskStop::Memory)),
        }
    }

    fn cut(&mut self, alloc: Global, len: u64) -> Result<(), DiskStop>
        ensures cut { OnOk result (Some (memory_bytes self.new) ≡ option_map (cut_to len) (Some (memory_bytes self.old))) }
        ensures torn { OnErr result (BothKnown (IsCut len) (Some (memory_bytes self.old)) (Some (memory_bytes self.new))) }

        ensures images { Follows (IsCut len) (IsImage self.old) (IsImage self.new) }
        ensures each_image { OnOk result (Reaches (IsCut len) (IsImage self.old) (IsImage self.new)) }
        ensures kept_images { OnErr result (Keeps (IsImage self.old) (IsImage self.new)) }

        ensures time { Elapses (memory_moment self.old) (memory_moment self.new) (IsImageSince self.old) (IsImageSince self.new) (IsImage self.new) }
        ensures faults { CountsStops (memory_faults self.old) (memory_faults self.new) result }

        // It fails where it is told to, and a call that fails changes nothing.
        ensures fails { (result ≡ Err DiskStop.Fault) ↔ IsTrue (fails_next self.old) }
        ensures counts { CountsCall self.old self.new }
        ensures same { OnErr result (IsSameFile self.old self.new) }
        ensures ok { OnOk result (memory_faults self.new ≡ memory_faults self.old) }
    {
        if self.is_failing() {
            return Err(DiskStop::Fault);
        }
        match self.shorten(alloc, len as usize) {
            Ok(()) => Ok(()),
            Err(AllocError) => Err(self.counted(DiskStop::Memory)),
        }
    }

    fn sync(&mut self, _alloc: Global) -> Result<(), DiskStop>
        ensures durable { OnOk result (IsOnly (Some (memory_bytes self.old)) (IsImage self.new)) }
        ensures content { Some (memory_bytes self.new) ≡ Some (memory_bytes self.old) }

        // It makes no new image, whatever it answers, and where it fails each image still is one.
        ensures images { Keeps (IsImage self.new) (IsImage self.old) }
        ensures kept_images { OnErr result (Keeps (IsImage self.old) (IsImage self.new)) }

        ensures time { Elapses (memory_moment self.old) (memory_moment self.new) (IsImageSince self.old) (IsImageSince self.new) (IsImage self.new) }
        ensures faults { CountsStops (memory_faults self.old) (memory_faults self.new) result }

        // It fails where it is told to, and a call that fails changes nothing.
        ensures fails { (result ≡ Err DiskStop.Fault) ↔ IsTrue (fails_next self.old) }
        ensures counts { CountsCall self.old self.new }
        ensures same { OnErr result (IsSameFile self.old self.new) }
        ensures ok { OnOk result (memory_faults self.new ≡ memory_faults self.old) }
    {
        if self.is_failing() {
            return Err(DiskStop::Fault);
        }
        match self.settle() {
            Ok(()) => Ok(()),
            Err(AllocError) => Err(self.counted(DiskStop::Memory)),
        }
    }

    fn faults(&self) -> u64 {
        self.schedule.faults()
    }
}

/// Puts the bytes from `at` on in front of what is in `into`, as far as both reach.
pub(crate) fn read_from(bytes: &[u8], at: u64, into: &mut [u8]) -> usize
    ensures within { result ≤ length into.old }
    ensures most { result ≡ min (length bytes.now - at) (length into.old) }
    ensures gives { Gives bytes.now at result into.old into.new }
{
    if at >= bytes.len() as u64 {
        return 0;
    }
    let rest = &bytes[at as usize..];
    let n = rest.len().min(into.len());
    into[..n].copy_from_slice(&rest[..n]);
    n
}
