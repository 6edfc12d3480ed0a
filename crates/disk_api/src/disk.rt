// What every disk promises, with what a crash may leave of it at each moment.
ghost use Rattle.std.specs.Prelude.{◌≡◌, ◌≤◌, ◌-◌, List, ℕ, Option, Some, length, option_map, IfOk, IfSome, OnOk, OnErr};
ghost use Rattle.disk_api.specs.declared.disk.DiskStop.TheVariants.{Memory};
ghost use Rattle.disk_api.specs.Content.{overwritten, cut_to, Torn, IsCut, BothKnown, Gives};
ghost use Rattle.disk_api.specs.Images.{Stays, Follows, Reaches, Keeps, IsOnly, Elapses};
ghost use Rattle.disk_api.specs.Faults.{CountsFaults, CountsStops};

use std::alloc::{AllocError, AllocFailed, Global};
use thiserror::Error;

/// Why a call of a disk stopped.
#[derive(Clone, Copy, Debug, PartialEq, Eq, Error)]
pub enum DiskStop {
    #[error("the disk failed")]
    Fault,
    #[error("out of memory")]
    Memory,
}

impl From<AllocError> for DiskStop {
    ghost from_gives = { λ _ stop. stop ≡ Memory };

    fn from(_: AllocError) -> Self {
        DiskStop::Memory
    }
}

impl<T: Drop> From<AllocFailed<T>> for DiskStop {
    ghost from_gives = { λ _ stop. stop ≡ Memory };

    fn from(_: AllocFailed<T>) -> Self {
        DiskStop::Memory
    }
}

/// A file on a disk. Offsets and lengths are in bytes.
///
/// Between two syncs each range that was written, and what lies past the old end or past a cut, may
/// hold any bytes after a crash; other bytes stay. After a sync that succeeds, a crash leaves what a read
/// gives. A disk that isn't known promises nothing of bytes.
///
/// A call that may take memory is handed an allocator for it.
pub trait Disk: Drop {
    /// The bytes that a read gives, where the disk is known.
    ghost content: { Self → Option (List ℕ) };

    /// The images: what a crash at this moment may leave.
    ghost may_leave: { Self → List ℕ → Type 0 };

    /// The moment, as a number that doesn't fall.
    ghost moment: { Self → ℕ };

    /// What a crash at some moment from that one on might have left, during a call or between two.
    ghost left_since: { Self → ℕ → List ℕ → Type 0 };

    /// How often the disk has failed. An adapter's count stands still at the last value of a `u64`.
    ghost fault_count: { Self → ℕ };

    /// How many bytes the file has.
    fn len(&mut self, alloc: Global) -> Result<u64, DiskStop>
        ensures length { IfOk result (λ n. IfSome (content self.old) (λ bytes. n ≡ length bytes)) }
        ensures stays { Stays (content self.old) (content self.new) (may_leave self.old) (may_leave self.new) }
        ensures time { Elapses (moment self.old) (moment self.new) (left_since self.old) (left_since self.new) (may_leave self.new) }
        ensures faults { CountsFaults (fault_count self.old) (fault_count self.new) result };

    /// Reads the bytes from `at` on into the front of `into`, and says how many. They are at least
    /// one where `at` is below the length and `into` isn't empty, and none at the end or past it.
    /// At an `Err` any bytes may stand in `into`.
    fn read(&mut self, alloc: Global, at: u64, into: &mut [u8]) -> Result<usize, DiskStop>
        ensures within { IfOk result (λ n. n ≤ length into.old) }
        ensures bytes { IfOk result (λ n. IfSome (content self.old) (λ bytes. Gives bytes at n into.old into.new)) }
        ensures stays { Stays (content self.old) (content self.new) (may_leave self.old) (may_leave self.new) }
        ensures time { Elapses (moment self.old) (moment self.new) (left_since self.old) (left_since self.new) (may_leave self.new) }
        ensures faults { CountsFaults (fault_count self.old) (fault_count self.new) result };

    /// Writes over what is there, and past the end. At an `Err` some of the range may be written.
    fn write_at(&mut self, alloc: Global, at: u64, bytes: &[u8]) -> Result<(), DiskStop>
        requires { IfSome (content self.old) (λ old. at ≤ length old) }

        ensures written { OnOk result (content self.new ≡ option_map (overwritten at bytes.now) (content self.old)) }
        ensures torn { OnErr result (BothKnown (Torn at (length bytes.now)) (content self.old) (content self.new)) }

        // An image after the write is one from before it with any bytes in the range. At `Ok` each
        // of these is one; at `Err` each from before it still is.
        ensures images { Follows (Torn at (length bytes.now)) (may_leave self.old) (may_leave self.new) }
        ensures each_image { OnOk result (Reaches (Torn at (length bytes.now)) (may_leave self.old) (may_leave self.new)) }
        ensures kept_images { OnErr result (Keeps (may_leave self.old) (may_leave self.new)) }

        ensures time { Elapses (moment self.old) (moment self.new) (left_since self.old) (left_since self.new) (may_leave self.new) }
        ensures faults { CountsStops (fault_count self.old) (fault_count self.new) result };

    /// Cuts the file to a length. A shorter file stays as it is. Until the next sync a crash may leave
    /// any bytes behind the first `len`, up to some length between the two.
    fn cut(&mut self, alloc: Global, len: u64) -> Result<(), DiskStop>
        ensures cut { OnOk result (content self.new ≡ option_map (cut_to len) (content self.old)) }
        ensures torn { OnErr result (BothKnown (IsCut len) (content self.old) (content self.new)) }

        ensures images { Follows (IsCut len) (may_leave self.old) (may_leave self.new) }
        ensures each_image { OnOk result (Reaches (IsCut len) (may_leave self.old) (may_leave self.new)) }
        ensures kept_images { OnErr result (Keeps (may_leave self.old) (may_leave self.new)) }

        ensures time { Elapses (moment self.old) (moment self.new) (left_since self.old) (left_since self.new) (may_leave self.new) }
        ensures faults { CountsStops (fault_count self.old) (fault_count self.new) result };

    /// After it, a crash leaves what a read gives.
    fn sync(&mut self, alloc: Global) -> Result<(), DiskStop>
        ensures durable { OnOk result (IsOnly (content self.old) (may_leave self.new)) }
        ensures content { content self.new ≡ content self.old }

        // It makes no new image, whatever it answers, and where it fails each image still is one.
        ensures images { Keeps (may_leave self.new) (may_leave self.old) }
        ensures kept_images { OnErr result (Keeps (may_leave self.old) (may_leave self.new)) }

        ensures time { Elapses (moment self.old) (moment self.new) (left_since self.old) (left_since self.new) (may_leave self.new) }
        ensures faults { CountsStops (fault_count self.old) (fault_count self.new) result };

    /// How often the disk has failed: at each `Err` of `write_at`, `cut` and `sync`, and at each
    /// `Fault` of the other calls.
    fn faults(&self) -> u64
        ensures { result ≡ fault_count self.now };

    /// A crash may leave what a read gives.
    ghost left_as_read: { (disk : Self) (bytes : List ℕ) → content disk ≡ Some bytes → may_leave disk bytes };

    /// This moment is one of those since an earlier one.
    ghost counts_now: { (disk : Self) (t : ℕ) (c : List ℕ) → t ≤ moment disk → may_leave disk c → left_since disk t c };

    /// Since this moment there is no other.
    ghost only_now: { (disk : Self) (c : List ℕ) → left_since disk (moment disk) c → may_leave disk c };
}
