// The calls of an open file, as the system makes them.
ghost use Rattle.std.specs.Prelude.{◌≡◌, ◌+◌, ◌^◌, ◌≤◌, ◌<◌, List, ℕ, None, Option, Some, length, take, option_map, IfOk, IfSome, OnOk, OnErr};
ghost use Rattle.disk_api.specs.Content.{overwritten, cut_to, Torn, IsCut, BothKnown, Gives};
ghost use Rattle.disk_api.specs.Images.{Stays, Follows, Reaches, Keeps, IsOnly, Elapses};
ghost use Rattle.disk_api.specs.Faults.{CountsFaults, CountsStops};
ghost use Rattle.host_calls.specs.Faults.{CountsAnswer};

use crate::DiskStop;
use host_calls::CallFault;

/// An open file. A read or a write may move fewer bytes than it is asked for, and a signal may interrupt
/// it. What the file holds, and what a crash may leave of it, is known or not, as of a disk.
pub trait RawFile: Drop {
    /// The bytes that a read gives, where the file is known.
    ghost content: { Self → Option (List ℕ) };

    /// The images: what a crash at this moment may leave.
    ghost may_leave: { Self → List ℕ → Type 0 };

    /// The moment, as a number that doesn't fall.
    ghost moment: { Self → ℕ };

    /// What a crash at some moment from that one on might have left, during a call or between two.
    ghost left_since: { Self → ℕ → List ℕ → Type 0 };

    /// How often its calls have failed.
    ghost fault_count: { Self → ℕ };

    /// How many more interruptions are no failure.
    ghost patience: { Self → ℕ };

    /// How many bytes the file has.
    fn len(&mut self) -> Result<u64, DiskStop>
        ensures length { IfOk result (λ n. IfSome (content self.old) (λ bytes. n ≡ length bytes)) }
        ensures stays { Stays (content self.old) (content self.new) (may_leave self.old) (may_leave self.new) }
        ensures time { Elapses (moment self.old) (moment self.new) (left_since self.old) (left_since self.new) (may_leave self.new) }
        ensures faults { CountsFaults (fault_count self.old) (fault_count self.new) result };

    /// Reads some of the bytes from `at` on into the front of `into`, and says how many: none only at
    /// the end, or where there is no room.
    fn read_at(&mut self, at: u64, into: &mut [u8]) -> Result<usize, CallFault>
        ensures within { IfOk result (λ n. n ≤ length into.old) }
        ensures bytes { IfOk result (λ n. IfSome (content self.old) (λ bytes. Gives bytes at n into.old into.new)) }
        ensures untouched { OnErr result (IfSome (content self.old) (λ _. into.new ≡ into.old)) }
        ensures stays { Stays (content self.old) (content self.new) (may_leave self.old) (may_leave self.new) }
        ensures time { Elapses (moment self.old) (moment self.new) (left_since self.old) (left_since self.new) (may_leave self.new) }
        ensures faults { CountsAnswer (fault_count self.old) (fault_count self.new) (patience self.old) (patience self.new) result };

    /// Writes the first bytes over what is there, and past the end, and says how many: at least one of
    /// some. At an `Err` some of the range may be written.
    fn write_at(&mut self, at: u64, bytes: &[u8]) -> Result<usize, CallFault>
        requires { IfSome (content self.old) (λ old. at ≤ length old) }

        ensures within { IfOk result (λ n. n ≤ length bytes.now) }
        ensures some { IfOk result (λ n. 0 < length bytes.now → 0 < n) }
        ensures end { OnOk result (at + length bytes.now < 2 ^ 64) }
        ensures written { IfOk result (λ n. content self.new ≡ option_map (overwritten at (take n bytes.now)) (content self.old)) }
        ensures torn { OnErr result (BothKnown (Torn at (length bytes.now)) (content self.old) (content self.new)) }

        ensures images { Follows (Torn at (length bytes.now)) (may_leave self.old) (may_leave self.new) }
        ensures each_image { IfOk result (λ n. Reaches (Torn at n) (may_leave self.old) (may_leave self.new)) }
        ensures kept_images { OnErr result (Keeps (may_leave self.old) (may_leave self.new)) }

        ensures time { Elapses (moment self.old) (moment self.new) (left_since self.old) (left_since self.new) (may_leave self.new) }
        ensures faults { CountsAnswer (fault_count self.old) (fault_count self.new) (patience self.old) (patience self.new) result };

    /// Cuts the file to a length. A shorter file stays as it is.
    fn cut(&mut self, len: u64) -> Result<(), DiskStop>
        ensures cut { OnOk result (content self.new ≡ option_map (cut_to len) (content self.old)) }
        ensures torn { OnErr result (BothKnown (IsCut len) (content self.old) (content self.new)) }

        ensures images { Follows (IsCut len) (may_leave self.old) (may_leave self.new) }
        ensures each_image { OnOk result (Reaches (IsCut len) (may_leave self.old) (may_leave self.new)) }
        ensures kept_images { OnErr result (Keeps (may_leave self.old) (may_leave self.new)) }

        ensures time { Elapses (moment self.old) (moment self.new) (left_since self.old) (left_since self.new) (may_leave self.new) }
        ensures faults { CountsStops (fault_count self.old) (fault_count self.new) result };

    /// After it, a crash leaves what a read gives.
    fn sync(&mut self) -> Result<(), DiskStop>
        ensures durable { OnOk result (IsOnly (content self.old) (may_leave self.new)) }
        ensures content { content self.new ≡ content self.old }
        ensures images { Keeps (may_leave self.new) (may_leave self.old) }
        ensures kept_images { OnErr result (Keeps (may_leave self.old) (may_leave self.new)) }
        ensures time { Elapses (moment self.old) (moment self.new) (left_since self.old) (left_since self.new) (may_leave self.new) }
        ensures faults { CountsStops (fault_count self.old) (fault_count self.new) result };

    /// How often its calls have failed.
    fn faults(&self) -> u64
        ensures { result ≡ fault_count self.now };

    /// A crash may leave what a read gives.
    ghost left_as_read: { (file : Self) (bytes : List ℕ) → content file ≡ Some bytes → may_leave file bytes };

    /// This moment is one of those since an earlier one.
    ghost counts_now: { (file : Self) (t : ℕ) (c : List ℕ) → t ≤ moment file → may_leave file c → left_since file t c };

    /// Since this moment there is no other.
    ghost only_now: { (file : Self) (c : List ℕ) → left_since file (moment file) c → may_leave file c };
}
