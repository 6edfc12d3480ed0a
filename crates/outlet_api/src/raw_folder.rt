// The calls of a folder, as the system makes them.
ghost use Rattle.std.specs.Prelude.{◌≡◌, ◌⊎◌, ◌<◌, ◌≤◌, ℕ, length, take, Option, option_map, IsTrue, IsErrOf, IfOk, OnOk, OnErr};
ghost use Rattle.host_calls.specs.Faults.{CountsAnswer};
ghost use Rattle.outlet_api.specs.Calls.{removal, after, MayHaveDone};
ghost use Rattle.outlet_api.specs.Paths.{is_file_path};
ghost use Rattle.outlet_api.specs.Folders.{Folder, files_in, begun, grown, settled, placed, KeepsFiles, IsSettled, CountsStops};

use crate::OutletStop;
use host_calls::CallFault;
use std::alloc::Global;

/// A folder. A new file is drafted beside the others, where nobody looks for it, and renamed. A write
/// may take fewer bytes than it is given, and a signal may interrupt it. What the folder holds is known
/// or not.
pub trait RawFolder: Drop {
    /// Its files, and the draft of one more, where it is known.
    ghost folder: { Self → Option Folder };

    /// How often its calls have failed.
    ghost fault_count: { Self → ℕ };

    /// How many more interruptions are no failure.
    ghost patience: { Self → ℕ };

    /// Begins the draft of the file at a path, without a byte, and makes the folders of the path. What
    /// isn't a path of parts below the folder is refused.
    fn begin(&mut self, alloc: Global, path: &str) -> Result<(), OutletStop>
        ensures begun { OnOk result (folder self.new ≡ option_map begun (folder self.old)) }
        ensures path { OnOk result (IsTrue (is_file_path path.now)) }
        ensures kept { OnErr result (KeepsFiles (folder self.old) (folder self.new)) }
        ensures faults { CountsStops (fault_count self.old) (fault_count self.new) result };

    /// Writes the first bytes behind those of the draft, and says how many: at least one of some.
    fn write(&mut self, bytes: &[u8]) -> Result<usize, CallFault>
        ensures within { IfOk result (λ n. n ≤ length bytes.now) }
        ensures some { IfOk result (λ n. 0 < length bytes.now → 0 < n) }
        ensures grown { IfOk result (λ n. folder self.new ≡ option_map (grown (take n bytes.now)) (folder self.old)) }
        ensures untouched { IsErrOf result CallFault.Interrupted → folder self.new ≡ folder self.old }
        ensures kept { OnErr result (KeepsFiles (folder self.old) (folder self.new)) }
        ensures faults { CountsAnswer (fault_count self.old) (fault_count self.new) (patience self.old) (patience self.new) result };

    /// Syncs the draft: after it, a crash leaves it whole.
    fn sync(&mut self) -> Result<(), OutletStop>
        ensures settled { OnOk result (folder self.new ≡ option_map settled (folder self.old)) }
        ensures kept { OnErr result (KeepsFiles (folder self.old) (folder self.new)) }
        ensures faults { CountsStops (fault_count self.old) (fault_count self.new) result };

    /// Renames the draft to the path, over what is there, and syncs the folders.
    fn place(&mut self, alloc: Global, path: &str) -> Result<(), OutletStop>
        requires { IsSettled (folder self.old) }

        ensures placed { OnOk result (files_in (folder self.new) ≡ option_map (placed path.now) (folder self.old)) }
        ensures doubt { OnErr result (KeepsFiles (folder self.old) (folder self.new)
            ⊎ (files_in (folder self.new) ≡ option_map (placed path.now) (folder self.old))) }
        ensures faults { CountsStops (fault_count self.old) (fault_count self.new) result };

    /// Removes the file at a path, if one is there. What isn't a path of parts below the folder is
    /// refused.
    fn remove(&mut self, alloc: Global, path: &str) -> Result<(), OutletStop>
        ensures removed { OnOk result (files_in (folder self.new) ≡ option_map (after (removal path.now)) (files_in (folder self.old))) }
        ensures path { OnOk result (IsTrue (is_file_path path.now)) }
        ensures doubt { OnErr result (MayHaveDone (removal path.now) (files_in (folder self.old)) (files_in (folder self.new))) }
        ensures faults { CountsStops (fault_count self.old) (fault_count self.new) result };

    /// How often its calls have failed.
    fn faults(&self) -> u64
        ensures { result ≡ fault_count self.now };
}
