// An outlet over a folder's calls: a file is drafted, synced and renamed.
ghost use Rattle.std.specs.Prelude.{◌≡◌, false, option_map, IfSome, IsTrue, OnOk, OnErr};
ghost use Rattle.outlet_api.specs.Calls.{put, removal, after, MayHaveDone};
ghost use Rattle.outlet_api.specs.Faults.{CountsFaults};
ghost use Rattle.outlet_api.specs.Folders.{files_in, grown, KeepsFiles, CountsStops};
ghost use Rattle.outlet_api.specs.Paths.{is_file_path};

use crate::{HostFolder, Outlet, OutletStop, RawFolder};
use host_calls::CallFault;
use std::alloc::Global;

/// An outlet over a folder, by default one of the operating system, of which a contract learns nothing.
///
/// Whoever reads a file gets the old one or the new one, whole, also after a crash.
#[derive(Drop)]
pub struct FolderOutlet<F = HostFolder> {
    folder: F,
}

impl FolderOutlet<HostFolder> {
    ghost use Rattle.outlet_api.specs.Over.{folder_of, host_faults};

    /// The outlet over the folder at this place. The first put makes it, where it is missing.
    pub fn new(rt: HostRuntime, folder: String) -> FolderOutlet<HostFolder>
        ensures { host_faults (folder_of result) ≡ 0 }
    {
        FolderOutlet {
            folder: HostFolder::new(rt, folder),
        }
    }
}

impl<F: RawFolder> FolderOutlet<F> {
    ghost use Rattle.outlet_api.specs.Over.{folder_of};

    /// The outlet over these calls.
    pub fn over(folder: F) -> FolderOutlet<F>
        ensures { folder_of result ≡ folder }
    {
        FolderOutlet { folder }
    }

    /// The folder.
    pub fn calls(&self) -> &F
        ensures { result.now ≡ folder_of self.now }
    {
        &self.folder
    }
}

// Writes all of the bytes behind those of the draft, in as many calls as it takes.
fn write_all<F: RawFolder>(folder: &mut F, bytes: &[u8]) -> Result<(), OutletStop>
    requires { IfSome (F.folder folder.old) (λ f. f.synced ≡ false) }

    ensures grown { OnOk result (F.folder folder.new ≡ option_map (grown bytes.now) (F.folder folder.old)) }
    ensures kept { OnErr result (KeepsFiles (F.folder folder.old) (F.folder folder.new)) }
    ensures faults { CountsStops (F.fault_count folder.old) (F.fault_count folder.new) result }
{
    let mut done = 0;
    'pieces: while done < bytes.len() {
        match folder.write(&bytes[done..]) {
            Ok(n) => done += n,
            Err(CallFault::Interrupted) => {}
            Err(CallFault::Memory) => return Err(OutletStop::Memory),
            Err(CallFault::Failed) => return Err(OutletStop::Fault),
        }
    }
    Ok(())
}

impl<F: RawFolder> Outlet for FolderOutlet<F> {
    ghost use Rattle.outlet_api.specs.Over.{folder_of};

    ghost files = { λ outlet. files_in (F.folder outlet.folder) };

    ghost fault_count = { λ outlet. F.fault_count outlet.folder };

    fn put(&mut self, alloc: Global, path: &str, bytes: &[u8]) -> Result<(), OutletStop>
        ensures done { OnOk result (files_in (F.folder (folder_of self.new))
            ≡ option_map (after (put path.now bytes.now)) (files_in (F.folder (folder_of self.old)))) }
        ensures doubt { OnErr result (MayHaveDone (put path.now bytes.now)
            (files_in (F.folder (folder_of self.old))) (files_in (F.folder (folder_of self.new)))) }
        ensures faults { CountsFaults (F.fault_count (folder_of self.old)) (F.fault_count (folder_of self.new)) result }

        // No file is put outside the folder.
        ensures path { OnOk result (IsTrue (is_file_path path.now)) }
    {
        self.folder.begin(alloc, path)?;
        write_all(&mut self.folder, bytes)?;
        self.folder.sync()?;
        self.folder.place(alloc, path)
    }

    fn remove(&mut self, alloc: Global, path: &str) -> Result<(), OutletStop>
        ensures done { OnOk result (files_in (F.folder (folder_of self.new))
            ≡ option_map (after (removal path.now)) (files_in (F.folder (folder_of self.old)))) }
        ensures doubt { OnErr result (MayHaveDone (removal path.now)
            (files_in (F.folder (folder_of self.old))) (files_in (F.folder (folder_of self.new)))) }
        ensures faults { CountsFaults (F.fault_count (folder_of self.old)) (F.fault_count (folder_of self.new)) result }
        ensures path { OnOk result (IsTrue (is_file_path path.now)) }
    {
        self.folder.remove(alloc, path)
    }

    fn faults(&self) -> u64 {
        self.folder.faults()
    }
}
