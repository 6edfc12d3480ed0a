// An export: puts, and then removals, each in its order.
ghost use Rattle.std.specs.Prelude.{◌≡◌, ◌≤◌, map, option_map, OnOk, OnErr, IfErr};
ghost use Rattle.outlet_api.specs.declared.exports.ExportFault.TheVariants.{Memory};
ghost use Rattle.outlet_api.specs.Calls.{after_all, IsFront};
ghost use Rattle.outlet_api.specs.Exports.{put_of, removal_of, calls_of};
ghost use Rattle.outlet_api.specs.Faults.{CountsFaults, IsCauseOf};

use crate::{Outlet, OutletStop, Rose};
use std::alloc::{AllocError, Global};

/// A file that is to stand at a path. A path has parts with slashes between them, as `ta.cer` and
/// `SESSION/7/delta.xml`.
#[derive(Debug, Drop)]
pub struct OutFile {
    pub path: String,
    pub bytes: Vec<u8>,
}

/// What an export does: it puts the files one after another, and then makes nothing stand at each of the
/// other paths. Of RRDP files the notification has to be put last (RFC 8182 section 3.3.2).
#[derive(Debug, Drop)]
pub struct OutFiles {
    pub puts: Vec<OutFile>,
    pub removes: Vec<String>,
}

/// Why an export didn't come to its end.
#[derive(Drop)]
pub enum ExportFault<O: Outlet> {
    /// A call of the outlet failed.
    OutletFault { rose: Rose<O> },
    /// Out of memory.
    Memory,
}

impl<O: Outlet> From<AllocError> for ExportFault<O> {
    ghost from_gives = { λ _ fault. fault ≡ Memory };

    fn from(_: AllocError) -> Self {
        ExportFault::Memory
    }
}

/// Makes the calls of the export in their order, up to the first that fails.
///
/// Whatever it answers, the files are those after the first so many of its calls: what fails may be done
/// or not, and nothing behind it is. As each call may be the one that fails, so it is after each of
/// them. No clause counts the calls: one that changes nothing might be made twice.
pub fn export<O: Outlet>(
    alloc: Global,
    files: &OutFiles,
    outlet: &mut O,
) -> Result<(), ExportFault<O>>
    ensures done { OnOk result (O.files outlet.new ≡ option_map (after_all (calls_of files.now)) (O.files outlet.old)) }
    ensures front { IsFront (calls_of files.now) (O.files outlet.old) (O.files outlet.new) }
    ensures counts { O.fault_count outlet.old ≤ O.fault_count outlet.new }
    ensures cause { IfErr result (IsCauseOf (O.fault_count outlet.old) (O.fault_count outlet.new)) }
{
    let before = outlet.faults();
    match make_calls(alloc, files, outlet) {
        Ok(()) => Ok(()),
        Err(OutletStop::Fault) => Err(ExportFault::OutletFault {
            rose: Rose::new(before, outlet.faults()),
        }),
        Err(OutletStop::Memory) => Err(ExportFault::Memory),
    }
}

fn make_calls<O: Outlet>(alloc: Global, files: &OutFiles, outlet: &mut O) -> Result<(), OutletStop>
    ensures done { OnOk result (O.files outlet.new ≡ option_map (after_all (calls_of files.now)) (O.files outlet.old)) }
    ensures front { OnErr result (IsFront (calls_of files.now) (O.files outlet.old) (O.files outlet.new)) }
    ensures faults { CountsFaults (O.fault_count outlet.old) (O.fault_count outlet.new) result }
{
    put_each(alloc, &files.puts, outlet)?;
    remove_each(alloc, &files.removes, outlet)
}

fn put_each<O: Outlet>(alloc: Global, puts: &[OutFile], outlet: &mut O) -> Result<(), OutletStop>
    ensures done { OnOk result (O.files outlet.new ≡ option_map (after_all (map put_of puts.now)) (O.files outlet.old)) }
    ensures front { OnErr result (IsFront (map put_of puts.now) (O.files outlet.old) (O.files outlet.new)) }
    ensures faults { CountsFaults (O.fault_count outlet.old) (O.fault_count outlet.new) result }
{
    for file in puts {
        outlet.put(alloc, file.path.as_str(), &file.bytes)?;
    }
    Ok(())
}

fn remove_each<O: Outlet>(alloc: Global, paths: &[String], outlet: &mut O) -> Result<(), OutletStop>
    ensures done { OnOk result (O.files outlet.new ≡ option_map (after_all (map removal_of paths.now)) (O.files outlet.old)) }
    ensures front { OnErr result (IsFront (map removal_of paths.now) (O.files outlet.old) (O.files outlet.new)) }
    ensures faults { CountsFaults (O.fault_count outlet.old) (O.fault_count outlet.new) result }
{
    for path in paths {
        outlet.remove(alloc, path.as_str())?;
    }
    Ok(())
}
