//! The steps that each outlet takes.

use anyhow::{Context, Result, bail};
use outlet_api::{ExportFault, OutFile, OutFiles, Outlet, OutletStop, export};
use std::alloc::Global;
use test_support::step_parts;

/// Takes a step: `put PATH=HEX`, `remove PATH`, `export PATH=HEX .. -PATH ..` or `faults`.
pub fn take<O: Outlet>(alloc: Global, outlet: &mut O, told: &mut String, step: &str) -> Result<()> {
    match step_parts(step) {
        ("put", text) => {
            let file = file_of(alloc, text)?;
            tell(told, outlet.put(alloc, file.path.as_str(), &file.bytes))
        }
        ("remove", path) => tell(told, outlet.remove(alloc, path)),
        ("export", text) => {
            let files = files_of(alloc, text)?;
            tell_export(told, export(alloc, &files, outlet))
        }
        ("faults", _) => {
            let faults = outlet.faults();
            write!(told, "\t{faults}")?;
            Ok(())
        }
        _ => bail!("an unknown step"),
    }
}

fn file_of(alloc: Global, text: &str) -> Result<OutFile> {
    let (path, digits) = text.split_once('=').context("a file of nothing")?;
    Ok(OutFile {
        path: String::from_str(alloc, path)?,
        bytes: hex::decode(alloc, digits)?,
    })
}

fn files_of(alloc: Global, text: &str) -> Result<OutFiles> {
    let mut files = OutFiles {
        puts: Vec::new(alloc),
        removes: Vec::new(alloc),
    };
    for word in text.split_whitespace() {
        match word.strip_prefix('-') {
            Some(path) => files.removes.push(String::from_str(alloc, path)?)?,
            None => files.puts.push(file_of(alloc, word)?)?,
        }
    }
    Ok(files)
}

fn tell(told: &mut String, answer: Result<(), OutletStop>) -> Result<()> {
    told.push_str(match answer {
        Ok(()) => "\tok",
        Err(OutletStop::Fault) => "\tfault",
        Err(OutletStop::Memory) => "\tmemory",
    })?;
    Ok(())
}

fn tell_export<O: Outlet>(told: &mut String, answer: Result<(), ExportFault<O>>) -> Result<()> {
    match answer {
        Ok(()) => told.push_str("\tok")?,
        Err(ExportFault::OutletFault { rose }) => {
            let (before, after) = (rose.before(), rose.after());
            write!(told, "\tfault {before} {after}")?;
        }
        Err(ExportFault::Memory) => told.push_str("\tmemory")?,
    }
    Ok(())
}
