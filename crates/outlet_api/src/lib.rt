//! The folder of published files: what a call of it does, how often it has failed, and an export into it
//! that stops at the first call that fails. An outlet in memory can be made to fail; one over a real
//! folder isn't known.
#![tactic(auto)]

mod exports;
mod file_map;
mod folder;
mod host_folder;
mod memory;
mod outlet;
mod paths;
mod played_folder;
mod raw_folder;
mod rose;

pub use exports::{ExportFault, OutFile, OutFiles, export};
pub use folder::FolderOutlet;
pub use host_folder::HostFolder;
pub use memory::MemoryOutlet;
pub use outlet::{Outlet, OutletStop};
pub use paths::is_file_path;
pub use played_folder::PlayedFolder;
pub use raw_folder::RawFolder;
pub use rose::Rose;
