//! A disk as a journal sees it: what a read gives, what a crash may leave, and how often it has
//! failed. A disk in memory keeps exactly these rules and can be crashed. A disk over a real file
//! isn't known.
#![tactic(auto)]

mod disk;
mod file;
mod host_file;
mod image;
mod memory;
mod played_file;
mod raw_file;
mod step;

pub use disk::{Disk, DiskStop};
pub use file::FileDisk;
pub use host_file::HostFile;
pub use memory::MemoryDisk;
pub use played_file::PlayedFile;
pub use raw_file::RawFile;
