//! An authority's desk: a journal of its accepted commands on a disk, and the configuration that
//! they come to.
//!
//! A command is acknowledged only when every crash leaves its record. Opening the desk again finds
//! the acknowledged commands, and at most the one whose record was being written.
#![tactic(auto)]

mod counted;
mod counting;
mod desk;
mod faults;
mod laws;
mod opening;
mod records;
mod rose;

pub use counted::{CountedDesk, UncountedDesk};
pub use desk::Desk;
pub use faults::{DeskFault, DeskOpenFault, DeskRefused};
pub use laws::commands_are_determined;
pub use rose::DeskRose;
