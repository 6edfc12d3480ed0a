//! RRDP's snapshots, and their export.
//!
//! `set` makes a set of 65,536 objects of 2,000 bytes, `write` also writes its snapshot, and `read` reads
//! that back, several turns each. `export` exports editions of 16,384 objects into a folder. On little all
//! of it is done once with three objects, and no times are printed.

pub mod exports;
pub mod timing;
