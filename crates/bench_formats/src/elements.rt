//! Elements, written and read.
//!
//! A million numbers and an extension of 10,000 blocks are written and read back: it is printed how many
//! bytes they take and what was read, and where it is timed the nanoseconds of the best of several turns
//! of each of the four.

pub mod work;
