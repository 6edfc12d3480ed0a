//! What comes down a tree of authorities.
//!
//! The tree has the anchor, 7 authorities below it and 8 below each of these. On little it is printed, for
//! 16 origins each, how many numbers of IPv4 come down to each of four names, and how many origins are
//! owed. `times` prints, for so many origins each, the nanoseconds of the best of several turns of
//! `certified` and of `owed`, and how many ranges and origins they found. `updates` times updates that
//! each remove one origin and add one, while so many are configured.

pub mod given;
pub mod timing;
