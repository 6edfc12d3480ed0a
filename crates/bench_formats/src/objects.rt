//! Signed objects with their certificates.
//!
//! On little it makes 256 ROAs once, reads them back, and prints how many were made, and of how many the key,
//! the AS and the prefix came back. Timed are 65,536 ROAs: it prints how many bytes they have, and the
//! nanoseconds of the best of several turns: of making them, of reading them, and of hashing them.

pub mod given;
pub mod objects;
pub mod timing;
