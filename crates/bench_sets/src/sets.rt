//! Sets of numbers: the sets that texts spell, and times of the operations.
//!
//! `texts` reads lines, each a family (`4` or `6`), a blank and a text, and prints for each the set
//! that it spells, or `bad`. The lines of `stdin` and `stdout` beside `src` are texts of single addresses
//! and what Python 3.11's `ipaddress` answers to each. `merges` times meet, join and minus of two sets
//! of 100,000 ranges. `reading` times the reading of the one text on standard input.

pub mod texts;
pub mod timing;
