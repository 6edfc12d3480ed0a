//! Cases of audits: each line has a set or a case, and what each case comes to is printed.
//!
//! Fields stand between tabs. `base` has a set: its objects by rising URI, each `URI=BYTES`. The other lines
//! have a name, the anchor's key, the moment, the two bases, and what is done:
//! - `case`: changes to the last set, each `+URI=BYTES`, `+URI=BYTES=HASH` or `-URI=HASH`, or `-` alone. It
//!   prints what an audit of that comes to, with one signer for rehearsals.
//! - `failing`: the number of a call. It prints what an audit of the last set comes to where a signer that
//!   vouches for nothing stands before that for rehearsals, and this call of it fails.
//! - `each`: `MASK/STEP`, the mask of two hex digits by which bytes of the last set are changed in turn, and
//!   the step from one to the next in an object, from its first on. It prints for each object how many of its
//!   changes are refused at its own URI and by which rules.

mod asked;
mod calls;
mod changed;
mod print;

use anyhow::{Context, Result};
use pub_set::ObjectSet;
use std::alloc::Global;
use test_support::read_set;

/// Takes the set of a line as the base of the cases behind it, or answers the case of a line.
pub fn told(alloc: Global, base: &mut ObjectSet, line: &str) -> Result<Option<String>> {
    let (call, rest) = line.split_once('\t').context("no call")?;
    if call == "base" {
        *base = read_set(alloc, rest)?;
        return Ok(None);
    }
    let answer = calls::answer(alloc, base, call, rest)?;
    Ok(Some(answer))
}
