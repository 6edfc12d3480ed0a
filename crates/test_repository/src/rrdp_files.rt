//! Cases of the RRDP files of editions: each line is one, and what it comes to is printed.
//!
//! Fields stand between tabs: the case's name, the session, the https base, and steps. A step that begins
//! with `e` is an edition: behind a blank each come the objects that it puts, `URI=BYTES`, and the URIs
//! that it takes out, `-URI`. It prints the lengths of the snapshot and the delta. `newest` and `all` are
//! exports: they print each put, `+PATH LENGTH HASH`, and each removal, `-PATH`. At `resume` the session is taken up
//! again, by so many of the newest editions as it prints.

mod calls;
mod editions;
mod print;

use anyhow::Result;

/// Prints the answer to the case of a line.
pub fn print_case(rt: &HostRuntime, line: &str) -> Result<()> {
    let answer = calls::answer(rt.alloc(), line)?;
    println!(rt; "{answer}")?;
    Ok(())
}
