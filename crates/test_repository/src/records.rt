//! Cases of the records of a press's journal: each line is one, and what it comes to is printed.
//!
//! Fields stand between tabs: the case's name, the call, and records in hex digits. `store` has the
//! first record: it prints the session and the bases, and whether they are written so again.
//! `editions` has the later ones: it reads each over what those before it left, up to one that is
//! bad, and prints what it tells, and whether it is written so again.

mod calls;
mod print;

use anyhow::Result;

/// Prints the answer to the case of a line.
pub fn print_case(rt: &HostRuntime, line: &str) -> Result<()> {
    let answer = calls::answer(rt.alloc(), line)?;
    println!(rt; "{answer}")?;
    Ok(())
}
