//! Cases of sets of objects: each line is one, and what it comes to is printed.
//!
//! Fields stand between tabs: the case's name, the call, and its arguments. `query` has a set and
//! then bases and changes in turn: it prints the answer and the set's digest after each query, and
//! the set at the end. `changes` and `carry` have an old set and a new one: they print the changes
//! between them, or what a query of these makes of the old set. `copy` has a set: it prints a copy,
//! and the changes from the set to it. `get` has a set and a URI: it prints the set's size and the
//! bytes at the URI.

mod calls;
mod print;

use anyhow::Result;

/// Prints the answer to the case of a line.
pub fn print_case(rt: &HostRuntime, line: &str) -> Result<()> {
    let answer = calls::answer(rt.alloc(), line)?;
    println!(rt; "{answer}")?;
    Ok(())
}
