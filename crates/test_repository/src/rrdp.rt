//! Cases of the texts of RRDP: each line is one, and what it comes to is printed.
//!
//! Fields stand between tabs: the case's name, the call, and its arguments. In a text a line feed is
//! `␊`. Sets and changes are spelled as `forms` says. `snapshot` and `delta` have a session, a serial
//! and a set or changes, `notification` a session, a serial and files, `URI=HASH` of the snapshot and
//! `SERIAL=URI=HASH` of the deltas; `locator` has a key and URIs: each prints the text. `read` has a
//! kind and a text, `read_bytes` a kind and its bytes: it prints what is read or the fault. `cut` and
//! `change` have a kind and a text: they read it cut at each place, or with each byte changed, and
//! print how many were read and a digest of the answers.

mod calls;
mod forms;
mod print;
mod sweeps;

use anyhow::Result;

/// Prints the answer to the case of a line.
pub fn print_case(rt: &HostRuntime, line: &str) -> Result<()> {
    let answer = calls::answer(rt.alloc(), line)?;
    println!(rt; "{answer}")?;
    Ok(())
}
