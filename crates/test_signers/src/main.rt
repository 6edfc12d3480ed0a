//! Cases of signers, and of calls on a ring of them.
//!
//! A line of standard input is a case, of the part whose heading, `# NAME`, stands above it. Each case's
//! answer is printed, and each heading once more. Each part's module says what its cases have.
//!
//! With the names of two files, that of a signer's answers and that of its requests, each line of
//! standard input is a call on this signer.
#![tactic(auto)]

mod calls;
mod signers;

use anyhow::{Result, bail};
use std::env;

fn main(rt: HostRuntime) -> Result<()> {
    let mut words = env::args(&rt)?;
    let _program = words.next();
    match (words.next(), words.next(), words.next()) {
        (None, _, _) => print_cases(&rt),
        (Some(answers), Some(requests), None) => {
            signers::beside::run_beside(&rt, &answers, &requests)
        }
        _ => bail!("usage: test_signers [ANSWERS REQUESTS]"),
    }
}

fn print_cases(rt: &HostRuntime) -> Result<()> {
    let mut part = String::new(rt.alloc());
    for line in rt.lines(rt.alloc()) {
        let line = line?;
        match line.as_str().strip_prefix("# ") {
            Some(heading) => {
                println!(rt; "# {heading}")?;
                part = String::from_str(rt.alloc(), heading)?;
            }
            None => print_case(rt, part.as_str(), line.as_str())?,
        }
    }
    Ok(())
}

/// Prints the answer to the case of a line, by the part that it is of.
fn print_case(rt: &HostRuntime, part: &str, line: &str) -> Result<()> {
    match part {
        "signers" => signers::print_case(rt, line),
        "calls" => calls::print_case(rt, line),
        _ => bail!("no such part: {part}"),
    }
}
