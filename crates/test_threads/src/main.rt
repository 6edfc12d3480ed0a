//! Cases of a word that counts and of a notice board, in one thread, races of threads that share one, and signers
//! that work at the same time.
//!
//! A line of standard input is a case, of the part whose heading, `# NAME`, stands above it. Each case's
//! answer is printed, and each heading once more. Each part's module says what its cases have.
#![tactic(auto)]

ghost use denote.Param.Send.{IsSync};

mod board_races;
mod boards;
mod sheets;
mod side;
mod word_races;
mod words;

use anyhow::{Result, bail};
use std::alloc::Global;
use std::sync::Wait;
use std::thread::Threads;

fn main(rt: HostRuntime) -> Result<()> {
    let mut part = String::new(rt.alloc());
    for line in rt.lines(rt.alloc()) {
        let line = line?;
        match line.as_str().strip_prefix("# ") {
            Some(heading) => {
                println!(rt; "# {heading}")?;
                part = String::from_str(rt.alloc(), heading)?;
            }
            None => {
                let answer = answer(&rt, rt.alloc(), part.as_str(), line.as_str())?;
                println!(rt; "{answer}")?;
            }
        }
    }
    Ok(())
}

/// The answer to the case of a line, by the part that it is of.
fn answer<R: Threads + Wait + Sync>(rt: &R, alloc: Global, part: &str, line: &str) -> Result<String>
    requires { IsSync R.row }
{
    match part {
        "words" => words::answer(rt, alloc, line),
        "word_races" => word_races::answer(rt, alloc, line),
        "boards" => boards::answer(rt, alloc, line),
        "board_races" => board_races::answer(rt, alloc, line),
        "side" => side::answer(rt, alloc, line),
        _ => bail!("no such part: {part}"),
    }
}
