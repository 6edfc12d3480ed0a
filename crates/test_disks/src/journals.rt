//! Disks, journals and desks: each line is a case, and what its steps answer is
//! printed behind its name.
//!
//! A line has the case's name, what it is of, and then steps, with tabs between them. A step is a word,
//! and behind a blank what goes with it (`disks.rt`, `journals.rt` and `desks.rt` have them all). The
//! file `stdout` beside `src` has what the rules say, never this program's own answers.

mod desks;
mod disks;
mod journals;
mod setup;

use anyhow::{Context, Result, bail};

pub fn print_case(rt: &HostRuntime, line: &str) -> Result<()> {
    let (name, rest) = line.split_once('\t').context("a case of nothing")?;
    let (kind, steps) = rest.split_once('\t').context("a case without steps")?;
    let told = match kind {
        "disk" => disks::run(rt.alloc(), steps),
        "journal" => journals::run(rt.alloc(), steps),
        "journal file" => journals::run_on_file(rt, steps),
        "desk" => desks::run(rt.alloc(), steps),
        _ => bail!("a case of an unknown kind"),
    }
    .context(format_args!("{name}"))?;
    println!(rt; "{name}{told}")?;
    Ok(())
}
