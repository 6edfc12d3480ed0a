//! Cases of plans: commands to the authorities of a tree, the live keys and what stands published,
//! and the work of the edition that comes next.
//!
//! A line is a case: its name, the moment, the live keys, what stands, and the
//! lines of the commands, with tabs between them. Keys and objects stand with `|` between them, their
//! fields with `;`. The file `stdout` beside `src` has the answers of an independent program, never
//! this one's own.

mod given;
mod shown;
mod trees;

use crate::plans::given::{issued_of, rows_of};
use crate::plans::shown::work_text;
use crate::plans::trees::configs_of;
use anyhow::{Context, Result, bail};
use entitle::{certified, owed};
use issue_plan::{are_by_uri, plan, stand_by_name};
use key_ids::Site;
use std::alloc::Global;
use test_support::first_field;

pub fn print_case(rt: &HostRuntime, line: &str) -> Result<()> {
    let (name, rest) = first_field(line)?;
    let answer = answer(rt.alloc(), rest).context(format_args!("{name}"))?;
    println!(rt; "{name}\t{answer}")?;
    Ok(())
}

fn answer(alloc: Global, fields: &str) -> Result<String> {
    let (moment, rest) = first_field(fields)?;
    let (rows, rest) = first_field(rest)?;
    let (issued, lines) = first_field(rest)?;
    let rows = rows_of(alloc, rows)?;
    let issued = issued_of(alloc, issued)?;
    if !are_by_uri(issued.rows.as_slice()) {
        bail!("objects out of order");
    }
    let configs = configs_of(alloc, lines)?;
    let tree = certified(alloc, &configs)?;
    let site = Site::read(
        alloc,
        "rsync://rpki.example/repo/",
        "https://rpki.example/rrdp/",
    )?;
    let moment = moment.parse::<u64>()?;
    let owed = owed(alloc, &configs, &tree)?;
    let by_name = stand_by_name(alloc, &site, issued.rows.as_slice())?;
    let work = plan(
        alloc, &rows, &configs, &tree, &owed, &issued, &site, moment, by_name,
    )?;
    work_text(alloc, &work)
}
