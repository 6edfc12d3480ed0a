//! Cases of publications, of the keys and the work of editions, and of audits.
//!
//! A line of standard input is a case, of the part whose heading, `# NAME`, stands above it. Each case's
//! answer is printed, and each heading once more. Each part's module says what its cases have.
#![tactic(auto)]

mod audits;
mod keys;
mod publications;
mod works;

use anyhow::{Result, bail};
use pub_set::ObjectSet;
use std::alloc::Global;
use std::thread::Threads;
use std::time::CpuClock;

fn main(rt: HostRuntime) -> Result<()> {
    let mut part = String::new(rt.alloc());
    let mut audited = ObjectSet::new(rt.alloc());
    for line in rt.lines(rt.alloc()) {
        let line = line?;
        match line.as_str().strip_prefix("# ") {
            Some(heading) => {
                println!(rt; "# {heading}")?;
                part = String::from_str(rt.alloc(), heading)?;
            }
            None => {
                let told = told(&rt, rt.alloc(), &mut audited, part.as_str(), line.as_str())?;
                if let Some(told) = told {
                    println!(rt; "{told}")?;
                }
            }
        }
    }
    Ok(())
}

/// The name of a case and its answer, by the part that it is of. Audits are of the set before them.
fn told<R: Threads + Sync + CpuClock>(
    rt: &R,
    alloc: Global,
    audited: &mut ObjectSet,
    part: &str,
    line: &str,
) -> Result<Option<String>> {
    match part {
        "publications" => Ok(Some(publications::told(rt, alloc, line)?)),
        "keys" => Ok(Some(keys::told(alloc, line)?)),
        "works" => Ok(Some(works::told(rt, alloc, line)?)),
        "audits" => audits::told(alloc, audited, line),
        _ => bail!("no such part: {part}"),
    }
}
