//! Cases of sets of objects, of RRDP's texts, of the RRDP files of editions, of outlets, and of the records of a press's
//! journal.
//!
//! A line of standard input is a case, of the part whose heading, `# NAME`, stands above it. Each case's
//! answer is printed, and each heading once more. Each part's module says what its cases have.
#![tactic(auto)]

mod outlets;
mod records;
mod rrdp;
mod rrdp_files;
mod sets;

use anyhow::{Result, bail};

fn main(rt: HostRuntime) -> Result<()> {
    let mut part = String::new(rt.alloc());
    for line in rt.lines(rt.alloc()) {
        let line = line?;
        match line.as_str().strip_prefix("# ") {
            Some(heading) => {
                println!(rt; "# {heading}")?;
                part = String::from_str(rt.alloc(), heading)?;
            }
            None => print_case(&rt, part.as_str(), line.as_str())?,
        }
    }
    Ok(())
}

/// Prints the answer to the case of a line, by the part that it is of.
fn print_case(rt: &HostRuntime, part: &str, line: &str) -> Result<()> {
    match part {
        "sets" => sets::print_case(rt, line),
        "rrdp" => rrdp::print_case(rt, line),
        "rrdp_files" => rrdp_files::print_case(rt, line),
        "outlets" => outlets::print_case(rt, line),
        "records" => records::print_case(rt, line),
        _ => bail!("no such part: {part}"),
    }
}
