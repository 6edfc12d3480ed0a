//! Texts to sets and back.

use anyhow::{Result, bail};
use res_sets::{Family, Ranges};

/// Prints the set of each line, or `bad`.
pub fn print_sets(rt: &HostRuntime) -> Result<()> {
    for line in rt.lines(rt.alloc()) {
        print_set(rt, line?.as_str())?;
    }
    Ok(())
}

fn print_set(rt: &HostRuntime, line: &str) -> Result<()> {
    let (family, text) = if let Some(text) = line.strip_prefix("4 ") {
        (Family::V4, text)
    } else if let Some(text) = line.strip_prefix("6 ") {
        (Family::V6, text)
    } else {
        bail!("a line without its family");
    };
    match Ranges::read_text(rt.alloc(), family, text) {
        Ok(set) => {
            let printed = set.text(rt.alloc())?;
            println!(rt; "{printed}")?;
        }
        Err(_) => println!(rt; "bad")?,
    }
    Ok(())
}
