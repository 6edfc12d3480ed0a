//! Cases of sessions, streams, files and clocks. A line of input is a case: its name, its call and its
//! arguments, with tabs between them. The answer is a line of the name, a tab and what came.

mod clocks;
mod fields;
mod files;
mod sessions;

use crate::streams::fields::Fields;
use anyhow::{Result, bail};

fn answer_to(rt: &HostRuntime, fields: &mut Fields<'_>) -> Result<String> {
    match fields.text()? {
        "session" => sessions::session(rt.alloc(), fields),
        "long" => sessions::long(rt.alloc(), fields),
        "streams" => sessions::streams(rt.alloc(), fields),
        "std" => sessions::std_streams(rt.alloc(), fields),
        "played file" => files::played(rt.alloc(), fields),
        "file" => files::file(rt, fields),
        "large file" => files::large(rt, fields),
        "moments" => clocks::moments(rt.alloc(), fields),
        "readings" => clocks::readings(rt.alloc(), fields),
        "system clock" => clocks::system(rt, fields),
        call => bail!("no call {call}"),
    }
}

/// Prints the answer to the case of a line.
pub fn print_case(rt: &HostRuntime, line: &str) -> Result<()> {
    let mut fields = Fields::new(line);
    let name = fields.text()?;
    let answer = answer_to(rt, &mut fields)?;
    fields.end()?;
    println!(rt; "{name}\t{answer}")?;
    Ok(())
}
