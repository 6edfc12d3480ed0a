//! Cases of a notice board, in one thread: each line is one, and what the viewers of a board find is
//! printed.
//!
//! Fields stand between tabs: the case's name, how many viewers there are, the first sheet, and the
//! steps. `ready` has a sheet and makes it ready, and `show` shows; `serial`, `row`, `sheet` and `seen`
//! have the number of a viewer, from 0 on, and print what it answers (`row` has a desk too); `tell` has
//! the board tell the viewer of that number, `meet` the last viewer; `join` has it take the last viewer
//! in; `leave` drops the last viewer. The board is closed at the end.

mod forms;
mod stand;

use crate::boards::stand::Stand;
use anyhow::{Context, Result, bail};
use std::alloc::Global;
use std::sync::Wait;

/// How many viewers a case has at most.
const MOST_VIEWERS: u32 = 1_000;

/// The answer to the case of a line.
pub fn answer<R: Wait>(rt: &R, alloc: Global, line: &str) -> Result<String> {
    let (name, rest) = line.split_once('\t').context("no viewers")?;
    let (readers, rest) = rest.split_once('\t').context("no sheet")?;
    let (sheet, steps) = rest.split_once('\t').unwrap_or((rest, ""));
    let Ok(readers) = readers.parse::<u32>() else {
        bail!("no number of viewers");
    };
    if readers > MOST_VIEWERS {
        bail!("too many viewers");
    }
    let mut answer = format!(in alloc; "{name}")?;
    let mut stand = Stand::new(rt, alloc, sheet, readers)?;
    let taken = take_all(rt, alloc, &mut stand, steps, &mut answer);
    let last = stand.close(rt);
    taken?;
    answer.push_str(format!(in alloc; "\tclose {last}")?.as_str())?;
    Ok(answer)
}

// Takes the steps, which stand between tabs, and adds what they print.
fn take_all<R: Wait>(
    rt: &R,
    alloc: Global,
    stand: &mut Stand,
    steps: &str,
    answer: &mut String,
) -> Result<()> {
    for step in steps.split('\t') {
        if let Some(found) = stand.step(rt, alloc, step)? {
            answer.push('\t')?;
            answer.push_str(found.as_str())?;
        }
    }
    Ok(())
}
