//! Cases of a word that counts, in one thread: each line is one, and what its loads and its close answer
//! is printed.
//!
//! Fields stand between tabs: the case's name, `run`, the recovered count, and the steps, a letter
//! each. `b` bumps; `p` sets an entry aside; `j` has the reader take in the seat that made it, and `h`
//! has the owner do so; `l` and `o` load, by the reader and by another follower, and print; `m` has
//! the reader meet the other; `s` and `f` split the other anew, off the owner and off the reader; `c`
//! commits an entry for the reader and prints the count. The word is closed at the end.

ghost use Rattle.std.specs.Prelude.{◌<◌, ◌^◌};

mod commit;
mod stand;

use crate::words::stand::Stand;
use anyhow::{Result, bail};
use std::alloc::Global;
use std::sync::Wait;

/// How many steps a case has at most.
const MOST_STEPS: usize = 1_000;

/// The answer to the case of a line.
pub fn answer<R: Wait>(rt: &R, alloc: Global, line: &str) -> Result<String> {
    let mut fields = line.split('\t');
    let (Some(name), Some("run"), Some(count), Some(steps), None) = (
        fields.next(),
        fields.next(),
        fields.next(),
        fields.next(),
        fields.next(),
    ) else {
        bail!("no case");
    };
    let Ok(count) = count.parse::<u32>() else {
        bail!("no count");
    };
    let mut answer = format!(in alloc; "{name}\t")?;
    run(rt, alloc, u64::from(count), steps.as_bytes(), &mut answer)?;
    Ok(answer)
}

fn run<R: Wait>(rt: &R, alloc: Global, count: u64, steps: &[u8], answer: &mut String) -> Result<()>
    requires { count < 2 ^ 32 }
{
    if steps.len() > MOST_STEPS {
        bail!("too many steps");
    }
    let mut stand = Stand::new(alloc, count)?;
    for step in steps {
        if let Some(found) = stand.step(rt, alloc, *step)? {
            answer.push_str(format!(in alloc; "{found} ")?.as_str())?;
        }
    }
    let last = stand.close();
    answer.push_str(format!(in alloc; "close {last}")?.as_str())?;
    Ok(())
}
