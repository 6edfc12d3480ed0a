//! The steps of a case.

use crate::bench::Bench;
use anyhow::{Context, Result, bail};
use krill_top::RunFault;
use std::alloc::Global;
use std::sync::Wait;
use std::thread::Threads;
use test_support::{fixed_of, numbers_of};

/// Takes a step: a word, and behind a blank what goes with it.
pub fn take<R: Threads + Wait + Sync>(
    rt: &R,
    alloc: Global,
    bench: &mut Bench,
    step: &str,
) -> Result<()> {
    let (word, text) = step.split_once(' ').unwrap_or((step, ""));
    match word {
        // What is handed in.
        "word" => bench.add_word(alloc, text),
        "disks" => add_disks(alloc, bench, text.parse::<u32>()?),
        "disk" => bench.add_disk(alloc, hex::decode(alloc, text)?, Vec::new(alloc)),
        "failing" => bench.add_disk(alloc, Vec::new(alloc), numbers_of(alloc, text, ' ')?),
        "stop" => bench.stop_first(text.parse::<u64>()?),
        "image" => bench.keep_image(alloc, text.parse::<u64>()?),
        _ => take_store_step(rt, alloc, bench, word, text),
    }
}

fn take_store_step<R: Threads + Wait + Sync>(
    rt: &R,
    alloc: Global,
    bench: &mut Bench,
    word: &str,
    text: &str,
) -> Result<()> {
    match word {
        "reword" => {
            bench.clear_words();
            bench.add_word(alloc, text)
        }
        "lose" => bench.lose_desk(alloc, text.parse::<usize>()?),
        "press" => {
            bench.set_press(alloc, hex::decode(alloc, text)?, Vec::new(alloc));
            Ok(())
        }
        "press-failing" => {
            bench.set_press(alloc, Vec::new(alloc), numbers_of(alloc, text, ' ')?);
            Ok(())
        }
        "press-stop" => {
            bench.stop_press(text.parse::<u64>()?);
            Ok(())
        }
        "press-image" => bench.keep_press_image(alloc, text.parse::<u64>()?),
        "press-flip" => bench.flip_press(alloc, text.parse::<usize>()?),
        "press-add" => bench.extend_press(alloc, &hex::decode(alloc, text)?),
        "press-left" => bench.tell_press(alloc),
        _ => take_signer_step(rt, alloc, bench, word, text),
    }
}

fn take_signer_step<R: Threads + Wait + Sync>(
    rt: &R,
    alloc: Global,
    bench: &mut Bench,
    word: &str,
    text: &str,
) -> Result<()> {
    match word {
        "unsigned" => {
            bench.clear_signers();
            Ok(())
        }
        "rehearsal" => bench.add_rehearsal(fixed_of(alloc, text)?),
        "memory" => add_memory_signer(alloc, bench, text),
        "clock" => {
            bench.set_clock(numbers_of(alloc, text, ' ')?);
            Ok(())
        }
        _ => take_session_step(rt, alloc, bench, word, text),
    }
}

fn take_session_step<R: Threads + Wait + Sync>(
    rt: &R,
    alloc: Global,
    bench: &mut Bench,
    word: &str,
    text: &str,
) -> Result<()> {
    match word {
        "outlet" => bench.set_outlet(alloc, numbers_of(alloc, text, ' ')?),
        "random" => bench.set_random(fixed_of(alloc, text)?),
        "sessions" => bench.set_sessions(text.parse::<u32>()?),
        "next" => bench.begin_input(alloc)?,
        "pieces" => bench.set_piece(text.parse::<usize>()?),
        "source" => bench.set_source_fails(numbers_of(alloc, text, ' ')?),
        "sink" => bench.set_sink_fails(numbers_of(alloc, text, ' ')?),
        "line" => add_line(bench, text)?,
        "text" => bench.add_input(text.as_bytes())?,
        "bytes" => bench.add_input(&hex::decode(alloc, text)?)?,
        "blanks" => add_blanks(bench, text.parse::<u32>()?)?,
        "origins" => add_many(alloc, bench, text.parse::<u32>()?)?,
        _ => take_run_step(rt, alloc, bench, word, text)?,
    }
    Ok(())
}

fn take_run_step<R: Threads + Wait + Sync>(
    rt: &R,
    alloc: Global,
    bench: &mut Bench,
    word: &str,
    text: &str,
) -> Result<()> {
    match word {
        "run" => bench.run(rt, alloc),
        "replies" => bench.tell_replies(alloc),
        "among" => bench.tell_whether_replies(alloc, text),
        "left" => bench.tell_disks(alloc),
        "file" => bench.tell_file(alloc, text),
        "fault" => bench.tell_fault(alloc, fault_of(text)?),
        _ => bail!("an unknown step"),
    }
}

// A signer in memory: its start, and the numbers of its calls that fail.
fn add_memory_signer(alloc: Global, bench: &mut Bench, text: &str) -> Result<()> {
    let (start, fails) = text.split_once(' ').context("no failing call")?;
    bench.add_memory_signer(
        alloc,
        fixed_of(alloc, start)?,
        numbers_of(alloc, fails, ' ')?,
    )
}

// The fault of this name.
fn fault_of(name: &str) -> Result<RunFault> {
    match name {
        "words" => Ok(RunFault::Words),
        "device" => Ok(RunFault::Device),
        "spent" => Ok(RunFault::Spent { bytes: 1 << 40 }),
        "memory" => Ok(RunFault::Memory),
        "not-empty" => Ok(RunFault::NotEmpty { desk: 3, held: 5 }),
        _ => bail!("an unknown fault"),
    }
}

// So many empty disks.
fn add_disks(alloc: Global, bench: &mut Bench, count: u32) -> Result<()> {
    for _ in 0..count {
        bench.add_disk(alloc, Vec::new(alloc), Vec::new(alloc))?;
    }
    Ok(())
}

fn add_line(bench: &mut Bench, line: &str) -> Result<()> {
    bench.add_input(line.as_bytes())?;
    bench.add_input(b"\n")
}

fn add_blanks(bench: &mut Bench, count: u32) -> Result<()> {
    for _ in 0..count {
        bench.add_input(b" ")?;
    }
    Ok(())
}

// A line that adds so many origins.
fn add_many(alloc: Global, bench: &mut Bench, count: u32) -> Result<()> {
    bench.add_input(b"{\"command\":\"roas update\",\"ca\":\"ta\",\"add\":[")?;
    for n in 0..count {
        let comma = if n == 0 { "" } else { "," };
        let origin = format!(in alloc; "{comma}\"10.{}.{}.0/24 => 1\"", n / 256, n % 256)?;
        bench.add_input(origin.as_bytes())?;
    }
    add_line(bench, "]}")
}
