//! A text cut at each place, and with each byte changed.

use crate::rrdp::calls::Kind;
use anyhow::Result;
use rrdp_text::{XmlFault, read_delta, read_snapshot};
use std::alloc::Global;

/// The bytes that are put in place of each: with the lowest bit turned, and some that tell much.
const OTHERS: &[u8] = b"\n \"'/09:<=>AFaf-";

/// How many were read, and the answers put together.
#[derive(Drop)]
struct Tally {
    read: u64,
    digest: u64,
}

impl Tally {
    fn count(&mut self, answer: Result<(), XmlFault>) {
        let told = match answer {
            Ok(()) => 0,
            Err(XmlFault::NotTemplate { at }) => at.wrapping_add(1),
            Err(XmlFault::Memory) => u64::MAX,
        };
        self.read = self.read.wrapping_add(u64::from(answer.is_ok()));
        self.digest = self.digest.wrapping_mul(1_000_003).wrapping_add(told);
    }
}

fn answer(alloc: Global, kind: Kind, bytes: &[u8]) -> Result<(), XmlFault> {
    match kind {
        Kind::Snapshot => read_snapshot(alloc, bytes).map(|_| ()),
        Kind::Delta => read_delta(alloc, bytes).map(|_| ()),
    }
}

/// The answers to the text cut at each place, its end included.
pub fn cut(alloc: Global, kind: Kind, text: &[u8]) -> Result<String> {
    let mut tally = Tally { read: 0, digest: 0 };
    for len in 0..text.len() {
        tally.count(answer(alloc, kind, &text[..len]));
    }
    tally.count(answer(alloc, kind, text));
    told(alloc, &tally)
}

/// The answers to the text with each byte changed in turn.
pub fn changed(alloc: Global, kind: Kind, text: &[u8]) -> Result<String> {
    let mut copy = Vec::from_slice(alloc, text)?;
    let tally = changes_of(alloc, kind, copy.as_mut_slice());
    told(alloc, &tally)
}

fn changes_of(alloc: Global, kind: Kind, text: &mut [u8]) -> Tally {
    let mut tally = Tally { read: 0, digest: 0 };
    for place in 0..text.len() {
        let byte = text[place];
        text[place] = byte ^ 1;
        tally.count(answer(alloc, kind, text));
        for other in OTHERS {
            text[place] = *other;
            tally.count(answer(alloc, kind, text));
        }
        text[place] = byte;
    }
    tally
}

fn told(alloc: Global, tally: &Tally) -> Result<String> {
    let Tally { read, digest } = tally;
    Ok(format!(in alloc; "{read} read\t{digest:016x}")?)
}
