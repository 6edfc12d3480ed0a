// Calls on a signer that is a program of its own, over two files.
use crate::signers::calls::{Answer, call};
use anyhow::Result;
use signer_api::Signer;
use signer_line::LineSigner;
use signer_ring::Ring;
use std::fs::{File, OpenOptions};
use std::random::RandomSource;

// Makes each call when its line has come, and prints the answer before the next line is read.
fn converse<S: Signer>(rt: &HostRuntime, ring: &mut Ring<S>) -> Result<()> {
    let alloc = rt.alloc();
    let mut answers: Vec<Answer> = Vec::new(alloc);
    for line in rt.lines(alloc) {
        let line = line?;
        let words: Vec<&str> = line.split(' ').collect(alloc)?;
        let answer = call(alloc, ring, &answers, &words)?;
        answers.push(answer)?;
        println!(rt; "{}", answer.text(alloc)?)?;
    }
    Ok(())
}

// Calls from standard input, on the signer that writes the one file and reads the other.
pub(crate) fn run_beside(rt: &HostRuntime, answers: &str, requests: &str) -> Result<()> {
    let alloc = rt.alloc();
    let to = OpenOptions::new().write(true).open(rt, requests)?;
    let from = File::open(rt, answers)?;
    let mut word = [0; 16];
    rt.fill_bytes(&mut word)?;
    let mut signers = Vec::new(alloc);
    signers.push(LineSigner::new(from, to, u128::from_be_bytes(word)))?;
    let mut ring = Ring::new(signers);
    converse(rt, &mut ring)?;
    for signer in ring.take_back() {
        println!(rt; "faults {}", signer.faults())?;
    }
    Ok(())
}
