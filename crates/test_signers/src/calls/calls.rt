// Calls on the two signers of a ring.
ghost use Rattle.std.specs.Prelude.{◌<◌, IfOk, length};

use anyhow::{Result, bail};
use sha2::{Digest as Hasher, Sha256};
use signer_api::{Digest, MemorySigner, OneUse, PublicKey};
use signer_ring::{CallFault, Ring, make_key, sign, sign_once};
use std::alloc::Global;
use test_support::numbers_of;

fn signer_of(alloc: Global, first_byte: u8, fails: &str) -> Result<MemorySigner> {
    let mut start = [0; 32];
    let mut next = first_byte;
    for byte in &mut start {
        *byte = next;
        next = next.wrapping_add(1);
    }
    Ok(MemorySigner::new(alloc, start, numbers_of(alloc, fails, ' ')?))
}

// A signer's number, where it is one of the ring.
fn read_signer(ring: &Ring<MemorySigner>, word: &str) -> Result<u32>
    ensures { IfOk result (λ signer. signer < length ring.now) }
{
    let signer = word.parse::<u32>()?;
    if signer >= ring.len() {
        bail!("no such signer: {word}");
    }
    Ok(signer)
}

// Whether the ring vouches for the signature over bytes.
fn is_vouched(
    alloc: Global,
    ring: &mut Ring<MemorySigner>,
    once: &OneUse,
    bytes: &[u8],
) -> Result<bool> {
    let digest = Digest {
        bytes: Sha256::digest(bytes),
    };
    Ok(ring.check(alloc, &once.key, &digest, &once.signature)?)
}

// What the ring says to the signature over its bytes, and over these with one more.
fn vouching(
    alloc: Global,
    ring: &mut Ring<MemorySigner>,
    once: &OneUse,
    bytes: &str,
) -> Result<String> {
    let signed = is_vouched(alloc, ring, once, bytes.as_bytes())?;
    let longer = format!(in alloc; "{bytes} ")?;
    let other = is_vouched(alloc, ring, once, longer.as_bytes())?;
    Ok(format!(in alloc; "{signed} {other}")?)
}

fn fault_text(alloc: Global, fault: CallFault) -> Result<String> {
    match fault {
        CallFault::Memory => bail!("out of memory"),
        fault => Ok(format!(in alloc; "{fault}")?),
    }
}

// One call: its words, separated by blanks. A key that was made is the last one from then on.
fn call(
    alloc: Global,
    ring: &mut Ring<MemorySigner>,
    last: &mut Option<PublicKey>,
    words: &[&str],
) -> Result<String> {
    let signed = match words {
        ["make", signer] => {
            let signer = read_signer(ring, signer)?;
            return match make_key(alloc, ring, signer) {
                Ok(key) => {
                    *last = Some(key);
                    Ok(hex::encode(alloc, key.bytes)?)
                }
                Err(fault) => fault_text(alloc, fault),
            };
        }
        ["sign", signer, bytes] => {
            let signer = read_signer(ring, signer)?;
            let Some(key) = *last else {
                bail!("no key was made");
            };
            sign(alloc, ring, signer, &key, bytes.as_bytes()).map(|signature| OneUse {
                key,
                signature,
            })
        }
        ["once", signer, bytes] => {
            let signer = read_signer(ring, signer)?;
            sign_once(alloc, ring, signer, bytes.as_bytes())
        }
        _ => bail!("no such call"),
    };
    match (signed, words) {
        (Ok(once), [_, _, bytes]) => vouching(alloc, ring, &once, bytes),
        (Err(fault), _) => fault_text(alloc, fault),
        _ => bail!("no such call"),
    }
}

// The answers to the calls, which are separated by commas.
pub(crate) fn run(alloc: Global, first: &str, second: &str, script: &str) -> Result<String> {
    let mut signers = Vec::new(alloc);
    signers.push(signer_of(alloc, 0x00, first)?)?;
    signers.push(signer_of(alloc, 0x20, second)?)?;
    let mut ring = Ring::new(signers);
    let mut last = None;
    let mut texts = String::new(alloc);
    for one in script.split(',') {
        let words: Vec<&str> = one.split(' ').collect(alloc)?;
        let answer = call(alloc, &mut ring, &mut last, &words)?;
        texts.push_str(answer.as_str())?;
        texts.push('\t')?;
    }
    Ok(texts)
}
