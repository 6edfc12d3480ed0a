// Calls on signers in a row, and their answers.
use crate::signers::fields::read_bytes;
use anyhow::{Result, bail};
use signer_api::{Digest, OneUse, PublicKey, Signature, Signer};
use signer_ring::{Ring, RingFault};
use std::alloc::{AllocError, Global};

#[derive(Clone, Copy)]
pub(crate) enum Answer {
    Key(PublicKey),
    Signed(Signature),
    Once(OneUse),
    Checked(bool),
    Dropped,
    Stopped(RingFault),
}

impl Answer {
    pub(crate) fn text(&self, alloc: Global) -> Result<String, AllocError> {
        match self {
            Answer::Key(key) => hex::encode(alloc, key.bytes),
            Answer::Signed(signature) => hex::encode(alloc, signature.bytes),
            Answer::Once(once) => {
                let key = hex::encode(alloc, once.key.bytes)?;
                let signature = hex::encode(alloc, once.signature.bytes)?;
                format!(in alloc; "{key} {signature}")
            }
            Answer::Checked(true) => String::from_str(alloc, "yes"),
            Answer::Checked(false) => String::from_str(alloc, "no"),
            Answer::Dropped => String::from_str(alloc, "dropped"),
            Answer::Stopped(fault) => format!(in alloc; "{fault}"),
        }
    }
}

fn earlier(answers: &[Answer], word: &str) -> Option<Answer> {
    let number = word.strip_prefix("@")?.parse::<usize>().ok()?;
    answers.get(number).copied()
}

fn read_key(answers: &[Answer], word: &str) -> Result<PublicKey> {
    match earlier(answers, word) {
        Some(Answer::Key(key)) => Ok(key),
        Some(Answer::Once(once)) => Ok(once.key),
        Some(_) => bail!("no key: {word}"),
        None => match PublicKey::read(&read_bytes::<270>(word)?) {
            Some(key) => Ok(key),
            None => bail!("no key: {word}"),
        },
    }
}

fn read_signature(answers: &[Answer], word: &str) -> Result<Signature> {
    match earlier(answers, word) {
        Some(Answer::Signed(signature)) => Ok(signature),
        Some(Answer::Once(once)) => Ok(once.signature),
        Some(_) => bail!("no signature: {word}"),
        None => Ok(Signature {
            bytes: read_bytes(word)?,
        }),
    }
}

fn read_digest(word: &str) -> Result<Digest> {
    Ok(Digest {
        bytes: read_bytes(word)?,
    })
}

// One call: its words, separated by blanks.
pub(crate) fn call<S: Signer>(
    alloc: Global,
    ring: &mut Ring<S>,
    answers: &[Answer],
    words: &[&str],
) -> Result<Answer> {
    let answered = match words {
        ["make", signer] => ring.make_key(alloc, signer.parse()?).map(Answer::Key),
        ["sign", signer, key, digest] => {
            let key = read_key(answers, key)?;
            ring.sign(alloc, signer.parse()?, &key, &read_digest(digest)?)
                .map(Answer::Signed)
        }
        ["once", signer, digest] => ring
            .sign_once(alloc, signer.parse()?, &read_digest(digest)?)
            .map(Answer::Once),
        ["check", key, digest, signature] => {
            let key = read_key(answers, key)?;
            let signature = read_signature(answers, signature)?;
            ring.check(alloc, &key, &read_digest(digest)?, &signature)
                .map(Answer::Checked)
        }
        ["drop", signer, key] => {
            ring.drop_key(signer.parse()?, &read_key(answers, key)?);
            Ok(Answer::Dropped)
        }
        _ => bail!("no such call"),
    };
    match answered {
        Ok(answer) => Ok(answer),
        Err(RingFault::Memory) => bail!("out of memory"),
        Err(fault) => Ok(Answer::Stopped(fault)),
    }
}

// The answers to the calls, which are separated by commas, and the counts of faults at the end.
pub(crate) fn run<S: Signer>(alloc: Global, signers: Vec<S>, script: &str) -> Result<String> {
    if signers.len() > 100 {
        bail!("more than 100 signers");
    }
    let mut ring = Ring::new(signers);
    let mut answers: Vec<Answer> = Vec::new(alloc);
    let mut texts = String::new(alloc);
    for one in script.split(',') {
        let words: Vec<&str> = one.split(' ').collect(alloc)?;
        let answer = call(alloc, &mut ring, &answers, &words)?;
        answers.push(answer)?;
        texts.push_str(answer.text(alloc)?.as_str())?;
        texts.push('\t')?;
    }
    let count = ring.len();
    texts.push_str(format!(in alloc; "{count} signers, faults")?.as_str())?;
    for signer in ring.take_back() {
        let faults = signer.faults();
        texts.push_str(format!(in alloc; " {faults}")?.as_str())?;
    }
    Ok(texts)
}
