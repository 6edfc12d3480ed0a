//! A program that times audits.
//!
//! `small` audits 64 ROAs below the anchor, then as many below four authorities, and prints how many
//! objects, origins and points each audit tells. Behind `times` stand the number of ROAs, of authorities
//! below the anchor (0: the ROAs are the anchor's own), of entries on each CRL, and of turns. It prints how
//! many bytes the objects have, and the nanoseconds of the best turn: of an audit, of hashing all objects,
//! of hashing all that is signed, and of hashing what the signer hashes to check it.
#![tactic(auto)]

mod authorities;
mod given;
mod hashing;
mod maker;
mod objects;
mod timing;

use anyhow::{Context, Result, bail};
use given::Shape;
use std::env;

const USAGE: &str = "usage: bench_audit small | times ROAS AUTHORITIES REVOKED TURNS";

fn number(words: &mut env::Args) -> Result<u32> {
    let word = words.next().context(USAGE)?;
    Ok(word.as_str().parse::<u32>()?)
}

fn shape(words: &mut env::Args) -> Result<Shape> {
    Ok(Shape {
        roas: number(words)?,
        authorities: number(words)?,
        revoked: number(words)?,
    })
}

fn small(rt: &HostRuntime) -> Result<()> {
    for authorities in [0u32, 4] {
        let shape = Shape {
            roas: 64,
            authorities,
            revoked: 2,
        };
        timing::once(rt, shape)?;
    }
    Ok(())
}

fn main(rt: HostRuntime) -> Result<()> {
    let mut words = env::args(&rt)?;
    let _program = words.next();
    let word = words.next().context(USAGE)?;
    match word.as_str() {
        "small" => small(&rt),
        "times" => {
            let shape = shape(&mut words)?;
            timing::times(&rt, shape, number(&mut words)?)
        }
        _ => bail!("{USAGE}"),
    }
}
