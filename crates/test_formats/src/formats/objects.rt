//! Lists, and an object of numbers.

ghost use Rattle.std.specs.Prelude.{ℕ, List};
ghost use Rattle.der.specs.Tags as tag;
ghost use Rattle.der.specs.Forms.{sole, many};
ghost use Rattle.der.specs.Leaves.{number as number_form};
ghost use Rattle.der.specs.laws.LeafLaws.{number-law};
ghost use Rattle.der.specs.laws.FrameLaws.{sole-law};
ghost use Rattle.der.specs.laws.ListLaws.{front-moves, many-law};

use anyhow::{Result, bail};
use der::tags::SEQUENCE;
use der::{FrontReader, Part, Placed, ShapeFault, WholeReader, many, number, object};
use std::alloc::Global;
use test_support::bytes_of;

/// The answer to a call.
pub fn answer(alloc: Global, call: &str, first: &str) -> Result<String> {
    match call {
        "numbers" => numbers(alloc, first),
        "placed" => placed_numbers(alloc, first),
        _ => bail!("an unknown call: {call}"),
    }
}

/// Reads an INTEGER.
struct Integers;

impl FrontReader for Integers {
    type Item = u64;

    ghost Meaning = { ℕ };

    ghost view = { λ n. n };

    ghost format = { λ reader. number_form };

    fn read_front<'a>(
        &self,
        _alloc: Global,
        part: Part<'a>,
    ) -> Result<(u64, Part<'a>), ShapeFault> {
        number(part)
    }

    ghost moves = { λ reader. front-moves number_form number-law };
}

/// Reads a SEQUENCE of INTEGERs.
struct NumberList;

impl<'a> WholeReader<'a> for NumberList {
    type Item = Vec<u64>;

    ghost Meaning = { List ℕ };

    ghost view = { λ v. v.items };

    ghost format = { λ reader. sole tag.sequence (many number_form) };

    fn read_whole(&self, alloc: Global, part: Part<'a>) -> Result<Vec<u64>, ShapeFault> {
        many(alloc, &Integers, part.sole(SEQUENCE)?)
    }

    ghost is_whole = { λ reader. sole-law tag.sequence (many number_form) (many-law number_form number-law) };
}

/// What stands for a fault.
pub fn refused(alloc: Global, fault: ShapeFault) -> Result<String> {
    Ok(format!(in alloc; "{fault:?}")?)
}

/// The numbers of a SEQUENCE.
pub fn numbers(alloc: Global, digits: &str) -> Result<String> {
    let bytes = bytes_of(alloc, digits)?;
    match object(alloc, &NumberList, &bytes) {
        Ok(numbers) => Ok(format!(in alloc; "{numbers:?}")?),
        Err(fault) => refused(alloc, fault),
    }
}

/// The part of all the bytes.
pub fn whole(bytes: &[u8]) -> Result<Part<'_>> {
    match Part::whole(bytes) {
        Some(part) => Ok(part),
        None => bail!("too many bytes"),
    }
}

/// The numbers that stand one after the other, with their places.
pub fn placed_numbers(alloc: Global, digits: &str) -> Result<String> {
    let bytes = bytes_of(alloc, digits)?;
    match many(alloc, &Placed(Integers), whole(&bytes)?) {
        Ok(numbers) => Ok(format!(in alloc; "{numbers:?}")?),
        Err(fault) => refused(alloc, fault),
    }
}
