//! The fields of a case.
ghost use Rattle.std.specs.Prelude.{◌<◌, IfOk};

use anyhow::{Result, bail};
use host_calls::{CallFault, Play, Script};
use std::alloc::Global;
use test_support::{number_of, numbers_of};

/// What is left of a case's fields.
#[derive(Drop)]
pub struct Fields<'a> {
    rest: Option<&'a str>,
}

impl<'a> Fields<'a> {
    pub fn new(line: &'a str) -> Fields<'a> {
        Fields { rest: Some(line) }
    }

    pub fn text(&mut self) -> Result<&'a str> {
        let Some(rest) = self.rest else {
            bail!("a field is missing");
        };
        match rest.split_once('\t') {
            Some((first, others)) => {
                self.rest = Some(others);
                Ok(first)
            }
            None => {
                self.rest = None;
                Ok(rest)
            }
        }
    }

    pub fn number(&mut self) -> Result<u64> {
        number_of(self.text()?)
    }

    /// How many bytes a call moves at most, where 0 says that there is no such number.
    pub fn piece(&mut self) -> Result<usize>
        ensures { IfOk result (λ piece. 0 < piece) }
    {
        let piece = self.number()? as usize;
        if piece == 0 {
            return Ok(usize::MAX);
        }
        Ok(piece)
    }

    /// Bytes in hexadecimal digits.
    pub fn bytes(&mut self, alloc: Global) -> Result<Vec<u8>> {
        Ok(hex::decode(alloc, self.text()?)?)
    }

    /// Numbers with spaces between them.
    pub fn numbers(&mut self, alloc: Global) -> Result<Vec<u64>> {
        numbers_of(alloc, self.text()?, ' ')
    }

    /// Plays with spaces between them: `whole`, `interrupted`, `memory`, `failed`, or a number of bytes.
    pub fn script(&mut self, alloc: Global) -> Result<Script> {
        let mut plays = Vec::new(alloc);
        for word in self.text()?.split_whitespace() {
            plays.push(play_of(word)?)?;
        }
        Ok(Script::new(plays))
    }

    pub fn end(&self) -> Result<()> {
        if self.rest.is_some() {
            bail!("a field too many");
        }
        Ok(())
    }
}

fn play_of(word: &str) -> Result<Play> {
    Ok(match word {
        "whole" => Play::Whole,
        "interrupted" => Play::Fault(CallFault::Interrupted),
        "memory" => Play::Fault(CallFault::Memory),
        "failed" => Play::Fault(CallFault::Failed),
        most => Play::Short(number_of(most)? as usize),
    })
}
