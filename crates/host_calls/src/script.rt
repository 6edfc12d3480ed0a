// The answers that a double in memory plays.
ghost use Rattle.std.specs.Prelude.{◌≡◌, ◌<◌, ◌≤◌, vec_len, IfOk};

use crate::CallFault;

/// How a call is to go.
#[derive(Clone, Copy, Debug, PartialEq, Eq)]
pub enum Play {
    /// As far as it can.
    Whole,
    /// At most so many bytes, and at least one.
    Short(usize),
    Fault(CallFault),
}

/// How the next calls are to go. Behind the list's end each goes as far as it can.
#[derive(Drop)]
pub struct Script {
    plays: Vec<Play>,
    at: usize,
    ghost within: { at ≤ vec_len plays },
}

impl Script {
    ghost use Rattle.host_calls.specs.Plays.{plays_left, played, first_play, behind};

    pub fn new(plays: Vec<Play>) -> Script
        ensures { plays_left result ≡ plays.items }
    {
        Script { plays, at: 0 }
    }

    /// How many bytes the next call may move of so many, or why it fails.
    pub fn next(&mut self, len: usize) -> Result<usize, CallFault>
        ensures played { result ≡ played (plays_left self.old) len }
        ensures behind { plays_left self.new ≡ behind (plays_left self.old) }
        ensures within { IfOk result (λ n. n ≤ len) }
        ensures some { IfOk result (λ n. 0 < len → 0 < n) }
    {
        match self.turn() {
            Play::Whole => Ok(len),
            Play::Short(most) => Ok(len.min(most.max(1))),
            Play::Fault(fault) => Err(fault),
        }
    }

    fn turn(&mut self) -> Play
        ensures play { result ≡ first_play (plays_left self.old) }
        ensures behind { plays_left self.new ≡ behind (plays_left self.old) }
    {
        if self.at == self.plays.len() {
            return Play::Whole;
        }
        let play = self.plays[self.at];
        self.at += 1;
        play
    }
}
