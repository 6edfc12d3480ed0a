//! A board and its viewers.
ghost use Rattle.std.specs.Prelude.{◌≡◌, ◌<◌, IfOk};

use crate::boards::forms;
use anyhow::{Result, bail};
use notice_board::{Board, Viewer};
use std::alloc::Global;
use std::marker::{Brand, Model};
use std::sync::Wait;

/// A board, and viewers of its list.
pub struct Stand {
    board: Board,
    viewers: Vec<Viewer>,
}

impl Model for Stand {
    ghost use Rattle.std.specs.Prelude.{◌≡◌, All};
    ghost use Rattle.notice_board.specs.Seats.{BoardSeat};

    ghost Value = { BoardSeat };

    ghost view = { λ s. s.board };

    ghost invariant = { λ s. All (λ viewer. viewer.list ≡ s.board.list) s.viewers.items };
}

impl Stand {
    /// A board on which that sheet is shown, and as many viewers.
    pub fn new<R: Wait>(rt: &R, alloc: Global, sheet: &str, readers: u32) -> Result<Stand> {
        let sheet = forms::read_sheet(alloc, sheet)?;
        let (board, viewers) = Board::new::<Brand, R>(rt, alloc, sheet, readers)?;
        Ok(Stand { board, viewers })
    }

    /// One step, and what it finds.
    pub fn step<R: Wait>(&mut self, rt: &R, alloc: Global, step: &str) -> Result<Option<String>> {
        let (word, rest) = step.split_once(' ').unwrap_or((step, ""));
        match word {
            "" => {}
            "ready" => self.make_ready(alloc, rest)?,
            "show" => self.board.show::<Brand, R>(rt),
            "leave" => drop(self.viewers.pop()),
            "tell" => self.tell(rt, rest)?,
            "join" => self.join(rest)?,
            "meet" => self.meet(rest)?,
            _ => return Ok(Some(self.look(alloc, word, rest)?)),
        }
        Ok(None)
    }

    fn make_ready(&mut self, alloc: Global, text: &str) -> Result<()> {
        let sheet = forms::read_sheet(alloc, text)?;
        if sheet.serial <= self.board.serial() {
            bail!("no greater serial");
        }
        self.board.ready(alloc, sheet)?;
        Ok(())
    }

    fn tell<R: Wait>(&mut self, rt: &R, rest: &str) -> Result<()> {
        let place = place_of(rest, self.viewers.len())?;
        self.board.tell(rt, &mut self.viewers[place]);
        Ok(())
    }

    // A viewer takes in the last one.
    fn join(&mut self, rest: &str) -> Result<()> {
        let Some(last) = self.viewers.pop() else {
            bail!("no viewer");
        };
        let place = place_of(rest, self.viewers.len())?;
        self.viewers[place].join(last);
        Ok(())
    }

    // A viewer is told by the last one.
    fn meet(&mut self, rest: &str) -> Result<()> {
        let Some(last) = self.viewers.pop() else {
            bail!("no viewer");
        };
        let place = place_of(rest, self.viewers.len())?;
        self.viewers[place].meet(&last)?;
        self.viewers.push(last)?;
        Ok(())
    }

    fn look(&mut self, alloc: Global, word: &str, rest: &str) -> Result<String> {
        let (number, rest) = rest.split_once(' ').unwrap_or((rest, ""));
        let place = place_of(number, self.viewers.len())?;
        look_by(alloc, &mut self.viewers[place], word, rest)
    }

    /// The serial at the close.
    pub fn close<R: Wait>(self, rt: &R) -> u64 {
        let Stand {
            board,
            viewers: _viewers,
        } = self;
        board.close(rt)
    }
}

// The place of the viewer of that number, among so many.
fn place_of(text: &str, viewers: usize) -> Result<usize>
    ensures { IfOk result (λ place. place < viewers) }
{
    let Ok(place) = text.parse::<usize>() else {
        bail!("no viewer");
    };
    if place >= viewers {
        bail!("no such viewer");
    }
    Ok(place)
}

// A look of that viewer, and what it finds.
fn look_by(alloc: Global, viewer: &mut Viewer, word: &str, rest: &str) -> Result<String>
    ensures { viewer.new.list ≡ viewer.old.list }
{
    match word {
        "serial" => Ok(format!(in alloc; "{}", viewer.serial())?),
        "seen" => Ok(format!(in alloc; "{}", viewer.last_seen())?),
        "sheet" => forms::sheet_text(alloc, &viewer.sheet(alloc)?),
        "row" => {
            let Ok(desk) = rest.parse::<u32>() else {
                bail!("no desk");
            };
            forms::row_text(alloc, &viewer.row(alloc, desk)?)
        }
        _ => bail!("no such step"),
    }
}
