//! What is done to a store.

use authority_book::Command;
use editions::PublishedNumbers;
use names::Name;

/// A step of a case.
#[derive(Drop)]
pub enum Step {
    /// The command is given to the authority of that name.
    Command { authority: Name, command: Command },
    /// What the desks have accepted is published, at that clock in seconds since 1970.
    Publish { clock: u64 },
    /// Everything stops, the image of that pick is left of each disk, and the desks and the press are opened again over these.
    Stop { pick: u64, limit: Option<Limit> },
}

/// A disk takes only so many calls.
#[derive(Drop)]
pub struct Limit {
    /// The number of its desk, or the number of desks: the press comes behind them.
    pub device: u64,
    pub calls: u64,
}

/// What came of it.
#[derive(Drop)]
pub enum Done {
    /// The command was accepted at the desk of that number.
    Accepted {
        desk: u32,
        command: Command,
    },
    /// A call of that desk's disk failed while the command was written.
    Failed {
        desk: u32,
        command: Command,
    },
    /// An edition was published.
    Published {
        published: PublishedNumbers,
    },
    /// A call of the press's disk failed while an edition was written.
    FailedPublishing,
    /// No edition was published, by the refusal of that code.
    Refused {
        code: u32,
    },
    /// Everything stopped.
    Stopped,
    /// The store was opened again. These commands of each desk were found, and that was the last serial.
    Found {
        lists: Vec<Vec<Command>>,
        serial: u64,
    },
}
