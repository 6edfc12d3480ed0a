// Editions that were shown, as contracts see them.
use crate::Sheet;
use std::collections::LinkedList;
use std::marker::Brand;

/// Which list of editions it is. No value of it is made.
pub struct ListId {
    pub number: u64,
    pub log_name: u64,
    pub cells_name: u64,
}

/// What an edition has beside its sheet. No value of it is made.
pub struct EditionNumbers {
    /// For each desk, how many of its commands the edition takes in.
    pub cut: LinkedList<u64>,
    /// How many objects the edition's set has.
    pub objects: u64,
    /// How many origins are owed at the cut.
    pub origins: u64,
}

/// An edition that was shown. No value of it is made.
pub struct ShownEdition {
    pub sheet: Sheet,
    pub numbers: EditionNumbers,
}

/// The numbers of an edition. They exist in contracts alone; a call at `Brand` picks them.
pub trait Numbers {
    ghost use Rattle.notice_board.specs.declared.shown.EditionNumbers.{EditionNumbers};

    ghost numbers: { EditionNumbers };
}

impl Numbers for Brand {
    ghost use Rattle.std.specs.Prelude.{[]};

    ghost numbers = { record { cut = []; objects = 0; origins = 0 } };
}
