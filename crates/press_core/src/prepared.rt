//! An edition that was prepared.

ghost use Rattle.std.specs.Prelude.{◌≡◌, IfOk};
ghost use Rattle.editions.specs.Sheets.{sheet_of};

use crate::next_edition::NextEdition;
use notice_board::Sheet;
use pub_set::Change;
use rrdp_state::NextDelta;
use std::alloc::{AllocError, Global};
use std::marker::Model;

/// An edition that was prepared, before it becomes the last one, with its delta (RFC 8182 section
/// 3.5.3).
#[derive(Drop)]
pub struct Prepared {
    edition: NextEdition,
    delta: NextDelta,
}

impl Model for Prepared {
    ghost use Rattle.press_core.specs.Next.{PreparedValue};

    ghost Value = { PreparedValue };

    ghost view = { λ prepared. record { edition = prepared.edition; delta = prepared.delta } };
}

impl Prepared {
    /// An edition with its delta.
    pub(crate) fn new(edition: NextEdition, delta: NextDelta) -> Prepared
        ensures { result ≡ record { edition = edition; delta = delta } }
    {
        Prepared { edition, delta }
    }

    /// The edition, without its files.
    pub(crate) fn edition(&self) -> &NextEdition
        ensures { result.now ≡ self.now.edition }
    {
        &self.edition
    }

    /// What the edition puts and withdraws, by rising URI.
    pub(crate) fn changes(&self) -> &[Change]
        ensures { result.now ≡ self.now.edition.changes }
    {
        self.edition.changes()
    }

    /// What readers will be shown of the edition.
    pub(crate) fn sheet(&self, alloc: Global) -> Result<Sheet, AllocError>
        ensures { IfOk result (λ sheet. sheet ≡ sheet_of self.now.edition.next) }
    {
        self.edition.published_state().sheet(alloc)
    }

    /// The edition and its delta.
    pub(crate) fn into_parts(self) -> (NextEdition, NextDelta)
        ensures edition { result.0 ≡ self.edition }
        ensures delta { result.1 ≡ self.delta }
    {
        (self.edition, self.delta)
    }
}
