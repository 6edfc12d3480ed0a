//! A desk that isn't behind its lock yet.
ghost use Rattle.std.specs.Prelude.{◌≡◌, IfOk, IfErr};
ghost use Rattle.desk_core.specs.Counted.{counted_view};

use commit_word::Word;
use desk_core::{CountedDesk, Desk, UncountedDesk};
use disk_api::Disk;
use std::alloc::Global;
use std::marker::Model;

/// A desk, and the word that counts its commands.
#[derive(Drop)]
pub struct OpenedDesk<D: Disk> {
    desk: CountedDesk<D>,
    word: Word,
}

impl<D: Disk> Model for OpenedDesk<D> {
    ghost use Rattle.std.specs.Prelude.{◌≡◌};
    ghost use Rattle.desk_core.specs.Counted.{CountedView};

    ghost Value = { CountedView D };

    ghost view = { λ o. o.desk };

    ghost invariant = { λ o. o.desk.word ≡ o.word };
}

impl<D: Disk> OpenedDesk<D> {
    /// The desk with a word that counts the commands which were accepted so far.
    pub fn new(alloc: Global, desk: Desk<D>) -> Result<OpenedDesk<D>, UncountedDesk<D>>
        ensures counted { IfOk result (λ opened. opened ≡ counted_view desk opened.word) }
        ensures refused { IfErr result (λ refused. refused.desk ≡ desk) }
    {
        let (desk, word) = CountedDesk::new(alloc, desk)?;
        Ok(OpenedDesk { desk, word })
    }

    /// The desk.
    pub fn desk(&self) -> &Desk<D>
        ensures { result.now ≡ self.now.desk }
    {
        self.desk.desk()
    }

    /// The desk, whose commands no word counts any more.
    pub fn into_desk(self) -> Desk<D>
        ensures { result ≡ self.desk }
    {
        let OpenedDesk { desk, word } = self;
        desk.into_desk(word)
    }

    /// The desk and its word.
    pub(crate) fn into_parts(self) -> (CountedDesk<D>, Word)
        ensures desk { result.0 ≡ self }
        ensures word { result.1 ≡ self.word }
    {
        let OpenedDesk { desk, word } = self;
        (desk, word)
    }
}
