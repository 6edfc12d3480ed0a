// What readers take: the sheet that was shown last, with the list of all that were shown.
ghost use Rattle.std.specs.Prelude.{◌≡◌, true, Some, IfOk, MatchBool};
ghost use Rattle.std.specs.Arc.{arc_value};
ghost use mathlib.Core.List.{IsPrefix};
ghost use Rattle.notice_board.specs.Lists.{last_sheet, rises};
ghost use Rattle.notice_board.specs.inner.Known.{editions_of, known_of};

use crate::Sheet;
use crate::lists::{Known, ListOwner, Token};
use left_right::Absorb;
use std::alloc::AllocError;
use std::marker::Model;
use std::sync::Arc;

/// The sheet that was shown last. A clause sees the list of all editions that were shown.
#[derive(Drop)]
pub struct Notice {
    sheet: Arc<Sheet>,
    shown: Token,
}

impl Model for Notice {
    ghost use Rattle.std.specs.Prelude.{◌≡◌, Some, true};
    ghost use Rattle.std.specs.Arc.{arc_value};
    ghost use Rattle.notice_board.specs.declared.lists.Known.{Known};
    ghost use Rattle.notice_board.specs.Lists.{last_sheet, rises};
    ghost use Rattle.notice_board.specs.inner.Known.{editions_of, known_of};

    ghost Value = { Known };

    ghost view = { λ n. known_of n.shown.book n.shown.log };

    ghost invariant = { λ n. (last_sheet (editions_of n.shown.log) ≡ Some (arc_value n.sheet))
        × (rises (editions_of n.shown.log) ≡ true) };
}

impl Notice {
    /// What lies on the board where the owner added that sheet last.
    pub fn of(sheet: Arc<Sheet>, owner: &ListOwner) -> Notice
        requires last { last_sheet (editions_of owner.now.log) ≡ Some (arc_value sheet) }
        requires rises { rises (editions_of owner.now.log) ≡ true }
        ensures { result ≡ owner.now }
    {
        Notice {
            sheet,
            shown: owner.seen(),
        }
    }

    /// The same once more. It takes no memory; refused is a count of owners that is full.
    pub fn again(&self) -> Result<Notice, AllocError>
        ensures { IfOk result (λ n. n ≡ self.now) }
    {
        Ok(Notice {
            sheet: Arc::try_clone(&self.sheet)?,
            shown: self.shown.again(),
        })
    }

    /// The sheet that was shown last.
    pub fn sheet(&self) -> &Sheet
        ensures last { last_sheet (editions_of self.now.log) ≡ Some result.now }
        ensures rises { rises (editions_of self.now.log) ≡ true }
    {
        &self.sheet
    }

    /// That the list was seen so far.
    pub fn seen(&self) -> Token
        ensures { known_of result.book result.log ≡ self.now }
    {
        self.shown.again()
    }

    /// Whether the other one of the list was shown after this one.
    pub fn is_before(&self, other: &Notice) -> bool
        requires { other.now.list ≡ self.now.list }
        ensures { MatchBool result (IsPrefix (editions_of self.now.log) (editions_of other.now.log)) (IsPrefix (editions_of other.now.log) (editions_of self.now.log)) }
    {
        let mut both = self.shown.again();
        both.learn(&other.shown);
        self.sheet.serial < other.sheet.serial
    }
}

impl Absorb<Notice> for Notice {
    type State = Known;

    ghost state = { λ n. n };

    ghost applied = { λ _ next. next };

    fn absorb_first(&mut self, next: &Notice, _other: &Notice) -> Result<(), AllocError> {
        *self = next.again()?;
        Ok(())
    }
}
