// What the threads at a board know, and what each step does to it.
use crate::ListId;
use crate::notices::Notice;
use atomic_table::{Join, Split};
use crossbeam_utils::rule::{Outcome, Protocol};

/// What the writer or a viewer knows: whether it knows a list, and which. No value of it is made.
pub struct View {
    pub knows: bool,
    pub list: ListId,
}

/// The rule of the board.
pub struct Shows;

impl Protocol<Notice, View> for Shows {
    ghost use Rattle.notice_board.specs.Rule.{KeepsBoardRule, newcomer};

    ghost holds = { λ notice views. KeepsBoardRule notice.list views };

    ghost first = { newcomer };
}

/// The writer shows sheets, or a viewer looks.
pub struct Look;

impl Outcome<Notice, View> for Look {
    ghost use Rattle.notice_board.specs.inner.Steps.{Looks};

    ghost then = { λ v x y w. Looks v y.list w };
}

/// What the writer tells a new viewer.
pub struct Tell;

impl Split<View> for Tell {
    ghost left = { λ v. v };

    ghost right = { λ v. v };
}

impl Join<View> for Tell {
    ghost use Rattle.notice_board.specs.Rule.{newcomer};

    ghost both = { λ v w. w };

    ghost spent = { newcomer };
}
