// The list of the editions that were shown. It stands in contracts alone: one owner adds to it, and all
// others know a prefix of it.
ghost use Rattle.std.specs.Prelude.{◌≡◌, ◌++◌, [], ◌∷◌, ℕ, IfSome};
ghost use mathlib.Core.List.{IsPrefix};
ghost use Rattle.logbook.specs.Pages.{may_write};
ghost use Rattle.notice_board.specs.Lists.{shown_of};
ghost use Rattle.notice_board.specs.inner.Known.{entry, editions_of, id_of, known_of};

use crate::shown::{Numbers, ShownEdition};
use crate::{ListId, Sheet};
use logbook::{Gain, Offer, Opening, Pen, Pens, Plain, Play, Rule, Seen, Start, Word};
use std::collections::LinkedList;
use std::marker::{Model, PhantomData};
use std::snapshot::Snapshot;
use std::sync::Wait;

/// An edition in the list, and the key of the cell that whoever adds the next one brings home. No value
/// of it is made.
pub struct Entry {
    pub edition: ShownEdition,
    pub next: u64,
}

/// A list, and what is known of it. No value of it is made.
pub struct Known {
    pub list: ListId,
    pub log: LinkedList<Entry>,
}

/// The rule of the list.
pub struct ListRule;

impl Rule<Entry, u64> for ListRule {
    ghost use Rattle.std.specs.Prelude.{[]};
    ghost use base.Fml.{ftrue};
    ghost use Rattle.notice_board.specs.Rule.{KeepsListRule};

    ghost holds = { KeepsListRule };

    ghost first = { [] };

    ghost hinted = { λ n log. Unit {0} };

    ghost shows = { λ log. [] };

    ghost keeps = { λ names log. ftrue };

    ghost moves = { λ ask before after answer. Unit {0} };
}

struct Nothing;

impl Opening<(), Entry> for Nothing {
    ghost use Rattle.std.specs.Prelude.{[]};

    ghost log = { λ count about. [] };
}

impl Gain<Entry, u64> for Nothing {
    ghost use base.Fml.{ftrue};

    ghost after = { λ names about answer. ftrue };
}

// A step that asks for nothing.
impl Plain<(), Entry, u64> for Nothing {
    ghost use Rattle.std.specs.Prelude.{None};
    ghost use Rattle.notice_board.specs.inner.Known.{no_entry};

    ghost ask = { λ about. no_entry };

    ghost state = { λ about. None };
}

// The list begins, and the owner has a pen.
struct Begins<E> {
    of: PhantomData<E>,
}

impl<E: Numbers> Plain<Snapshot<Sheet>, Entry, u64> for Begins<E> {
    ghost use Rattle.std.specs.Prelude.{None};
    ghost use Rattle.notice_board.specs.Lists.{shown_of};
    ghost use Rattle.notice_board.specs.inner.Known.{entry};

    ghost ask = { λ sheet. entry (shown_of sheet.value E.numbers) 1 };

    ghost state = { λ sheet. None };
}

impl<E> Play<Entry, u64> for Begins<E> {
    ghost use Rattle.notice_board.specs.inner.Steps.{BeginsList};

    ghost then = { BeginsList };
}

// Somebody has a new pen.
struct Cuts;

impl Play<Entry, u64> for Cuts {
    ghost use Rattle.notice_board.specs.inner.Steps.{CutsPen};

    ghost then = { CutsPen };
}

// The edition that is added, and the pen for the one after it.
struct Addition {
    sheet: Snapshot<Sheet>,
    pen: Pen,
}

// The owner adds an edition.
struct Adds<E> {
    of: PhantomData<E>,
}

impl<E: Numbers> Plain<Addition, Entry, u64> for Adds<E> {
    ghost use Rattle.std.specs.Prelude.{None};
    ghost use Rattle.notice_board.specs.Lists.{shown_of};
    ghost use Rattle.notice_board.specs.inner.Known.{entry};

    ghost ask = { λ about. entry (shown_of about.sheet.value E.numbers) about.pen.nib.key };

    ghost state = { λ about. None };
}

impl<E> Play<Entry, u64> for Adds<E> {
    ghost use Rattle.notice_board.specs.inner.Steps.{AddsEntry};

    ghost then = { AddsEntry };
}

// The list is found whole, with the owner's pen.
struct Finds;

impl Play<Entry, u64> for Finds {
    ghost use Rattle.notice_board.specs.inner.Steps.{FindsWhole};

    ghost then = { FindsWhole };
}

/// That a list was seen so far. It has no bytes.
pub(crate) type Token = Seen<Entry, u64, ListRule>;

/// The one who adds to a list.
#[derive(Drop)]
pub struct ListOwner {
    head: Word<Entry, u64, ListRule>,
    seen: Token,
    pen: Pen,
}

impl Model for ListOwner {
    ghost use Rattle.std.specs.Prelude.{◌≡◌};
    ghost use Rattle.logbook.specs.Pages.{may_write};
    ghost use Rattle.notice_board.specs.declared.lists.Known.{Known};
    ghost use Rattle.notice_board.specs.Rule.{EndsAt};
    ghost use Rattle.notice_board.specs.inner.Known.{known_of, head_of};

    ghost Value = { Known };

    ghost view = { λ o. known_of o.seen.book o.seen.log };

    ghost invariant = { λ o. (o.head ≡ head_of o.seen.book) × (o.pen.book ≡ o.seen.book)
        × (o.pen.nib.right ≡ may_write) × EndsAt o.pen.nib.key o.seen.log };
}

impl ListOwner {
    /// A list in which the edition of this sheet stands alone.
    pub fn new<E: Numbers, R: Wait>(rt: &R, sheet: &Sheet) -> ListOwner
        ensures { editions_of result.log ≡ shown_of sheet.now E.numbers ∷ [] }
    {
        for _ in rt.forever() {
            if let Some(owner) = ListOwner::begin::<E>(sheet) {
                return owner;
            }
        }
        unreachable!()
    }

    // Nobody else has the word of a new list, so it is found at 0. No clause says so.
    fn begin<E: Numbers>(sheet: &Sheet) -> Option<ListOwner>
        ensures { IfSome result (λ owner. editions_of owner.log ≡ shown_of sheet.now E.numbers ∷ []) }
    {
        let (mut seen, mut pens): (Token, Pens) = Seen::open_row::<(), Nothing>(
            &(),
            Start::alone(),
            1,
        );
        let mut right = pens.take();
        let head: Word<Entry, u64, ListRule> = Word::tracked(0, &mut right);
        let mut offer: Offer<Entry, u64, ListRule, Nothing> = seen.plain::<
            Nothing,
            Snapshot<Sheet>,
            Begins<E>,
        >(&Snapshot::of(sheet));
        let mut pen = seen.no_pen();
        let found = head.compare_exchange::<Begins<E>, Nothing>(
            0, 1, &mut seen, &mut offer, &mut pen,
        );
        if found != 0 {
            return None;
        }
        let _word: Word<Entry, u64, ListRule> = Word::tracked(0, &mut pen);
        Some(ListOwner { head, seen, pen })
    }

    /// Adds the edition of this sheet.
    pub fn add<E: Numbers>(&mut self, sheet: &Sheet)
        ensures list { self.new.list ≡ self.old.list }
        ensures added { (next : ℕ) × (self.new.log ≡ self.old.log ++ entry (shown_of sheet.now E.numbers) next ∷ []) }
    {
        let next = self.cut();
        let sheet = Snapshot::of(sheet);
        let about = Addition { sheet, pen: next };
        let ListOwner { head, seen, pen } = self;
        let mut offer: Offer<Entry, u64, ListRule, Nothing> = seen.plain::<
            Nothing,
            Addition,
            Adds<E>,
        >(&about);
        head.compare_exchange::<Adds<E>, Nothing>(1, 1, seen, &mut offer, pen);
        let Addition {
            sheet: _sheet,
            pen: next,
        } = about;
        *pen = next;
    }

    // A pen for the edition after the next.
    fn cut(&self) -> Pen
        ensures list { id_of result.book ≡ self.now.list }
        ensures right { result.nib.right ≡ may_write }
    {
        let mut seen = self.seen.again();
        let mut offer: Offer<Entry, u64, ListRule, Nothing> = seen.plain::<Nothing, (), Nothing>(
            &(),
        );
        let mut pen = seen.no_pen();
        self.head
            .compare_exchange::<Cuts, Nothing>(1, 1, &mut seen, &mut offer, &mut pen);
        let _word: Word<Entry, u64, ListRule> = Word::tracked(0, &mut pen);
        pen
    }

    /// Tells one who knows a part of the list of all of it.
    pub fn tell(&mut self, seen: &mut Token)
        requires { id_of seen.old.book ≡ self.old.list }
        ensures same { self.new ≡ self.old }
        ensures book { seen.new.book ≡ seen.old.book }
        ensures whole { seen.new.log ≡ self.old.log }
        ensures grows { IsPrefix seen.old.log seen.new.log }
    {
        seen.learn(&self.seen);
        let mut offer: Offer<Entry, u64, ListRule, Nothing> = seen.plain::<Nothing, (), Nothing>(
            &(),
        );
        let ListOwner { head, pen, .. } = self;
        head.compare_exchange::<Finds, Nothing>(1, 1, seen, &mut offer, pen);
    }

    /// That the list was seen as far as it goes.
    pub fn seen(&self) -> Token
        ensures { known_of result.book result.log ≡ self.now }
    {
        self.seen.again()
    }
}
