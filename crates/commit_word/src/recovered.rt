// The list that was recovered, as the word's table is told it once.
ghost use Rattle.std.specs.Prelude.{◌≡◌};

use crate::Entries;
use logbook::{Opening, Rule, Seen, Start};
use std::collections::LinkedList;
use std::marker::PhantomData;

/// A book that tracks nothing, whose log is any list.
pub struct AnyList;

impl Rule<LinkedList<u8>, u64> for AnyList {
    ghost use Rattle.std.specs.Prelude.{[]};
    ghost use base.Fml.{ftrue};

    ghost holds = { λ cells log. Unit {0} };

    ghost first = { [] };

    ghost hinted = { λ n log. Unit {0} };

    ghost shows = { λ log. [] };

    ghost keeps = { λ names log. ftrue };

    ghost moves = { λ ask before after answer. Unit {0} };
}

struct ListOf<E> {
    of: PhantomData<E>,
}

impl<E: Entries> Opening<(), LinkedList<u8>> for ListOf<E> {
    ghost log = { λ count about. E.list };
}

/// A token that names a list of entries. It has no bytes.
pub type Recovered = Seen<LinkedList<u8>, u64, AnyList>;

pub(crate) fn recovered<E: Entries>() -> Recovered
    ensures { result.log ≡ E.list }
{
    Seen::open_row::<(), ListOf<E>>(&(), Start::alone(), 0).0
}
