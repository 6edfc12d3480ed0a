//! One writer, and readers that look on.
ghost use Rattle.std.specs.Prelude.{◌≡◌, ◌+◌, ◌<◌, ◌^◌, None, length, IfOk};
ghost use denote.Param.Send.{IsSync};

use commit_word::{Follower, Owner, Word};
use std::alloc::{AllocError, Global};
use std::marker::Brand;
use std::sync::Wait;
use std::thread::{Threads, join};

/// How many entries the list has at first.
pub const RECOVERED: u64 = 3;

/// What came of a race.
#[derive(Drop)]
pub struct Raced {
    /// No reader found a count below one that it had found before.
    pub rose: bool,
    /// The count at the end.
    pub count: u64,
}

/// A writer bumps a word as often as told, while readers load it until they find the last count.
pub fn race<R: Threads + Wait + Sync>(
    rt: &R,
    alloc: Global,
    readers: u32,
    bumps: u32,
) -> Result<Raced, AllocError>
    requires { IsSync R.row }
    ensures { IfOk result (λ raced. raced.count ≡ 3 + bumps) }
{
    let (word, mut owner) = Word::new::<Brand>(alloc, RECOVERED)?;
    let mine = owner.split(alloc, &word)?;
    let theirs = owner.split(alloc, &word)?;
    let shared = &word;
    let goal = RECOVERED + u64::from(bumps);
    let (written, read) = join(
        rt,
        move ||
            requires { (owner.word ≡ shared.now) × (mine.word ≡ shared.now) × (owner.coming ≡ None) × (length owner.seen ≡ 3) }
            ensures { IfOk result (λ w. (w.0.word ≡ shared.entry.now) × (w.1.word ≡ shared.entry.now) × (length w.0.seen ≡ 3 + bumps)) }
        { write_all(alloc, shared, owner, mine, bumps) },
        move ||
            requires { IsSync R.row × (theirs.word ≡ shared.now) }
            ensures { IfOk result (λ r. r.0.word ≡ shared.entry.now) }
        { read_all(rt, alloc, shared, theirs, readers, goal) },
    );
    let (mut owner, mine) = written?;
    let (theirs, rose) = read?;
    owner.join(&word, mine);
    owner.join(&word, theirs);
    let count = word.close(owner);
    Ok(Raced { rose, count })
}

// Bumps as often: every other time for an entry that was set aside.
fn write_all(
    alloc: Global,
    word: &Word,
    owner: Owner,
    mine: Follower,
    bumps: u32,
) -> Result<(Owner, Follower), AllocError>
    requires words { (owner.word ≡ word.now) × (mine.word ≡ word.now) }
    requires list { (owner.coming ≡ None) × (length owner.seen ≡ 3) }
    ensures { IfOk result (λ w. (w.0.word ≡ word.now) × (w.1.word ≡ word.now) × (length w.0.seen ≡ 3 + bumps)) }
{
    let mut owner = owner;
    let mut mine = mine;
    for i in 0..bumps {
        if i % 2 == 0 {
            owner.bump(word);
        } else {
            let seat = owner.split_for::<Brand>(alloc, word)?;
            owner.bump(word);
            mine.join(word, seat);
        }
    }
    Ok((owner, mine))
}

// As many readers, each in a thread of its own, whose seats are joined.
fn read_all<R: Threads + Wait + Sync>(
    rt: &R,
    alloc: Global,
    word: &Word,
    seat: Follower,
    readers: u32,
    goal: u64,
) -> Result<(Follower, bool), AllocError>
    requires { IsSync R.row × (seat.word ≡ word.now) }
    ensures { IfOk result (λ r. r.0.word ≡ word.now) }
{
    let mut seat = seat;
    if readers <= 1 {
        return Ok(read_until(rt, word, seat, goal));
    }
    let rest = seat.split(alloc, word)?;
    let (one, others) = join(
        rt,
        move ||
            requires { seat.word ≡ word.now }
            ensures { result.0.word ≡ word.entry.now }
        { read_until(rt, word, seat, goal) },
        move ||
            requires { IsSync R.row × (rest.word ≡ word.now) × (1 < readers) }
            ensures { IfOk result (λ r. r.0.word ≡ word.entry.now) }
        { read_all(rt, alloc, word, rest, readers - 1, goal) },
    );
    let (mut seat, rose) = one;
    let (other, all_rose) = others?;
    seat.join(word, other);
    Ok((seat, rose && all_rose))
}

// Loads until the goal is found, and says whether no count fell.
fn read_until<R: Wait>(rt: &R, word: &Word, seat: Follower, goal: u64) -> (Follower, bool)
    requires { seat.word ≡ word.now }
    ensures { result.0.word ≡ word.now }
{
    let mut seat = seat;
    let mut last = 0;
    let mut rose = true;
    for _ in rt.forever() {
        let found = seat.load(word);
        rose = rose && last <= found && found <= goal;
        last = found;
        if found >= goal {
            return (seat, rose);
        }
    }
    unreachable!()
}
