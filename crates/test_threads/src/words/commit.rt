//! How an entry is added for a follower: what the calls' contracts come to.
ghost use Rattle.std.specs.Prelude.{◌≡◌, ◌+◌, ◌<◌, ◌^◌, ◌++◌, ℕ, List, None, map, length, IfOk, IfSome, IfNone, OnErr};
ghost use mathlib.Core.List.{IsPrefix};
ghost use Rattle.commit_word.specs.Entries.{IsMadeIn};

use commit_word::laws::joined_has_both;
use commit_word::{Entries, Follower, Owner, Word};
use std::alloc::{AllocError, Global};
use std::sync::Wait;

/// Adds the one entry of `E` for the caller, and answers the new count; None where the word counts
/// another list than the owner's, which never comes. All that may fail comes before the entry is set
/// aside, and from then on the call waits for the new count, which the first load finds.
pub fn commit<E: Entries, R: Wait>(
    rt: &R,
    alloc: Global,
    word: &Word,
    owner: &mut Owner,
    len: u64,
    caller: &mut Follower,
) -> Result<Option<u64>, AllocError>
    requires owner { owner.old.word ≡ word.now }
    requires caller { caller.old.word ≡ word.now }
    requires one { length E.list ≡ 1 }
    requires none { owner.old.coming ≡ None }
    requires len { length owner.old.seen ≡ len }
    requires room { len < 2 ^ 62 }
    // The list has the entry more, and the caller has seen it whole.
    ensures listed { IfOk result (λ found. IfSome found (λ count.
        (owner.new ≡ record owner.old { seen = owner.old.seen ++ E.list }) × (length owner.new.seen ≡ count))) }
    ensures seen { IfOk result (λ found. IfSome found (λ _. caller.new.seen ≡ owner.new.seen)) }
    // The caller made the entry, at its place, and nothing else.
    ensures made { IfOk result (λ found. IfSome found (λ _.
        caller.new.mine ≡ caller.old.mine ++ map (λ entry. (len, entry)) E.list)) }
    ensures none { IfOk result (λ found. IfNone found (owner.new ≡ owner.old)) }
    ensures err { OnErr result (owner.new ≡ owner.old) }
    ensures grows { IsPrefix caller.old.seen caller.new.seen }
    ensures words { (owner.new.word ≡ owner.old.word) × (caller.new.word ≡ caller.old.word) }
{
    let note = owner.split(alloc, word)?;
    caller.join(word, note);
    if caller.load(word) != len {
        return Ok(None);
    }
    let seat = owner.split_for::<E>(alloc, word)?;
    owner.bump(word);
    caller.join(word, seat);
    wait_for(rt, word, caller, len + 1);
    // What was joined is the entry, past all others.
    joined_has_both();
    Ok(Some(len + 1))
}

// Loads until the list is as long.
fn wait_for<R: Wait>(rt: &R, word: &Word, caller: &mut Follower, count: u64)
    requires { caller.old.word ≡ word.now }
    ensures rest { caller.new ≡ record caller.old { seen = caller.new.seen } }
    ensures grows { IsPrefix caller.old.seen caller.new.seen }
    ensures counted { length caller.new.seen ≡ count }
    ensures placed { IsMadeIn caller.new.recovered caller.new.seen caller.new.mine }
{
    for _ in rt.forever() {
        if caller.load(word) == count {
            return;
        }
    }
    unreachable!()
}
