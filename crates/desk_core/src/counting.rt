// What is done at the word that counts a desk's commands, by who holds the desk.
ghost use Rattle.std.specs.Prelude.{◌≡◌, ◌≤◌, ◌<◌, ◌^◌, ◌++◌, [], ◌∷◌, ℕ, List, None, Some, length};
ghost use mathlib.Core.List.{IsPrefix};
ghost use Rattle.commit_word.specs.Entries.{Has};
ghost use Rattle.commit_word.specs.Seats.{follower_seat};
ghost use Rattle.cmd_codec.specs.Spelling.{spelling};

use authority_book::Command;
use commit_word::laws::joined_has_both;
use commit_word::{Entries, Follower, Owner, Word};
use std::alloc::Global;
use std::marker::Brand;
use std::snapshot::Snapshot;

/// Tells a follower of the owner's whole list. It takes no memory and waits for nobody.
pub(crate) fn tell_whole(alloc: Global, word: &Word, owner: &mut Owner, follower: &mut Follower)
    requires owner { owner.old.word ≡ word.now }
    requires follower { follower.old.word ≡ word.now }
    ensures same { owner.new ≡ owner.old }
    ensures told { follower.new ≡ record follower.old { seen = owner.old.seen } }
    ensures grows { IsPrefix follower.old.seen owner.old.seen }
    ensures near { (place : ℕ) (entry : List ℕ) → Has follower.old.mine place entry → place ≤ length owner.old.seen }
{
    follower.load(word);
    let Ok(note) = follower.split(alloc, word) else {
        unreachable!()
    };
    owner.join(word, note);
    hear(alloc, word, owner, follower);
}

// A follower that has seen a prefix of the owner's list sees it whole.
fn hear(alloc: Global, word: &Word, owner: &mut Owner, follower: &mut Follower)
    requires owner { owner.old.word ≡ word.now }
    requires follower { follower.old.word ≡ word.now }
    requires begins { IsPrefix follower.old.seen owner.old.seen }
    ensures same { owner.new ≡ owner.old }
    ensures told { follower.new ≡ record follower.old { seen = owner.old.seen } }
{
    let Ok(note) = owner.split(alloc, word) else {
        unreachable!()
    };
    follower.join(word, note);
}

/// Counts the record of a command that was accepted, which the follower made. It takes no memory and waits
/// for nobody.
pub(crate) fn count_record(
    alloc: Global,
    word: &Word,
    owner: &mut Owner,
    follower: &mut Follower,
    accepted: &Snapshot<Command>,
)
    requires owner { owner.old.word ≡ word.now }
    requires follower { follower.old.word ≡ word.now }
    requires none { owner.old.coming ≡ None }
    requires room { length owner.old.seen < 2 ^ 63 }
    requires seen { follower.old.seen ≡ owner.old.seen }
    requires near { (place : ℕ) (entry : List ℕ) → Has follower.old.mine place entry → place ≤ length owner.old.seen }
    ensures counted { owner.new ≡ record owner.old { seen = owner.old.seen ++ spelling accepted.now.value ∷ [] } }
    ensures made { follower.new ≡ record follower.old {
      seen = owner.old.seen ++ spelling accepted.now.value ∷ [];
      mine = follower.old.mine ++ (length owner.old.seen, spelling accepted.now.value) ∷ [];
    } }
{
    // An entry that is past all others comes last in what is joined.
    joined_has_both();
    let seat = set_aside::<Brand>(alloc, word, owner, accepted);
    owner.bump(word);
    follower.join(word, seat);
    hear(alloc, word, owner, follower);
}

// The seat that made the record, which is the one entry of `E`.
fn set_aside<E: Entries>(
    alloc: Global,
    word: &Word,
    owner: &mut Owner,
    _accepted: &Snapshot<Command>,
) -> Follower
    requires owner { owner.old.word ≡ word.now }
    requires entry { E.list ≡ spelling _accepted.now.value ∷ [] }
    requires none { owner.old.coming ≡ None }
    ensures noted { owner.new ≡ record owner.old { coming = Some (spelling _accepted.now.value) } }
    ensures given { result ≡ follower_seat owner.old ((length owner.old.seen, spelling _accepted.now.value) ∷ []) }
{
    let Ok(seat) = owner.split_for::<E>(alloc, word) else {
        unreachable!()
    };
    seat
}
