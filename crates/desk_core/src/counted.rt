// A desk whose commands a word counts.
ghost use Rattle.std.specs.Prelude.{◌≡◌, ◌≤◌, ◌++◌, [], ◌∷◌, ℕ, List, None, length, IfOk, IfErr, OnOk, OnErr, IsOk};
ghost use Rattle.std.specs.Option.{option_map};
ghost use mathlib.Core.List.{IsPrefix};
ghost use Rattle.disk_api.specs.Runs.{LeavesOnly};
ghost use Rattle.gate_journal.specs.Format.{held_by};
ghost use Rattle.gate_journal.specs.Storing.{stored, entry_bytes};
ghost use Rattle.gate_journal.specs.View.{stake_of};
ghost use Rattle.authority_book.specs.declared.commands.Command.{Command};
ghost use Rattle.cmd_codec.specs.Spelling.{spelling};
ghost use Rattle.desk_core.specs.Commands.{HasCommands};
ghost use Rattle.desk_core.specs.Answers.{CanCommit, IsDeskFault};
ghost use Rattle.desk_core.specs.Images.{RecoversToKnown, IsSafe};
ghost use Rattle.desk_core.specs.Counted.{CountedView, counted_view, follower_seat_of};

use crate::counting::{count_record, tell_whole};
use crate::{Desk, DeskFault};
use authority_book::Command;
use commit_word::{Entries, Follower, Owner, Word};
use disk_api::Disk;
use std::alloc::{AllocError, Global};
use std::marker::{Brand, Model};
use std::snapshot::Snapshot;

/// A desk, and the seat of the one who counts its commands at a word. Whoever holds it tells followers,
/// in any thread, of the whole list of its records.
#[derive(Drop)]
pub struct CountedDesk<D: Disk> {
    desk: Desk<D>,
    owner: Owner,
}

impl<D: Disk> Model for CountedDesk<D> {
    ghost use Rattle.std.specs.Prelude.{◌≡◌, None};
    ghost use Rattle.desk_core.specs.Counted.{CountedView};

    ghost Value = { CountedView D };

    ghost view = { λ d. record { desk = d.desk; word = d.owner.word; recovered = d.owner.recovered } };

    ghost invariant = { λ d. (d.owner.seen ≡ d.desk.records) × (d.owner.coming ≡ None) };
}

/// A desk for whose word there was no memory.
#[derive(Drop)]
pub struct UncountedDesk<D: Disk> {
    pub desk: Desk<D>,
    pub fault: AllocError,
}

impl<D: Disk> CountedDesk<D> {
    /// The desk with a word that counts the commands which were accepted so far.
    pub fn new(alloc: Global, desk: Desk<D>) -> Result<(CountedDesk<D>, Word), UncountedDesk<D>>
        ensures counted { IfOk result (λ r. r.0 ≡ counted_view desk r.1) }
        ensures refused { IfErr result (λ refused. refused.desk ≡ desk) }
    {
        match word_of::<Brand, D>(alloc, &desk) {
            Ok((word, owner)) => Ok((CountedDesk { desk, owner }, word)),
            Err(fault) => Err(UncountedDesk { desk, fault }),
        }
    }

    /// The desk.
    pub fn desk(&self) -> &Desk<D>
        ensures { result.now ≡ self.now.desk }
    {
        &self.desk
    }

    /// A follower that has seen the whole list of the desk's records, and made none of them.
    pub fn follower(&mut self, alloc: Global, word: &Word) -> Result<Follower, AllocError>
        requires { word.now ≡ self.old.word }
        ensures same { self.new ≡ self.old }
        ensures taken { IsOk result }
        ensures given { IfOk result (λ follower. follower ≡ follower_seat_of self.old []) }
    {
        self.owner.split(alloc, word)
    }

    /// Tells a follower of the whole list. It takes no memory and waits for nobody.
    pub fn tell(&mut self, alloc: Global, word: &Word, follower: &mut Follower)
        requires word { word.now ≡ self.old.word }
        requires follower { follower.old.word ≡ word.now }
        ensures same { self.new ≡ self.old }
        ensures told { follower.new ≡ record follower.old { seen = self.old.desk.records } }
        ensures grows { IsPrefix follower.old.seen follower.new.seen }
    {
        tell_whole(alloc, word, &mut self.owner, follower);
    }

    /// Takes a command, as [`Desk::commit`] does, for a follower. It has then seen the whole list, also where
    /// the command is refused; at `Ok` it made the command's record, at its place.
    pub fn commit(
        &mut self,
        alloc: Global,
        word: &Word,
        follower: &mut Follower,
        command: Command,
        signers: u32,
    ) -> Result<u64, DeskFault<D>>
        requires word { word.now ≡ self.old.word }
        requires follower { follower.old.word ≡ word.now }
        // The follower, after every answer, and what it made.
        ensures seen { follower.new.seen ≡ self.new.desk.records }
        ensures grows { IsPrefix follower.old.seen follower.new.seen }
        ensures made { OnOk result (follower.new.mine ≡ follower.old.mine ++ (length self.old.desk.records, spelling command) ∷ []) }
        ensures none { OnErr result (follower.new.mine ≡ follower.old.mine) }
        ensures seat { (follower.new.word ≡ follower.old.word) × (follower.new.recovered ≡ follower.old.recovered) }
        ensures word_kept { (self.new.word ≡ self.old.word) × (self.new.recovered ≡ self.old.recovered) }

        // The desk, as of `Desk::commit`.
        ensures place { OnOk result (CanCommit self.old.desk command signers) }
        ensures recorded { OnOk result (self.new.desk.records ≡ self.old.desk.records ++ spelling command ∷ []) }
        ensures commands { OnOk result ((commands : List Command) → HasCommands self.old.desk commands → HasCommands self.new.desk (commands ++ command ∷ [])) }
        ensures counted { IfOk result (λ count. (count ≡ length self.new.desk.records) × (count ≡ self.new.desk.settings.count)) }
        ensures bytes { OnOk result (D.content self.new.desk.disk ≡ option_map (stored (held_by self.old.desk.records) (entry_bytes (spelling command))) (D.content self.old.desk.disk)) }
        ensures open { OnOk result ((self.new.desk.shut ≡ None) × (self.new.desk.doubt ≡ None)) }
        ensures refused { IfErr result (λ fault. IsDeskFault D.Disk fault command signers self.old.desk self.new.desk) }
        ensures number { self.new.desk.number ≡ self.old.desk.number }
        ensures any_moment { LeavesOnly D.Disk self.old.desk.disk self.new.desk.disk (RecoversToKnown (D.content self.old.desk.disk) self.old.desk.records (stake_of self.old.desk.shut self.old.desk.doubt (spelling command))) }
        ensures durable { OnOk result ((c : List ℕ) → D.may_leave self.new.desk.disk c → RecoversToKnown (D.content self.old.desk.disk) self.new.desk.records None c) }
        ensures safe { IsSafe D.Disk self.new.desk }
        ensures later { D.fault_count self.old.desk.disk ≤ D.fault_count self.new.desk.disk }
    {
        let CountedDesk { desk, owner } = self;
        tell_whole(alloc, word, owner, follower);
        let accepted = Snapshot::of(&command);
        match desk.commit(alloc, command, signers) {
            Ok(count) => {
                count_record(alloc, word, owner, follower, &accepted);
                Ok(count)
            }
            Err(fault) => Err(fault),
        }
    }

    /// The desk, whose commands no word counts any more.
    pub fn into_desk(self, word: Word) -> Desk<D>
        requires { self.word ≡ word }
        ensures { result ≡ self.desk }
    {
        let CountedDesk { desk, owner } = self;
        word.close(owner);
        desk
    }
}

// A word that counts the desk's records, which are `E`.
fn word_of<E: Entries, D: Disk>(alloc: Global, desk: &Desk<D>) -> Result<(Word, Owner), AllocError>
    requires { E.list ≡ desk.now.records }
    ensures { IfOk result (λ r. r.1 ≡ record { word = r.0; recovered = length desk.now.records; seen = desk.now.records; mine = []; coming = None }) }
{
    Word::new::<E>(alloc, desk.len())
}
