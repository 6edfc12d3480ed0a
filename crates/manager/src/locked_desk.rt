//! A desk, as it lies behind its lock.

ghost use Rattle.std.specs.Prelude.{◌≡◌, ◌≤◌, ◌↔◌, [], List, length, drop, IfOk, IfErr, IsTrue};
ghost use mathlib.Core.List.{IsPrefix};
ghost use Rattle.authority_book.specs.declared.commands.Command.{Command};
ghost use Rattle.desk_core.specs.Answers.{IsDeskFault};
ghost use Rattle.desk_core.specs.Commands.{HasCommands};
ghost use Rattle.manager.specs.Commanding.{IsTaken, IsRefusedAt};
ghost use Rattle.manager.specs.Risen.{IsRisenDesk};
ghost use Rattle.manager.specs.Limits.{IsWithinLimit};

use crate::Names;
use authority_book::{Command, Config};
use commit_word::{Follower, Word};
use desk_core::{CountedDesk, DeskFault};
use disk_api::Disk;
use std::alloc::{AllocError, Global};
use std::marker::{Model, PhantomData};

/// A desk whose word is that of its number in `N`.
#[derive(Drop)]
pub struct LockedDesk<N: Names, D: Disk> {
    desk: CountedDesk<D>,
    of: PhantomData<N>,
}

impl<N: Names, D: Disk> Model for LockedDesk<N, D> {
    ghost use Rattle.std.specs.Prelude.{◌≡◌, length};
    ghost use Rattle.desk_core.specs.Counted.{CountedView};
    ghost use Rattle.manager.specs.Lists.{IsListed, IsDoubted};
    ghost use Rattle.manager.specs.Risen.{IsRisenDesk};
    ghost use Rattle.manager.specs.Limits.{IsWithinLimit};

    ghost Value = { CountedView D };

    ghost view = { λ l. l.desk };

    ghost invariant = { λ l. (l.desk.word ≡ N.words l.desk.desk.number) × IsListed (length N.named.signers) l.desk.desk
        × IsRisenDesk D.Disk N.named l.desk.desk × IsDoubted l.desk.desk × IsWithinLimit N.named l.desk.desk };
}

impl<N: Names, D: Disk> LockedDesk<N, D> {
    ghost use Rattle.std.specs.Prelude.{◌≡◌, length};
    ghost use Rattle.manager.specs.Lists.{IsListed, IsDoubted};

    /// A desk to be put behind a lock.
    pub fn new(desk: CountedDesk<D>) -> LockedDesk<N, D>
        requires word { desk.word ≡ N.words desk.desk.number }
        requires listed { IsListed (length N.named.signers) desk.desk }
        requires faults { IsRisenDesk D.Disk N.named desk.desk }
        requires doubted { IsDoubted desk.desk }
        requires limit { IsWithinLimit N.named desk.desk }
        ensures { result ≡ desk }
    {
        LockedDesk {
            desk,
            of: PhantomData,
        }
    }

    /// The desk's number.
    pub fn number(&self) -> u32
        ensures { result ≡ self.now.desk.number }
    {
        self.desk.desk().number()
    }

    /// How many commands were accepted.
    pub fn len(&self) -> u64
        ensures { result ≡ length self.now.desk.records }
    {
        self.desk.desk().len()
    }

    /// Whether no command was accepted yet.
    pub fn is_empty(&self) -> bool
        ensures { IsTrue result ↔ (self.now.desk.records ≡ []) }
    {
        self.desk.desk().is_empty()
    }

    /// What the accepted commands come to.
    pub fn config(&self) -> &Config
        ensures { result.now.settings ≡ self.now.desk.settings }
    {
        self.desk.desk().config()
    }

    /// Tells a follower of the whole list. It takes no memory and waits for nobody.
    pub fn tell(&mut self, alloc: Global, word: &Word, follower: &mut Follower)
        requires word { word.now ≡ N.words self.old.desk.number }
        requires follower { follower.old.word ≡ word.now }
        ensures same { self.new ≡ self.old }
        ensures told { follower.new ≡ record follower.old { seen = self.old.desk.records } }
        ensures grows { IsPrefix follower.old.seen follower.new.seen }
        ensures listed { IsListed (length N.named.signers) self.old.desk }
    {
        self.desk.tell(alloc, word, follower);
    }

    /// Takes a command for a follower, where the verdict on it with all signers is Ok and its record fits.
    /// After every answer the follower has seen the whole list; at `Ok` it made the command's record.
    pub fn commit(
        &mut self,
        alloc: Global,
        word: &Word,
        follower: &mut Follower,
        command: Command,
        signers: u32,
    ) -> Result<u64, DeskFault<D>>
        requires word { word.now ≡ N.words self.old.desk.number }
        requires follower { follower.old.word ≡ word.now }
        requires signers { signers ≡ length N.named.signers }
        ensures taken { IfOk result (λ count. IsTaken self.old.desk.number command signers count follower.old follower.new) }
        ensures refused { IfErr result (λ fault. IsRefusedAt self.old.desk.number command signers fault follower.old follower.new) }
        ensures cause { IfErr result (λ fault. IsDeskFault D.Disk fault command signers self.old.desk self.new.desk) }
        ensures whole { follower.new.seen ≡ self.new.desk.records }
        ensures seat { (follower.new.word ≡ follower.old.word) × (follower.new.recovered ≡ follower.old.recovered) }
        ensures listed { IsListed (length N.named.signers) self.new.desk }
        ensures number { self.new.desk.number ≡ self.old.desk.number }
        ensures word_kept { self.new.word ≡ self.old.word }
    {
        // It goes behind all that the follower had seen.
        self.tell(alloc, word, follower);
        let count = match self.desk.commit(alloc, word, follower, command, signers) {
            Ok(count) => count,
            Err(fault) => return Err(fault),
        };
        Ok(count)
    }

    /// The accepted commands after the first `from`.
    pub fn since(&self, alloc: Global, from: u64) -> Result<Vec<Command>, AllocError>
        requires { from ≤ length self.now.desk.records }
        ensures { IfOk result (λ found. (commands : List Command) → HasCommands self.now.desk commands → found.items ≡ drop from commands) }
    {
        self.desk.desk().since(alloc, from)
    }

    /// The desk, once no other thread has it.
    pub fn into_inner(self) -> CountedDesk<D>
        ensures desk { result ≡ self }
        ensures word { result.word ≡ N.words result.desk.number }
        ensures listed { IsListed (length N.named.signers) result.desk }
        ensures faults { IsRisenDesk D.Disk N.named result.desk }
        ensures doubted { IsDoubted result.desk }
        ensures limit { IsWithinLimit N.named result.desk }
    {
        self.desk
    }
}
