//! The desks behind their locks, each of which any session may take.
ghost use Rattle.std.specs.Prelude.{◌≡◌, ◌≢◌, ◌<◌, ◌-◌, ℕ, length, IfOk, IfErr, IfSome, OnOk, OnErr};
ghost use Rattle.std.specs.Sync.Mutex.{mutex_guard_value};
ghost use Rattle.authority_book.specs.Verdict.{most_authorities};
ghost use Rattle.authority_book.specs.Listed.{place_of};
ghost use Rattle.manager.specs.Lists.{seat_at};
ghost use Rattle.manager.specs.Passes.{IsNamed, KnowsMore, IsSplitOff, IsJoined};
ghost use Rattle.manager.specs.Commanding.{IsTaken, IsRefusedAt, IsAccepted, IsRefused};

use crate::{CommandFault, LockedDesk, Names, Pass, Words};
use authority_book::{Command, Config, NameRow};
use commit_word::Word;
use desk_core::{DeskFault, commands_are_determined};
use disk_api::Disk;
use names::Name;
use std::alloc::{AllocError, Global};
use std::marker::Model;
use std::sync::{Mutex, MutexGuard, Wait};

/// The desk of the trust anchor, which has the names of the tree.
pub(crate) const ANCHOR: usize = 0;

/// The desks behind their locks, the words beside them, and how many signers there are.
///
/// No type says which number stands behind which lock. So a call that takes the lock of a number goes on with
/// the desk of that number alone, and else it waits for ever, which never comes.
#[derive(Drop)]
pub struct LockedDesks<N: Names, D: Disk> {
    words: Words<N>,
    desks: Vec<Mutex<LockedDesk<N, D>>>,
    signers: u32,
}

impl<N: Names, D: Disk> Model for LockedDesks<N, D> {
    ghost use Rattle.std.specs.Prelude.{◌≡◌, ℕ, length};
    ghost use Rattle.authority_book.specs.Verdict.{most_authorities};

    ghost Value = { ℕ };

    ghost view = { λ d. length d.desks.items };

    ghost invariant = { λ d. (d.words ≡ most_authorities) × (length d.desks.items ≡ most_authorities)
        × (d.signers ≡ length N.named.signers) };
}

impl<N: Names, D: Disk> LockedDesks<N, D> {
    ghost use Rattle.std.specs.Prelude.{◌≡◌, length};
    ghost use Rattle.authority_book.specs.Verdict.{most_authorities};

    /// The desks behind their locks, by their numbers.
    pub(crate) fn over(
        words: Words<N>,
        desks: Vec<Mutex<LockedDesk<N, D>>>,
        signers: u32,
    ) -> LockedDesks<N, D>
        requires words { words ≡ most_authorities }
        requires desks { length desks.items ≡ most_authorities }
        requires signers { signers ≡ length N.named.signers }
    {
        LockedDesks {
            words,
            desks,
            signers,
        }
    }

    /// The words and the locks, by the desks' numbers.
    pub(crate) fn into_parts(self) -> (Words<N>, Vec<Mutex<LockedDesk<N, D>>>)
        ensures words { result.0 ≡ most_authorities }
        ensures locks { length result.1.items ≡ most_authorities }
    {
        let LockedDesks { words, desks, .. } = self;
        (words, desks)
    }

    /// The word of that desk.
    pub(crate) fn word(&self, desk: usize) -> &Word
        requires { desk < most_authorities }
        ensures { result.now ≡ N.words desk }
    {
        self.words.at(desk)
    }

    /// The desk of that number, whose lock is taken.
    pub(crate) fn locked<R: Wait>(&self, rt: &R, desk: usize) -> MutexGuard<'_, LockedDesk<N, D>>
        requires { desk < most_authorities }
        ensures { (mutex_guard_value result).desk.number ≡ desk }
    {
        locked(rt, &self.desks[desk], desk)
    }

    /// Gives a command to the authority of that name, and answers how many commands of it are accepted then.
    /// `Add` goes by the name of the trust anchor.
    ///
    /// At `Ok` the command is kept: each crash leaves its record. Refused in this order: no authority has the
    /// name; the desk's refusals.
    pub fn command<R: Wait>(
        &self,
        rt: &R,
        alloc: Global,
        pass: &mut Pass<N>,
        name: &Name,
        command: Command,
    ) -> Result<u64, CommandFault<D>>
        ensures rest { pass.new ≡ record pass.old { seats = pass.new.seats } }
        ensures accepted { IfOk result (λ count. IsAccepted name.now command (length N.named.signers) count pass.old.seats pass.new.seats) }
        ensures refused { IfErr result (λ fault. IsRefused name.now command (length N.named.signers) fault pass.old.seats pass.new.seats) }
    {
        // Names that are listed stay where they are.
        commands_are_determined();
        let Some(desk) = self.find(rt, alloc, pass, name) else {
            return Err(CommandFault::NoSuchAuthority);
        };
        let answer = self.commit_at(rt, alloc, pass, desk, command);
        pass.desks();
        let count = match answer {
            Ok(count) => count,
            Err(fault) => return Err(CommandFault::Refused { fault }),
        };
        Ok(count)
    }

    // Gives a command to that desk.
    fn commit_at<R: Wait>(
        &self,
        rt: &R,
        alloc: Global,
        pass: &mut Pass<N>,
        desk: usize,
        command: Command,
    ) -> Result<u64, DeskFault<D>>
        requires { desk < most_authorities }
        ensures rest { pass.new ≡ record pass.old { seats = pass.new.seats } }
        ensures count { length pass.new.seats ≡ length pass.old.seats }
        ensures taken { IfOk result (λ count. IsTaken desk command (length N.named.signers) count (seat_at pass.old.seats desk) (seat_at pass.new.seats desk)) }
        ensures refused { IfErr result (λ fault. IsRefusedAt desk command (length N.named.signers) fault (seat_at pass.old.seats desk) (seat_at pass.new.seats desk)) }
        ensures others { (other : ℕ) → other ≢ desk → seat_at pass.new.seats other ≡ seat_at pass.old.seats other }
    {
        let mut guard = self.locked(rt, desk);
        let found = &mut *guard;
        pass.commit(
            alloc,
            self.words.at(desk),
            desk,
            found,
            command,
            self.signers,
        )
    }

    /// The desk of the authority of that name, by all names that the tree has then.
    pub(crate) fn find<R: Wait>(
        &self,
        rt: &R,
        alloc: Global,
        pass: &mut Pass<N>,
        name: &Name,
    ) -> Option<usize>
        ensures rest { pass.new ≡ record pass.old { seats = pass.new.seats } }
        ensures more { KnowsMore pass.old.seats pass.new.seats }
        ensures named { IsNamed pass.new.seats name.now result }
        ensures there { IfSome result (λ desk. desk < most_authorities) }
    {
        let mut guard = self.locked(rt, ANCHOR);
        let anchor = &mut *guard;
        pass.learn(alloc, self.words.at(ANCHOR), ANCHOR, anchor);
        place_in(anchor.config(), name)
    }

    /// A pass for another session. It takes one of the places.
    pub fn split_pass(&self, alloc: Global, pass: &mut Pass<N>) -> Result<Pass<N>, AllocError>
        requires { 0 < pass.old.places }
        ensures taken { OnOk result (pass.new ≡ record pass.old { places = pass.old.places - 1 }) }
        ensures given { IfOk result (λ other. IsSplitOff pass.old other) }
        ensures same { OnErr result (pass.new ≡ pass.old) }
    {
        pass.split(alloc, &self.words)
    }

    /// Takes in the pass of another session.
    pub fn join_pass<R: Wait>(&self, rt: &R, pass: &mut Pass<N>, other: Pass<N>)
        ensures { IsJoined pass.old other pass.new }
    {
        pass.join(rt, &self.words, other);
    }
}

// The place of the name among the names of the tree.
fn place_in(config: &Config, name: &Name) -> Option<usize>
    ensures place { result ≡ place_of config.now.settings.names name.now }
    ensures there { IfSome result (λ place. place < most_authorities) }
{
    place_among(config.names(), name)
}

fn place_among(names: &[NameRow], name: &Name) -> Option<usize>
    ensures place { result ≡ place_of names.now name.now }
    ensures there { IfSome result (λ place. place < length names.now) }
{
    names
        .iter()
        .position(|row| row.name.as_bytes() == name.as_bytes())
}

// The lock's desk, where it is the one of that number.
fn locked<'a, N: Names, D: Disk, R: Wait>(
    rt: &R,
    desk: &'a Mutex<LockedDesk<N, D>>,
    number: usize,
) -> MutexGuard<'a, LockedDesk<N, D>>
    ensures { (mutex_guard_value result).desk.number ≡ number }
{
    for _ in rt.forever() {
        let guard = desk.lock(rt);
        if guard.number() as usize == number {
            return guard;
        }
    }
    unreachable!()
}
