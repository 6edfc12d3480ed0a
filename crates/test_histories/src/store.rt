//! A store: the desks of a tree and its press, over disks in memory. What is done to it is a history.

ghost use Rattle.std.specs.Prelude.{◌≡◌, ◌<◌, ◌≤◌, ◌++◌, ◌∷◌, [], ℕ, List, None, Some, All, IfOk, OnOk, IsTrue, length, get_or, slice_get};
ghost use Rattle.authority_book.specs.declared.commands.Command.{Command};
ghost use Rattle.desk_core.specs.View.{View};
ghost use Rattle.disk_api.specs.declared.memory.MemoryDisk.{MemoryDisk};
ghost use Rattle.press_core.specs.Stored.{CanCommit};
ghost use Rattle.histories.specs.Events.{History};
ghost use Rattle.histories.specs.Legal.{IsLegal};
ghost use Rattle.test_histories.specs.Committed.{IsCommitted};
ghost use Rattle.test_histories.specs.Gathered.{AreSince};
ghost use Rattle.test_histories.specs.declared.done.Done.TheVariants.{Found, Stopped};
ghost use Rattle.test_histories.specs.Told.{AreTold, lists_of};
ghost use Rattle.test_histories.specs.Standing.{AreOpenedAgain, IsAt};
ghost use Rattle.test_histories.specs.Reopening.{IsPressAgain};

use crate::desks::{DESKS, OpenedAgain, new_desks, open_again};
use crate::done::{Done, Limit, Step};
use crate::press::{SIGNERS, new_press, press_again};
use anyhow::{Result, bail};
use authority_book::{Command, NameRow};
use desk_core::{Desk, DeskFault, commands_are_determined};
use disk_api::MemoryDisk;
use editions::Gathered;
use items::Items;
use key_ids::Site;
use names::Name;
use press_core::{
    CommitFault, PrepareFault, StoredPrepared, StoredPress, edition_records_go_on,
    more_commands_stand, records_tell_one_store,
};
use signer_api::Rehearsal;
use std::alloc::{AllocError, Global};
use std::thread::Threads;

/// The desk of the trust anchor, which has the names of the tree.
const ANCHOR: usize = 0;

/// The code of the refusal of a press whose journal is shut.
const SHUT: u32 = 21;

/// The desks in the order of their numbers, and the press.
#[derive(Drop)]
pub struct Store {
    desks: Vec<Desk<MemoryDisk>>,
    press: StoredPress<MemoryDisk, Rehearsal>,
}

/// Takes the steps one after another over a new store of that site, and tells what was done: a legal history.
pub fn play<R: Threads + Sync>(
    rt: &R,
    alloc: Global,
    site: &Site,
    steps: &[Step],
) -> Result<Vec<Done>>
    ensures { IfOk result (λ done. (history : History) × IsLegal site.now history × AreTold done.items history) }
{
    let mut store = new_store(alloc, site)?;
    let mut done = Vec::new(alloc);
    for step in steps {
        store = take(rt, alloc, site, store, &mut done, step)?;
    }
    Ok(done)
}

fn new_store(alloc: Global, site: &Site) -> Result<Store>
    ensures at { IfOk result (λ store. IsAt store.desks.items store.press []) }
    ensures site { IfOk result (λ store. store.press.press.site ≡ site.now) }
{
    let desks = new_desks(alloc)?;
    let press = new_press(alloc, site, desks.as_slice())?;
    Ok(Store { desks, press })
}

// Takes a step.
fn take<R: Threads + Sync>(
    rt: &R,
    alloc: Global,
    site: &Site,
    store: Store,
    done: &mut Vec<Done>,
    step: &Step,
) -> Result<Store>
    requires at { IsAt store.desks.items store.press done.old.items }
    requires site { store.press.press.site ≡ site.now }
    ensures at { IfOk result (λ new. IsAt new.desks.items new.press done.new.items) }
    ensures site { IfOk result (λ new. new.press.press.site ≡ site.now) }
{
    match step {
        Step::Command { authority, command } => {
            let mut store = store;
            give(alloc, &mut store, done, authority, command)?;
            Ok(store)
        }
        Step::Publish { clock } => {
            let mut store = store;
            publish(rt, alloc, &mut store, done, *clock)?;
            Ok(store)
        }
        Step::Stop { pick, limit } => stop(alloc, site, store, done, *pick, limit),
    }
}

// Gives the command to the authority of that name. A refusal changes nothing, and neither does want of memory.
fn give(
    alloc: Global,
    store: &mut Store,
    done: &mut Vec<Done>,
    authority: &Name,
    command: &Command,
) -> Result<()>
    requires { IsAt store.old.desks.items store.old.press done.old.items }
    ensures at { OnOk result (IsAt store.new.desks.items store.new.press done.new.items) }
    ensures site { OnOk result (store.new.press.press.site ≡ store.old.press.press.site) }
{
    more_commands_stand();
    let place = place_of(store.desks[ANCHOR].config().names(), authority)?;
    let desk = place as u32;
    let told = command.copy(alloc)?;
    let given = command.copy(alloc)?;
    match store.desks[place].commit(alloc, given, SIGNERS) {
        Ok(_) => Ok(note(
            done,
            Done::Accepted {
                desk,
                command: told,
            },
        )?),
        Err(DeskFault::DiskFault { .. }) => Ok(note(
            done,
            Done::Failed {
                desk,
                command: told,
            },
        )?),
        Err(DeskFault::Shut { .. }) => Ok(()),
        Err(DeskFault::Verdict { .. }) => Ok(()),
        Err(DeskFault::JournalFull { .. }) => Ok(()),
        Err(DeskFault::Memory) => Ok(()),
    }
}

// The number of the desk of the authority of that name.
fn place_of(names: &[NameRow], authority: &Name) -> Result<usize>
    ensures { IfOk result (λ place. place < 64) }
{
    let place = names
        .iter()
        .position(|row| row.name.as_bytes() == authority.as_bytes());
    match place {
        Some(place) if place < DESKS => Ok(place),
        _ => bail!("no such authority"),
    }
}

fn note(done: &mut Vec<Done>, one: Done) -> Result<(), AllocError>
    ensures { OnOk result (done.new.items ≡ done.old.items ++ one ∷ []) }
{
    done.push(one)?;
    Ok(())
}

// Publishes what the desks have accepted, at that clock. A refusal leaves what was published.
fn publish<R: Threads + Sync>(
    rt: &R,
    alloc: Global,
    store: &mut Store,
    done: &mut Vec<Done>,
    clock: u64,
) -> Result<()>
    requires { IsAt store.old.desks.items store.old.press done.old.items }
    ensures at { OnOk result (IsAt store.new.desks.items store.new.press done.new.items) }
    ensures site { OnOk result (store.new.press.press.site ≡ store.old.press.press.site) }
{
    more_commands_stand();
    edition_records_go_on();
    if !are_signed(store.desks[ANCHOR].config().names()) {
        bail!("a name without a signer");
    }
    let gathered = gather(alloc, store)?;
    let _sizes = store.press.press();
    match store.press.prepare(rt, alloc, clock, gathered) {
        Ok(prepared) => {
            let one = commit(&mut store.press, prepared);
            Ok(note(done, one)?)
        }
        Err(fault) => Ok(note(
            done,
            Done::Refused {
                code: code_of(&fault),
            },
        )?),
    }
}

// The commands of each desk that no edition took in yet.
fn gather(alloc: Global, store: &Store) -> Result<Vec<Gathered>, AllocError>
    requires all { length store.now.desks.items ≡ 64 }
    requires cut { length store.now.press.press.at.cut ≡ 64 }
    requires within { (number : ℕ) (desk : View MemoryDisk) → slice_get store.now.desks.items number ≡ Some desk
        → get_or store.now.press.press.at.cut number 0 ≤ length desk.records }
    ensures { IfOk result (λ gathered. AreSince 0 store.now.desks.items store.now.press.press.at.cut gathered.items) }
{
    let cut = store.press.press().cut();
    let mut gathered = Vec::with_capacity(alloc, DESKS)?;
    for desk in 0..DESKS {
        let from = cut[desk];
        let commands = store.desks[desk].since(alloc, from)?;
        gathered.push(Gathered {
            desk: desk as u32,
            from,
            commands: Items::new(commands),
        })?;
    }
    Ok(gathered)
}

// Whether the names use only the signers that there are.
fn are_signed(names: &[NameRow]) -> bool
    ensures { IsTrue result → All (λ name. name.signer < 2) names.now }
{
    names.iter().all(|name| name.signer < SIGNERS)
}

// The code of a refusal, and 0 for want of memory.
fn code_of(fault: &PrepareFault<MemoryDisk>) -> u32 {
    match fault {
        PrepareFault::Shut { .. } => SHUT,
        PrepareFault::ClockRange { met, .. } => met.code(),
        PrepareFault::SerialEnd { met, .. } => met.code(),
        PrepareFault::Nothing { met, .. } => met.code(),
        PrepareFault::SignerFault { met, .. } => met.code(),
        PrepareFault::KeyClash { met, .. } => met.code(),
        PrepareFault::JournalFull { met, .. } => met.code(),
        PrepareFault::Memory => 0,
    }
}

// Everything stops: a crash leaves of each disk the image of that pick, over which its desk or the press is opened again.
fn stop(
    alloc: Global,
    site: &Site,
    store: Store,
    done: &mut Vec<Done>,
    pick: u64,
    limit: &Option<Limit>,
) -> Result<Store>
    requires at { IsAt store.desks.items store.press done.old.items }
    requires site { store.press.press.site ≡ site.now }
    ensures at { IfOk result (λ new. IsAt new.desks.items new.press done.new.items) }
    ensures site { IfOk result (λ new. new.press.press.site ≡ site.now) }
{
    commands_are_determined();
    more_commands_stand();
    records_tell_one_store();
    let Reopened { store, lists } = reopen(alloc, site, store, pick, limit)?;
    let serial = store.press.press().serial();
    note_reopening(done, lists, serial)?;
    Ok(store)
}

// A store that was opened again, and the commands that each desk has.
#[derive(Drop)]
struct Reopened {
    store: Store,
    lists: Vec<Vec<Command>>,
}

// The store is opened again over what a crash leaves of each disk: the image of that pick.
fn reopen(
    alloc: Global,
    site: &Site,
    store: Store,
    pick: u64,
    limit: &Option<Limit>,
) -> Result<Reopened>
    requires all { length store.desks.items ≡ 64 }
    requires signers { length store.press.press.ring ≡ 2 }
    ensures desks { IfOk result (λ new.
        AreOpenedAgain 0 store.desks.items new.store.desks.items (lists_of new.lists)) }
    ensures press { IfOk result (λ new. IsPressAgain new.store.desks.items store.press new.store.press) }
    ensures site { IfOk result (λ new. new.store.press.press.site ≡ site.now) }
{
    let Store {
        desks,
        press: closing,
    } = store;
    let OpenedAgain { desks, lists } = open_again(alloc, desks, pick, limit)?;
    let press = press_again(alloc, site, desks.as_slice(), closing, pick, limit)?;
    Ok(Reopened {
        store: Store { desks, press },
        lists,
    })
}

// It is noted that everything stopped, and what was found.
fn note_reopening(
    done: &mut Vec<Done>,
    lists: Vec<Vec<Command>>,
    serial: u64,
) -> Result<(), AllocError>
    ensures { OnOk result (done.new.items ≡ (done.old.items ++ Stopped ∷ []) ++ Found lists serial ∷ []) }
{
    note(done, Done::Stopped)?;
    note(done, Done::Found { lists, serial })?;
    Ok(())
}

// The edition that was prepared is written, and its keys end; or a call of the disk fails while it is written.
fn commit(press: &mut StoredPress<MemoryDisk, Rehearsal>, prepared: StoredPrepared) -> Done
    requires can { CanCommit press.old prepared }
    ensures { IsCommitted press.old prepared result press.new }
{
    match press.commit(prepared) {
        Ok(published) => {
            press.retire_keys();
            Done::Published { published }
        }
        Err(CommitFault::DiskFault { .. }) => Done::FailedPublishing,
    }
}
