//! The commands that an edition takes in.

ghost use Rattle.std.specs.Prelude.{◌≡◌, ◌<◌, Some, All, IsTrue, IfOk, OnOk, length, slice_get};
ghost use Rattle.authority_book.specs.Settings.{Settings};
ghost use Rattle.authority_book.specs.Fold.{AcceptedInTurn};
ghost use Rattle.entitle.specs.Certified as tree;
ghost use Rattle.editions.specs.Edition.{cut_at};
ghost use Rattle.editions.specs.Gathering as spec;
ghost use Rattle.editions.specs.Gathering.{AreGathered, AreAccepted};

use crate::publications::desks::Desks;
use anyhow::{Result, bail};
use authority_book::{Command, Config, NameRow, verdict_unasked};
use editions::{Gathered, PublishedState, configs_with};
use items::Items;
use std::alloc::{AllocError, Global};

/// For each desk the commands behind what the last edition takes in.
pub fn gathered(alloc: Global, at: &PublishedState, desks: &Desks) -> Result<Vec<Gathered>>
    ensures gathered { IfOk result (λ gathered. AreGathered at.now.cut gathered.items) }
    ensures accepted { IfOk result (λ gathered. AreAccepted at.now.configs gathered.items) }
{
    let count = at.parts().cut.len();
    let mut gathered = Vec::with_capacity(alloc, count)?;
    for desk in 0..count {
        gathered.push(group(alloc, at, desk, desks)?)?;
    }
    Ok(gathered)
}

// The same of one desk.
fn group(alloc: Global, at: &PublishedState, desk: usize, desks: &Desks) -> Result<Gathered>
    requires { desk < length at.now.cut }
    ensures desk { IfOk result (λ group. group.desk ≡ desk) }
    ensures from { IfOk result (λ group. group.from ≡ cut_at at.now.cut desk) }
    ensures accepted { IfOk result (λ group. (config : Settings)
        → slice_get at.now.configs desk ≡ Some config → AcceptedInTurn config group.commands) }
{
    let parts = at.parts();
    let from = parts.cut.as_slice()[desk];
    let config = &parts.configs.as_slice()[desk];
    let commands = in_turn(alloc, config, desks.since(desk, from))?;
    Ok(Gathered {
        desk: desk as u32,
        from,
        commands: Items::new(commands),
    })
}

// The commands once more, each of which is to be accepted behind those before it.
fn in_turn(alloc: Global, config: &Config, commands: &[Command]) -> Result<Vec<Command>>
    ensures { IfOk result (λ taken. AcceptedInTurn config.now.settings taken.items) }
{
    let mut after = config.copy(alloc)?;
    let mut taken = Vec::new(alloc);
    for command in commands {
        if verdict_unasked(&after, command).is_err() {
            bail!("a command is refused");
        }
        after.reserve(alloc, command)?;
        after.apply(command.copy(alloc)?);
        taken.push(command.copy(alloc)?)?;
    }
    Ok(taken)
}

/// Whether the names of the tree, with what was gathered, use only so many signers.
pub fn names_have_signers(
    alloc: Global,
    at: &PublishedState,
    gathered: &[Gathered],
    signers: u32,
) -> Result<bool, AllocError>
    requires gathered { AreGathered at.now.cut gathered.now }
    requires accepted { AreAccepted at.now.configs gathered.now }
    ensures { IfOk result (λ yes. IsTrue yes → All (λ name. name.signer < signers)
        (tree.names_of (spec.configs_with at.now.configs gathered.now))) }
{
    let configs = at.parts().configs.as_slice();
    let configs = configs_with(alloc, configs, copies(alloc, gathered)?)?;
    Ok(names_of(&configs).iter().all(|row| row.signer < signers))
}

// The names of the tree.
fn names_of(configs: &[Config]) -> &[NameRow]
    ensures { result.now ≡ tree.names_of (tree.settings_of configs.now) }
{
    match configs.first() {
        Some(anchor) => anchor.names(),
        None => &[],
    }
}

// The same once more.
fn copies(alloc: Global, gathered: &[Gathered]) -> Result<Vec<Gathered>, AllocError>
    ensures { IfOk result (λ copies. copies.items ≡ gathered.now) }
{
    let mut copies = Vec::with_capacity(alloc, gathered.len())?;
    for group in gathered {
        copies.push(Gathered {
            desk: group.desk,
            from: group.from,
            commands: Items::new(copied(alloc, group.commands.as_slice())?),
        })?;
    }
    Ok(copies)
}

fn copied(alloc: Global, commands: &[Command]) -> Result<Vec<Command>, AllocError>
    ensures { IfOk result (λ copies. copies.items ≡ commands.now) }
{
    let mut copies = Vec::with_capacity(alloc, commands.len())?;
    for command in commands {
        copies.push(command.copy(alloc)?)?;
    }
    Ok(copies)
}
