//! The configurations and the cut once gathered commands are taken in.

ghost use Rattle.std.specs.Prelude.{◌≡◌, ◌+◌, length, IfOk, OnOk};
ghost use Rattle.authority_book.specs.Fold.{after_all, AcceptedInTurn};
ghost use Rattle.entitle.specs.Certified.{settings_of};
ghost use Rattle.editions.specs.Gathering as spec;
ghost use Rattle.editions.specs.Gathering.{AreOfDesks, AreAccepted};

use crate::gathered::Gathered;
use authority_book::{Command, Config};
use std::alloc::{AllocError, Global};

// Applies commands in turn.
fn apply_all(alloc: Global, config: &mut Config, commands: Vec<Command>) -> Result<(), AllocError>
    requires { AcceptedInTurn config.old.settings commands.items }
    ensures { OnOk result (config.new.settings ≡ after_all config.old.settings commands.items) }
{
    for command in commands {
        config.reserve(alloc, &command)?;
        config.apply(command);
    }
    Ok(())
}

// The same configurations once more.
fn copies(alloc: Global, configs: &[Config]) -> Result<Vec<Config>, AllocError>
    ensures { IfOk result (λ copies. settings_of copies.items ≡ settings_of configs.now) }
{
    let mut copies = Vec::with_capacity(alloc, configs.len())?;
    for config in configs {
        copies.push(config.copy(alloc)?)?;
    }
    Ok(copies)
}

/// Each configuration with the commands that were gathered for its desk, applied in turn.
pub fn configs_with(
    alloc: Global,
    configs: &[Config],
    gathered: Vec<Gathered>,
) -> Result<Vec<Config>, AllocError>
    requires desks { AreOfDesks (length configs.now) gathered.items }
    requires accepted { AreAccepted (settings_of configs.now) gathered.items }
    ensures { IfOk result (λ next. settings_of next.items
        ≡ spec.configs_with (settings_of configs.now) gathered.items) }
{
    let mut next = copies(alloc, configs)?;
    for group in gathered {
        let desk = group.desk as usize;
        apply_all(alloc, &mut next[desk], group.commands.into_vec())?;
    }
    Ok(next)
}

// The sum, if 64 bits hold it.
fn added(count: u64, more: u64) -> Result<u64, AllocError>
    ensures { IfOk result (λ sum. sum ≡ count + more) }
{
    match count.checked_add(more) {
        Some(sum) => Ok(sum),
        None => Err(AllocError),
    }
}

/// How many commands of each desk are taken in, with those that were gathered. Numbers past 64 bits are told as
/// want of memory.
pub fn cut_with(alloc: Global, cut: &[u64], gathered: &[Gathered]) -> Result<Vec<u64>, AllocError>
    requires desks { AreOfDesks (length cut.now) gathered.now }
    ensures { IfOk result (λ next. next.items ≡ spec.cut_with cut.now gathered.now) }
{
    let mut next = Vec::from_slice(alloc, cut)?;
    for group in gathered {
        let desk = group.desk as usize;
        next[desk] = added(next[desk], group.commands.len() as u64)?;
    }
    Ok(next)
}
