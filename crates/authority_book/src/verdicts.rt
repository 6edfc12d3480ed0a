//! Which commands a configuration accepts.

ghost use Rattle.std.specs.Prelude.{◌≡◌, Some, None, OnOk};
ghost use Rattle.authority_book.specs.Origins.{first_repeated};
ghost use Rattle.authority_book.specs.Listed.{child_of};
ghost use Rattle.authority_book.specs.Listed as listed;
ghost use Rattle.authority_book.specs.Verdict.{verdict_of, add_refusal, delete_refusal, parent_refusal, add_child_refusal, change_refusal, suspend_refusal, unsuspend_refusal, roas_refusal, init_refusal, activate_refusal, refused_or_ok, there_already, missing, count_with, IsAccepted};
ghost use Rattle.authority_book.specs.Verdict as verdict;

use crate::commands::Command;
use crate::configs::Config;
use crate::origin_lists::OriginList;
use crate::refusals::Refusal;
use names::Name;
use origins::Origin;

/// The desk of the trust anchor.
const ANCHOR: u32 = 0;

/// How many authorities a tree has at most, the anchor among them.
pub const MOST_AUTHORITIES: usize = 64;

/// How many children an authority has at most.
const MOST_CHILDREN: usize = 63;

/// How many origins an authority has at most.
const MOST_ORIGINS: u64 = 1024;

/// The verdict on a command where `signers` signers are at hand: the first refusal that holds.
///
/// It takes no memory. Signers are numbered from 0.
pub fn verdict(config: &Config, command: &Command, signers: u32) -> Result<(), Refusal>
    ensures verdict { result ≡ verdict_of config.now.settings command.now (Some signers) }
    ensures accepted { OnOk result (IsAccepted config.now.settings command.now) }
{
    verdict_with(config, command, Some(signers))
}

/// The verdict on a command without asking how many signers are at hand, as of a command that was
/// accepted earlier.
pub fn verdict_unasked(config: &Config, command: &Command) -> Result<(), Refusal>
    ensures verdict { result ≡ verdict_of config.now.settings command.now None }
    ensures accepted { OnOk result (IsAccepted config.now.settings command.now) }
{
    verdict_with(config, command, None)
}

// `None` for the signers: it isn't asked how many there are.
fn verdict_with(config: &Config, command: &Command, signers: Option<u32>) -> Result<(), Refusal>
    ensures { result ≡ verdict_of config.now.settings command.now signers }
{
    if config.is_deleted() {
        return Err(Refusal::Deleted);
    }
    match command {
        Command::Add { name, signer } => add_verdict(config, name, *signer, signers),
        Command::Delete => delete_verdict(config),
        Command::AddParent { .. } => parent_verdict(config),
        Command::AddChild { child, .. } => add_child_verdict(config, child),
        Command::UpdateChild { child, .. } | Command::RemoveChild { child } => {
            change_verdict(config, child)
        }
        Command::SuspendChild { child } => suspend_verdict(config, child),
        Command::UnsuspendChild { child } => unsuspend_verdict(config, child),
        Command::UpdateRoas { added, removed } => roas_verdict(config, added, removed),
        Command::InitRoll => init_verdict(config),
        Command::ActivateRoll => activate_verdict(config),
    }
}

fn is_anchor(config: &Config) -> bool
    ensures { result ≡ verdict.is_anchor config.now.settings }
{
    config.desk() == ANCHOR
}

fn is_listed(config: &Config, name: &Name) -> bool
    ensures { result ≡ listed.is_listed config.now.settings.names name.now }
{
    config
        .names()
        .iter()
        .any(|row| row.name.as_bytes() == name.as_bytes())
}

fn is_child(config: &Config, name: &Name) -> bool
    ensures { result ≡ listed.is_child config.now.settings.children name.now }
{
    config
        .children()
        .iter()
        .any(|child| child.name.as_bytes() == name.as_bytes())
}

fn add_verdict(
    config: &Config,
    name: &Name,
    signer: u32,
    signers: Option<u32>,
) -> Result<(), Refusal>
    ensures { result ≡ refused_or_ok (add_refusal config.now.settings name.now signer signers) }
{
    if !is_anchor(config) {
        return Err(Refusal::AnchorOnly);
    }
    if is_listed(config, name) {
        return Err(Refusal::NameTaken);
    }
    if config.names().len() >= MOST_AUTHORITIES {
        return Err(Refusal::TooManyAuthorities);
    }
    if lacks_signer(signer, signers) {
        return Err(Refusal::NoSuchSigner);
    }
    Ok(())
}

fn lacks_signer(signer: u32, signers: Option<u32>) -> bool
    ensures { result ≡ verdict.lacks_signer signer signers }
{
    match signers {
        Some(signers) => signer >= signers,
        None => false,
    }
}

fn delete_verdict(config: &Config) -> Result<(), Refusal>
    ensures { result ≡ refused_or_ok (delete_refusal config.now.settings) }
{
    if is_anchor(config) {
        return Err(Refusal::NotForAnchor);
    }
    Ok(())
}

fn parent_verdict(config: &Config) -> Result<(), Refusal>
    ensures { result ≡ refused_or_ok (parent_refusal config.now.settings) }
{
    if is_anchor(config) {
        return Err(Refusal::NotForAnchor);
    }
    if config.parent().is_some() {
        return Err(Refusal::HasParent);
    }
    Ok(())
}

fn add_child_verdict(config: &Config, child: &Name) -> Result<(), Refusal>
    ensures { result ≡ refused_or_ok (add_child_refusal config.now.settings.children child.now) }
{
    if is_child(config, child) {
        return Err(Refusal::ChildThere);
    }
    if config.children().len() >= MOST_CHILDREN {
        return Err(Refusal::TooManyChildren);
    }
    Ok(())
}

fn change_verdict(config: &Config, child: &Name) -> Result<(), Refusal>
    ensures { result ≡ refused_or_ok (change_refusal config.now.settings.children child.now) }
{
    if !is_child(config, child) {
        return Err(Refusal::NoSuchChild);
    }
    Ok(())
}

fn suspend_verdict(config: &Config, child: &Name) -> Result<(), Refusal>
    ensures { result ≡ refused_or_ok (suspend_refusal (child_of config.now.settings.children child.now)) }
{
    match config.child(child) {
        Some(child) if child.suspended => Err(Refusal::Suspended),
        Some(_) => Ok(()),
        None => Err(Refusal::NoSuchChild),
    }
}

fn unsuspend_verdict(config: &Config, child: &Name) -> Result<(), Refusal>
    ensures { result ≡ refused_or_ok (unsuspend_refusal (child_of config.now.settings.children child.now)) }
{
    match config.child(child) {
        Some(child) if child.suspended => Ok(()),
        Some(_) => Err(Refusal::NotSuspended),
        None => Err(Refusal::NoSuchChild),
    }
}

fn roas_verdict(config: &Config, added: &OriginList, removed: &OriginList) -> Result<(), Refusal>
    ensures { result ≡ refused_or_ok (roas_refusal config.now.settings.origins added.now removed.now) }
{
    if let Some(origin) = first_there(config, added, removed) {
        return Err(Refusal::OriginThere { origin });
    }
    if let Some(origin) = added.first_repeated() {
        return Err(Refusal::OriginTwice { origin });
    }
    if let Some(origin) = removed.first_repeated() {
        return Err(Refusal::OriginTwice { origin });
    }
    if let Some(origin) = first_missing(config, removed) {
        return Err(Refusal::NoSuchOrigin { origin });
    }
    let after = count_after(config, added, removed);
    if after > MOST_ORIGINS {
        return Err(Refusal::TooManyOrigins { after });
    }
    Ok(())
}

// The first origin to add that is configured and stays so.
fn first_there(config: &Config, added: &OriginList, removed: &OriginList) -> Option<Origin>
    ensures { result ≡ there_already config.now.settings.origins added.now removed.now }
{
    added
        .as_slice()
        .iter()
        .find(|origin| config.contains(origin) && !removed.contains(origin))
        .copied()
}

// The first origin to remove that isn't configured.
fn first_missing(config: &Config, removed: &OriginList) -> Option<Origin>
    ensures { result ≡ missing config.now.settings.origins removed.now }
{
    removed
        .as_slice()
        .iter()
        .find(|origin| !config.contains(origin))
        .copied()
}

// How many origins would be configured, where each of the removed ones is, and none stands twice.
fn count_after(config: &Config, added: &OriginList, removed: &OriginList) -> u64
    requires once { first_repeated removed.now ≡ None }
    requires there { missing config.now.settings.origins removed.now ≡ None }
    ensures { result ≡ count_with config.now.settings.origins added.now removed.now }
{
    config.origins().len() as u64 - removed.len() as u64 + added.len() as u64
}

fn init_verdict(config: &Config) -> Result<(), Refusal>
    ensures { result ≡ refused_or_ok (init_refusal config.now.settings) }
{
    if is_anchor(config) {
        return Err(Refusal::NotForAnchor);
    }
    if config.parent().is_none() {
        return Err(Refusal::NoParent);
    }
    if config.inits() > config.activates() {
        return Err(Refusal::RollGoing);
    }
    Ok(())
}

fn activate_verdict(config: &Config) -> Result<(), Refusal>
    ensures { result ≡ refused_or_ok (activate_refusal config.now.settings) }
{
    if is_anchor(config) {
        return Err(Refusal::NotForAnchor);
    }
    if config.inits() == config.activates() {
        return Err(Refusal::NoRoll);
    }
    Ok(())
}
