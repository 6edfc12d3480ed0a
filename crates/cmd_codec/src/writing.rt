//! Commands spelled as records.

ghost use Rattle.std.specs.Prelude.{◌≡◌, ◌<◌, ◌^◌, ◌+◌, ◌++◌, length, IfOk, OnOk};
ghost use Rattle.std.specs.List.{flat_map, AllByRecursion};
ghost use Rattle.authority_book.specs.declared.commands.Command.{Command};
ghost use Rattle.cmd_codec.specs.Spelling.{granted, row, origin_spelling, range_spelling, part_spelling, spelling, IsSound, IsRecordable};
ghost use Rattle.cmd_codec.specs.Spelling.Part.{TheName, TheNumber, TheOrigins, TheRanges};

use crate::format::{
    ACTIVATE_ROLL, ADD, ADD_CHILD, ADD_PARENT, DELETE, INIT_ROLL, NUMBER_SIZE, ORIGIN_SIZE,
    RANGE_SIZE, REMOVE_CHILD, SUSPEND_CHILD, UNSUSPEND_CHILD, UPDATE_CHILD, UPDATE_ROAS,
};
use authority_book::{Command, OriginList};
use names::Name;
use origins::Origin;
use res_sets::{Range, Ranges, Resources};
use std::alloc::{AllocError, Global};

/// The record of the command.
#[tactic(auto, unfolding(crate::specs::Spelling::spelling))]
pub fn write(alloc: Global, command: &Command) -> Result<Vec<u8>, AllocError>
    ensures spelled { IfOk result (λ bytes. bytes.items ≡ spelling command.now) }

    // So the record is read back.
    ensures recordable { OnOk result (IsRecordable command.now) }
{
    let mut bytes = Vec::with_capacity(alloc, record_len(command) as usize)?;
    bytes.push(first_byte(command))?;
    push_parts(&mut bytes, command)?;
    Ok(bytes)
}

/// How many bytes the command's record has.
#[tactic(auto, unfolding(crate::specs::Spelling::spelling))]
pub fn record_len(command: &Command) -> u64
    ensures length { result ≡ length (spelling command.now) }
    ensures recordable { IsRecordable command.now }
    ensures small { result < 2 ^ 43 }
{
    1 + parts_len(command)
}

// How many bytes the parts of the command's record have.
fn parts_len(command: &Command) -> u64
    ensures length { result ≡ length (flat_map part_spelling (row command.now).1) }
    ensures recordable { IsRecordable command.now }
    ensures small { result + 1 < 2 ^ 43 }
{
    match command {
        Command::Add { name, signer } => name_len(name) + number_len(*signer),
        Command::Delete | Command::InitRoll | Command::ActivateRoll => 0,
        Command::AddParent { parent: name }
        | Command::RemoveChild { child: name }
        | Command::SuspendChild { child: name }
        | Command::UnsuspendChild { child: name } => name_len(name),
        Command::AddChild { child, grant } | Command::UpdateChild { child, grant } => {
            name_len(child) + resources_len(grant)
        }
        Command::UpdateRoas { added, removed } => origins_len(added) + origins_len(removed),
    }
}

// How many bytes the part takes, of each kind.
fn name_len(name: &Name) -> u64
    ensures sound { IsSound (TheName name.now) }
    ensures size { result ≡ length (part_spelling (TheName name.now)) }
    ensures small { result < 2 ^ 40 }
{
    (NUMBER_SIZE + name.as_bytes().len()) as u64
}

fn number_len(n: u32) -> u64
    ensures sound { IsSound (TheNumber n) }
    ensures size { result ≡ length (part_spelling (TheNumber n)) }
    ensures small { result < 2 ^ 40 }
{
    n.to_be_bytes().len() as u64
}

fn origins_len(list: &OriginList) -> u64
    ensures sound { IsSound (TheOrigins list.now) }
    ensures size { result ≡ length (part_spelling (TheOrigins list.now)) }
    ensures small { result < 2 ^ 40 }
{
    (NUMBER_SIZE + ORIGIN_SIZE * list.len()) as u64
}

fn ranges_len(set: &Ranges) -> u64
    ensures sound { IsSound (TheRanges set.now) }
    ensures size { result ≡ length (part_spelling (TheRanges set.now)) }
    ensures small { result < 2 ^ 40 }
{
    (NUMBER_SIZE + RANGE_SIZE * set.as_slice().len()) as u64
}

fn resources_len(grant: &Resources) -> u64
    ensures sound { AllByRecursion IsSound (granted grant.now) }
    ensures size { result ≡ length (flat_map part_spelling (granted grant.now)) }
    ensures small { result < 2 ^ 42 }
{
    ranges_len(&grant.asn) + ranges_len(&grant.v4) + ranges_len(&grant.v6)
}

fn first_byte(command: &Command) -> u8
    ensures { result ≡ (row command.now).0 }
{
    match command {
        Command::Add { .. } => ADD,
        Command::Delete => DELETE,
        Command::AddParent { .. } => ADD_PARENT,
        Command::AddChild { .. } => ADD_CHILD,
        Command::UpdateChild { .. } => UPDATE_CHILD,
        Command::RemoveChild { .. } => REMOVE_CHILD,
        Command::UpdateRoas { .. } => UPDATE_ROAS,
        Command::SuspendChild { .. } => SUSPEND_CHILD,
        Command::UnsuspendChild { .. } => UNSUSPEND_CHILD,
        Command::InitRoll => INIT_ROLL,
        Command::ActivateRoll => ACTIVATE_ROLL,
    }
}

// Appends the parts of the command's record.
fn push_parts(bytes: &mut Vec<u8>, command: &Command) -> Result<(), AllocError>
    ensures { OnOk result
        (bytes.new.items ≡ bytes.old.items ++ flat_map part_spelling (row command.now).1) }
{
    match command {
        Command::Add { name, signer } => {
            push_name(bytes, name)?;
            push_number(bytes, *signer)
        }
        Command::Delete | Command::InitRoll | Command::ActivateRoll => Ok(()),
        Command::AddParent { parent: name }
        | Command::RemoveChild { child: name }
        | Command::SuspendChild { child: name }
        | Command::UnsuspendChild { child: name } => push_name(bytes, name),
        Command::AddChild { child, grant } | Command::UpdateChild { child, grant } => {
            push_name(bytes, child)?;
            push_resources(bytes, grant)
        }
        Command::UpdateRoas { added, removed } => {
            push_origins(bytes, added)?;
            push_origins(bytes, removed)
        }
    }
}

#[tactic(auto, unfolding(crate::specs::Spelling::part_spelling, crate::specs::Spelling::bytes_32))]
fn push_number(bytes: &mut Vec<u8>, n: u32) -> Result<(), AllocError>
    ensures { OnOk result (bytes.new.items ≡ bytes.old.items ++ part_spelling (TheNumber n)) }
{
    bytes.extend_from_slice(&n.to_be_bytes())
}

fn push_name(bytes: &mut Vec<u8>, name: &Name) -> Result<(), AllocError>
    ensures { OnOk result (bytes.new.items ≡ bytes.old.items ++ part_spelling (TheName name.now)) }
{
    let text = name.as_bytes();
    push_number(bytes, text.len() as u32)?;
    bytes.extend_from_slice(text)
}

fn push_origins(bytes: &mut Vec<u8>, list: &OriginList) -> Result<(), AllocError>
    ensures { OnOk result (bytes.new.items ≡ bytes.old.items ++ part_spelling (TheOrigins list.now)) }
{
    push_number(bytes, list.len() as u32)?;
    let origins = list.as_slice();
    for origin in origins {
        push_origin(bytes, origin)?;
    }
    Ok(())
}

fn push_ranges(bytes: &mut Vec<u8>, set: &Ranges) -> Result<(), AllocError>
    ensures { OnOk result (bytes.new.items ≡ bytes.old.items ++ part_spelling (TheRanges set.now)) }
{
    let ranges = set.as_slice();
    push_number(bytes, ranges.len() as u32)?;
    for range in ranges {
        push_range(bytes, range)?;
    }
    Ok(())
}

fn push_resources(bytes: &mut Vec<u8>, grant: &Resources) -> Result<(), AllocError>
    ensures { OnOk result
        (bytes.new.items ≡ bytes.old.items ++ flat_map part_spelling (granted grant.now)) }
{
    push_ranges(bytes, &grant.asn)?;
    push_ranges(bytes, &grant.v4)?;
    push_ranges(bytes, &grant.v6)
}

fn push_origin(bytes: &mut Vec<u8>, origin: &Origin) -> Result<(), AllocError>
    ensures { OnOk result (bytes.new.items ≡ bytes.old.items ++ origin_spelling origin.now) }
{
    bytes.push(u8::from(origin.prefix.v6))?;
    bytes.extend_from_slice(&origin.prefix.address.to_be_bytes())?;
    bytes.push(origin.prefix.length)?;
    bytes.push(origin.max)?;
    bytes.extend_from_slice(&origin.asn.to_be_bytes())
}

fn push_range(bytes: &mut Vec<u8>, range: &Range) -> Result<(), AllocError>
    ensures { OnOk result (bytes.new.items ≡ bytes.old.items ++ range_spelling range.now) }
{
    bytes.extend_from_slice(&range.first.to_be_bytes())?;
    bytes.extend_from_slice(&range.last.to_be_bytes())
}

/// No two commands have one spelling: so a record stands for one command alone.
pub fn spelled_apart()
    ensures { (one other : Command) → IsRecordable one → IsRecordable other →
        spelling one ≡ spelling other → one ≡ other }
{}
