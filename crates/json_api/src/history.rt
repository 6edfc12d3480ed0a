//! The reply to `history commands`: each command's line, with all its fields (RFC 8259 section 4).

ghost use Rattle.std.specs.Prelude.{◌≡◌, ◌+◌, ◌<◌, ◌^◌, ◌++◌, ◌∷◌, [], length, map, IfOk, OnOk, codes};
ghost use Rattle.json_api.specs.Texts.{commas, named_line, row_line, signer_line, held_line, origins_line, origins_text, origin_member, line_text, history_line, history_lines, history_spelling};
ghost use Rattle.json_api.specs.inner.Members.{value_text, member_line};

use crate::fields::{Field, Row};
use crate::texts::{push_number, push_origin, push_quoted, push_resources};
use authority_book::{Command, OriginList};
use names::Name;
use origins::Origin;
use res_sets::Resources;
use std::alloc::{AllocError, Global};

// What a member of a command's line is.
#[derive(Clone, Copy)]
pub(crate) enum MemberValue<'a> {
    Row(Row),
    Name(&'a Name),
    Number(u32),
    Resources(&'a Resources),
    Origins(&'a OriginList),
}

#[derive(Clone, Copy)]
pub(crate) struct Member<'a> {
    field: Field,
    value: MemberValue<'a>,
}

/// The text of an authority's commands, counted from 1.
pub fn history_text(
    alloc: Global,
    authority: &Name,
    commands: &[Command],
) -> Result<Vec<u8>, AllocError>
    ensures { IfOk result (λ text. text.items ≡ history_spelling authority.now commands.now) }
{
    let mut out = Vec::new(alloc);
    out.extend_from_slice(b"{\"authority\":")?;
    push_quoted(alloc, &mut out, authority.as_str())?;
    out.extend_from_slice(b",\"commands\":[")?;
    push_commands(alloc, &mut out, authority, commands)?;
    out.extend_from_slice(b"],\"reply\":\"history commands\"}")?;
    Ok(out)
}

fn push_commands(
    alloc: Global,
    out: &mut Vec<u8>,
    authority: &Name,
    commands: &[Command],
) -> Result<(), AllocError>
    ensures { OnOk result (out.new.items
        ≡ out.old.items ++ commas (history_lines authority.now 0 commands.now)) }
{
    let mut between: &[u8] = b"";
    let mut count: u64 = 0;
    for command in commands {
        count += 1;
        out.extend_from_slice(between)?;
        push_command(alloc, out, authority, count, command)?;
        between = b",";
    }
    Ok(())
}

fn push_command(
    alloc: Global,
    out: &mut Vec<u8>,
    authority: &Name,
    count: u64,
    command: &Command,
) -> Result<(), AllocError>
    ensures { OnOk result (out.new.items
        ≡ out.old.items ++ history_line authority.now count command.now) }
{
    out.extend_from_slice(b"{\"count\":")?;
    push_number(out, count)?;
    out.extend_from_slice(b",\"line\":")?;
    push_line(alloc, out, authority, command)?;
    out.extend_from_slice(b"}")
}

// The command's line, its members in byte order.
#[tactic(auto, unfolding(crate::specs::Texts::line_text, crate::specs::Texts::signer_line))]
fn push_line(
    alloc: Global,
    out: &mut Vec<u8>,
    authority: &Name,
    command: &Command,
) -> Result<(), AllocError>
    ensures { OnOk result (out.new.items ≡ out.old.items ++ line_text authority.now command.now) }
{
    let ca = name_member(Field::Ca, authority);
    match command {
        Command::Add { name, signer } => {
            let new = name_member(Field::Ca, name);
            push_members(
                alloc,
                out,
                &[new, row_member(Row::Add), signer_member(*signer)],
            )
        }
        Command::Delete => push_members(alloc, out, &[ca, row_member(Row::Delete)]),
        Command::AddParent { parent } => {
            let parent = name_member(Field::Parent, parent);
            push_members(alloc, out, &[ca, row_member(Row::ParentsAdd), parent])
        }
        Command::AddChild { child, grant } => {
            push_grant(alloc, out, ca, child, Row::ChildrenAdd, grant)
        }
        Command::UpdateChild { child, grant } => {
            push_grant(alloc, out, ca, child, Row::ChildrenUpdate, grant)
        }
        Command::RemoveChild { child } => push_child(alloc, out, ca, child, Row::ChildrenRemove),
        Command::SuspendChild { child } => push_child(alloc, out, ca, child, Row::ChildrenSuspend),
        Command::UnsuspendChild { child } => {
            push_child(alloc, out, ca, child, Row::ChildrenUnsuspend)
        }
        Command::UpdateRoas { added, removed } => {
            let added = origins_member(Field::Add, added);
            let removed = origins_member(Field::Remove, removed);
            push_members(
                alloc,
                out,
                &[added, ca, row_member(Row::RoasUpdate), removed],
            )
        }
        Command::InitRoll => push_members(alloc, out, &[ca, row_member(Row::KeyrollInit)]),
        Command::ActivateRoll => push_members(alloc, out, &[ca, row_member(Row::KeyrollActivate)]),
    }
}

// A row of the names of an authority and its child.
fn push_child(
    alloc: Global,
    out: &mut Vec<u8>,
    ca: Member<'_>,
    child: &Name,
    row: Row,
) -> Result<(), AllocError>
    ensures { OnOk result (out.new.items ≡ out.old.items ++ codes "{"
        ++ commas (member_line ca.entry ∷ named_line Field.Child child.now ∷ row_line row ∷ []) ++ codes "}") }
{
    push_members(
        alloc,
        out,
        &[ca, name_member(Field::Child, child), row_member(row)],
    )
}

// The same row with the child's grant.
#[tactic(auto, unfolding(crate::specs::Texts::held_line))]
fn push_grant(
    alloc: Global,
    out: &mut Vec<u8>,
    ca: Member<'_>,
    child: &Name,
    row: Row,
    grant: &Resources,
) -> Result<(), AllocError>
    ensures { OnOk result (out.new.items ≡ out.old.items ++ codes "{"
        ++ commas (member_line ca.entry ∷ named_line Field.Child child.now ∷ row_line row
        ∷ held_line grant.now ∷ []) ++ codes "}") }
{
    let child = name_member(Field::Child, child);
    let grant = Member {
        field: Field::Resources,
        value: MemberValue::Resources(grant),
    };
    push_members(alloc, out, &[ca, child, row_member(row), grant])
}

#[tactic(auto, unfolding(crate::specs::Texts::named_line))]
fn name_member<'a>(field: Field, name: &'a Name) -> Member<'a>
    ensures { member_line result ≡ named_line field name.now }
{
    Member {
        field,
        value: MemberValue::Name(name),
    }
}

#[tactic(auto, unfolding(crate::specs::Texts::row_line))]
fn row_member<'a>(row: Row) -> Member<'a>
    ensures { member_line result ≡ row_line row }
{
    Member {
        field: Field::Command,
        value: MemberValue::Row(row),
    }
}

#[tactic(auto, unfolding(crate::specs::Texts::signer_line))]
fn signer_member<'a>(signer: u32) -> Member<'a>
    ensures { member_line result ≡ signer_line signer }
{
    Member {
        field: Field::Signer,
        value: MemberValue::Number(signer),
    }
}

#[tactic(auto, unfolding(crate::specs::Texts::origins_line))]
fn origins_member<'a>(field: Field, origins: &'a OriginList) -> Member<'a>
    ensures { member_line result ≡ origins_line field origins.now }
{
    Member {
        field,
        value: MemberValue::Origins(origins),
    }
}

// An object of these members.
fn push_members(alloc: Global, out: &mut Vec<u8>, members: &[Member<'_>]) -> Result<(), AllocError>
    ensures { OnOk result (out.new.items
        ≡ out.old.items ++ codes "{" ++ commas (map member_line members.now) ++ codes "}") }
{
    out.extend_from_slice(b"{")?;
    push_each(alloc, out, members)?;
    out.extend_from_slice(b"}")
}

fn push_each(alloc: Global, out: &mut Vec<u8>, members: &[Member<'_>]) -> Result<(), AllocError>
    ensures { OnOk result (out.new.items ≡ out.old.items ++ commas (map member_line members.now)) }
{
    let mut between: &[u8] = b"";
    for member in members {
        out.extend_from_slice(between)?;
        push_member(alloc, out, member)?;
        between = b",";
    }
    Ok(())
}

fn push_member(alloc: Global, out: &mut Vec<u8>, member: &Member<'_>) -> Result<(), AllocError>
    ensures { OnOk result (out.new.items ≡ out.old.items ++ member_line member.now) }
{
    push_quoted(alloc, out, member.field.name())?;
    out.extend_from_slice(b":")?;
    push_value(alloc, out, &member.value)
}

fn push_value(alloc: Global, out: &mut Vec<u8>, value: &MemberValue<'_>) -> Result<(), AllocError>
    ensures { OnOk result (out.new.items ≡ out.old.items ++ value_text value.now) }
{
    match value {
        MemberValue::Row(row) => push_quoted(alloc, out, row.command()),
        MemberValue::Name(name) => push_quoted(alloc, out, name.as_str()),
        MemberValue::Number(n) => push_number(out, u64::from(*n)),
        MemberValue::Resources(held) => push_resources(alloc, out, held),
        MemberValue::Origins(origins) => push_origins(alloc, out, origins),
    }
}

#[tactic(auto, unfolding(crate::specs::Texts::origins_text))]
fn push_origins(alloc: Global, out: &mut Vec<u8>, origins: &OriginList) -> Result<(), AllocError>
    ensures { OnOk result (out.new.items ≡ out.old.items ++ origins_text origins.now) }
{
    out.extend_from_slice(b"[")?;
    push_origin_texts(alloc, out, origins.as_slice())?;
    out.extend_from_slice(b"]")
}

fn push_origin_texts(alloc: Global, out: &mut Vec<u8>, origins: &[Origin]) -> Result<(), AllocError>
    ensures { OnOk result (out.new.items
        ≡ out.old.items ++ commas (map origin_member origins.now)) }
{
    let mut between: &[u8] = b"";
    for origin in origins {
        out.extend_from_slice(between)?;
        push_origin(alloc, out, origin)?;
        between = b",";
    }
    Ok(())
}
