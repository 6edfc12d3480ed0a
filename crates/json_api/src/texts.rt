//! The replies that tell of authorities, each one object of compact JSON with its members in byte
//! order (RFC 8259 section 4).

ghost use Rattle.std.specs.Prelude.{◌≡◌, ◌+◌, ◌++◌, List, map, IfOk, OnOk, codes, decimal};
ghost use Rattle.json.specs.Print.{quoted};
ghost use Rattle.origins.specs.Origin.{origin_text};
ghost use Rattle.json_api.specs.Texts.{commas, flag_text, list_line, list_spelling, set_text, resources_text, child_line, parent_text, stage_text, show_spelling, state_text, roa_line, roas_spelling};

use authority_book::Child;
use json::Writer;
use names::Name;
use origins::Origin;
use res_sets::{Ranges, Resources};
use std::alloc::{AllocError, Global};

/// An authority in the list of all.
#[derive(Clone, Copy, Debug, PartialEq, Eq)]
pub struct ListLine {
    pub name: Name,
    pub deleted: bool,
}

/// How far a key roll of an authority is.
#[derive(Clone, Copy, Debug, PartialEq, Eq)]
pub enum StageWord {
    None,
    Steady,
    Staged,
    Retiring,
}

/// An authority's state, but for its children.
#[derive(Debug, Drop)]
pub struct Shown {
    pub authority: Name,
    pub certified: Resources,
    pub parent: Option<Name>,
    /// The serial of the last edition, and 0 before the first one.
    pub serial: u64,
    pub stage: StageWord,
}

/// Where an origin stands.
#[derive(Clone, Copy, Debug, PartialEq, Eq)]
pub enum RoaWord {
    /// It is in what was published last.
    Published,
    /// The authority doesn't hold all of its prefix.
    Held,
    /// It comes with the next publication.
    Pending,
}

/// An origin of an authority.
#[derive(Clone, Copy, Debug, PartialEq, Eq)]
pub struct RoaLine {
    pub origin: Origin,
    pub state: RoaWord,
}

/// The text of all authorities, in their order.
pub fn list_text(alloc: Global, lines: &[ListLine]) -> Result<Vec<u8>, AllocError>
    ensures { IfOk result (λ text. text.items ≡ list_spelling lines.now) }
{
    let mut out = Vec::new(alloc);
    out.extend_from_slice(b"{\"authorities\":[")?;
    push_list_lines(alloc, &mut out, lines)?;
    out.extend_from_slice(b"],\"reply\":\"list\"}")?;
    Ok(out)
}

fn push_list_lines(alloc: Global, out: &mut Vec<u8>, lines: &[ListLine]) -> Result<(), AllocError>
    ensures { OnOk result (out.new.items ≡ out.old.items ++ commas (map list_line lines.now)) }
{
    let mut between: &[u8] = b"";
    for line in lines {
        out.extend_from_slice(between)?;
        push_list_line(alloc, out, line)?;
        between = b",";
    }
    Ok(())
}

fn push_list_line(alloc: Global, out: &mut Vec<u8>, line: &ListLine) -> Result<(), AllocError>
    ensures { OnOk result (out.new.items ≡ out.old.items ++ list_line line.now) }
{
    out.extend_from_slice(b"{\"deleted\":")?;
    push_flag(out, line.deleted)?;
    out.extend_from_slice(b",\"name\":")?;
    push_quoted(alloc, out, line.name.as_str())?;
    out.extend_from_slice(b"}")
}

/// The text of an authority's state, its children in the order in which they were added.
pub fn show_text(alloc: Global, shown: &Shown, children: &[Child]) -> Result<Vec<u8>, AllocError>
    ensures { IfOk result (λ text. text.items ≡ show_spelling shown.now children.now) }
{
    let mut out = Vec::new(alloc);
    out.extend_from_slice(b"{\"authority\":")?;
    push_quoted(alloc, &mut out, shown.authority.as_str())?;
    out.extend_from_slice(b",\"certified\":")?;
    push_resources(alloc, &mut out, &shown.certified)?;
    out.extend_from_slice(b",\"children\":[")?;
    push_children(alloc, &mut out, children)?;
    out.extend_from_slice(b"],\"parent\":")?;
    push_parent(alloc, &mut out, &shown.parent)?;
    out.extend_from_slice(b",\"reply\":\"show\",\"serial\":")?;
    push_number(&mut out, shown.serial)?;
    out.extend_from_slice(b",\"stage\":")?;
    out.extend_from_slice(stage_word(shown.stage))?;
    out.extend_from_slice(b"}")?;
    Ok(out)
}

fn push_children(alloc: Global, out: &mut Vec<u8>, children: &[Child]) -> Result<(), AllocError>
    ensures { OnOk result (out.new.items ≡ out.old.items ++ commas (map child_line children.now)) }
{
    let mut between: &[u8] = b"";
    for child in children {
        out.extend_from_slice(between)?;
        push_child(alloc, out, child)?;
        between = b",";
    }
    Ok(())
}

fn push_child(alloc: Global, out: &mut Vec<u8>, child: &Child) -> Result<(), AllocError>
    ensures { OnOk result (out.new.items ≡ out.old.items ++ child_line child.now) }
{
    out.extend_from_slice(b"{\"name\":")?;
    push_quoted(alloc, out, child.name.as_str())?;
    out.extend_from_slice(b",\"resources\":")?;
    push_resources(alloc, out, &child.grant)?;
    out.extend_from_slice(b",\"suspended\":")?;
    push_flag(out, child.suspended)?;
    out.extend_from_slice(b"}")
}

fn push_parent(alloc: Global, out: &mut Vec<u8>, parent: &Option<Name>) -> Result<(), AllocError>
    ensures { OnOk result (out.new.items ≡ out.old.items ++ parent_text parent.now) }
{
    match parent {
        Some(name) => push_quoted(alloc, out, name.as_str()),
        None => out.extend_from_slice(b"null"),
    }
}

fn stage_word(stage: StageWord) -> &'static [u8]
    ensures { result.now ≡ stage_text stage }
{
    match stage {
        StageWord::None => b"\"none\"",
        StageWord::Steady => b"\"steady\"",
        StageWord::Staged => b"\"staged\"",
        StageWord::Retiring => b"\"retiring\"",
    }
}

/// The text of an authority's origins, in their order. `serial` is that of the last edition, and 0
/// before the first one.
pub fn roas_text(
    alloc: Global,
    authority: &Name,
    lines: &[RoaLine],
    serial: u64,
) -> Result<Vec<u8>, AllocError>
    ensures { IfOk result (λ text. text.items ≡ roas_spelling authority.now lines.now serial) }
{
    let mut out = Vec::new(alloc);
    out.extend_from_slice(b"{\"authority\":")?;
    push_quoted(alloc, &mut out, authority.as_str())?;
    out.extend_from_slice(b",\"origins\":[")?;
    push_roa_lines(alloc, &mut out, lines)?;
    out.extend_from_slice(b"],\"reply\":\"roas list\",\"serial\":")?;
    push_number(&mut out, serial)?;
    out.extend_from_slice(b"}")?;
    Ok(out)
}

fn push_roa_lines(alloc: Global, out: &mut Vec<u8>, lines: &[RoaLine]) -> Result<(), AllocError>
    ensures { OnOk result (out.new.items ≡ out.old.items ++ commas (map roa_line lines.now)) }
{
    let mut between: &[u8] = b"";
    for line in lines {
        out.extend_from_slice(between)?;
        push_roa_line(alloc, out, line)?;
        between = b",";
    }
    Ok(())
}

fn push_roa_line(alloc: Global, out: &mut Vec<u8>, line: &RoaLine) -> Result<(), AllocError>
    ensures { OnOk result (out.new.items ≡ out.old.items ++ roa_line line.now) }
{
    out.extend_from_slice(b"{\"origin\":")?;
    push_origin(alloc, out, &line.origin)?;
    out.extend_from_slice(b",\"state\":")?;
    out.extend_from_slice(state_word(line.state))?;
    out.extend_from_slice(b"}")
}

fn state_word(state: RoaWord) -> &'static [u8]
    ensures { result.now ≡ state_text state }
{
    match state {
        RoaWord::Published => b"\"published\"",
        RoaWord::Held => b"\"held\"",
        RoaWord::Pending => b"\"pending\"",
    }
}

pub(crate) fn push_origin(
    alloc: Global,
    out: &mut Vec<u8>,
    origin: &Origin,
) -> Result<(), AllocError>
    ensures { OnOk result (out.new.items ≡ out.old.items ++ quoted (origin_text origin.now)) }
{
    let text = origin.text(alloc)?;
    push_quoted(alloc, out, &text)
}

#[tactic(auto, unfolding(crate::specs::Texts::resources_text))]
pub(crate) fn push_resources(
    alloc: Global,
    out: &mut Vec<u8>,
    held: &Resources,
) -> Result<(), AllocError>
    ensures { OnOk result (out.new.items ≡ out.old.items ++ resources_text held.now) }
{
    out.extend_from_slice(b"{\"asn\":")?;
    push_set(alloc, out, &held.asn)?;
    out.extend_from_slice(b",\"ipv4\":")?;
    push_set(alloc, out, &held.v4)?;
    out.extend_from_slice(b",\"ipv6\":")?;
    push_set(alloc, out, &held.v6)?;
    out.extend_from_slice(b"}")
}

fn push_set(alloc: Global, out: &mut Vec<u8>, set: &Ranges) -> Result<(), AllocError>
    ensures { OnOk result (out.new.items ≡ out.old.items ++ quoted (set_text set.now)) }
{
    let text = set.text(alloc)?;
    push_quoted(alloc, out, &text)
}

pub(crate) fn push_number(out: &mut Vec<u8>, n: u64) -> Result<(), AllocError>
    ensures { OnOk result (out.new.items ≡ out.old.items ++ decimal n) }
{
    let mut digits = itoa::Buffer::new();
    out.extend_from_slice(digits.format(n).as_bytes())
}

fn push_flag(out: &mut Vec<u8>, is: bool) -> Result<(), AllocError>
    ensures { OnOk result (out.new.items ≡ out.old.items ++ flag_text is) }
{
    if is {
        out.extend_from_slice(b"true")
    } else {
        out.extend_from_slice(b"false")
    }
}

// A text in quotes, escaped.
pub(crate) fn push_quoted(alloc: Global, out: &mut Vec<u8>, text: &str) -> Result<(), AllocError>
    ensures { OnOk result (out.new.items ≡ out.old.items ++ quoted text.now) }
{
    let quoted = quoted_bytes(alloc, text)?;
    out.extend_from_slice(&quoted)
}

fn quoted_bytes(alloc: Global, text: &str) -> Result<Vec<u8>, AllocError>
    ensures { IfOk result (λ bytes. bytes.items ≡ quoted text.now) }
{
    let mut writer = Writer::new(Vec::new(alloc));
    writer.string(text)?;
    Ok(writer.into_inner())
}
