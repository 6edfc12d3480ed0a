//! Commands as texts.

use anyhow::Result;
use authority_book::{Command, OriginList};
use names::Name;
use res_sets::Resources;
use std::alloc::Global;

/// What the command does, behind the authority's name.
pub fn push_command(alloc: Global, text: &mut String, command: &Command) -> Result<()> {
    match command {
        Command::Add { name, signer } => write!(text, " adds {} {signer}", name.as_str())?,
        Command::Delete => text.push_str(" deletes itself")?,
        Command::AddParent { parent } => write!(text, " takes parent {}", parent.as_str())?,
        Command::AddChild { child, grant } => push_grant(alloc, text, "takes", child, grant)?,
        Command::UpdateChild { child, grant } => push_grant(alloc, text, "updates", child, grant)?,
        Command::RemoveChild { child } => write!(text, " removes {}", child.as_str())?,
        Command::SuspendChild { child } => write!(text, " suspends {}", child.as_str())?,
        Command::UnsuspendChild { child } => write!(text, " unsuspends {}", child.as_str())?,
        Command::UpdateRoas { added, removed } => {
            push_origins(alloc, text, " +", added)?;
            push_origins(alloc, text, " -", removed)?;
        }
        Command::InitRoll => text.push_str(" begins a rollover")?,
        Command::ActivateRoll => text.push_str(" activates a rollover")?,
    }
    Ok(())
}

fn push_grant(
    alloc: Global,
    text: &mut String,
    verb: &str,
    child: &Name,
    grant: &Resources,
) -> Result<()> {
    write!(text, " {verb} {}", child.as_str())?;
    for set in [&grant.asn, &grant.v4, &grant.v6] {
        write!(text, " [{}]", set.text(alloc)?)?;
    }
    Ok(())
}

// The origins with a sign before each.
fn push_origins(alloc: Global, text: &mut String, sign: &str, origins: &OriginList) -> Result<()> {
    for origin in origins.as_slice() {
        text.push_str(sign)?;
        text.push_str(&origin.text(alloc)?)?;
    }
    Ok(())
}
