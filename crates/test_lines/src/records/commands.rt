//! Commands as texts.

use anyhow::Result;
use authority_book::{Command, OriginList};
use res_sets::Resources;
use std::alloc::Global;

/// The command's kind and its fields, with `;` between them.
pub fn text_of(alloc: Global, command: &Command) -> Result<String> {
    let mut text = String::new(alloc);
    match command {
        Command::Add { name, signer } => write!(text, "Add;{};{signer}", name.as_str())?,
        Command::Delete => text.push_str("Delete")?,
        Command::AddParent { parent } => write!(text, "AddParent;{}", parent.as_str())?,
        Command::AddChild { child, grant } => {
            write!(text, "AddChild;{}", child.as_str())?;
            push_grant(alloc, &mut text, grant)?;
        }
        Command::UpdateChild { child, grant } => {
            write!(text, "UpdateChild;{}", child.as_str())?;
            push_grant(alloc, &mut text, grant)?;
        }
        Command::RemoveChild { child } => write!(text, "RemoveChild;{}", child.as_str())?,
        Command::SuspendChild { child } => write!(text, "SuspendChild;{}", child.as_str())?,
        Command::UnsuspendChild { child } => write!(text, "UnsuspendChild;{}", child.as_str())?,
        Command::UpdateRoas { added, removed } => {
            text.push_str("UpdateRoas")?;
            push_origins(alloc, &mut text, added)?;
            push_origins(alloc, &mut text, removed)?;
        }
        Command::InitRoll => text.push_str("InitRoll")?,
        Command::ActivateRoll => text.push_str("ActivateRoll")?,
    }
    Ok(text)
}

// The three sets, each behind a `;`.
fn push_grant(alloc: Global, text: &mut String, grant: &Resources) -> Result<()> {
    for set in [&grant.asn, &grant.v4, &grant.v6] {
        write!(text, ";{}", set.text(alloc)?)?;
    }
    Ok(())
}

// The origins behind a `;`, each with a `,` behind it.
fn push_origins(alloc: Global, text: &mut String, list: &OriginList) -> Result<()> {
    text.push_str(";")?;
    for origin in list.as_slice() {
        write!(text, "{},", origin.text(alloc)?)?;
    }
    Ok(())
}
