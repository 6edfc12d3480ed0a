//! The commands of an authority.

ghost use Rattle.std.specs.Prelude.{◌≡◌, IfOk};
ghost use Rattle.names.specs.Name.{IsName};
ghost use Rattle.authority_book.specs.inner.Limits.{AddsName};

use crate::origin_lists::OriginList;
use names::Name;
use res_sets::Resources;
use std::alloc::{AllocError, Global};

/// A command to an authority.
#[derive(Drop)]
pub enum Command {
    /// Lists a new authority. The anchor alone does it.
    Add {
        name: Name,
        signer: u32,
    },
    /// Deletes the authority for good.
    Delete,
    /// Names the authority's parent.
    AddParent {
        parent: Name,
    },
    /// Takes a child in, with what it is granted.
    AddChild {
        child: Name,
        grant: Resources,
    },
    /// Grants a child something else.
    UpdateChild {
        child: Name,
        grant: Resources,
    },
    /// Lets a child go.
    RemoveChild {
        child: Name,
    },
    /// Holds a child's grant back.
    SuspendChild {
        child: Name,
    },
    /// Grants it again.
    UnsuspendChild {
        child: Name,
    },
    /// Removes route origins from the configuration, and then adds others.
    UpdateRoas {
        added: OriginList,
        removed: OriginList,
    },
    /// Begins a rollover of the authority's key (RFC 6489 section 2). The trust anchor's isn't rolled.
    InitRoll,
    /// Has the new key take the place of the current one, once its staging period is over.
    ActivateRoll,
}

impl Command {
    /// The same command once more.
    pub fn copy(&self, alloc: Global) -> Result<Command, AllocError>
        ensures { IfOk result (λ copy. copy ≡ self.now) }
    {
        Ok(match self {
            Command::Add { name, signer } => Command::Add {
                name: *name,
                signer: *signer,
            },
            Command::Delete => Command::Delete,
            Command::AddParent { parent } => Command::AddParent { parent: *parent },
            Command::AddChild { child, grant } => Command::AddChild {
                child: *child,
                grant: grant.copy(alloc)?,
            },
            Command::UpdateChild { child, grant } => Command::UpdateChild {
                child: *child,
                grant: grant.copy(alloc)?,
            },
            Command::RemoveChild { child } => Command::RemoveChild { child: *child },
            Command::SuspendChild { child } => Command::SuspendChild { child: *child },
            Command::UnsuspendChild { child } => Command::UnsuspendChild { child: *child },
            Command::UpdateRoas { added, removed } => Command::UpdateRoas {
                added: added.copy(alloc)?,
                removed: removed.copy(alloc)?,
            },
            Command::InitRoll => Command::InitRoll,
            Command::ActivateRoll => Command::ActivateRoll,
        })
    }
}

// What the type says: a name is one.
fn is_name(name: &Name)
    ensures { IsName name.now }
{
    let _bytes = name.as_bytes();
}

/// What the type says: a name that the command adds is one.
pub fn adds_name(command: &Command)
    ensures { AddsName command.now }
{
    match command {
        Command::Add { name, .. } => is_name(name),
        _ => {}
    }
}
