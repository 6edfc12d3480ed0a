//! The configuration of an authority.

ghost use Rattle.std.specs.Prelude.{◌≡◌, ◌≤◌, ◌<◌, ◌^◌, ◌-◌, ◌+◌, ◌++◌, ◌∷◌, [], ℕ, List, Option, length, All, IfOk, OnOk, OnErr, IsOk, option_map};
ghost use Rattle.std.specs.Vec.{vec_capacity, vec_len};
ghost use Rattle.authority_book.specs.Origins.{is_there, IsAscending};
ghost use Rattle.authority_book.specs.Listed.{place_of, child_of};
ghost use Rattle.authority_book.specs.inner.Limits.{AreKept, AddsName};
ghost use Rattle.names.specs.Name.{IsName};
ghost use Rattle.authority_book.specs.Settings.{ConfigValue, Covers, plus};
ghost use Rattle.authority_book.specs.Fold.{rolled};

use crate::children::{copy_children, push_child, remove_child, set_grant, set_suspended};
use crate::commands::{Command, adds_name};
use crate::rows::{Child, NameRow};
use crate::sorted_origins::SortedOrigins;
use names::{ANCHOR, Name};
use origins::Origin;
use std::alloc::{AllocError, Global};
use std::marker::Model;

/// What the accepted commands of an authority come to. It starts empty, and `apply` changes it.
#[derive(Drop)]
pub struct Config {
    desk: u32,
    names: Vec<NameRow>,
    deleted: bool,
    parent: Option<Name>,
    children: Vec<Child>,
    origins: SortedOrigins,
    inits: u32,
    activates: u32,
    count: u64,
}

impl Model for Config {
    ghost Value = { ConfigValue };

    ghost view = { λ config. record {
      settings = record {
        desk = config.desk;
        names = config.names.items;
        deleted = config.deleted;
        parent = config.parent;
        children = config.children.items;
        origins = config.origins.items;
        inits = config.inits;
        activates = config.activates;
        count = config.count;
      };
      room = record {
        names = vec_capacity config.names - vec_len config.names;
        children = vec_capacity config.children - vec_len config.children;
        origins = config.origins.room;
      };
    } };

    ghost invariant = { λ config. AreKept config.names.items config.children.items config.origins.items };
}

impl Config {
    ghost use Rattle.authority_book.specs.declared.commands.Command.{Command};
    ghost use Rattle.authority_book.specs.Verdict.{IsAccepted, most_authorities, most_children, most_origins};
    ghost use Rattle.authority_book.specs.Fold.{empty_settings, after, fold_of, needs, Taken};

    /// The configuration of a desk before its first command. Desks are numbered from 0, which is
    /// the trust anchor's.
    pub fn new(alloc: Global, desk: u32) -> Result<Config, AllocError>
        ensures { IfOk result (λ config. config.settings ≡ empty_settings desk) }
    {
        let mut names = Vec::new(alloc);
        if desk == 0 {
            names.push(NameRow {
                name: Name::read(ANCHOR).unwrap(),
                signer: 0,
            })?;
        }
        Ok(Config {
            desk,
            names,
            deleted: false,
            parent: None,
            children: Vec::new(alloc),
            origins: SortedOrigins::new(alloc),
            inits: 0,
            activates: 0,
            count: 0,
        })
    }

    /// The authority's desk. The trust anchor has desk 0.
    pub fn desk(&self) -> u32
        ensures { result ≡ self.now.settings.desk }
    {
        self.desk
    }

    /// The names of the tree, each at the place of its desk. The anchor alone has them.
    pub fn names(&self) -> &[NameRow]
        ensures names { result.now ≡ self.now.settings.names }
        ensures limit { length result.now ≤ most_authorities }
        ensures plain { All (λ row. IsName row.name) result.now }
    {
        self.names.as_slice()
    }

    /// The place of the name among the names of the tree. An index from 0, which is the number of
    /// its desk.
    pub fn place_of(&self, name: &Name) -> Option<usize>
        ensures { result ≡ place_of self.now.settings.names name.now }
    {
        self.names
            .iter()
            .position(|row| row.name.as_bytes() == name.as_bytes())
    }

    /// Whether the authority is deleted.
    pub fn is_deleted(&self) -> bool
        ensures { result ≡ self.now.settings.deleted }
    {
        self.deleted
    }

    /// The authority's parent.
    pub fn parent(&self) -> Option<Name>
        ensures { result ≡ self.now.settings.parent }
    {
        self.parent
    }

    /// The children in the order in which they came.
    pub fn children(&self) -> &[Child]
        ensures children { result.now ≡ self.now.settings.children }
        ensures limit { length result.now ≤ most_children }
    {
        self.children.as_slice()
    }

    /// The child of that name.
    pub fn child(&self, name: &Name) -> Option<&Child>
        ensures { option_map (λ child. child.now) result ≡ child_of self.now.settings.children name.now }
    {
        self.children
            .iter()
            .find(|child| child.name.as_bytes() == name.as_bytes())
    }

    /// The configured origins in ascending order.
    pub fn origins(&self) -> &[Origin]
        ensures origins { result.now ≡ self.now.settings.origins }
        ensures ascending { IsAscending result.now }
        ensures limit { length result.now ≤ most_origins }
    {
        self.origins.as_slice()
    }

    /// Whether the origin is configured, found in logarithmic time.
    pub fn contains(&self, origin: &Origin) -> bool
        ensures { result ≡ is_there self.now.settings.origins origin.now }
    {
        self.origins().binary_search(origin).is_ok()
    }

    /// How often a key rollover was begun. It stands still at 2^32 - 1.
    pub fn inits(&self) -> u32
        ensures { result ≡ self.now.settings.inits }
    {
        self.inits
    }

    /// How often a key rollover was activated. It stands still at 2^32 - 1.
    pub fn activates(&self) -> u32
        ensures { result ≡ self.now.settings.activates }
    {
        self.activates
    }

    /// How many commands were accepted. It stands still at 2^64 - 1.
    pub fn count(&self) -> u64
        ensures { result ≡ self.now.settings.count }
    {
        self.count
    }

    /// The same configuration once more.
    pub fn copy(&self, alloc: Global) -> Result<Config, AllocError>
        ensures { IfOk result (λ copy. copy.settings ≡ self.now.settings) }
    {
        Ok(Config {
            desk: self.desk,
            names: self.names.as_slice().to_vec(alloc)?,
            deleted: self.deleted,
            parent: self.parent,
            children: copy_children(alloc, self.children.as_slice())?,
            origins: self.origins.copy(alloc)?,
            inits: self.inits,
            activates: self.activates,
            count: self.count,
        })
    }

    /// Takes the memory that `apply` needs for the command.
    pub fn reserve(&mut self, _alloc: Global, command: &Command) -> Result<(), AllocError>
        ensures settings { self.new.settings ≡ self.old.settings }
        ensures room { OnOk result (Covers self.new.room (needs command.now)) }
        ensures err { OnErr result (self.new.room ≡ self.old.room) }
        ensures enough { Covers self.old.room (needs command.now) → IsOk result }
        ensures never_less { Covers self.new.room self.old.room }
    {
        match command {
            Command::Add { .. } => self.names.reserve(1),
            Command::AddChild { .. } => self.children.reserve(1),
            Command::UpdateRoas { added, .. } => self.origins.reserve(added.len()),
            _ => Ok(()),
        }
    }

    /// Applies an accepted command for which `reserve` made room.
    pub fn apply(&mut self, command: Command)
        requires accepted { IsAccepted self.old.settings command }
        requires reserved { Covers self.old.room (needs command) }
        ensures settings { self.new.settings ≡ after self.old.settings command }

        // A command takes the room that it needs, and no more.
        ensures room { Covers (plus self.new.room (needs command)) self.old.room }

        // One command more of the same desk's fold.
        ensures fold { (desk : ℕ) (commands : List Command) → self.old.settings ≡ fold_of desk commands
            → self.new.settings ≡ fold_of desk (commands ++ command ∷ []) }
        ensures taken { (desk : ℕ) (commands : List Command) → self.old.settings ≡ fold_of desk commands
            → Taken desk commands → Taken desk (commands ++ command ∷ []) }
    {
        adds_name(&command);
        self.carry_out(command);
    }

    fn carry_out(&mut self, command: Command)
        requires named { AddsName command }
        requires accepted { IsAccepted self.old.settings command }
        requires reserved { Covers self.old.room (needs command) }
        ensures settings { self.new.settings ≡ after self.old.settings command }
        ensures room { Covers (plus self.new.room (needs command)) self.old.room }
    {
        match command {
            Command::Add { name, signer } => self.names.push(NameRow { name, signer }).unwrap(),
            Command::Delete => self.deleted = true,
            Command::AddParent { parent } => self.parent = Some(parent),
            Command::AddChild { child, grant } => push_child(&mut self.children, child, grant),
            Command::UpdateChild { child, grant } => set_grant(&mut self.children, &child, grant),
            Command::RemoveChild { child } => remove_child(&mut self.children, &child),
            Command::SuspendChild { child } => set_suspended(&mut self.children, &child, true),
            Command::UnsuspendChild { child } => set_suspended(&mut self.children, &child, false),
            Command::UpdateRoas { added, removed } => {
                self.origins.update(&added, &removed);
            }
            Command::InitRoll => count_rollover(&mut self.inits),
            Command::ActivateRoll => count_rollover(&mut self.activates),
        }
        self.count = self.count.saturating_add(1);
    }
}

// One rollover more, up to the last number of the type.
fn count_rollover(rollovers: &mut u32)
    ensures { rollovers.new ≡ rolled rollovers.old }
{
    *rollovers = rollovers.saturating_add(1);
}
