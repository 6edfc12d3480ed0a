//! What stands after an edition, with what is kept to go on.

ghost use Rattle.std.specs.Prelude.{◌≡◌, IfOk};
ghost use Rattle.entitle.specs.Certified.{settings_of};
ghost use Rattle.editions.specs.PublishedState.{value_of, published_of, IsConsistentState, IsFirst, IsFirstCut, AreFirstConfigs};

use authority_book::{Config, MOST_AUTHORITIES};
use entitle::{Owed, Tree, certified, owed};
use items::Items;
use key_roll::{Issued, KeyRow};
use pub_set::ObjectSet;
use std::alloc::{AllocError, Global};
use std::marker::Model;

/// How many desks there are.
pub const DESKS: u32 = MOST_AUTHORITIES as u32;

/// The parts of a `PublishedState`.
#[derive(Drop)]
pub struct StateParts {
    /// The serial of the edition, and 0 where there was none. The serial of the edition, and 0
    /// before the first one.
    pub serial: u64,
    /// Its moment, in seconds since 1970.
    pub moment: u64,
    /// How many commands of each desk it takes in.
    pub cut: Items<u64>,
    /// The live keys.
    pub rows: Items<KeyRow>,
    /// The table of what stands, by rising URI.
    pub issued: Issued,
    pub set: ObjectSet,
    /// The configuration of each desk at the cut.
    pub configs: Items<Config>,
    /// What these are certified for.
    pub tree: Tree,
    /// The origins that are owed at the cut.
    pub owed: Items<Owed>,
}

/// What an edition is known by once it is published. Its serial counts editions from 1.
#[derive(Clone, Copy, Debug, PartialEq, Eq)]
pub struct PublishedNumbers {
    pub serial: u64,
    /// In seconds since 1970.
    pub moment: u64,
    /// How many objects stand.
    pub objects: u64,
    /// How many origins are owed.
    pub origins: u64,
}

/// What stands after an edition, with what is kept to go on.
#[derive(Drop)]
pub struct PublishedState {
    parts: StateParts,
}

impl Model for PublishedState {
    ghost use Rattle.editions.specs.PublishedState.{PublishedStateValue, value_of, IsConsistentState};

    ghost Value = { PublishedStateValue };

    ghost view = { λ published_state. value_of published_state.parts };

    ghost invariant = { λ published_state. IsConsistentState (value_of published_state.parts) };
}

impl PublishedState {
    /// The published state of these parts.
    pub fn new(parts: StateParts) -> PublishedState
        requires { IsConsistentState (value_of parts) }
        ensures { result ≡ value_of parts }
    {
        PublishedState { parts }
    }

    /// The published state before the first edition.
    pub fn first(alloc: Global) -> Result<PublishedState, AllocError>
        ensures { IfOk result IsFirst }
    {
        let configs = first_configs(alloc)?;
        let tree = certified(alloc, &configs)?;
        let owed = owed(alloc, &configs, &tree)?;
        Ok(PublishedState::new(StateParts {
            serial: 0,
            moment: 0,
            cut: Items::new(first_cut(alloc)?),
            rows: Items::new(Vec::new(alloc)),
            issued: Issued {
                rows: Items::new(Vec::new(alloc)),
            },
            set: ObjectSet::new(alloc),
            configs: Items::new(configs),
            tree,
            owed: Items::new(owed),
        }))
    }

    /// Its parts.
    pub fn parts(&self) -> &StateParts
        ensures parts { value_of result.now ≡ self.now }
        ensures kept { IsConsistentState self.now }
    {
        &self.parts
    }

    /// Its parts, given back.
    pub fn into_parts(self) -> StateParts
        ensures parts { value_of result ≡ self }
        ensures kept { IsConsistentState self }
    {
        self.parts
    }

    /// What its edition is known by.
    pub fn published(&self) -> PublishedNumbers
        ensures { result ≡ published_of self.now }
    {
        PublishedNumbers {
            serial: self.parts.serial,
            moment: self.parts.moment,
            objects: self.parts.set.len() as u64,
            origins: self.parts.owed.len() as u64,
        }
    }
}

// The configuration of each desk before its first command.
fn first_configs(alloc: Global) -> Result<Vec<Config>, AllocError>
    ensures { IfOk result (λ configs. AreFirstConfigs (settings_of configs.items)) }
{
    let mut configs = Vec::with_capacity(alloc, DESKS as usize)?;
    for desk in 0..DESKS {
        configs.push(Config::new(alloc, desk)?)?;
    }
    Ok(configs)
}

// No command of any desk.
fn first_cut(alloc: Global) -> Result<Vec<u64>, AllocError>
    ensures { IfOk result (λ cut. IsFirstCut cut.items) }
{
    let mut cut = Vec::with_capacity(alloc, DESKS as usize)?;
    for _ in 0..DESKS {
        cut.push(0)?;
    }
    Ok(cut)
}
