//! The commands of a workload.

ghost use Rattle.std.specs.Prelude.{◌≡◌, ◌≤◌, ◌<◌, ◌^◌, IfOk, string_bytes};
ghost use Rattle.krill_top.specs.Generated as spec;
ghost use Rattle.krill_top.specs.Generated.{name_of, first_address, IsGrant, IsOriginOf, AreOriginsOf, IsCommandOf};

use authority_book::{Command, OriginList};
use names::{ANCHOR, Name};
use origins::{Origin, Prefix};
use res_sets::{Family, PushFault, Range, Ranges, Resources};
use std::alloc::{AllocError, Global};

/// How many origins each authority has.
const ORIGINS: u8 = 64;

/// The address 10.0.0.0, and the last ones of 10.0.0.0/8 and 10.0.0.0/15.
const FIRST_ADDRESS: u128 = 167_772_160;

const LAST_OF_8: u128 = 184_549_375;

const LAST_OF_15: u128 = 167_903_231;

/// The AS number below those of the authorities.
const AS_BASE: u32 = 64_496;

/// A command that a workload wants given. Its authorities are numbered from 1.
#[derive(Clone, Copy, Debug)]
pub enum Wanted {
    /// The authority is added.
    Add { authority: u8 },
    /// Its parent takes it in.
    AddChild { authority: u8 },
    /// It names its parent.
    AddParent { authority: u8 },
    /// It gets its origins.
    AddOrigins { authority: u8 },
    /// The first authority is granted less.
    Shrink,
}

/// A command, and the name of the authority to which it goes.
#[derive(Drop)]
pub(crate) struct Directed {
    pub(crate) name: Name,
    pub(crate) command: Command,
}

impl Wanted {
    /// The command that is wanted.
    pub(crate) fn command(self, alloc: Global) -> Result<Directed, AllocError>
        ensures { IfOk result (λ directed. IsCommandOf self directed.name directed.command) }
    {
        match self {
            Wanted::Add { authority } => add(alloc, authority),
            Wanted::AddChild { authority } => add_child(alloc, authority),
            Wanted::AddParent { authority } => add_parent(alloc, authority),
            Wanted::AddOrigins { authority } => add_origins(alloc, authority),
            Wanted::Shrink => shrink(alloc),
        }
    }
}

/// The commands of so many authorities that come before the first publication.
pub(crate) fn generated(alloc: Global, authorities: u8) -> Result<Vec<Wanted>, AllocError>
    ensures { IfOk result (λ all. all.items ≡ spec.generated authorities) }
{
    let mut all = Vec::new(alloc);
    for before in 0..authorities {
        let authority = before + 1;
        all.push(Wanted::Add { authority })?;
        all.push(Wanted::AddChild { authority })?;
        all.push(Wanted::AddParent { authority })?;
        all.push(Wanted::AddOrigins { authority })?;
    }
    Ok(all)
}

fn add(alloc: Global, authority: u8) -> Result<Directed, AllocError>
    ensures { IfOk result (λ directed. IsCommandOf (Wanted.Add authority) directed.name directed.command) }
{
    Ok(Directed {
        name: name_of(alloc, 0)?,
        command: Command::Add {
            name: name_of(alloc, authority)?,
            signer: 0,
        },
    })
}

fn add_child(alloc: Global, authority: u8) -> Result<Directed, AllocError>
    ensures { IfOk result (λ directed. IsCommandOf (Wanted.AddChild authority) directed.name directed.command) }
{
    Ok(Directed {
        name: name_of(alloc, authority / 2)?,
        command: Command::AddChild {
            child: name_of(alloc, authority)?,
            grant: granted(alloc, LAST_OF_8)?,
        },
    })
}

fn add_parent(alloc: Global, authority: u8) -> Result<Directed, AllocError>
    ensures { IfOk result (λ directed. IsCommandOf (Wanted.AddParent authority) directed.name directed.command) }
{
    Ok(Directed {
        name: name_of(alloc, authority)?,
        command: Command::AddParent {
            parent: name_of(alloc, authority / 2)?,
        },
    })
}

fn add_origins(alloc: Global, authority: u8) -> Result<Directed, AllocError>
    ensures { IfOk result (λ directed. IsCommandOf (Wanted.AddOrigins authority) directed.name directed.command) }
{
    Ok(Directed {
        name: name_of(alloc, authority)?,
        command: Command::UpdateRoas {
            added: origins_of(alloc, authority)?,
            removed: OriginList::new(alloc, Vec::new(alloc))?,
        },
    })
}

fn shrink(alloc: Global) -> Result<Directed, AllocError>
    ensures { IfOk result (λ directed. IsCommandOf Wanted.Shrink directed.name directed.command) }
{
    Ok(Directed {
        name: name_of(alloc, 0)?,
        command: Command::UpdateChild {
            child: name_of(alloc, 1)?,
            grant: granted(alloc, LAST_OF_15)?,
        },
    })
}

// The name of the authority of that number, or of the trust anchor, which is number 0.
fn name_of(alloc: Global, number: u8) -> Result<Name, AllocError>
    ensures { IfOk result (λ name. name ≡ name_of number) }
{
    let text = name_text(alloc, number)?;
    match Name::read(text.as_str()) {
        Some(name) => Ok(name),
        None => unreachable!(),
    }
}

fn name_text(alloc: Global, number: u8) -> Result<String, AllocError>
    ensures { IfOk result (λ text. string_bytes text ≡ name_of number) }
{
    if number == 0 {
        String::from_str(alloc, ANCHOR)
    } else {
        format!(in alloc; "c{number}")
    }
}

// The addresses from 10.0.0.0 to the last one.
fn granted(alloc: Global, last: u128) -> Result<Resources, AllocError>
    requires behind { first_address ≤ last }
    requires within { last < 2 ^ 32 }
    ensures { IfOk result (IsGrant last) }
{
    let mut v4 = Ranges::empty(alloc, Family::V4);
    let range = Range {
        first: FIRST_ADDRESS,
        last,
    };
    match v4.push(range) {
        Ok(()) => Ok(Resources {
            asn: Ranges::empty(alloc, Family::Asn),
            v4,
            v6: Ranges::empty(alloc, Family::V6),
        }),
        Err(PushFault::Memory) => Err(AllocError),
        Err(PushFault::NotBehind) => unreachable!(),
    }
}

fn origins_of(alloc: Global, authority: u8) -> Result<OriginList, AllocError>
    ensures { IfOk result (AreOriginsOf authority) }
{
    let mut origins = Vec::new(alloc);
    for place in 0..ORIGINS {
        origins.push(origin_of(authority, place))?;
    }
    OriginList::new(alloc, origins)
}

fn origin_of(authority: u8, place: u8) -> Origin
    ensures { IsOriginOf authority place result }
{
    let address = FIRST_ADDRESS + u128::from(authority) * 65_536 + u128::from(place) * 256;
    let Some(prefix) = Prefix::new(false, address, 24) else {
        unreachable!()
    };
    match Origin::new(prefix, 24, AS_BASE + u32::from(authority)) {
        Some(origin) => origin,
        None => unreachable!(),
    }
}
