//! Why a run ended otherwise than well.

ghost use Rattle.std.specs.Prelude.{◌≡◌, IfOk, string_bytes};
ghost use Rattle.std.specs.Prelude.{◌++◌, codes};
ghost use Rattle.krill_top.specs.Statuses.{opening_spelling, refused_spelling, mismatch_spelling, fault_spelling, fault_status};

use key_ids::{KeyId, SiteFault};
use rp_rules::Rule;
use std::alloc::{AllocError, Global};

/// Why opening was refused, before anything was read. `needed`, `found`, `cut` and `held` are counts.
/// Disks are numbered from 0: those of the desks, and behind them 64, the press's.
#[derive(Debug, Drop)]
pub enum OpenFault {
    /// Another number of things was handed in than is needed. `what` is 0 for the desks' disks, 1 for
    /// signers and 2 for sessions.
    WrongCount {
        what: u32,
        needed: u64,
        found: u64,
    },
    /// The journal on the disk of that number is damaged, at an offset in bytes.
    Damaged {
        device: u32,
        at: u64,
    },
    /// A record on the disk of that number, counted from 0, is no command that was accepted, or none of
    /// a press.
    BadRecord {
        device: u32,
        at: u64,
    },
    /// The store is one of another base: that of rsync where these differ, else that of RRDP.
    SiteDiffers {
        kept: String,
        given: String,
    },
    /// The last edition takes in more commands of the desk than it has.
    CutPast {
        desk: u32,
        cut: u64,
        held: u64,
    },
    /// The first object of the last set that the walk of a relying party refuses, and the rule that it
    /// breaks.
    Refused {
        uri: String,
        rule: Rule,
    },
    /// The least URI of the last set that the walk doesn't visit.
    Unreached {
        uri: String,
    },
    /// The ROA at that URI is owed and not yielded, or yielded and not owed.
    OriginsDiffer {
        uri: String,
    },
    /// A field of a key's row isn't what the key's publication point has. The fields are the number (0),
    /// thisUpdate (1), the next serial and the greatest under the key (2), and the first serials of
    /// revoked certificates that differ (3).
    RowMismatch {
        key: KeyId,
        field: u32,
        kept: u64,
        found: u64,
    },
    /// The disk of that number failed.
    DiskFault {
        device: u32,
    },
    /// The signer of that number failed.
    SignerFault {
        signer: u32,
    },
    /// The last edition couldn't be exported.
    OutletFault,
    /// Out of memory.
    Memory,
}

/// Why a run ended with another status than 0.
#[derive(Debug, Drop)]
pub enum RunFault {
    /// The words name no command, or options that it hasn't.
    Words,
    /// An option's value is no base of a repository.
    Base { fault: SiteFault },
    /// Opening was refused for another cause than a device or memory.
    Refused { fault: OpenFault },
    /// A workload was asked for, and the desk of that number, the first such one, holds so many commands.
    NotEmpty { desk: u32, held: u64 },
    /// A device failed at opening, or a source or a sink, or the last edition couldn't be exported.
    Device,
    /// A session took so many bytes, as many as it may.
    Spent { bytes: u64 },
    /// Out of memory.
    Memory,
}

impl RunFault {
    /// The status of the program that ends so.
    pub fn status(&self) -> u8
        ensures { result ≡ fault_status self.now }
    {
        match self {
            RunFault::Words | RunFault::Base { .. } => 2,
            RunFault::Refused { .. } | RunFault::NotEmpty { .. } => 3,
            RunFault::Device => 4,
            RunFault::Spent { .. } => 5,
            RunFault::Memory => 6,
        }
    }
}

const USAGE: &str = "usage: krillc run|audit|workload --number N [--rsync URI] [--rrdp URI]";

/// The line that tells the user of the fault, without the program's name and the line feed.
pub fn fault_text(alloc: Global, fault: &RunFault) -> Result<String, AllocError>
    ensures { IfOk result (λ text. string_bytes text ≡ fault_spelling fault.now) }
{
    match fault {
        RunFault::Words | RunFault::Base { .. } => String::from_str(alloc, USAGE),
        RunFault::Refused { fault } => refusal_text(alloc, fault),
        RunFault::NotEmpty { desk, held } => {
            format!(in alloc; "opening refused: NotEmpty desk {desk} held {held}")
        }
        RunFault::Device => String::from_str(alloc, "device failed"),
        RunFault::Spent { .. } => String::from_str(alloc, "budget spent"),
        RunFault::Memory => String::from_str(alloc, "out of memory"),
    }
}

fn refusal_text(alloc: Global, fault: &OpenFault) -> Result<String, AllocError>
    ensures { IfOk result (λ text. string_bytes text ≡ codes "opening refused: " ++ opening_spelling fault.now) }
{
    let told = opening_text(alloc, fault)?;
    format!(in alloc; "opening refused: {told}")
}

// The fault's name, and its fields by their names.
fn opening_text(alloc: Global, fault: &OpenFault) -> Result<String, AllocError>
    ensures { IfOk result (λ text. string_bytes text ≡ opening_spelling fault.now) }
{
    match fault {
        OpenFault::WrongCount {
            what,
            needed,
            found,
        } => format!(in alloc; "WrongCount what {what} needed {needed} found {found}"),
        OpenFault::Damaged { device, at } => format!(in alloc; "Damaged device {device} at {at}"),
        OpenFault::BadRecord { device, at } => {
            format!(in alloc; "BadRecord device {device} at {at}")
        }
        OpenFault::SiteDiffers { kept, given } => {
            format!(in alloc; "SiteDiffers kept {kept} given {given}")
        }
        OpenFault::CutPast { desk, cut, held } => {
            format!(in alloc; "CutPast desk {desk} cut {cut} held {held}")
        }
        OpenFault::Refused { uri, rule } => refused_text(alloc, uri.as_str(), *rule),
        OpenFault::Unreached { uri } => format!(in alloc; "Unreached uri {uri}"),
        OpenFault::OriginsDiffer { uri } => format!(in alloc; "OriginsDiffer uri {uri}"),
        OpenFault::RowMismatch {
            key,
            field,
            kept,
            found,
        } => mismatch_text(alloc, key, *field, *kept, *found),
        OpenFault::DiskFault { device } => format!(in alloc; "DiskFault device {device}"),
        OpenFault::SignerFault { signer } => format!(in alloc; "SignerFault signer {signer}"),
        OpenFault::OutletFault => String::from_str(alloc, "OutletFault"),
        OpenFault::Memory => String::from_str(alloc, "Memory"),
    }
}

fn refused_text(alloc: Global, uri: &str, rule: Rule) -> Result<String, AllocError>
    ensures { IfOk result (λ text. string_bytes text ≡ refused_spelling uri.now rule) }
{
    let rule = rule.name();
    format!(in alloc; "Refused uri {uri} rule {rule}")
}

fn mismatch_text(
    alloc: Global,
    key: &KeyId,
    field: u32,
    kept: u64,
    found: u64,
) -> Result<String, AllocError>
    ensures { IfOk result (λ text. string_bytes text ≡ mismatch_spelling key.now field kept found) }
{
    let key = hex::encode(alloc, key.bytes)?;
    format!(in alloc; "RowMismatch key {key} field {field} kept {kept} found {found}")
}
